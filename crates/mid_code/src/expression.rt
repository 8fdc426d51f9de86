//! The code of expressions.

ghost use Rattle.std.specs.Prelude.{◌≡◌, ◌≤◌, ◌+◌, List, ◌∷◌, drop, length, map, IfOk, OnOk};
ghost use Rattle.awk_grammar.specs.Trees.{Apply, Call, NoTree, Then};
ghost use Rattle.awk_grammar.specs.View.{view as tree, views as trees, view_binary};
ghost use Rattle.awk_resolve.specs.ViewKinds.{view_name};
ghost use Rattle.sem_primitives.specs.declared.table.Primitive.TheVariants as row;
ghost use Rattle.sem_scripts.specs.Names.{Name};
ghost use Rattle.mid_program.specs.Mid as plain;
ghost use Rattle.mid_program.specs.Translation.{applied_code, argument_codes, code_of, codes_of, ere_code, ere_for, given_code, key_code, kept_code, one, truncated_code};
ghost use Rattle.mid_program.specs.ViewCode.{before, followed, view, views};
ghost use Rattle.mid_program.specs.declared.mid.Operation.{Operation};
ghost use Rattle.mid_code.specs.Keys.{each_code};
ghost use Rattle.mid_code.specs.ViewScope.{scope_of, texts_of};
ghost use Rattle.mid_code.specs.ViewTarget.{sub_or_gsub, view_kept};

use crate::build::{called, over, variable};
use crate::compound::{
    applied_to, apply_none, assign_place, field_separator, file_line_into, host_array, host_number,
    host_one, host_two, joined, kept_key, kept_number, kept_zero, key_of, line_into, missing,
    operand_of, part_of, passed, push_code, record_length, record_matches, split_into, step_place,
    step_place_after, string, substitute_place, substitute_record, truncated_quotient,
};
use crate::fallible::push_made;
use crate::operators::{combined, conditional, constant, prefixed};
use crate::peek::{bare_name, ere_in, is_ere, is_match, is_quotient};
use crate::scope::Scope;
use awk_grammar::{BinaryOp, Builtin, Expr, StepOp};
use awk_resolve::NameKind;
use mid_program::{Code, Operand};
use sem_primitives::{Listed, Primitive};
use std::alloc::AllocError;

/// The code of an expression.
#[cycle(expressions)]
#[tactic(auto, unfolding(mid_program::specs::Translation::code_of))]
pub(crate) fn code(scope: &Scope<'_>, e: &Expr) -> Result<Code, AllocError>
    ensures { IfOk result (λ code. view code ≡ code_of (texts_of scope.now) (scope_of scope.now)
        (tree e.now)) }
{
    let alloc = scope.alloc;
    match e {
        Expr::Number(text) => Ok(Code::Number(constant(text))),
        Expr::Str(quoted) => string(scope, quoted),
        Expr::Ere(token) => record_matches(scope, token),
        Expr::Length => record_length(alloc),
        Expr::Var(name) => variable(alloc, scope.variable(name)),
        Expr::Element(name, keys) => host_array(scope, Primitive::Elem, name, key(scope, keys)),
        Expr::Field(number) => host_of(scope, Primitive::Field, number),
        Expr::Group(inner) => code(scope, inner),
        Expr::Call(name, arguments) => call(scope, name, arguments),
        Expr::Apply(function, arguments) => apply(scope, *function, arguments),
        Expr::Unary(op, inner) => prefixed(alloc, *op, code(scope, inner)),
        Expr::PreStep(op, place) => step_place(scope, *op, place, kept(scope, place)),
        Expr::PostStep(op, place) => step_place_after(scope, *op, place, kept(scope, place)),
        Expr::Binary(op, left, right) => {
            combined(alloc, *op, code(scope, left), operand(scope, *op, right))
        }
        Expr::Assign(op, place, value) => {
            assign_place(scope, *op, place, kept(scope, place), code(scope, value))
        }
        Expr::In(key, name) => host_array(scope, Primitive::Has, name, code(scope, key)),
        Expr::InList(first, others, name) => {
            let others = codes(scope, others);
            let key = joined(alloc, code(scope, first), others);
            host_array(scope, Primitive::Has, name, key)
        }
        Expr::Conditional(test, yes, no) => conditional(
            alloc,
            code(scope, test),
            code(scope, yes),
            code(scope, no),
        ),
        Expr::Getline => Ok(Code::Ask),
        Expr::GetlineInto(place) => line_into(scope, place, kept(scope, place)),
        Expr::GetlineFrom(file) => host_number(alloc, Primitive::GetlineFile, code(scope, file)),
        Expr::GetlineIntoFrom(place, file) => {
            file_line_into(scope, place, kept(scope, place), code(scope, file))
        }
    }
}

/// What the host does with an expression's answer.
#[cycle(expressions)]
fn host_of(scope: &Scope<'_>, primitive: Primitive, e: &Expr) -> Result<Code, AllocError>
    ensures { IfOk result (λ code. view code ≡ plain.Do (Operation.Host primitive) (one (code_of
        (texts_of scope.now) (scope_of scope.now) (tree e.now)))) }
{
    host_one(scope.alloc, primitive, code(scope, e))
}

/// Adds the code of operands.
#[cycle(expressions)]
pub(crate) fn push_operands(
    scope: &Scope<'_>,
    es: &[Expr],
    codes: &mut Vec<Operand>,
) -> Result<(), AllocError>
    ensures { OnOk result (views codes.new.items ≡ followed (views codes.old.items) (codes_of
        (texts_of scope.now) (scope_of scope.now) (trees es.now))) }
{
    for e in es {
        push_code(codes, code(scope, e))?;
    }
    Ok(())
}

/// The code of each expression.
#[cycle(expressions)]
fn codes(scope: &Scope<'_>, es: &[Expr]) -> Result<Vec<Code>, AllocError>
    ensures { IfOk result (λ codes. map view codes.items ≡ each_code (texts_of scope.now) (scope_of
        scope.now) (trees es.now)) }
{
    let mut codes = Vec::new(scope.alloc);
    for e in es {
        push_made(&mut codes, code(scope, e))?;
    }
    Ok(codes)
}

/// The code of a key, by its subscripts.
#[cycle(expressions)]
pub(crate) fn key(scope: &Scope<'_>, subscripts: &[Expr]) -> Result<Code, AllocError>
    ensures { IfOk result (λ code. view code ≡ key_code (texts_of scope.now) (scope_of
        scope.now) (trees subscripts.now)) }
{
    key_of(scope.alloc, codes(scope, subscripts))
}

/// What is kept for a place.
#[cycle(expressions)]
#[tactic(auto, unfolding(mid_program::specs::Translation::kept_code))]
pub(crate) fn kept(scope: &Scope<'_>, place: &Expr) -> Result<Option<Box<Code>>, AllocError>
    ensures { IfOk result (λ kept. view_kept kept ≡ kept_code (texts_of scope.now) (scope_of
        scope.now) (tree place.now)) }
{
    match place {
        Expr::Var(_) => Ok(None),
        Expr::Element(_, subscripts) => kept_key(scope.alloc, key(scope, subscripts)),
        Expr::Field(number) => kept_number(scope.alloc, code(scope, number)),
        _ => kept_zero(scope.alloc),
    }
}

/// The code of an operator's right operand: an ERE token that is matched is its text.
#[cycle(expressions)]
fn operand(scope: &Scope<'_>, op: BinaryOp, e: &Expr) -> Result<Code, AllocError>
    ensures { IfOk result (λ code. view code ≡ ere_code (texts_of scope.now) (ere_for
        (view_binary op) (tree e.now)) (code_of (texts_of scope.now) (scope_of scope.now) (tree
        e.now))) }
{
    if is_match(op) {
        if let Some(text) = ere_in(e) {
            return Ok(Code::Text(scope.text_place(text)));
        }
    }
    code(scope, e)
}

/// The code of an argument for a parameter; a bare name may be an array's.
#[cycle(expressions)]
fn argument(scope: &Scope<'_>, parameter: &NameKind<'_>, e: &Expr) -> Result<Code, AllocError>
    ensures { IfOk result (λ code. view code ≡ given_code (texts_of scope.now) (scope_of scope.now)
        (view_name parameter.now) (tree e.now) (code_of (texts_of scope.now) (scope_of scope.now)
        (tree e.now))) }
{
    match bare_name(e) {
        Some(name) => passed(scope, parameter, name),
        None => code(scope, e),
    }
}

/// What is given for the parameter in a place.
#[cycle(expressions)]
fn given(
    scope: &Scope<'_>,
    parameter: &NameKind<'_>,
    es: &[Expr],
    place: usize,
) -> Result<Operand, AllocError>
    ensures { IfOk result (λ given. (ps : List Name) → before given (argument_codes (texts_of
        scope.now) (scope_of scope.now) ps (trees (drop (place + 1) es.now))) ≡ argument_codes
        (texts_of scope.now) (scope_of scope.now) (view_name parameter.now ∷ ps) (trees (drop place
        es.now))) }
{
    if place >= es.len() {
        return Ok(missing(parameter));
    }
    operand_of(argument(scope, parameter, &es[place]))
}

/// The code of a call.
#[cycle(expressions)]
fn call(scope: &Scope<'_>, name: &[u8], es: &[Expr]) -> Result<Code, AllocError>
    ensures { IfOk result (λ code. view code ≡ code_of (texts_of scope.now) (scope_of scope.now)
        (Call name.now (trees es.now))) }
{
    let function = scope.function(name);
    let parameters = scope.parameters_of(function);
    let mut operands = Vec::new(scope.alloc);
    for i in 0..parameters.len() {
        push_made(&mut operands, given(scope, &parameters[i], es, i))?;
    }
    Ok(called(function, operands))
}

/// The code of a built-in function.
#[cycle(expressions)]
fn apply(scope: &Scope<'_>, function: Builtin, es: &[Expr]) -> Result<Code, AllocError>
    ensures { IfOk result (λ code. view code ≡ code_of (texts_of scope.now) (scope_of scope.now)
        (Apply function (trees es.now))) }
{
    match function {
        Builtin::Sprintf => {
            let mut operands = Vec::new(scope.alloc);
            push_operands(scope, es, &mut operands)?;
            Ok(over(Listed::Sprintf, operands))
        }
        _ => applied(scope, function, es),
    }
}

/// The code of a built-in function that takes no list of values.
#[cycle(expressions)]
fn applied(scope: &Scope<'_>, function: Builtin, es: &[Expr]) -> Result<Code, AllocError>
    ensures { IfOk result (λ code. view code ≡ applied_code (texts_of scope.now) (scope_of
        scope.now) function (trees es.now)) }
{
    if es.is_empty() {
        return apply_none(scope.alloc, function);
    }
    if es.len() == 1 {
        return apply_one(scope, function, &es[0]);
    }
    apply_more(scope, function, es)
}

/// The code of a built-in function of one operand.
#[cycle(expressions)]
#[tactic(auto, unfolding(mid_program::specs::Translation::applied_code))]
fn apply_one(scope: &Scope<'_>, function: Builtin, e: &Expr) -> Result<Code, AllocError>
    ensures { IfOk result (λ code. view code ≡ applied_code (texts_of scope.now) (scope_of
        scope.now) function (Then (tree e.now) NoTree)) }
{
    match function {
        Builtin::Int => truncated(scope, e),
        _ => applied_to(scope.alloc, function, code(scope, e)),
    }
}

/// The code of a built-in function of two operands and perhaps more; some take only the first.
#[cycle(expressions)]
fn apply_more(scope: &Scope<'_>, function: Builtin, es: &[Expr]) -> Result<Code, AllocError>
    requires { 2 ≤ length es.now }
    ensures { IfOk result (λ code. view code ≡ applied_code (texts_of scope.now) (scope_of
        scope.now) function (trees es.now)) }
{
    match function {
        Builtin::Length => record_length(scope.alloc),
        Builtin::Index => {
            let text = code(scope, &es[0]);
            host_two(scope.alloc, Primitive::Index, text, code(scope, &es[1]))
        }
        Builtin::Match => {
            let text = code(scope, &es[0]);
            let ere = operand(scope, BinaryOp::Match, &es[1]);
            host_two(scope.alloc, Primitive::Match, text, ere)
        }
        Builtin::Substr => substr(scope, es),
        Builtin::Split => split(scope, es),
        Builtin::Sub => substitute(scope, false, es),
        Builtin::Gsub => substitute(scope, true, es),
        _ => apply_one(scope, function, &es[0]),
    }
}

/// The code of a number's whole part: a quotient that is truncated need not be whole.
#[cycle(expressions)]
#[tactic(auto, unfolding(mid_program::specs::Translation::truncated_code, mid_program::specs::Translation::code_of))]
fn truncated(scope: &Scope<'_>, e: &Expr) -> Result<Code, AllocError>
    ensures { IfOk result (λ code. view code ≡ truncated_code (texts_of scope.now) (scope_of
        scope.now) (tree e.now) (code_of (texts_of scope.now) (scope_of scope.now) (tree e.now))) }
{
    match e {
        Expr::Group(inner) => truncated(scope, inner),
        Expr::Binary(op, left, right) => {
            if !is_quotient(*op) {
                return host_of(scope, Primitive::IntOf, e);
            }
            truncated_quotient(scope.alloc, code(scope, left), code(scope, right))
        }
        _ => host_of(scope, Primitive::IntOf, e),
    }
}

/// The code of `substr`.
#[cycle(expressions)]
fn substr(scope: &Scope<'_>, es: &[Expr]) -> Result<Code, AllocError>
    requires { 2 ≤ length es.now }
    ensures { IfOk result (λ code. view code ≡ applied_code (texts_of scope.now) (scope_of
        scope.now) Builtin.Substr (trees es.now)) }
{
    let text = code(scope, &es[0]);
    let from = code(scope, &es[1]);
    if es.len() == 2 {
        return host_two(scope.alloc, Primitive::SubstrFrom, text, from);
    }
    part_of(scope.alloc, text, from, code(scope, &es[2]))
}

/// The code of `split`.
#[cycle(expressions)]
fn split(scope: &Scope<'_>, es: &[Expr]) -> Result<Code, AllocError>
    requires { 2 ≤ length es.now }
    ensures { IfOk result (λ code. view code ≡ applied_code (texts_of scope.now) (scope_of
        scope.now) Builtin.Split (trees es.now)) }
{
    let Some(name) = bare_name(&es[1]) else {
        return Ok(Code::Unset);
    };
    let text = code(scope, &es[0]);
    let array = scope.array(name);
    if es.len() == 2 {
        return split_into(
            scope.alloc,
            text,
            array,
            field_separator(scope.alloc),
            false,
        );
    }
    let ere = &es[2];
    let separator = operand(scope, BinaryOp::Match, ere);
    split_into(scope.alloc, text, array, separator, is_ere(ere))
}

/// The code of `sub` and `gsub`: expression and replacement are kept, then what the place needs.
#[cycle(expressions)]
fn substitute(scope: &Scope<'_>, all: bool, es: &[Expr]) -> Result<Code, AllocError>
    requires { 2 ≤ length es.now }
    ensures { IfOk result (λ code. view code ≡ applied_code (texts_of scope.now) (scope_of
        scope.now) (sub_or_gsub all) (trees es.now)) }
{
    let ere = operand(scope, BinaryOp::Match, &es[0]);
    let replacement = code(scope, &es[1]);
    if es.len() == 2 {
        return substitute_record(scope.alloc, all, ere, replacement);
    }
    let place = &es[2];
    substitute_place(scope, all, place, kept(scope, place), ere, replacement)
}
