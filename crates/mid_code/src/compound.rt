//! The code of expressions whose parts have their code.

ghost use Rattle.std.specs.Prelude.{◌≡◌, ℕ, List, ◌∷◌, Option, Some, map, IfOk, OnOk};
ghost use Rattle.awk_grammar.specs.Token.{Ere};
ghost use Rattle.awk_grammar.specs.Trees.{Leaf, NoTree};
ghost use Rattle.awk_grammar.specs.View.{view as tree, view_assign, view_step};
ghost use Rattle.awk_resolve.specs.ViewKinds.{view_name};
ghost use Rattle.sem_primitives.specs.ConstantNumbers.{flag_number};
ghost use Rattle.sem_primitives.specs.declared.table.Primitive.TheVariants as row;
ghost use Rattle.awk_text.specs.Escapes.{string_text};
ghost use Rattle.mid_program.specs.declared.mid.Arithmetic.TheVariants as inline;
ghost use Rattle.mid_program.specs.Mid as plain;
ghost use Rattle.sem_scripts.specs.Names as plain_names;
ghost use Rattle.sem_scripts.specs.Names.{Name, array_of};
ghost use Rattle.mid_program.specs.Texts.{text_place};
ghost use Rattle.mid_program.specs.Translation.{FieldTarget, applied_code, assigned_at, code_of, fresh_codes, keeping, one, passed_code, received_at, record_code, special_code, step_after_at, stepped_at, substituted_at, target_in, two, zero_code};
ghost use Rattle.mid_program.specs.ViewCode.{before, followed, view, view_array, views};
ghost use Rattle.mid_code.specs.Applied.{applied_to};
ghost use Rattle.mid_code.specs.Keys.{key_of};
ghost use Rattle.mid_code.specs.Made.{Makes, MakesBoxed, MakesEach, MakesKept};
ghost use Rattle.mid_code.specs.ViewScope.{scope_of, texts_of};

use crate::build::{
    applied, binary_on, kept_while, number, record, reserved, ternary, three, unary, unary_on,
    variable,
};
use crate::fallible::{all_three, both, boxed, in_box, push};
use crate::peek::ere_text;
use crate::scope::Scope;
use crate::target::{
    Target, assigned, keeping, received, step_after, stepped, substituted, target_in,
};
use awk_grammar::{AssignOp, Builtin, Expr, StepOp};
use awk_resolve::NameKind;
use awk_text::string_text;
use mid_program::{Arithmetic, ArrayName, Code, Operand, Operation};
use sem_primitives::{Primitive, Special};
use std::alloc::{AllocError, Global};

/// A string.
pub(crate) fn string(scope: &Scope<'_>, quoted: &[u8]) -> Result<Code, AllocError>
    ensures { IfOk result (λ code. view code ≡ plain.Text (text_place (texts_of scope.now)
        (string_text quoted.now))) }
{
    let text = string_text(scope.alloc, quoted)?;
    Ok(Code::Text(scope.text_place(&text)))
}

/// Whether the record has a match of an ERE token.
#[tactic(auto, unfolding(mid_program::specs::Translation::code_of))]
pub(crate) fn record_matches(scope: &Scope<'_>, token: &[u8]) -> Result<Code, AllocError>
    ensures { IfOk result (λ code. view code ≡ code_of (texts_of scope.now) (scope_of scope.now)
        (Leaf (Ere token.now))) }
{
    let record = record(scope.alloc);
    let text = Code::Text(scope.text_place(ere_text(token)));
    host_two(scope.alloc, Primitive::Matches, record, Ok(text))
}

/// The length of the record.
pub(crate) fn record_length(alloc: Global) -> Result<Code, AllocError>
    ensures { IfOk result (λ code. view code ≡ plain.Do (Operation.Host row.Length) (one
        record_code)) }
{
    host_one(alloc, Primitive::Length, record(alloc))
}

/// What the host does with one operand.
pub(crate) fn host_one(
    alloc: Global,
    primitive: Primitive,
    operand: Result<Code, AllocError>,
) -> Result<Code, AllocError>
    ensures { (e : plain.Code) → Makes operand e
        → Makes result (plain.Do (Operation.Host primitive) (one e)) }
{
    unary_on(alloc, Operation::Host(primitive), operand)
}

/// What the host does with two operands.
pub(crate) fn host_two(
    alloc: Global,
    primitive: Primitive,
    left: Result<Code, AllocError>,
    right: Result<Code, AllocError>,
) -> Result<Code, AllocError>
    ensures { (a b : plain.Code) → Makes left a → Makes right b
        → Makes result (plain.Do (Operation.Host primitive) (two a b)) }
{
    binary_on(alloc, Operation::Host(primitive), left, right)
}

/// A quotient's whole part.
pub(crate) fn truncated_quotient(
    alloc: Global,
    left: Result<Code, AllocError>,
    right: Result<Code, AllocError>,
) -> Result<Code, AllocError>
    ensures { (a b : plain.Code) → Makes left a → Makes right b
        → Makes result (plain.Do (Operation.Inline inline.Truncated) (two a b)) }
{
    binary_on(alloc, Operation::Inline(Arithmetic::Truncated), left, right)
}

/// The number of what the host does with one operand.
pub(crate) fn host_number(
    alloc: Global,
    primitive: Primitive,
    operand: Result<Code, AllocError>,
) -> Result<Code, AllocError>
    ensures { (e : plain.Code) → Makes operand e → Makes result (plain.Do Operation.AsNumber (one
        (plain.Do (Operation.Host primitive) (one e)))) }
{
    let answer = host_one(alloc, primitive, operand);
    unary_on(alloc, Operation::AsNumber, answer)
}

/// What the host does with an array.
pub(crate) fn host_whole(
    scope: &Scope<'_>,
    primitive: Primitive,
    name: &[u8],
) -> Result<Code, AllocError>
    ensures { IfOk result (λ code. view code ≡ plain.Do (Operation.Host primitive) (one (plain.Array
        (array_of (scope_of scope.now) name.now)))) }
{
    let array = Code::Array(scope.array(name));
    unary(scope.alloc, Operation::Host(primitive), array)
}

/// What the host does with an array and a key.
pub(crate) fn host_array(
    scope: &Scope<'_>,
    primitive: Primitive,
    name: &[u8],
    key: Result<Code, AllocError>,
) -> Result<Code, AllocError>
    ensures { (e : plain.Code) → Makes key e → Makes result (plain.Do (Operation.Host primitive) (two
        (plain.Array (array_of (scope_of scope.now) name.now)) e)) }
{
    let array = Ok(Code::Array(scope.array(name)));
    host_two(scope.alloc, primitive, array, key)
}

/// The key of a subscript and others.
fn joined_key(alloc: Global, first: Box<Code>, others: Vec<Code>) -> Result<Code, AllocError>
    ensures { IfOk result (λ key. view key ≡ plain.Do (Operation.Host row.Join) (two (view
        first.value) (key_of (map view others.items)))) }
{
    let mut others = others;
    let last = others.pop().unwrap_or(Code::Unset);
    let last = boxed(alloc, last)?;
    Ok(Code::Joined(first, others, last))
}

/// The same, of subscripts as they were made.
pub(crate) fn joined(
    alloc: Global,
    first: Result<Code, AllocError>,
    others: Result<Vec<Code>, AllocError>,
) -> Result<Code, AllocError>
    ensures { (e : plain.Code) (es : List plain.Code) → Makes first e → MakesEach others es
        → Makes result (plain.Do (Operation.Host row.Join) (two e (key_of es))) }
{
    let (first, others) = both(in_box(alloc, first), others)?;
    joined_key(alloc, first, others)
}

/// The key of subscripts.
fn key_by(alloc: Global, codes: Vec<Code>) -> Result<Code, AllocError>
    ensures { IfOk result (λ key. view key ≡ key_of (map view codes.items)) }
{
    let mut codes = codes;
    if codes.len() < 2 {
        return Ok(codes.pop().unwrap_or(Code::Unset));
    }
    let first = boxed(alloc, codes.remove(0))?;
    joined_key(alloc, first, codes)
}

/// The same, of subscripts as they were made.
pub(crate) fn key_of(
    alloc: Global,
    codes: Result<Vec<Code>, AllocError>,
) -> Result<Code, AllocError>
    ensures { (es : List plain.Code) → MakesEach codes es → Makes result (key_of es) }
{
    key_by(alloc, codes?)
}

/// A key that is kept for a place.
pub(crate) fn kept_key(
    alloc: Global,
    key: Result<Code, AllocError>,
) -> Result<Option<Box<Code>>, AllocError>
    ensures { (e : plain.Code) → Makes key e → MakesKept result (Some e) }
{
    Ok(Some(in_box(alloc, key)?))
}

/// The number of a field, which is kept for a place.
pub(crate) fn kept_number(
    alloc: Global,
    number: Result<Code, AllocError>,
) -> Result<Option<Box<Code>>, AllocError>
    ensures { (e : plain.Code) → Makes number e
        → MakesKept result (Some (plain.Do Operation.FieldNumber (one e))) }
{
    kept_key(alloc, unary_on(alloc, Operation::FieldNumber, number))
}

/// What is kept for what is no place.
pub(crate) fn kept_zero(alloc: Global) -> Result<Option<Box<Code>>, AllocError>
    ensures { MakesKept result (Some zero_code) }
{
    Ok(Some(number(alloc, 0)?))
}

/// A step of a place; the number after it is the answer.
pub(crate) fn step_place(
    scope: &Scope<'_>,
    op: StepOp,
    place: &Expr,
    kept: Result<Option<Box<Code>>, AllocError>,
) -> Result<Code, AllocError>
    ensures { (k : Option plain.Code) → MakesKept kept k → Makes result (keeping k (stepped_at
        (view_step op) (target_in (texts_of scope.now) (scope_of scope.now) (tree place.now)))) }
{
    let body = stepped(scope.alloc, op, target_in(scope, place));
    keeping(scope.alloc, kept, body)
}

/// A step of a place; the number before it is the answer.
pub(crate) fn step_place_after(
    scope: &Scope<'_>,
    op: StepOp,
    place: &Expr,
    kept: Result<Option<Box<Code>>, AllocError>,
) -> Result<Code, AllocError>
    ensures { (k : Option plain.Code) → MakesKept kept k → Makes result (keeping k (step_after_at
        (view_step op) (target_in (texts_of scope.now) (scope_of scope.now) (tree place.now)))) }
{
    let body = step_after(scope.alloc, op, target_in(scope, place));
    keeping(scope.alloc, kept, body)
}

/// An assignment to a place.
pub(crate) fn assign_place(
    scope: &Scope<'_>,
    op: AssignOp,
    place: &Expr,
    kept: Result<Option<Box<Code>>, AllocError>,
    right: Result<Code, AllocError>,
) -> Result<Code, AllocError>
    ensures { (k : Option plain.Code) (e : plain.Code) → MakesKept kept k → Makes right e
        → Makes result (keeping k (assigned_at (view_assign op) (target_in (texts_of scope.now)
        (scope_of scope.now) (tree place.now)) e)) }
{
    let body = assigned(scope.alloc, op, target_in(scope, place), right);
    keeping(scope.alloc, kept, body)
}

/// A record of the main input is read, and stored.
fn asked(store: Result<Box<Code>, AllocError>) -> Result<Code, AllocError>
    ensures { (e : plain.Code) → MakesBoxed store e → Makes result (plain.AskLine e) }
{
    Ok(Code::AskLine(store?))
}

/// A record of the main input into a place.
pub(crate) fn line_into(
    scope: &Scope<'_>,
    place: &Expr,
    kept: Result<Option<Box<Code>>, AllocError>,
) -> Result<Code, AllocError>
    ensures { (k : Option plain.Code) → MakesKept kept k → Makes result (keeping k (plain.AskLine
        (received_at (target_in (texts_of scope.now) (scope_of scope.now) (tree place.now))))) }
{
    let store = received(scope.alloc, target_in(scope, place));
    keeping(scope.alloc, kept, asked(store))
}

/// A record of a file is read, and stored.
fn file_asked(
    file: Result<Box<Code>, AllocError>,
    store: Result<Box<Code>, AllocError>,
) -> Result<Code, AllocError>
    ensures { (a b : plain.Code) → MakesBoxed file a → MakesBoxed store b
        → Makes result (plain.FileLine a b) }
{
    let (file, store) = both(file, store)?;
    Ok(Code::FileLine(file, store))
}

/// A record of a file into a place.
pub(crate) fn file_line_into(
    scope: &Scope<'_>,
    place: &Expr,
    kept: Result<Option<Box<Code>>, AllocError>,
    file: Result<Code, AllocError>,
) -> Result<Code, AllocError>
    ensures { (k : Option plain.Code) (e : plain.Code) → MakesKept kept k → Makes file e
        → Makes result (keeping k (plain.FileLine e (received_at (target_in (texts_of scope.now)
        (scope_of scope.now) (tree place.now))))) }
{
    let store = received(scope.alloc, target_in(scope, place));
    keeping(
        scope.alloc,
        kept,
        file_asked(in_box(scope.alloc, file), store),
    )
}

/// What a bare name gives for a parameter.
pub(crate) fn passed(
    scope: &Scope<'_>,
    parameter: &NameKind<'_>,
    name: &[u8],
) -> Result<Code, AllocError>
    ensures { IfOk result (λ code. view code ≡ passed_code (texts_of scope.now) (scope_of scope.now)
        (view_name parameter.now) name.now) }
{
    if parameter.is_array {
        return Ok(Code::Array(scope.array(name)));
    }
    if scope.is_array(name) {
        return Ok(Code::Unset);
    }
    variable(scope.alloc, scope.variable(name))
}

/// What stands for an argument that is missing.
pub(crate) fn missing(parameter: &NameKind<'_>) -> Operand
    ensures { (ps : List Name) → before result (fresh_codes ps)
        ≡ fresh_codes (view_name parameter.now ∷ ps) }
{
    if parameter.is_array {
        Operand::Fresh
    } else {
        Operand::Code(Code::Unset)
    }
}

/// Code that was made, as an operand.
pub(crate) fn operand_of(code: Result<Code, AllocError>) -> Result<Operand, AllocError>
    ensures { (e : plain.Code) → Makes code e → IfOk result (λ operand. (es : plain.Codes)
        → before operand es ≡ plain.At e es) }
{
    Ok(Operand::Code(code?))
}

/// Adds code that was made to operands.
pub(crate) fn push_code(
    operands: &mut Vec<Operand>,
    code: Result<Code, AllocError>,
) -> Result<(), AllocError>
    ensures { (e : plain.Code) (es : plain.Codes) → Makes code e → OnOk result
        (followed (views operands.new.items) es ≡ followed (views operands.old.items)
        (plain.At e es)) }
{
    push(operands, Operand::Code(code?))
}

/// The code of a built-in function without operands.
#[tactic(auto, unfolding(mid_program::specs::Translation::applied_code, mid_program::specs::Translation::code_of))]
pub(crate) fn apply_none(alloc: Global, function: Builtin) -> Result<Code, AllocError>
    ensures { (texts : List (List ℕ)) (scope : plain_names.Scope)
        → IfOk result (λ code. view code ≡ applied_code texts scope function NoTree) }
{
    match function {
        Builtin::Length => record_length(alloc),
        Builtin::Fflush => Ok(Code::Number(0)),
        _ => Ok(Code::Unset),
    }
}

/// What a built-in function does with one operand, but for `int`, whose code depends on what its operand is.
pub(crate) fn applied_to(
    alloc: Global,
    function: Builtin,
    operand: Result<Code, AllocError>,
) -> Result<Code, AllocError>
    ensures { (e : plain.Code) → Makes operand e → Makes result (applied_to function e) }
{
    match function {
        Builtin::Length => host_one(alloc, Primitive::Length, operand),
        Builtin::ToLower => host_one(alloc, Primitive::Lower, operand),
        Builtin::ToUpper => host_one(alloc, Primitive::Upper, operand),
        Builtin::Close => host_number(alloc, Primitive::Close, operand),
        Builtin::Fflush => host_number(alloc, Primitive::Flush, operand),
        _ => {
            operand?;
            Ok(Code::Unset)
        }
    }
}

/// A part of a text, from a place on and of a length.
pub(crate) fn part_of(
    alloc: Global,
    text: Result<Code, AllocError>,
    from: Result<Code, AllocError>,
    count: Result<Code, AllocError>,
) -> Result<Code, AllocError>
    ensures { (a b c : plain.Code) → Makes text a → Makes from b → Makes count c
        → Makes result (plain.Do (Operation.Host row.Substr) (plain.At a (two b c))) }
{
    let (text, from, count) = all_three(text, from, count)?;
    ternary(alloc, Primitive::Substr, text, from, count)
}

/// The separator of `split` where none is given.
pub(crate) fn field_separator(alloc: Global) -> Result<Code, AllocError>
    ensures { Makes result (special_code Special.Fs) }
{
    reserved(alloc, Special::Fs)
}

/// A text is split into an array's elements; the last operand says whether the separator is an ERE.
pub(crate) fn split_into(
    alloc: Global,
    text: Result<Code, AllocError>,
    array: ArrayName,
    separator: Result<Code, AllocError>,
    is_ere: bool,
) -> Result<Code, AllocError>
    ensures { (a b : plain.Code) → Makes text a → Makes separator b → Makes result (plain.Do
        (Operation.Host row.Split) (plain.At a (plain.At (plain.Array (view_array array)) (plain.At b
        (plain.Fixed (flag_number is_ere) plain.End))))) }
{
    let (text, separator) = both(text, separator)?;
    let mut operands = three(alloc, text, Code::Array(array), separator)?;
    push(&mut operands, Operand::Constant(u32::from(is_ere)))?;
    Ok(applied(Operation::Host(Primitive::Split), operands))
}

/// Replacement and expression are kept for what replaces.
fn replacing(
    alloc: Global,
    ere: Result<Code, AllocError>,
    replacement: Result<Code, AllocError>,
    body: Result<Code, AllocError>,
) -> Result<Code, AllocError>
    ensures { (a b c : plain.Code) → Makes ere a → Makes replacement b → Makes body c
        → Makes result (plain.Let a (plain.Let b c)) }
{
    let body = kept_while(alloc, in_box(alloc, replacement), body);
    kept_while(alloc, in_box(alloc, ere), body)
}

/// What is replaced in the record.
pub(crate) fn substitute_record(
    alloc: Global,
    all: bool,
    ere: Result<Code, AllocError>,
    replacement: Result<Code, AllocError>,
) -> Result<Code, AllocError>
    ensures { (a b : plain.Code) → Makes ere a → Makes replacement b → Makes result (plain.Let a
        (plain.Let b (plain.Let zero_code (substituted_at all FieldTarget)))) }
{
    let body = substituted(alloc, all, Target::Field);
    let body = kept_while(alloc, number(alloc, 0), body);
    replacing(alloc, ere, replacement, body)
}

/// What is replaced in a place, for which something may be kept.
pub(crate) fn substitute_place(
    scope: &Scope<'_>,
    all: bool,
    place: &Expr,
    kept: Result<Option<Box<Code>>, AllocError>,
    ere: Result<Code, AllocError>,
    replacement: Result<Code, AllocError>,
) -> Result<Code, AllocError>
    ensures { (k : Option plain.Code) (a b : plain.Code) → MakesKept kept k → Makes ere a
        → Makes replacement b → Makes result (plain.Let a (plain.Let b (keeping k (substituted_at all
        (target_in (texts_of scope.now) (scope_of scope.now) (tree place.now)))))) }
{
    let body = substituted(scope.alloc, all, target_in(scope, place));
    let body = keeping(scope.alloc, kept, body);
    replacing(scope.alloc, ere, replacement, body)
}
