//! What takes values.

ghost use Rattle.std.specs.Prelude.{◌≡◌, suc, Option, IfOk};
ghost use Rattle.awk_grammar.specs.View.{view as tree, view_assign, view_step};
ghost use Rattle.mid_program.specs.Translation.{assigned_at, copied, kept_at, keeping, moved, one_code, read_at, received_at, step_after_at, step_of, stepped_at, store_at, stored_at, substituted_at, target_in, two, updated_at};
ghost use Rattle.mid_program.specs.Mid as plain;
ghost use Rattle.mid_program.specs.ViewCode.{view};
ghost use Rattle.mid_code.specs.Made.{Makes, MakesKept, MakesOperands};
ghost use Rattle.mid_code.specs.ViewScope.{scope_of, texts_of};
ghost use Rattle.mid_code.specs.ViewTarget.{view_target};

use crate::build::{
    binary, binary_on, kept_and_stored, kept_while, replaced, set_variable, store_variable,
    ternary, three, unary, unary_on, variable,
};
use crate::fallible::{both, in_box};
use crate::names::Variable;
use crate::scope::Scope;
use awk_grammar::{AssignOp, Expr, StepOp};
use mid_program::{Arithmetic, ArrayName, Code, Operand, Operation};
use sem_primitives::Primitive;
use std::alloc::{AllocError, Global};

/// What takes a value, once its key or its field's number is kept.
#[derive(Clone, Copy)]
pub(crate) enum Target {
    Element(ArrayName),
    Name(Variable),
    Field,
}

/// What takes a value that is stored into a place; what is no place counts as a field.
pub(crate) fn target_in(scope: &Scope<'_>, place: &Expr) -> Target
    ensures { view_target result ≡ target_in (texts_of scope.now) (scope_of scope.now) (tree
        place.now) }
{
    match place {
        Expr::Element(name, _) => Target::Element(scope.array(name)),
        Expr::Var(name) => Target::Name(scope.variable(name)),
        _ => Target::Field,
    }
}

/// What a target has, where so many answers were kept after its key or its number.
fn read(alloc: Global, target: Target, after: usize) -> Result<Code, AllocError>
    ensures { IfOk result (λ code. view code ≡ read_at (view_target target) after) }
{
    match target {
        Target::Element(array) => {
            let operation = Operation::Host(Primitive::Elem);
            binary(
                alloc,
                operation,
                Code::Array(array),
                Code::Bound(false, after),
            )
        }
        Target::Name(name) => variable(alloc, name),
        Target::Field => {
            let operation = Operation::Host(Primitive::Field);
            unary(alloc, operation, Code::Bound(false, after))
        }
    }
}

/// A target takes a value, which is the last use of what was kept for it.
fn store(alloc: Global, target: Target, after: usize, code: Code) -> Result<Code, AllocError>
    ensures { IfOk result (λ store. view store ≡ store_at (view_target target) after (view code)) }
{
    match target {
        Target::Element(array) => {
            let array = Code::Array(array);
            let kept = Code::Bound(true, after);
            ternary(alloc, Primitive::SetElem, array, kept, code)
        }
        Target::Name(name) => store_variable(alloc, name, code),
        Target::Field => {
            let kept = Code::Bound(true, after);
            binary(alloc, Operation::Host(Primitive::SetField), kept, code)
        }
    }
}

/// The same, and what it takes is the answer.
fn stored(
    alloc: Global,
    target: Target,
    after: u8,
    code: Result<Code, AllocError>,
) -> Result<Code, AllocError>
    ensures { (e : plain.Code) → Makes code e
        → Makes result (stored_at (view_target target) after e) }
{
    match target {
        Target::Name(name) => set_variable(alloc, name, code),
        Target::Element(_) | Target::Field => {
            let after = usize::from(after) + 1;
            let store = store(alloc, target, after, Code::Bound(false, 0));
            kept_and_stored(alloc, code, store, 0)
        }
    }
}

/// What a step adds or takes away with.
fn step_operation(op: StepOp) -> Operation
    ensures { result ≡ step_of (view_step op) }
{
    match op {
        StepOp::Increment => Operation::Inline(Arithmetic::Plus),
        StepOp::Decrement => Operation::Inline(Arithmetic::Minus),
    }
}

/// A step; the number after it is the answer.
pub(crate) fn stepped(alloc: Global, op: StepOp, target: Target) -> Result<Code, AllocError>
    ensures { IfOk result (λ code. view code ≡ stepped_at (view_step op) (view_target target)) }
{
    let old = read(alloc, target, 0);
    let new = binary_on(alloc, step_operation(op), old, Ok(Code::Number(1)));
    stored(alloc, target, 0, new)
}

/// A step from a number that is kept, which is the answer.
fn step_from(alloc: Global, op: StepOp, target: Target) -> Result<Code, AllocError>
    ensures { IfOk result (λ code. view code ≡ plain.Let (plain.Do (step_of (view_step op)) (two
        (copied 0) one_code)) (plain.Seq (store_at (view_target target) 2 (moved 0)) (moved 1))) }
{
    let kept = Code::Bound(false, 0);
    let new = binary(alloc, step_operation(op), kept, Code::Number(1));
    let store = store(alloc, target, 2, Code::Bound(true, 0));
    kept_and_stored(alloc, new, store, 1)
}

/// A step; the number before it is the answer.
pub(crate) fn step_after(alloc: Global, op: StepOp, target: Target) -> Result<Code, AllocError>
    ensures { IfOk result (λ code. view code ≡ step_after_at (view_step op) (view_target target)) }
{
    let number = unary_on(alloc, Operation::AsNumber, read(alloc, target, 0));
    kept_while(alloc, in_box(alloc, number), step_from(alloc, op, target))
}

/// An assignment with an operator.
fn updated(
    alloc: Global,
    operation: Operation,
    target: Target,
    right: Result<Code, AllocError>,
) -> Result<Code, AllocError>
    ensures { (e : plain.Code) → Makes right e
        → Makes result (updated_at operation (view_target target) e) }
{
    let old = read(alloc, target, 1);
    let new = binary_on(alloc, operation, old, Ok(Code::Bound(true, 0)));
    kept_while(alloc, in_box(alloc, right), stored(alloc, target, 1, new))
}

/// An assignment.
pub(crate) fn assigned(
    alloc: Global,
    op: AssignOp,
    target: Target,
    right: Result<Code, AllocError>,
) -> Result<Code, AllocError>
    ensures { (e : plain.Code) → Makes right e
        → Makes result (assigned_at (view_assign op) (view_target target) e) }
{
    let operation = match op {
        AssignOp::Set => return stored(alloc, target, 0, right),
        AssignOp::Add => Operation::Inline(Arithmetic::Plus),
        AssignOp::Subtract => Operation::Inline(Arithmetic::Minus),
        AssignOp::Multiply => Operation::Inline(Arithmetic::Times),
        AssignOp::Divide => Operation::Inline(Arithmetic::Over),
        AssignOp::Modulo => Operation::Inline(Arithmetic::Modulo),
        AssignOp::Power => Operation::Host(Primitive::Pow),
    };
    updated(alloc, operation, target, right)
}

/// A text that was read is stored.
pub(crate) fn received(alloc: Global, target: Target) -> Result<Box<Code>, AllocError>
    ensures { IfOk result (λ code. view code.value ≡ received_at (view_target target)) }
{
    in_box(alloc, store(alloc, target, 1, Code::Bound(true, 0)))
}

/// How many answers are kept for a target.
fn kept_count(target: Target) -> u8
    ensures { result ≡ kept_at (view_target target) }
{
    match target {
        Target::Name(_) => 0,
        Target::Element(_) | Target::Field => 1,
    }
}

/// The operands of a substitution: an expression and a replacement that were kept, and the target.
fn substituting(
    alloc: Global,
    after: u8,
    target: Result<Code, AllocError>,
) -> Result<Vec<Operand>, AllocError>
    ensures { (e : plain.Code) → Makes target e → MakesOperands result
        (plain.At (moved (suc after)) (two (moved after) e)) }
{
    let target = target?;
    let after = usize::from(after);
    let ere = Code::Bound(true, after + 1);
    three(alloc, ere, Code::Bound(true, after), target)
}

/// What is replaced in a target, after an expression and a replacement were kept.
pub(crate) fn substituted(alloc: Global, all: bool, target: Target) -> Result<Code, AllocError>
    ensures { IfOk result (λ code. view code ≡ substituted_at all (view_target target)) }
{
    let operands = substituting(alloc, kept_count(target), read(alloc, target, 0));
    let (operands, store) = both(operands, received(alloc, target))?;
    Ok(replaced(all, operands, store))
}

/// What is kept, if anything is, before what is done with it.
pub(crate) fn keeping(
    alloc: Global,
    kept: Result<Option<Box<Code>>, AllocError>,
    body: Result<Code, AllocError>,
) -> Result<Code, AllocError>
    ensures { (k : Option plain.Code) (e : plain.Code) → MakesKept kept k → Makes body e
        → Makes result (keeping k e) }
{
    let (kept, body) = both(kept, body)?;
    match kept {
        Some(kept) => kept_while(alloc, Ok(kept), Ok(body)),
        None => Ok(body),
    }
}
