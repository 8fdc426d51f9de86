//! Small codes.

ghost use Rattle.std.specs.Prelude.{◌≡◌, true, false, IfOk, pos};
ghost use Rattle.sem_primitives.specs.declared.sorts.Sort.TheVariants as sort;
ghost use Rattle.mid_program.specs.Mid as plain;
ghost use Rattle.mid_program.specs.Translation.{moved, one, two, record_code, set_variable_code, special_code, store_variable_code, truth_code, untruth_code, variable_code};
ghost use Rattle.mid_program.specs.ViewCode.{view, view_slot, views};
ghost use Rattle.mid_code.specs.Made.{Makes, MakesBoxed, MakesOperands};
ghost use Rattle.mid_code.specs.ViewNames.{view_variable};

use crate::fallible::{all_three, both, boxed, in_box, pair, single, triple};
use crate::names::Variable;
use mid_program::{Code, Operand, Operation, Slot};
use sem_primitives::{Listed, Primitive, Sort, Special};
use std::alloc::{AllocError, Global};

pub(crate) fn applied(operation: Operation, operands: Vec<Operand>) -> Code
    ensures { view result ≡ plain.Do operation (views operands.items) }
{
    Code::Do(operation, operands)
}

/// An operation on operands as they were made.
pub(crate) fn done(
    operation: Operation,
    operands: Result<Vec<Operand>, AllocError>,
) -> Result<Code, AllocError>
    ensures { (es : plain.Codes) → MakesOperands operands es
        → Makes result (plain.Do operation es) }
{
    Ok(applied(operation, operands?))
}

pub(crate) fn over(listed: Listed, operands: Vec<Operand>) -> Code
    ensures { view result ≡ plain.Over listed (views operands.items) }
{
    Code::Over(listed, operands)
}

pub(crate) fn called(function: usize, operands: Vec<Operand>) -> Code
    ensures { view result ≡ plain.Call function (views operands.items) }
{
    Code::Call(function, operands)
}

/// An operation on one operand.
pub(crate) fn unary(alloc: Global, operation: Operation, operand: Code) -> Result<Code, AllocError>
    ensures { IfOk result (λ code. view code ≡ plain.Do operation (one (view operand))) }
{
    done(operation, single(alloc, Operand::Code(operand)))
}

/// The same, on an operand as it was made.
pub(crate) fn unary_on(
    alloc: Global,
    operation: Operation,
    operand: Result<Code, AllocError>,
) -> Result<Code, AllocError>
    ensures { (e : plain.Code) → Makes operand e → Makes result (plain.Do operation (one e)) }
{
    unary(alloc, operation, operand?)
}

/// An operation on two operands.
pub(crate) fn binary(
    alloc: Global,
    operation: Operation,
    left: Code,
    right: Code,
) -> Result<Code, AllocError>
    ensures { IfOk result (λ code. view code ≡ plain.Do operation (two (view left) (view right))) }
{
    done(
        operation,
        pair(alloc, Operand::Code(left), Operand::Code(right)),
    )
}

/// The same, on operands as they were made.
pub(crate) fn binary_on(
    alloc: Global,
    operation: Operation,
    left: Result<Code, AllocError>,
    right: Result<Code, AllocError>,
) -> Result<Code, AllocError>
    ensures { (a b : plain.Code) → Makes left a → Makes right b
        → Makes result (plain.Do operation (two a b)) }
{
    let (left, right) = both(left, right)?;
    binary(alloc, operation, left, right)
}

/// Three operands.
pub(crate) fn three(
    alloc: Global,
    first: Code,
    second: Code,
    third: Code,
) -> Result<Vec<Operand>, AllocError>
    ensures { IfOk result (λ operands. views operands.items
        ≡ plain.At (view first) (two (view second) (view third))) }
{
    let (first, second) = (Operand::Code(first), Operand::Code(second));
    triple(alloc, first, second, Operand::Code(third))
}

/// What the host does with three operands.
pub(crate) fn ternary(
    alloc: Global,
    primitive: Primitive,
    first: Code,
    second: Code,
    third: Code,
) -> Result<Code, AllocError>
    ensures { IfOk result (λ code. view code ≡ plain.Do (Operation.Host primitive) (plain.At (view
        first) (two (view second) (view third)))) }
{
    done(
        Operation::Host(primitive),
        three(alloc, first, second, third),
    )
}

/// A number in a box.
pub(crate) fn number(alloc: Global, number: i64) -> Result<Box<Code>, AllocError>
    ensures { IfOk result (λ code. view code.value ≡ plain.Number number) }
{
    boxed(alloc, Code::Number(number))
}

/// One of two codes, by the truth of a test.
pub(crate) fn chosen(sort: Sort, test: Box<Code>, yes: Box<Code>, no: Box<Code>) -> Code
    ensures { view result ≡ plain.Choose sort (view test.value) (view yes.value) (view no.value) }
{
    Code::Choose(sort, test, yes, no)
}

/// What is kept for other code.
pub(crate) fn kept_while(
    alloc: Global,
    kept: Result<Box<Code>, AllocError>,
    body: Result<Code, AllocError>,
) -> Result<Code, AllocError>
    ensures { (a b : plain.Code) → MakesBoxed kept a → Makes body b
        → Makes result (plain.Let a b) }
{
    let (kept, body) = both(kept, in_box(alloc, body))?;
    Ok(Code::Let(kept, body))
}

/// Code, and then its answer.
fn in_sequence(
    alloc: Global,
    first: Result<Code, AllocError>,
    answer: Code,
) -> Result<Code, AllocError>
    ensures { (a : plain.Code) → Makes first a → Makes result (plain.Seq a (view answer)) }
{
    let (first, answer) = both(in_box(alloc, first), boxed(alloc, answer))?;
    Ok(Code::Seq(first, answer))
}

/// Code is kept while other code stores it; then what was kept with so many others after it is the answer.
pub(crate) fn kept_and_stored(
    alloc: Global,
    kept: Result<Code, AllocError>,
    store: Result<Code, AllocError>,
    after: usize,
) -> Result<Code, AllocError>
    ensures { (a b : plain.Code) → Makes kept a → Makes store b
        → Makes result (plain.Let a (plain.Seq b (moved after))) }
{
    let body = in_sequence(alloc, store, Code::Bound(true, after));
    kept_while(alloc, in_box(alloc, kept), body)
}

/// A substitution: expression, replacement and target; and the code that stores the new text.
pub(crate) fn replaced(all: bool, operands: Vec<Operand>, store: Box<Code>) -> Code
    ensures { view result ≡ plain.Replace all (views operands.items) (view store.value) }
{
    Code::Replace(all, operands, store)
}

fn set(alloc: Global, slot: Slot, code: Result<Code, AllocError>) -> Result<Code, AllocError>
    ensures { (e : plain.Code) → Makes code e → Makes result (plain.Set (view_slot slot) e) }
{
    Ok(Code::Set(slot, in_box(alloc, code)?))
}

/// One of two numbers, by the truth of code.
fn one_of(alloc: Global, code: Code, yes: i64, no: i64) -> Result<Code, AllocError>
    ensures { IfOk result (λ chosen. view chosen ≡ plain.Choose sort.Number (view code)
        (plain.Number yes) (plain.Number no)) }
{
    let (yes, no) = (number(alloc, yes), number(alloc, no));
    let (test, yes, no) = all_three(boxed(alloc, code), yes, no)?;
    Ok(chosen(Sort::Number, test, yes, no))
}

/// The number of code's truth.
pub(crate) fn truth(alloc: Global, code: Code) -> Result<Code, AllocError>
    ensures { IfOk result (λ truth. view truth ≡ truth_code (view code)) }
{
    one_of(alloc, code, 1, 0)
}

/// The number of the opposite truth.
pub(crate) fn untruth(alloc: Global, code: Code) -> Result<Code, AllocError>
    ensures { IfOk result (λ untruth. view untruth ≡ untruth_code (view code)) }
{
    one_of(alloc, code, 0, 1)
}

/// The record.
pub(crate) fn record(alloc: Global) -> Result<Code, AllocError>
    ensures { IfOk result (λ code. view code ≡ record_code) }
{
    unary(alloc, Operation::Host(Primitive::Field), Code::Number(0))
}

/// A special variable.
pub(crate) fn reserved(alloc: Global, special: Special) -> Result<Code, AllocError>
    ensures { IfOk result (λ code. view code ≡ special_code special) }
{
    let number = Operand::Constant(u32::from(special.number()));
    done(
        Operation::Host(Primitive::GetSpecial),
        single(alloc, number),
    )
}

/// A special variable takes a value.
fn set_reserved(alloc: Global, special: Special, code: Code) -> Result<Code, AllocError>
    ensures { IfOk result (λ set. view set ≡ store_variable_code (view_variable (Variable.Reserved
        special)) (view code)) }
{
    let number = Operand::Constant(u32::from(special.number()));
    let operands = pair(alloc, number, Operand::Code(code));
    done(Operation::Host(Primitive::SetSpecial), operands)
}

/// A variable.
pub(crate) fn variable(alloc: Global, variable: Variable) -> Result<Code, AllocError>
    ensures { IfOk result (λ code. view code ≡ variable_code (view_variable variable)) }
{
    match variable {
        Variable::Global(number) => Ok(Code::Get(Slot::Global(false, number))),
        Variable::Parameter(place) => Ok(Code::Get(Slot::Parameter(false, place))),
        Variable::Reserved(special) => reserved(alloc, special),
    }
}

/// A variable takes a value, and nothing is asked of the answer.
pub(crate) fn store_variable(
    alloc: Global,
    variable: Variable,
    code: Code,
) -> Result<Code, AllocError>
    ensures { IfOk result (λ store. view store ≡ store_variable_code (view_variable variable) (view
        code)) }
{
    match variable {
        Variable::Global(number) => set(alloc, Slot::Global(false, number), Ok(code)),
        Variable::Parameter(place) => set(alloc, Slot::Parameter(false, place), Ok(code)),
        Variable::Reserved(special) => set_reserved(alloc, special, code),
    }
}

/// The same, and what it takes is the answer.
pub(crate) fn set_variable(
    alloc: Global,
    variable: Variable,
    code: Result<Code, AllocError>,
) -> Result<Code, AllocError>
    ensures { (e : plain.Code) → Makes code e
        → Makes result (set_variable_code (view_variable variable) e) }
{
    match variable {
        Variable::Global(number) => set(alloc, Slot::Global(false, number), code),
        Variable::Parameter(place) => set(alloc, Slot::Parameter(false, place), code),
        Variable::Reserved(special) => {
            let store = set_reserved(alloc, special, Code::Bound(false, 0));
            kept_and_stored(alloc, code, store, 0)
        }
    }
}
