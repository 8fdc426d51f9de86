//! Texts that are put behind a boxed name's own.
ghost use Rattle.std.specs.Option.{option_map};
ghost use Rattle.std.specs.Prelude.{◌≡◌, ◌&&◌, map};
ghost use Rattle.mid_program.specs.Mid.{Code as Plain, Codes};
ghost use Rattle.mid_program.specs.ViewCode.{before, joined, view, view_array, view_slot, views};
ghost use Rattle.lower_quick.specs.Operands.{concat_in, is_concat};
ghost use Rattle.lower_quick.specs.View.{view_append};
ghost use Rattle.lower_model.specs.Appends.{append_in, append_of, are_still, is_array_of, is_chain, is_name, is_still, same_slot};

use crate::operands::two_codes;
use mid_program::{ArrayName, Code, Operand, Operation, Slot};
use sem_primitives::Primitive;

/// A boxed name by its number, and the chain that it takes: its own text with others behind it.
#[derive(Clone, Copy)]
pub struct Append<'a> {
    pub target: usize,
    pub chain: &'a Code,
}

/// Whether two slots are one.
fn same_slot(slot: Slot, other: Slot) -> bool
    ensures { result ≡ same_slot (view_slot slot) (view_slot other) }
{
    match (slot, other) {
        (Slot::Global(_, name), Slot::Global(_, number)) => name == number,
        (Slot::Parameter(_, place), Slot::Parameter(_, number)) => place == number,
        _ => false,
    }
}

/// Whether a slot is the parameter that an array is given for.
fn is_array_of(slot: Slot, array: ArrayName) -> bool
    ensures { result ≡ is_array_of (view_slot slot) (view_array array) }
{
    match (slot, array) {
        (Slot::Parameter(_, place), ArrayName::Given(parameter)) => place == parameter,
        _ => false,
    }
}

/// Whether code neither reads nor writes a name, calls no function and keeps nothing.
#[cycle(still)]
fn is_still(slot: Slot, code: &Code) -> bool
    ensures { result ≡ is_still (view_slot slot) (view code.now) }
{
    match code {
        Code::Do(_, operands) => are_still(slot, operands),
        Code::Over(_, operands) => are_still(slot, operands),
        Code::Joined(first, others, last) => {
            is_still(slot, first) && key_still(slot, others, is_still(slot, last))
        }
        Code::Compare(_, left, right) => is_still(slot, left) && is_still(slot, right),
        Code::Number(_) | Code::Text(_) | Code::IsOpen(_) => true,
        Code::Get(other) => !same_slot(slot, *other),
        Code::Array(array) => !is_array_of(slot, *array),
        Code::Choose(_, test, yes, no) => {
            is_still(slot, test) && is_still(slot, yes) && is_still(slot, no)
        }
        Code::Seq(first, second) => is_still(slot, first) && is_still(slot, second),
        Code::Call(_, _)
        | Code::Ask
        | Code::AskLine(_)
        | Code::FileLine(_, _)
        | Code::Replace(_, _, _)
        | Code::Unset
        | Code::Set(_, _)
        | Code::Let(_, _)
        | Code::Bound(_, _) => false,
    }
}

/// Whether an operand is such code, or a constant.
#[cycle(still)]
fn operand_still(slot: Slot, operand: &Operand) -> bool
    ensures { (rest : Codes) → are_still (view_slot slot) (before operand.now rest)
        ≡ (result && are_still (view_slot slot) rest) }
{
    match operand {
        Operand::Code(code) => is_still(slot, code),
        Operand::Constant(_) => true,
        Operand::Fresh => false,
    }
}

/// Whether all operands are.
#[cycle(still)]
fn are_still(slot: Slot, operands: &[Operand]) -> bool
    ensures { result ≡ are_still (view_slot slot) (views operands.now) }
{
    for operand in operands {
        if !operand_still(slot, operand) {
            return false;
        }
    }
    true
}

/// Whether the subscripts of a key are, by whether the last of them is.
#[cycle(still)]
fn key_still(slot: Slot, others: &[Code], after: bool) -> bool
    ensures { (last : Plain) → after ≡ is_still (view_slot slot) last
        → result ≡ is_still (view_slot slot) (joined (map view others.now) last) }
{
    for code in others {
        if !is_still(slot, code) {
            return false;
        }
    }
    after
}

/// Whether code reads this name.
fn is_name(slot: Slot, code: &Code) -> bool
    ensures { result ≡ is_name (view_slot slot) (view code.now) }
{
    match code {
        Code::Get(other) => same_slot(slot, *other),
        _ => false,
    }
}

/// Whether a primitive puts two texts together.
fn is_concat(primitive: Primitive) -> bool
    ensures { result ≡ is_concat primitive }
{
    matches!(primitive, Primitive::Concat)
}

/// The two texts that code puts together.
pub fn concat_in(code: &Code) -> Option<(&Code, &Code)>
    ensures { option_map (λ both. (view both.0.now, view both.1.now)) result
        ≡ concat_in (view code.now) }
{
    let Code::Do(operation, operands) = code else {
        return None;
    };
    match operation {
        Operation::Host(primitive) => {
            if is_concat(*primitive) {
                two_codes(operands)
            } else {
                None
            }
        }
        Operation::Inline(_) | Operation::AsNumber | Operation::FieldNumber => None,
    }
}

/// Whether code is a name's text with others behind it, which have nothing to do with the name.
fn is_chain(slot: Slot, code: &Code) -> bool
    ensures { result ≡ is_chain (view_slot slot) (view code.now) }
{
    match concat_in(code) {
        Some((left, right)) => is_still(slot, right)
            && (is_name(slot, left) || is_chain(slot, left)),
        None => false,
    }
}

/// The chain that a name takes, if it is one.
fn append_of(name: usize, code: &Code, chained: bool) -> Option<Append<'_>>
    ensures { option_map view_append result ≡ append_of name (view code.now) chained }
{
    if chained {
        Some(Append {
            target: name,
            chain: code,
        })
    } else {
        None
    }
}

/// The texts that are put behind a name's own, if that is all that code does.
pub fn append_in(code: &Code) -> Option<Append<'_>>
    ensures { option_map view_append result ≡ append_in (view code.now) }
{
    match code {
        Code::Set(Slot::Global(false, name), value) => {
            append_of(*name, value, is_chain(Slot::Global(false, *name), value))
        }
        _ => None,
    }
}
