//! Counters in arrays: an element takes the sum of its number and what is added.
ghost use Rattle.std.specs.Option.{option_map};
ghost use Rattle.std.specs.Prelude.{◌≡◌, false, zero};
ghost use Rattle.mid_program.specs.ViewCode.{view, view_array, views};
ghost use Rattle.lower_quick.specs.Operands.{is_elem, is_set_elem};
ghost use Rattle.lower_quick.specs.View.{view_tally};
ghost use Rattle.lower_model.specs.Quick.{array_here, array_where, element_at, element_last, element_read, element_set, first_sum, is_bound, number_read, taker_at, tally_after, tally_by, tally_first, tally_in, tally_kept, tally_of, tally_sum};

use crate::addition::is_sum;
use crate::operands::{binary_in, is_bound, let_in, number_of, three_codes, two_codes};
use mid_program::{Arithmetic, ArrayName, Code, Operand, Operation};
use sem_primitives::Primitive;

/// A counter: the arrays of the element that is read and of the one that is written, their key, and what is added.
#[derive(Clone, Copy)]
pub struct Tally<'a> {
    pub read: ArrayName,
    pub written: ArrayName,
    pub key: &'a Code,
    pub op: Arithmetic,
    pub added: &'a Code,
}

/// The array that code is.
fn array_here(code: &Code) -> Option<ArrayName>
    ensures { option_map view_array result ≡ array_here (view code.now) }
{
    match code {
        Code::Array(array) => Some(*array),
        _ => None,
    }
}

/// The array of `a[k]`, of its operands, where others were kept after the key.
fn element_at(operands: &[Operand], after: usize) -> Option<ArrayName>
    ensures { option_map view_array result ≡ element_at after (views operands.now) }
{
    let (array, key) = two_codes(operands)?;
    if is_bound(key, false, after) {
        array_here(array)
    } else {
        None
    }
}

/// Whether a primitive reads an element.
fn is_elem(primitive: Primitive) -> bool
    ensures { result ≡ is_elem primitive }
{
    matches!(primitive, Primitive::Elem)
}

/// The array of `a[k]`, if code is one.
fn element_read(code: &Code, after: usize) -> Option<ArrayName>
    ensures { option_map view_array result ≡ element_read after (view code.now) }
{
    let Code::Do(operation, operands) = code else {
        return None;
    };
    match operation {
        Operation::Host(primitive) => {
            if is_elem(*primitive) {
                element_at(operands, after)
            } else {
                None
            }
        }
        Operation::Inline(_) | Operation::AsNumber | Operation::FieldNumber => None,
    }
}

/// The array of an element whose number code is, where the key was kept last.
fn number_read(code: &Code) -> Option<ArrayName>
    ensures { option_map view_array result ≡ number_read (view code.now) }
{
    element_read(number_of(code)?, 0)
}

/// The array of `a[k] = v`, of its operands, where the value was kept last.
fn taker_at(operands: &[Operand], moves: bool, after: usize) -> Option<ArrayName>
    ensures { option_map view_array result ≡ taker_at moves after (views operands.now) }
{
    let (array, key, value) = three_codes(operands)?;
    if is_bound(key, true, after) && is_bound(value, moves, 0) {
        array_here(array)
    } else {
        None
    }
}

/// Whether a primitive writes an element.
fn is_set_elem(primitive: Primitive) -> bool
    ensures { result ≡ is_set_elem primitive }
{
    matches!(primitive, Primitive::SetElem)
}

/// The array of `a[k] = v`, if code is one.
fn element_set(code: &Code, moves: bool, after: usize) -> Option<ArrayName>
    ensures { option_map view_array result ≡ element_set moves after (view code.now) }
{
    let Code::Do(operation, operands) = code else {
        return None;
    };
    match operation {
        Operation::Host(primitive) => {
            if is_set_elem(*primitive) {
                taker_at(operands, moves, after)
            } else {
                None
            }
        }
        Operation::Inline(_) | Operation::AsNumber | Operation::FieldNumber => None,
    }
}

/// The same, where what was kept with so many others after it is the answer.
fn element_last(code: &Code, moves: bool, after: usize, answer: usize) -> Option<ArrayName>
    ensures { option_map view_array result ≡ element_last moves after answer (view code.now) }
{
    match code {
        Code::Seq(store, last) if is_bound(last, true, answer) => element_set(store, moves, after),
        _ => None,
    }
}

/// A counter, where an element is read and one is written.
fn tally_of<'a>(
    op: Arithmetic,
    key: &'a Code,
    added: &'a Code,
    read: Option<ArrayName>,
    written: Option<ArrayName>,
) -> Option<Tally<'a>>
    ensures { option_map view_tally result ≡ tally_of op (view key.now) (view added.now)
        (option_map view_array read) (option_map view_array written) }
{
    match (read, written) {
        (Some(read), Some(written)) if is_sum(op) => Some(Tally {
            read,
            written,
            key,
            op,
            added,
        }),
        _ => None,
    }
}

/// The array of an element whose number was kept, if that is what an operand is.
fn number_kept(operand: &Code, kept: &Code) -> Option<ArrayName>
    ensures { option_map view_array result
        ≡ array_where (is_bound false zero (view operand.now)) (number_read (view kept.now)) }
{
    if is_bound(operand, false, 0) {
        number_read(kept)
    } else {
        None
    }
}

/// `a[k] += e` or `a[k]++`, of what was kept after the key, the operands of `+`, and what is done then.
fn tally_by<'a>(
    op: Arithmetic,
    key: &'a Code,
    kept: &'a Code,
    left: &Code,
    right: &'a Code,
    last: &Code,
) -> Option<Tally<'a>>
    ensures { option_map view_tally result ≡ tally_by op (view key.now) (view kept.now)
        (view left.now) (view right.now) (view last.now) }
{
    match right {
        Code::Bound(true, 0) => {
            let read = element_read(left, 1);
            tally_of(op, key, kept, read, element_last(last, false, 2, 0))
        }
        Code::Number(_) => {
            let read = number_kept(left, kept);
            tally_of(op, key, right, read, element_last(last, true, 2, 1))
        }
        _ => None,
    }
}

/// The same, of the sum.
fn tally_sum<'a>(key: &'a Code, kept: &'a Code, sum: &'a Code, last: &Code) -> Option<Tally<'a>>
    ensures { option_map view_tally result
        ≡ tally_sum (view key.now) (view kept.now) (view sum.now) (view last.now) }
{
    let (op, left, right) = binary_in(sum)?;
    tally_by(op, key, kept, left, right, last)
}

/// `++a[k]`, of the operands of `+` and what is done then.
fn tally_first<'a>(
    op: Arithmetic,
    key: &'a Code,
    left: &Code,
    right: &'a Code,
    last: &Code,
) -> Option<Tally<'a>>
    ensures { option_map view_tally result
        ≡ tally_first op (view key.now) (view left.now) (view right.now) (view last.now) }
{
    match right {
        Code::Number(_) => {
            let read = element_read(left, 0);
            tally_of(op, key, right, read, element_last(last, false, 1, 0))
        }
        _ => None,
    }
}

/// The same, of the sum.
fn first_sum<'a>(key: &'a Code, sum: &'a Code, last: &Code) -> Option<Tally<'a>>
    ensures { option_map view_tally result
        ≡ first_sum (view key.now) (view sum.now) (view last.now) }
{
    let (op, left, right) = binary_in(sum)?;
    tally_first(op, key, left, right, last)
}

/// A counter, of what is kept after the key and the code after that.
fn tally_after<'a>(key: &'a Code, kept: &'a Code, body: &'a Code) -> Option<Tally<'a>>
    ensures { option_map view_tally result
        ≡ tally_after (view key.now) (view kept.now) (view body.now) }
{
    match body {
        Code::Let(sum, last) => tally_sum(key, kept, sum, last),
        _ => first_sum(key, kept, body),
    }
}

/// The same, of the code after the key.
fn tally_kept<'a>(key: &'a Code, body: &'a Code) -> Option<Tally<'a>>
    ensures { option_map view_tally result ≡ tally_kept (view key.now) (view body.now) }
{
    let (kept, rest) = let_in(body)?;
    tally_after(key, kept, rest)
}

/// The counter that code is, if it is one.
pub fn tally_in(code: &Code) -> Option<Tally<'_>>
    ensures { option_map view_tally result ≡ tally_in (view code.now) }
{
    let (key, body) = let_in(code)?;
    tally_kept(key, body)
}
