//! What the code of an expression needs.
ghost use Rattle.std.specs.Prelude.{◌≡◌, ◌+◌, map, max};
ghost use Rattle.lower_modules.specs.Counted.{counted};
ghost use Rattle.lower_modules.specs.Labels.{labels_among, labels_in};
ghost use Rattle.mid_program.specs.Mid.{Code as Plain, Codes, Do};
ghost use Rattle.mid_program.specs.ViewCode.{before, joined, view, views};
ghost use Rattle.lower_model.specs.Places.{arrays_among, arrays_in, calculated_room, room, rooms};

use crate::counts::{Counts, at_least, both, inside, later, made, more_if, only};
use lower_quick::addition_in;
use mid_program::{Arithmetic, Code, Operand, Operation};

/// How many temporaries an operator needs: a product is kept beside its factors.
fn calculated_room(operator: Arithmetic) -> u32
    ensures { result ≡ calculated_room operator }
{
    match operator {
        Arithmetic::Times => 3,
        Arithmetic::Plus
        | Arithmetic::Minus
        | Arithmetic::Over
        | Arithmetic::Modulo
        | Arithmetic::Truncated => 2,
    }
}

/// How many temporaries an operation needs at least.
fn least_room(operation: Operation) -> u32
    ensures { (operands : Codes) → max result (rooms operands) ≡ room (Do operation operands) }
{
    match operation {
        Operation::Inline(operator) => calculated_room(operator),
        Operation::Host(_) | Operation::AsNumber | Operation::FieldNumber => 1,
    }
}

/// What code needs that stores a text, which is kept, within a label.
fn stored(counts: Counts) -> Counts
    ensures temporaries { result.temporaries ≡ counted (counts.temporaries + 2) }
    ensures arrays { result.arrays ≡ counts.arrays }
    ensures iterators { result.iterators ≡ counts.iterators }
    ensures labels { result.labels ≡ counted (counts.labels + 1) }
{
    inside(later(later(counts)), 1)
}

/// What code needs whose value goes into the first temporary.
#[cycle(counts)]
pub(crate) fn counts_in(code: &Code) -> Counts
    ensures temporaries { result.temporaries ≡ counted (room (view code.now)) }
    ensures arrays { result.arrays ≡ counted (arrays_in (view code.now)) }
    ensures iterators { result.iterators ≡ 0 }
    ensures labels { result.labels ≡ counted (labels_in (view code.now)) }
{
    match code {
        Code::Do(operation, operands) => {
            let quick = addition_in(*operation, operands).is_some();
            let plain = at_least(least_room(*operation), counts_among(operands));
            more_if(quick, plain)
        }
        Code::Joined(first, others, last) => {
            let after = joined_counts(others, counts_in(last));
            both(counts_in(first), later(after))
        }
        Code::Over(_, operands) => at_least(1, counts_among(operands)),
        Code::Call(_, operands) => at_least(1, counts_among(operands)),
        Code::Compare(_, left, right) => both(counts_in(left), later(counts_in(right))),
        Code::Let(value, rest) => both(counts_in(value), later(counts_in(rest))),
        Code::Seq(first, second) => both(counts_in(first), counts_in(second)),
        Code::AskLine(store) => stored(counts_in(store)),
        Code::FileLine(name, store) => both(counts_in(name), stored(counts_in(store))),
        Code::Replace(_, operands, store) => both(
            at_least(3, counts_among(operands)),
            stored(counts_in(store)),
        ),
        Code::Set(_, value) => counts_in(value),
        Code::Choose(_, test, yes, no) => {
            both(
                counts_in(test),
                inside(both(counts_in(yes), counts_in(no)), 1),
            )
        }
        Code::Ask => only(2),
        Code::Number(_)
        | Code::Text(_)
        | Code::Unset
        | Code::Get(_)
        | Code::Array(_)
        | Code::IsOpen(_)
        | Code::Bound(_, _) => only(1),
    }
}

/// What an operand and those after it need.
#[cycle(counts)]
fn operand_counts(operand: &Operand, after: Counts) -> Counts
    ensures temporaries { (rest : Codes) → after.temporaries ≡ counted (rooms rest)
        → result.temporaries ≡ counted (rooms (before operand.now rest)) }
    ensures arrays { (rest : Codes) → after.arrays ≡ counted (arrays_among rest)
        → result.arrays ≡ counted (arrays_among (before operand.now rest)) }
    ensures iterators { result.iterators ≡ after.iterators }
    ensures labels { (rest : Codes) → after.labels ≡ counted (labels_among rest)
        → result.labels ≡ counted (labels_among (before operand.now rest)) }
{
    match operand {
        Operand::Code(code) => both(counts_in(code), later(after)),
        Operand::Constant(_) => after,
        Operand::Fresh => made(after),
    }
}

/// What operands need, one after the other.
#[cycle(counts)]
fn counts_among(operands: &[Operand]) -> Counts
    ensures temporaries { result.temporaries ≡ counted (rooms (views operands.now)) }
    ensures arrays { result.arrays ≡ counted (arrays_among (views operands.now)) }
    ensures iterators { result.iterators ≡ 0 }
    ensures labels { result.labels ≡ counted (labels_among (views operands.now)) }
{
    let mut needed = only(0);
    let mut left = operands.len();
    while left > 0 {
        left -= 1;
        needed = operand_counts(&operands[left], needed);
    }
    needed
}

/// What the last of some subscripts needs, after those before it.
#[cycle(counts)]
fn joined_counts(others: &[Code], last: Counts) -> Counts
    ensures temporaries { (code : Plain) → last.temporaries ≡ counted (room code)
        → result.temporaries ≡ counted (room (joined (map view others.now) code)) }
    ensures arrays { (code : Plain) → last.arrays ≡ counted (arrays_in code)
        → result.arrays ≡ counted (arrays_in (joined (map view others.now) code)) }
    ensures iterators { last.iterators ≡ 0 → result.iterators ≡ 0 }
    ensures labels { (code : Plain) → last.labels ≡ counted (labels_in code)
        → result.labels ≡ counted (labels_in (joined (map view others.now) code)) }
{
    let mut needed = last;
    let mut left = others.len();
    while left > 0 {
        left -= 1;
        needed = both(counts_in(&others[left]), later(needed));
    }
    needed
}
