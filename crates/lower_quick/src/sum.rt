//! Sums and differences that go to an unboxed name.
ghost use Rattle.std.specs.Option.{option_map};
ghost use Rattle.std.specs.Prelude.{◌≡◌};
ghost use Rattle.mid_program.specs.ViewCode.{view};
ghost use Rattle.lower_quick.specs.Operands.{set_last};
ghost use Rattle.lower_quick.specs.View.{view_holder, view_source, view_sum};
ghost use Rattle.lower_model.specs.Quick.{let_sum, new_sum, old_source, set_sum, step_sum, stored_name, sum_in, sum_of, update_sum};

use crate::addition::addition_of;
use crate::operands::{binary_in, is_bound, number_of};
use crate::source::{Holder, Source, constant_in, holder_of, source_in};
use mid_program::{Arithmetic, Code};

/// A sum or a difference, and the name that it goes to.
#[derive(Clone, Copy, Drop)]
pub struct Sum {
    pub target: Holder,
    pub op: Arithmetic,
    pub left: Source,
    pub right: Source,
}

/// The sum of two sources.
fn sum_of(
    target: Holder,
    op: Arithmetic,
    left: Option<Source>,
    right: Option<Source>,
) -> Option<Sum>
    ensures { option_map view_sum result
        ≡ sum_of (view_holder target) op (option_map view_source left) (option_map view_source right) }
{
    let sum = addition_of(op, left, right)?;
    Some(Sum {
        target,
        op: sum.op,
        left: sum.left,
        right: sum.right,
    })
}

/// `n = a + e`, of what `n` takes.
fn set_sum(target: Holder, value: &Code) -> Option<Sum>
    ensures { option_map view_sum result ≡ set_sum (view_holder target) (view value.now) }
{
    let (op, left, right) = binary_in(value)?;
    sum_of(target, op, source_in(left), source_in(right))
}

/// `n += e`, of what is kept first and what `n` takes.
fn update_sum(target: Holder, kept: &Code, value: &Code) -> Option<Sum>
    ensures { option_map view_sum result ≡ update_sum (view_holder target) (view kept.now) (view value.now) }
{
    let (op, left, right) = binary_in(value)?;
    if is_bound(right, true, 0) {
        sum_of(target, op, source_in(left), source_in(kept))
    } else {
        None
    }
}

/// The source whose number is kept first in `n++`.
fn old_source(code: &Code) -> Option<Source>
    ensures { option_map view_source result ≡ old_source (view code.now) }
{
    source_in(number_of(code)?)
}

/// The unboxed name that takes what was kept last.
fn set_last(code: &Code) -> Option<Holder>
    ensures { option_map view_holder result ≡ set_last (view code.now) }
{
    match code {
        Code::Set(slot, value) if is_bound(value, true, 0) => holder_of(*slot),
        _ => None,
    }
}

/// The name that `n++` stores in, where its old number is the answer.
fn stored_name(code: &Code) -> Option<Holder>
    ensures { option_map view_holder result ≡ stored_name (view code.now) }
{
    match code {
        Code::Seq(store, answer) if is_bound(answer, true, 1) => set_last(store),
        _ => None,
    }
}

/// What the number that was kept and a constant are together.
fn new_sum(old: Option<Source>, target: Option<Holder>, code: &Code) -> Option<Sum>
    ensures { option_map view_sum result
        ≡ new_sum (option_map view_source old) (option_map view_holder target) (view code.now) }
{
    let target = target?;
    let (op, left, right) = binary_in(code)?;
    if !is_bound(left, false, 0) {
        return None;
    }
    let number = constant_in(right)?;
    sum_of(target, op, old, Some(Source::Constant(number)))
}

/// `n++`: the number before is kept, then the one after.
fn step_sum(kept: &Code, new: &Code, stores: &Code) -> Option<Sum>
    ensures { option_map view_sum result
        ≡ step_sum (view kept.now) (view new.now) (view stores.now) }
{
    new_sum(old_source(kept), stored_name(stores), new)
}

/// The sum of code after something that is kept.
fn let_sum(kept: &Code, body: &Code) -> Option<Sum>
    ensures { option_map view_sum result ≡ let_sum (view kept.now) (view body.now) }
{
    match body {
        Code::Set(slot, value) => update_sum(holder_of(*slot)?, kept, value),
        Code::Let(new, stores) => step_sum(kept, new, stores),
        _ => None,
    }
}

/// The sum that code evaluates and stores, if that is all that it does.
pub fn sum_in(code: &Code) -> Option<Sum>
    ensures { option_map view_sum result ≡ sum_in (view code.now) }
{
    match code {
        Code::Set(slot, value) => set_sum(holder_of(*slot)?, value),
        Code::Let(kept, body) => let_sum(kept, body),
        _ => None,
    }
}
