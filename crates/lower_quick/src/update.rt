//! Sums and differences of an unboxed name and what is evaluated first.
ghost use Rattle.std.specs.Option.{option_map};
ghost use Rattle.std.specs.Prelude.{◌≡◌};
ghost use Rattle.mid_program.specs.ViewCode.{view};
ghost use Rattle.lower_quick.specs.View.{view_holder, view_update};
ghost use Rattle.lower_model.specs.Quick.{let_update, set_update, update_in, update_of};

use crate::addition::is_sum;
use crate::operands::{binary_in, is_bound};
use crate::source::{Holder, holder_of, name_in};
use mid_program::{Arithmetic, Code};

/// A sum or a difference of a name and what is added, and the name that it goes to.
#[derive(Clone, Copy)]
pub struct Update<'a> {
    pub target: Holder,
    pub op: Arithmetic,
    pub name: Holder,
    pub added: &'a Code,
}

/// The sum of a name and what is added.
fn update_of<'a>(
    target: Holder,
    op: Arithmetic,
    name: Option<Holder>,
    added: &'a Code,
) -> Option<Update<'a>>
    ensures { option_map view_update result ≡ update_of (view_holder target) op (option_map view_holder name) (view added.now) }
{
    let name = name?;
    if is_sum(op) {
        Some(Update {
            target,
            op,
            name,
            added,
        })
    } else {
        None
    }
}

/// `n += e`, of what is added and what `n` takes.
fn set_update<'a>(target: Holder, added: &'a Code, value: &Code) -> Option<Update<'a>>
    ensures { option_map view_update result ≡ set_update (view_holder target) (view added.now) (view value.now) }
{
    let (op, left, right) = binary_in(value)?;
    if is_bound(right, true, 0) {
        update_of(target, op, name_in(left), added)
    } else {
        None
    }
}

/// The same, of code after what is added.
fn let_update<'a>(added: &'a Code, body: &Code) -> Option<Update<'a>>
    ensures { option_map view_update result ≡ let_update (view added.now) (view body.now) }
{
    match body {
        Code::Set(slot, value) => set_update(holder_of(*slot)?, added, value),
        _ => None,
    }
}

/// The sum with what is evaluated first, if code is one.
pub fn update_in(code: &Code) -> Option<Update<'_>>
    ensures { option_map view_update result ≡ update_in (view code.now) }
{
    match code {
        Code::Let(added, body) => let_update(added, body),
        _ => None,
    }
}
