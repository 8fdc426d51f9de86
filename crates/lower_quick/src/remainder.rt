//! Remainders by constants that go to an unboxed name.
ghost use Rattle.std.specs.Option.{option_map};
ghost use Rattle.std.specs.Prelude.{◌≡◌};
ghost use Rattle.mid_program.specs.ViewCode.{view};
ghost use Rattle.lower_quick.specs.Operands.{is_modulo, is_times, product_in, unless_zero};
ghost use Rattle.lower_quick.specs.View.{view_holder, view_multiple, view_remainder};
ghost use Rattle.lower_model.specs.Quick.{factor_in, multiple_in, product_of, remainder_in, remainder_of, set_remainder};

use crate::operands::binary_in;
use crate::source::{Holder, holder_of, name_in};
use mid_program::{Arithmetic, Code};

/// A name, and what it is multiplied by, if it is.
#[derive(Clone, Copy, Drop)]
pub struct Multiple {
    pub name: Holder,
    pub factor: Option<i64>,
}

/// A remainder of a multiple, and the name that it goes to.
#[derive(Clone, Copy, Drop)]
pub struct Remainder {
    pub target: Holder,
    pub multiple: Multiple,
    pub divisor: i64,
}

fn is_times(op: Arithmetic) -> bool
    ensures { result ≡ is_times op }
{
    matches!(op, Arithmetic::Times)
}

fn is_modulo(op: Arithmetic) -> bool
    ensures { result ≡ is_modulo op }
{
    matches!(op, Arithmetic::Modulo)
}

/// The number, unless it is 0.
fn unless_zero(number: i64) -> Option<i64>
    ensures { result ≡ unless_zero number }
{
    if number.unsigned_abs() == 0 {
        None
    } else {
        Some(number)
    }
}

/// The constant that code is, unless it is 0.
fn factor_in(code: &Code) -> Option<i64>
    ensures { result ≡ factor_in (view code.now) }
{
    match code {
        Code::Number(number) => unless_zero(*number),
        _ => None,
    }
}

/// The product of a name and a constant.
fn product_of(name: Option<Holder>, factor: Option<i64>) -> Option<Multiple>
    ensures { option_map view_multiple result ≡ product_of (option_map view_holder name) factor }
{
    match (name, factor) {
        (Some(name), Some(factor)) => Some(Multiple {
            name,
            factor: Some(factor),
        }),
        _ => None,
    }
}

/// The product of a name and a constant that code is.
fn product_in(code: &Code) -> Option<Multiple>
    ensures { option_map view_multiple result ≡ product_in (view code.now) }
{
    let (op, left, right) = binary_in(code)?;
    if is_times(op) {
        product_of(name_in(left), factor_in(right))
    } else {
        None
    }
}

/// The name that code reads, or its product with a constant.
fn multiple_in(code: &Code) -> Option<Multiple>
    ensures { option_map view_multiple result ≡ multiple_in (view code.now) }
{
    match name_in(code) {
        Some(name) => Some(Multiple { name, factor: None }),
        None => product_in(code),
    }
}

/// The remainder of a multiple by a constant.
fn remainder_of(
    target: Holder,
    multiple: Option<Multiple>,
    divisor: Option<i64>,
) -> Option<Remainder>
    ensures { option_map view_remainder result
        ≡ remainder_of (view_holder target) (option_map view_multiple multiple) divisor }
{
    match (multiple, divisor) {
        (Some(multiple), Some(divisor)) => Some(Remainder {
            target,
            multiple,
            divisor,
        }),
        _ => None,
    }
}

/// The remainder that a name takes.
fn set_remainder(target: Holder, value: &Code) -> Option<Remainder>
    ensures { option_map view_remainder result ≡ set_remainder (view_holder target) (view value.now) }
{
    let (op, left, right) = binary_in(value)?;
    if is_modulo(op) {
        remainder_of(target, multiple_in(left), factor_in(right))
    } else {
        None
    }
}

/// The remainder that code evaluates and stores, if that is all that it does.
pub fn remainder_in(code: &Code) -> Option<Remainder>
    ensures { option_map view_remainder result ≡ remainder_in (view code.now) }
{
    match code {
        Code::Set(slot, value) => set_remainder(holder_of(*slot)?, value),
        _ => None,
    }
}
