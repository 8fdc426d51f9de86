//! What is read without a handle.
ghost use Rattle.std.specs.Option.{option_map};
ghost use Rattle.std.specs.Prelude.{◌≡◌};
ghost use Rattle.mid_program.specs.ViewCode.{view, view_slot};
ghost use Rattle.lower_quick.specs.View.{view_holder, view_source};
ghost use Rattle.lower_model.specs.Quick.{constant_in, holder_of, is_near, name_in, source_in};

use mid_program::{Code, Slot};

/// The greatest magnitude of a constant in a sum that has a quick way.
const MOST: u64 = 1 << 52;

/// What has its number in one word: an unboxed name by its number, or an unboxed parameter by its place.
#[derive(Clone, Copy, Drop)]
pub enum Holder {
    Name(usize),
    Parameter(usize),
}

/// What has a number in one word, or a constant.
#[derive(Clone, Copy, Drop)]
pub enum Source {
    Held(Holder),
    Constant(i64),
}

/// Whether a sum with it may be in range.
pub(crate) fn is_near(source: Source) -> bool
    ensures { result ≡ is_near (view_source source) }
{
    match source {
        Source::Held(_) => true,
        Source::Constant(number) => number.unsigned_abs() <= MOST,
    }
}

/// What a slot is, if it is unboxed.
pub(crate) fn holder_of(slot: Slot) -> Option<Holder>
    ensures { option_map view_holder result ≡ holder_of (view_slot slot) }
{
    match slot {
        Slot::Global(true, name) => Some(Holder::Name(name)),
        Slot::Parameter(true, place) => Some(Holder::Parameter(place)),
        Slot::Global(false, _) | Slot::Parameter(false, _) => None,
    }
}

/// The source that code is, if it is one.
pub(crate) fn source_in(code: &Code) -> Option<Source>
    ensures { option_map view_source result ≡ source_in (view code.now) }
{
    match code {
        Code::Get(slot) => Some(Source::Held(holder_of(*slot)?)),
        Code::Number(number) => Some(Source::Constant(*number)),
        _ => None,
    }
}

/// The unboxed name that code reads.
pub(crate) fn name_in(code: &Code) -> Option<Holder>
    ensures { option_map view_holder result ≡ name_in (view code.now) }
{
    match code {
        Code::Get(slot) => holder_of(*slot),
        _ => None,
    }
}

/// The constant that code is.
pub(crate) fn constant_in(code: &Code) -> Option<i64>
    ensures { result ≡ constant_in (view code.now) }
{
    match code {
        Code::Number(number) => Some(*number),
        _ => None,
    }
}
