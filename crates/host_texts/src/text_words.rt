//! What the words of a call say, beside what `host_values` reads.
ghost use Rattle.std.specs.Prelude.{◌≡◌};
ghost use Rattle.std.specs.FinMap as map;
ghost use Rattle.sem_primitives.specs.ConstantPlaces.{flag_at};
ghost use Rattle.sem_primitives.specs.declared.sorts.Constant.{Constant};
ghost use Rattle.host_step.specs.Arguments.{constant_front};
ghost use Rattle.host_values.specs.Evaluations.{Evaluation, Values};
ghost use Rattle.host_values.specs.Fronts.{handle_front, lent_handle, owned};
ghost use Rattle.host_texts.specs.Shapes.{one_given, one_then, two_given, two_then};
ghost use Rattle.awk_values.specs.declared.value.Value.{Value as AnyValue};

use awk_values::Value;
use host_handles::Handles;
use host_values::{expect_end, value_after, value_front};
use sem_primitives::Special;
use wasm_store::{TrapKind, Word};

const UNFIT: TrapKind = TrapKind::BadArgument;

/// The one value that the words name, with its handle.
#[inline(always)]
pub(crate) fn one_value<'a>(
    handles: &'a Handles,
    words: &[Word],
) -> Result<(i32, &'a Value), TrapKind>
    ensures { (f : AnyValue → Values → Evaluation) → one_then handles.now words.now f
        ≡ one_given handles.now f result }
{
    let (handle, value, rest) = value_front(handles, words)?;
    expect_end(rest)?;
    Ok((handle, value))
}

/// The two values that the words name, each with its handle.
#[inline(always)]
pub(crate) fn two_values<'a>(
    handles: &'a Handles,
    words: &[Word],
) -> Result<(i32, &'a Value, i32, &'a Value), TrapKind>
    ensures { (f : AnyValue → AnyValue → Values → Evaluation) → two_then handles.now words.now f
        ≡ two_given handles.now f result }
{
    let (first, value, behind) = value_front(handles, words)?;
    let (second, other, rest) = value_after(handles, first, behind)?;
    expect_end(rest)?;
    Ok((first, value, second, other))
}

/// A handle, with its value, where two handles before it are spent.
#[tactic(auto, using(host_values::proofs::Tables::get_removed, host_values::proofs::Tables::get_others))]
pub(crate) fn value_third<'a, 'b>(
    handles: &'a Handles,
    first: i32,
    second: i32,
    words: &'b [Word],
) -> Result<(i32, &'a Value, &'b [Word]), TrapKind>
    ensures { lent_handle result
        ≡ handle_front (map.remove (map.remove handles.now first) second) words.now }
{
    let Some((Word::I32(handle), rest)) = words.split_first() else {
        return Err(UNFIT);
    };
    let handle = handle.cast_signed();
    if handle == second {
        return Err(TrapKind::BadHandle);
    }
    if handle == first {
        return Err(TrapKind::BadHandle);
    }
    match handles.view(handle) {
        Some(value) => Ok((handle, value, rest)),
        None => Err(TrapKind::BadHandle),
    }
}

/// A special variable.
pub(crate) fn special_front(words: &[Word]) -> Result<(Special, &[Word]), TrapKind>
    ensures { owned result ≡ constant_front Constant.Special words.now }
{
    let Some((Word::I32(number), rest)) = words.split_first() else {
        return Err(UNFIT);
    };
    match Special::of_number(*number) {
        Some(special) => Ok((special, rest)),
        None => Err(UNFIT),
    }
}

/// No, or yes.
fn flag_at(number: u32) -> Option<bool>
    ensures { result ≡ flag_at number }
{
    match number {
        0 => Some(false),
        1 => Some(true),
        _ => None,
    }
}

/// A flag.
///
/// # Errors
///
/// A trap, where none is there.
pub fn flag_front(words: &[Word]) -> Result<(bool, &[Word]), TrapKind>
    ensures { owned result ≡ constant_front Constant.Flag words.now }
{
    let Some((Word::I32(number), rest)) = words.split_first() else {
        return Err(UNFIT);
    };
    match flag_at(*number) {
        Some(flag) => Ok((flag, rest)),
        None => Err(UNFIT),
    }
}
