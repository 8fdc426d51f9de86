//! What a call takes of the argument list.
ghost use Rattle.std.specs.Prelude.{◌≡◌, ◌≤◌, IfOk, length};
ghost use Rattle.sem_primitives.specs.ConstantPlaces.{destination_at};
ghost use Rattle.sem_primitives.specs.InTurn.{with_name};
ghost use Rattle.sem_primitives.specs.OutputMeaning.{but_last, operands_of};
ghost use Rattle.sem_primitives.specs.declared.sorts.Constant.{Constant};
ghost use Rattle.host_step.specs.Arguments.{constant_front};
ghost use Rattle.host_values.specs.Fronts.{owned};
ghost use Rattle.host_worlds.specs.Lists.{enough, listed, listing_words};

use awk_values::Value;
use host_values::expect_end;
use sem_primitives::Destination;
use wasm_store::{TrapKind, Word};

const UNFIT: TrapKind = TrapKind::BadArgument;

/// A count.
fn count_front(words: &[Word]) -> Result<(u32, &[Word]), TrapKind>
    ensures { owned result ≡ constant_front Constant.Count words.now }
{
    let Some((Word::I32(number), rest)) = words.split_first() else {
        return Err(UNFIT);
    };
    Ok((*number, rest))
}

fn destination_at(number: u32) -> Option<Destination>
    ensures { result ≡ destination_at number }
{
    match number {
        0 => Some(Destination::Standard),
        1 => Some(Destination::Emptied),
        2 => Some(Destination::Appended),
        _ => None,
    }
}

/// Where to.
fn destination_front(words: &[Word]) -> Result<(Destination, &[Word]), TrapKind>
    ensures { owned result ≡ constant_front Constant.Destination words.now }
{
    let Some((Word::I32(number), rest)) = words.split_first() else {
        return Err(UNFIT);
    };
    match destination_at(*number) {
        Some(to) => Ok((to, rest)),
        None => Err(UNFIT),
    }
}

/// A count, and where to.
fn listing_words(words: &[Word]) -> Result<(u32, Destination), TrapKind>
    ensures { result ≡ listing_words words.now }
{
    let (count, behind) = count_front(words)?;
    let (to, rest) = destination_front(behind)?;
    expect_end(rest)?;
    Ok((count, to))
}

/// How many values these are with the name of their file.
fn with_name(to: Destination, count: u32) -> usize
    ensures { result ≡ with_name to count }
{
    match to {
        Destination::Standard => count as usize,
        Destination::Emptied | Destination::Appended => count as usize + 1,
    }
}

/// Whether the values of a count are there, and as many as a call wants at least.
#[tactic(auto, using(crate::proofs::Lasts::suffices, crate::proofs::Lasts::too_few, crate::proofs::Lasts::too_many))]
fn enough(arguments: &[Value], least: u32, count: u32, to: Destination) -> bool
    ensures { result ≡ enough least arguments.now (count, to) }
{
    if arguments.len() < with_name(to, count) {
        return false;
    }
    least <= count
}

/// How many of the last values a call takes, and where to. It wants so many operands at least.
pub(crate) fn taken(
    arguments: &[Value],
    least: u32,
    words: &[Word],
) -> Result<(usize, Destination), TrapKind>
    ensures is { result ≡ listed least arguments.now words.now }
    ensures within { IfOk result (λ x. x.0 ≤ length arguments.now) }
    ensures named { IfOk result (λ x. with_name x.1 least ≤ x.0) }
{
    let (count, to) = listing_words(words)?;
    if enough(arguments, least, count, to) {
        Ok((with_name(to, count), to))
    } else {
        Err(UNFIT)
    }
}

/// The values but for the last.
#[tactic(auto, using(crate::proofs::Lasts::but_last_is))]
fn but_last(values: &[Value]) -> &[Value]
    requires { 1 ≤ length values.now }
    ensures { result.now ≡ but_last values.now }
{
    &values[..values.len() - 1]
}

/// The values but for the name of their file.
pub(crate) fn operands(to: Destination, values: &[Value]) -> &[Value]
    requires { with_name to 0 ≤ length values.now }
    ensures { result.now ≡ operands_of to values.now }
{
    match to {
        Destination::Standard => values,
        Destination::Emptied | Destination::Appended => but_last(values),
    }
}
