//! The formatted text of the last values of the argument list.
ghost use Rattle.std.specs.Prelude.{◌≡◌, ◌≤◌, ◌&&◌, IfErr, IfOk, List, ℕ, None, length, nat_le};
ghost use Rattle.std.specs.FinMap as map;
ghost use Rattle.sem_primitives.specs.InTurn.{listed_in_turn};
ghost use Rattle.sem_primitives.specs.Rows.{sprintf_row};
ghost use Rattle.sem_primitives.specs.declared.sorts.Constant.{Constant};
ghost use Rattle.sem_primitives.specs.declared.table.Listed.{Listed as AnyListed};
ghost use Rattle.host_step.specs.Arguments.{constant_front};
ghost use Rattle.host_step.specs.HostState.{HostState};
ghost use Rattle.host_step.specs.HostStep.{last_of};
ghost use Rattle.host_imports.specs.declared.import.Import.{Import};
ghost use Rattle.host_imports.specs.declared.import.VariadicImport.{VariadicImport};
ghost use Rattle.host_bytes.specs.Outcomes.{IsStopOf};
ghost use Rattle.host_values.specs.Calls.{reserved_handle, with_values};
ghost use Rattle.host_values.specs.Evaluations.{Values};
ghost use Rattle.host_values.specs.Fronts.{owned};
ghost use Rattle.host_values.specs.Singles.{with_arguments};
ghost use Rattle.host_step.specs.Outcomes.{IsCall};
ghost use Rattle.host_texts.specs.LastFormatted.{Formats, formatting};

use awk_values::{Fault, Stop, Value};
use host_format::format;
use host_handles::Handles;
use host_values::{Refusal, Reply, expect_end, give, value_text};
use smallvec::SmallVec;
use std::alloc::Global;
use wasm_store::{TrapKind, Word};

/// A count.
fn count_front(words: &[Word]) -> Result<(usize, &[Word]), TrapKind>
    ensures { owned result ≡ constant_front Constant.Count words.now }
{
    let Some((Word::I32(number), rest)) = words.split_first() else {
        return Err(TrapKind::BadArgument);
    };
    Ok((*number as usize, rest))
}

/// Whether so many values are there, and a format among them.
#[tactic(auto, using(crate::proofs::LastOnes::enough, crate::proofs::LastOnes::no_format, crate::proofs::LastOnes::too_many))]
fn suffices(arguments: &[Value], count: usize) -> bool
    ensures { result ≡ (nat_le count (length arguments.now) && listed_in_turn AnyListed.Sprintf
        (last_of count arguments.now)) }
{
    if arguments.len() < count {
        return false;
    }
    1 <= count
}

/// The formatted text of values, the first of which is the format.
fn formatted(alloc: Global, values: &[Value]) -> Result<Value, Stop>
    requires { 1 ≤ length values.now }
    ensures ok { IfOk result (λ value. sprintf_row values.now ≡ Ok value) }
    ensures err { IfErr result (IsStopOf (sprintf_row values.now)) }
{
    let Some((first, operands)) = values.split_first() else {
        unreachable!()
    };
    let text = value_text(alloc, first)?;
    Ok(Value::Text(format(alloc, text.as_slice(), operands)?))
}

/// How many values are taken, and what they come to.
fn formatting(
    alloc: Global,
    arguments: &[Value],
    words: &[Word],
) -> Result<(usize, Result<Reply, Fault>), Refusal>
    ensures step { (m : Values) (s : HostState) → Formats m (with_arguments arguments.now s) result
        (formatting m (with_arguments arguments.now s) words.now) }
    ensures within { IfOk result (λ x. x.0 ≤ length arguments.now) }
{
    let (count, rest) = count_front(words)?;
    expect_end(rest)?;
    if !suffices(arguments, count) {
        return Err(Refusal::Trap(TrapKind::BadArgument));
    }
    match formatted(alloc, &arguments[arguments.len() - count..]) {
        Ok(value) => Ok((count, Ok(Reply::Value(value)))),
        Err(Stop::Fault(fault)) => Ok((count, Err(fault))),
        Err(Stop::NoMemory) => Err(Refusal::NoMemory),
    }
}

/// The formatted text of the last values of the argument list, where no fault is kept: the values are taken, also at a fault, and the text gets a
/// handle.
///
/// # Errors
///
/// A trap, which changes nothing; a fault, which is to be kept; or want of memory.
pub fn sprintf(
    alloc: Global,
    handles: &mut Handles,
    arguments: &mut SmallVec<Value, 8>,
    words: &[Word],
) -> Result<Option<Word>, Refusal>
    requires { map.get handles.old reserved_handle ≡ None }
    ensures step { (s : HostState) (memory : List ℕ) → s.fault ≡ None
        → IsCall (Import.Variadic VariadicImport.Sprintf) (with_values handles.old (with_arguments
        arguments.old.items s)) words.now memory result (with_values handles.new (with_arguments
        arguments.new.items s)) }
    ensures reserved { map.get handles.new reserved_handle ≡ None }
{
    let (count, outcome) = match formatting(alloc, arguments.as_slice(), words) {
        Ok(evaluated) => evaluated,
        Err(refusal) => return Err(refusal),
    };
    let left = arguments.len() - count;
    arguments.truncate(left);
    match outcome {
        Ok(reply) => give(handles, reply),
        Err(fault) => Err(Refusal::Fault(fault)),
    }
}
