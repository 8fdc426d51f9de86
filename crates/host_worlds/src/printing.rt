//! `print` and `printf`.
ghost use Rattle.std.specs.Prelude.{◌≡◌, ◌≤◌, IfErr, List, None, Ok, OnOk, ℕ, length};
ghost use Rattle.sem_primitives.specs.InTurn.{with_name};
ghost use Rattle.sem_primitives.specs.OutputMeaning.{formatted_values};
ghost use Rattle.sem_primitives.specs.Rows.{print_row, printf_row};
ghost use Rattle.world_core.specs.WorldState.{Action};
ghost use Rattle.host_imports.specs.declared.import.Import.{Import};
ghost use Rattle.host_imports.specs.declared.import.VariadicImport.{VariadicImport};
ghost use Rattle.host_values.specs.Forms.{HostForm};
ghost use Rattle.host_bytes.specs.Outcomes.{IsStopOf};
ghost use Rattle.host_streams.specs.OpenFiles.{HoldsOpen, WritersGo};
ghost use Rattle.host_streams.specs.Given.{Gives};
ghost use Rattle.host_streams.specs.Puts.{PutCounts};
ghost use Rattle.host_values.specs.WorldCalls.{IsCalled};
ghost use Rattle.host_worlds.specs.OutputCalls.{CountsFailure, Keeps, OutputGiven, PutsAs, answer_of};
ghost use Rattle.host_worlds.specs.Forms.{printing, shared_with, writing};

use crate::outlets::put_out;
use crate::output_line::fill;
use crate::taken::{operands, taken};
use awk_values::{Stop, Value, to_text};
use host_format::format_into;
use host_streams::Streams;
use host_texts::Specials;
use host_values::Refusal;
use sem_primitives::Destination;
use smallvec::SmallVec;
use std::alloc::Global;
use wasm_store::Word;
use world_core::World;

/// The answer to a text that was put out, or was not.
fn answer(put: Result<(), Stop>) -> Result<Option<Word>, Refusal>
    ensures { result ≡ answer_of put }
{
    match put {
        Ok(()) => Ok(Some(Word::I32(0))),
        Err(Stop::Fault(fault)) => Err(Refusal::Fault(fault)),
        Err(Stop::NoMemory) => Err(Refusal::NoMemory),
    }
}

/// Puts the texts of values out.
fn print_values<W: World>(
    alloc: Global,
    line: &mut Vec<u8>,
    specials: &Specials,
    streams: &mut Streams,
    world: &mut W,
    to: Destination,
    values: &[Value],
) -> Result<(), Stop>
    requires held { HoldsOpen streams.old (W.kinds world.old) }
    requires goes { W.is_modelled → WritersGo streams.old.writers.items (W.state world.old) }
    requires named { with_name to 0 ≤ length values.now }
    ensures keeps { Keeps W.is_modelled (W.kinds world.old) (W.kinds world.new) (W.state world.old)
        (W.state world.new) streams.old streams.new }
    ensures count { PutCounts result (W.count world.old) (W.count world.new) }
    ensures given { OutputGiven W.is_modelled W.did world.old world.new streams.old streams.new
        (W.state world.old) (W.state world.new) result
        (λ shared. print_row to values.now (shared_with specials.now shared)) }
    ensures told { W.is_modelled
        → PutsAs (λ shared. print_row to values.now (shared_with specials.now shared)) streams.old
        (W.state world.old) result streams.new (W.state world.new) }
{
    fill(line, specials, operands(to, values))?;
    put_out(alloc, streams, world, to, values, line.as_slice())
}

/// Makes a text the formatted text of values, the first of which is the format.
fn fill_formatted(alloc: Global, line: &mut Vec<u8>, values: &[Value]) -> Result<(), Stop>
    requires { 1 ≤ length values.now }
    ensures ok { OnOk result (formatted_values values.now ≡ Ok line.new.items) }
    ensures err { IfErr result (IsStopOf (formatted_values values.now)) }
{
    let Some((first, operands)) = values.split_first() else {
        unreachable!()
    };
    let text = to_text(alloc, first)?;
    format_into(line, text.as_slice(), operands)
}

/// Puts the formatted text of values out.
fn printf_values<W: World>(
    alloc: Global,
    line: &mut Vec<u8>,
    streams: &mut Streams,
    world: &mut W,
    to: Destination,
    values: &[Value],
) -> Result<(), Stop>
    requires held { HoldsOpen streams.old (W.kinds world.old) }
    requires goes { W.is_modelled → WritersGo streams.old.writers.items (W.state world.old) }
    requires named { with_name to 1 ≤ length values.now }
    ensures keeps { Keeps W.is_modelled (W.kinds world.old) (W.kinds world.new) (W.state world.old)
        (W.state world.new) streams.old streams.new }
    ensures count { CountsFailure (answer_of result) (W.count world.old) (W.count world.new) }
    ensures given { OutputGiven W.is_modelled W.did world.old world.new streams.old streams.new
        (W.state world.old) (W.state world.new) result (printf_row to values.now) }
    ensures told { W.is_modelled → PutsAs (printf_row to values.now) streams.old (W.state world.old)
        result streams.new (W.state world.new) }
{
    fill_formatted(alloc, line, operands(to, values))?;
    put_out(alloc, streams, world, to, values, line.as_slice())
}

/// Puts the last values of the argument list out, where no fault is kept: with OFS between them and ORS at the end, to the standard output, or to the
/// file that the last of them names. The values are taken, also at a fault. The text is made in `line` and goes out at once.
///
/// # Errors
///
/// A trap, which changes nothing; a fault, which is to be kept; or want of memory.
pub fn print<W: World>(
    alloc: Global,
    line: &mut Vec<u8>,
    specials: &Specials,
    arguments: &mut SmallVec<Value, 8>,
    streams: &mut Streams,
    world: &mut W,
    words: &[Word],
) -> Result<Option<Word>, Refusal>
    requires held { HoldsOpen streams.old (W.kinds world.old) }
    requires goes { W.is_modelled → WritersGo streams.old.writers.items (W.state world.old) }
    ensures step { (output : List Action)
        × Gives W.did world.old world.new streams.old.writers.items streams.new.writers.items output
        × ((f : HostForm) (memory : List ℕ) → f.fault ≡ None → IsCalled W.is_modelled
        (Import.Variadic VariadicImport.Print) (printing arguments.old.items specials.now
        streams.old (W.state world.old) f) words.now memory result
        (printing arguments.new.items specials.now streams.new (W.state world.new) f) output) }
    ensures keeps { Keeps W.is_modelled (W.kinds world.old) (W.kinds world.new) (W.state world.old)
        (W.state world.new) streams.old streams.new }
    ensures count { CountsFailure result (W.count world.old) (W.count world.new) }
{
    let (count, to) = match taken(arguments.as_slice(), 0, words) {
        Ok(taken) => taken,
        Err(kind) => return Err(Refusal::Trap(kind)),
    };
    let left = arguments.len() - count;
    let values = &arguments.as_slice()[left..];
    let put = print_values(alloc, line, specials, streams, world, to, values);
    arguments.truncate(left);
    answer(put)
}

/// Puts the formatted text of the last values of the argument list out, where no fault is kept. The values are taken, also at a fault. A fault of the
/// format comes before a file is opened. The text is made in `line` and goes out at once.
///
/// # Errors
///
/// A trap, which changes nothing; a fault, which is to be kept; or want of memory.
pub fn printf<W: World>(
    alloc: Global,
    line: &mut Vec<u8>,
    arguments: &mut SmallVec<Value, 8>,
    streams: &mut Streams,
    world: &mut W,
    words: &[Word],
) -> Result<Option<Word>, Refusal>
    requires held { HoldsOpen streams.old (W.kinds world.old) }
    requires goes { W.is_modelled → WritersGo streams.old.writers.items (W.state world.old) }
    ensures step { (output : List Action)
        × Gives W.did world.old world.new streams.old.writers.items streams.new.writers.items output
        × ((f : HostForm) (memory : List ℕ) → f.fault ≡ None → IsCalled W.is_modelled
        (Import.Variadic VariadicImport.Printf)
        (writing arguments.old.items streams.old (W.state world.old) f) words.now memory result
        (writing arguments.new.items streams.new (W.state world.new) f) output) }
    ensures keeps { Keeps W.is_modelled (W.kinds world.old) (W.kinds world.new) (W.state world.old)
        (W.state world.new) streams.old streams.new }
    ensures count { CountsFailure result (W.count world.old) (W.count world.new) }
{
    let (count, to) = match taken(arguments.as_slice(), 1, words) {
        Ok(taken) => taken,
        Err(kind) => return Err(Refusal::Trap(kind)),
    };
    let left = arguments.len() - count;
    let values = &arguments.as_slice()[left..];
    let put = printf_values(alloc, line, streams, world, to, values);
    arguments.truncate(left);
    answer(put)
}
