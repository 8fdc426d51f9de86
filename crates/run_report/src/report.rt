//! What is told of a run's end and of a file: the exit status, and a line for the standard error.
ghost use Rattle.std.specs.Io.KnownBytes.{Appends};
ghost use Rattle.std.specs.Prelude.{◌≡◌, option_map, IfOk, OnOk};
ghost use Rattle.run_report.specs.EndTexts.{end_text, end_words, exit_code, file_text};
ghost use Rattle.run_report.specs.Parts.{words_of};

use crate::end::RunEnd;
use crate::faults::{refusal_words, trap_word};
use crate::line::{Told, line_of, write_line};
use std::alloc::{AllocError, Global};
use std::io;
use std::io::Write;

/// What failed of a file that the command line names.
#[derive(Clone, Copy, Debug, PartialEq, Eq, Drop)]
pub enum FileFault {
    /// It could not be read.
    CannotRead,
    /// It could not be written.
    CannotWrite,
}

/// The exit status of a run's end: its own status, 2 for a fault, 3 for what is refused, 4 where all steps were taken, 5 for want of memory,
/// 6 where calls were nested too deeply, 7 for a trap.
pub fn status_of(end: &RunEnd) -> u8
    ensures { result ≡ exit_code end.now }
{
    match end {
        RunEnd::Ended(status) => *status,
        RunEnd::Faulted(_) => 2,
        RunEnd::Refused(_) => 3,
        RunEnd::OutOfSteps => 4,
        RunEnd::NoMemory => 5,
        RunEnd::Exhausted => 6,
        RunEnd::Trapped(_) => 7,
    }
}

/// What is told of an end; nothing of one with a status of its own.
fn told_of(end: &RunEnd) -> Option<Told<'_>>
    ensures { option_map words_of result ≡ end_words end.now }
{
    let told = match end {
        RunEnd::Ended(_) => return None,
        RunEnd::Faulted(fault) => Told::alone(fault.name()),
        RunEnd::OutOfSteps => Told::alone("OutOfSteps"),
        RunEnd::Exhausted => Told::alone("Exhausted"),
        RunEnd::NoMemory => Told::alone("NoMemory"),
        RunEnd::Refused(refusal) => refusal_words(refusal),
        RunEnd::Trapped(kind) => Told::alone(trap_word(kind)),
    };
    Some(told)
}

/// The line for the standard error that tells a run's end: `awkwasm: `, the innermost name and what it carries, with single spaces between, and a
/// newline. A line of the script comes before a place within it. The text is empty for an end with a status of its own.
///
/// # Errors
///
/// For want of memory.
pub fn fault_text(alloc: Global, end: &RunEnd) -> Result<Vec<u8>, AllocError>
    ensures { IfOk result (λ text. text.items ≡ end_text end.now) }
{
    match told_of(end) {
        Some(told) => line_of(alloc, told),
        None => Ok(Vec::new(alloc)),
    }
}

/// Writes the line of an end in parts. It takes no memory.
#[tactic(auto, using(crate::proofs::Written::none))]
fn write_parts<W: Write>(to: &mut W, end: &RunEnd) -> io::Result<()>
    ensures { OnOk result (Appends (W.contents to.old) (W.contents to.new) (end_text end.now)) }
{
    match told_of(end) {
        Some(told) => write_line(to, told),
        None => Ok(()),
    }
}

/// Writes the line that tells a run's end, as [`fault_text`] has it: at once, or in parts where memory is wanting for it.
///
/// # Errors
///
/// Where it is not written.
pub fn tell_end<W: Write>(alloc: Global, to: &mut W, end: &RunEnd) -> io::Result<()>
    ensures { OnOk result (Appends (W.contents to.old) (W.contents to.new) (end_text end.now)) }
{
    match fault_text(alloc, end) {
        Ok(line) => to.write_all(line.as_slice()),
        Err(_) => write_parts(to, end),
    }
}

/// The line for the standard error that tells want of memory, as [`fault_text`] has it of [`RunEnd::NoMemory`]. It takes no memory.
#[tactic(auto, unfolding(crate::specs::EndTexts::line_of))]
pub fn no_memory_text() -> &'static [u8]
    ensures { result.now ≡ end_text RunEnd.NoMemory }
{
    "awkwasm: NoMemory\n".as_bytes()
}

/// The line for the standard error that tells what failed of a file.
#[tactic(auto, unfolding(crate::specs::EndTexts::line_of))]
pub fn file_fault_text(fault: &FileFault) -> &'static [u8]
    ensures { result.now ≡ file_text fault.now }
{
    match fault {
        FileFault::CannotRead => "awkwasm: CannotRead\n".as_bytes(),
        FileFault::CannotWrite => "awkwasm: CannotWrite\n".as_bytes(),
    }
}
