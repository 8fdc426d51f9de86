//! What is told of a task: the line of how it ended, and the lines of its run.
ghost use Rattle.std.specs.Io.KnownBytes.{Appends};
ghost use Rattle.std.specs.Prelude.{◌≡◌, ◌++◌, not, OnOk};
ghost use Rattle.run_report.specs.WhereTexts.{is_told, where_text};
ghost use Rattle.task_pages.specs.Outcomes.{end_of};
ghost use Rattle.task_pages.specs.Printed.{told_text};
ghost use Rattle.task_pages.specs.Tasks.{task_code};
ghost use Rattle.task_pages.specs.ToldLines.{AreLines, lines_in};

use crate::output::{unwritten, write_text};
use crate::task_error::{TaskError, undone_status, undone_text};
use crate::unlined::is_told;
use run_report::{RunEnd, Whereabouts, no_memory_text, status_of, tell_end, where_text};
use std::alloc::{AllocError, Global};
use std::io;
use std::io::Write;

/// What is told of a run after the line of its end; an error for want of memory.
pub type Lines = Result<Vec<u8>, AllocError>;

/// Writes the line that tells what became of a task where that is no status of its own. For want of memory it is constant.
fn write_told<W: Write>(
    alloc: Global,
    to: &mut W,
    done: &Result<RunEnd, TaskError>,
) -> io::Result<()>
    ensures { OnOk result (Appends (W.contents to.old) (W.contents to.new) (told_text done.now)) }
{
    match done {
        Ok(RunEnd::NoMemory) => to.write_all(no_memory_text()),
        Ok(end) => tell_end(alloc, to, end),
        Err(undone) => to.write_all(undone_text(undone)),
    }
}

/// The exit status of what became of a task.
fn task_status(done: &Result<RunEnd, TaskError>) -> u8
    ensures { result ≡ task_code done.now }
{
    match done {
        Ok(end) => status_of(end),
        Err(undone) => undone_status(undone),
    }
}

/// Tells what became of a task where that is no status of its own; the answer is the exit status. That it is not told changes nothing.
pub fn tell_task(rt: &HostRuntime, done: Result<RunEnd, TaskError>) -> u8
    ensures { result ≡ task_code done }
{
    let _ = write_told(rt.alloc(), &mut rt.stderr(), &done);
    task_status(&done)
}

/// The lines for which there was memory.
fn lines_in(lines: &Lines) -> &[u8]
    ensures { result.now ≡ lines_in lines.now }
{
    match lines {
        Ok(lines) => lines.as_slice(),
        Err(_) => &[],
    }
}

/// Writes what became of a task, and then the lines of its run.
#[tactic(auto, using(run_report::proofs::Written::both))]
fn write_lines<W: Write>(
    alloc: Global,
    to: &mut W,
    done: &Result<RunEnd, TaskError>,
    lines: &Lines,
) -> Result<(), TaskError>
    ensures { OnOk result (Appends (W.contents to.old) (W.contents to.new)
        (told_text done.now ++ lines_in lines.now)) }
{
    let told = write_told(alloc, to, done);
    write_text(to, lines_in(lines))?;
    match told {
        Ok(()) => Ok(()),
        Err(error) => Err(unwritten(&error)),
    }
}

/// Tells what became of a task, and then the lines of its run; the answer is the exit status. That they are not told changes nothing.
pub fn tell_lines(rt: &HostRuntime, told: Result<(RunEnd, Lines), TaskError>) -> u8
    ensures { result ≡ task_code (end_of told) }
{
    match told {
        Ok((end, lines)) => {
            let done = Ok(end);
            let _ = write_lines(rt.alloc(), &mut rt.stderr(), &done, &lines);
            task_status(&done)
        }
        Err(undone) => tell_task(rt, Err(undone)),
    }
}

/// The lines that tell where a script was as its run ended so. Where it is to be told and was not seen, memory ran out.
///
/// # Errors
///
/// For want of memory.
pub fn where_lines(alloc: Global, end: &RunEnd, found: &Option<Whereabouts>) -> Lines
    ensures { AreLines (not (is_told end.now)) (where_text end.now) found.now result }
{
    match found {
        Some(found) => where_text(alloc, end, found),
        None if is_told(end) => Err(AllocError),
        None => Ok(Vec::new(alloc)),
    }
}
