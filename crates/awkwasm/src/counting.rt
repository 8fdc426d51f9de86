//! Runs that are counted: those of `count` and of `run --stats`.
ghost use Rattle.std.specs.Prelude.{◌⊎◌, ℕ, List, IfErr, IfOk, Ok};
ghost use Rattle.awkwasm.specs.Done.{Does, Exits};
ghost use Rattle.awkwasm.specs.Sights.{ScriptCounted};
ghost use Rattle.command_line.specs.declared.Request.TheVariants.{Count, Run};
ghost use Rattle.run_report.specs.CountTexts.{count_text, stats_text};
ghost use Rattle.task_pages.specs.Outcomes.{IsUnbegun, IsUnread};
ghost use Rattle.task_pages.specs.ToldLines.{Tells, is_uncounted};

use crate::tasks::surroundings;
use command_line::Task;
use run_report::{RunCounts, RunEnd};
use run_tasks::{SCRIPT_LIMIT, script_counted};
use task_pages::{Lines, TaskError, file_of, listing_of, stats_of, tell_lines};

/// Runs a script of these bytes as a task says, over real files, behind the fence of the task, and counts.
fn run_bytes(
    rt: &HostRuntime,
    task: &Task<'_>,
    script: &[u8],
) -> Result<(RunEnd, Option<RunCounts>), TaskError>
    ensures counted { IfOk result (λ r. ScriptCounted task.now script.now r.0 r.1) }
    ensures err { IfErr result IsUnbegun }
{
    let around = surroundings(rt)?;
    Ok(script_counted(rt.alloc(), task, script, around))
}

/// Runs the script in a task's file, and makes its listing.
fn count_file(rt: &HostRuntime, task: &Task<'_>) -> Result<(RunEnd, Lines), TaskError>
    ensures ok { IfOk result (λ r. Does (Count task.now) (Ok r.0)) }
    ensures told { IfOk result (λ r. (script : List ℕ)
        × Tells (is_uncounted r.0) (ScriptCounted task.now script r.0) (count_text script) r.1) }
    ensures err { IfErr result (λ undone. IsUnread undone ⊎ IsUnbegun undone) }
{
    let script = file_of(rt, task.subject, SCRIPT_LIMIT)?;
    let (end, counts) = run_bytes(rt, task, &script)?;
    let listing = listing_of(rt.alloc(), &script, &end, &counts);
    Ok((end, listing))
}

/// Runs the script of a task, and makes the lines that tell what the run took.
fn run_with_stats(rt: &HostRuntime, task: &Task<'_>) -> Result<(RunEnd, Lines), TaskError>
    ensures ok { IfOk result (λ r. Does (Run task.now) (Ok r.0)) }
    ensures told { IfOk result (λ r. Tells (is_uncounted r.0)
        (ScriptCounted task.now task.now.subject.now r.0) stats_text r.1) }
    ensures err { IfErr result IsUnbegun }
{
    let (end, counts) = run_bytes(rt, task, task.subject.as_bytes())?;
    let stats = stats_of(rt.alloc(), &end, &counts);
    Ok((end, stats))
}

/// Runs the script in a task's file, and lists its lines with how often they were executed, after the line that tells how it ended; the answer is the exit status.
pub(crate) fn count_and_tell(rt: &HostRuntime, task: &Task<'_>) -> u8
    ensures { Exits (Count task.now) result }
{
    tell_lines(rt, count_file(rt, task))
}

/// Runs the script of a task, and tells how it ended and what the run took; the answer is the exit status.
pub(crate) fn stats_and_tell(rt: &HostRuntime, task: &Task<'_>) -> u8
    ensures { Exits (Run task.now) result }
{
    tell_lines(rt, run_with_stats(rt, task))
}
