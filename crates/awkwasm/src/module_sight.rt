//! A module's file that is run, and where the module was.
ghost use Rattle.std.specs.Prelude.{◌⊎◌, ℕ, List, not, IfErr, IfOk, Ok};
ghost use Rattle.awkwasm.specs.Done.{Does, Exits};
ghost use Rattle.awkwasm.specs.Sights.{InOrder};
ghost use Rattle.command_line.specs.declared.Request.TheVariants.{Exec};
ghost use Rattle.run_report.specs.WhereTexts.{is_told};
ghost use Rattle.run_tasks.specs.ModuleWhereTexts.{module_where_text};
ghost use Rattle.run_tasks.specs.Runs.{RunsModule, SeesModule};
ghost use Rattle.task_pages.specs.Outcomes.{IsUnbegun, IsUnread};
ghost use Rattle.task_pages.specs.ToldLines.{AreLines, Tells};

use crate::tasks::surroundings;
use command_line::Task;
use run_report::RunEnd;
use run_tasks::{ModuleWhereabouts, module_seen, module_where_text};
use std::alloc::{AllocError, Global};
use task_pages::{Lines, MODULE_LIMIT, TaskError, file_of, is_told, tell_lines};

/// How a run ended, and where the module was.
type Seen = (RunEnd, Option<ModuleWhereabouts>);

/// Runs the module of these bytes as a task says, over real files, behind the fence of the task, and sees where it was.
fn exec_bytes_where(rt: &HostRuntime, task: &Task<'_>, bytes: &[u8]) -> Result<Seen, TaskError>
    ensures seen { IfOk result (λ r. InOrder (λ environment.
        RunsModule task.now bytes.now environment r.0
        × SeesModule task.now bytes.now environment r.1)) }
    ensures err { IfErr result IsUnbegun }
{
    let around = surroundings(rt)?;
    Ok(module_seen(rt.alloc(), task, bytes, around))
}

/// Runs the module in the file of a task, and sees where it was.
fn exec_task_where(rt: &HostRuntime, task: &Task<'_>) -> Result<Seen, TaskError>
    ensures seen { IfOk result (λ r. (bytes : List ℕ) × InOrder (λ environment.
        RunsModule task.now bytes environment r.0 × SeesModule task.now bytes environment r.1)) }
    ensures err { IfErr result (λ undone. IsUnread undone ⊎ IsUnbegun undone) }
{
    let bytes = file_of(rt, task.subject, MODULE_LIMIT)?;
    exec_bytes_where(rt, task, &bytes)
}

/// The lines that tell where a module was as its run ended so. Where it is to be told and was not seen, memory ran out.
fn module_lines(alloc: Global, end: &RunEnd, found: &Option<ModuleWhereabouts>) -> Lines
    ensures { AreLines (not (is_told end.now)) (module_where_text end.now) found.now result }
{
    match found {
        Some(found) => module_where_text(alloc, end, found),
        None if is_told(end) => Err(AllocError),
        None => Ok(Vec::new(alloc)),
    }
}

/// Runs the module of a task, and makes the lines that tell where it was.
fn told_exec(rt: &HostRuntime, task: &Task<'_>) -> Result<(RunEnd, Lines), TaskError>
    ensures ok { IfOk result (λ r. Does (Exec task.now) (Ok r.0)) }
    ensures told { IfOk result (λ r. (bytes : List ℕ) × Tells (not (is_told r.0)) (λ found.
        InOrder (λ environment. RunsModule task.now bytes environment r.0
        × SeesModule task.now bytes environment found)) (module_where_text r.0) r.1) }
    ensures err { IfErr result (λ undone. IsUnread undone ⊎ IsUnbegun undone) }
{
    let (end, found) = exec_task_where(rt, task)?;
    let lines = module_lines(rt.alloc(), &end, &found);
    Ok((end, lines))
}

/// Runs the module of a task, and tells how it ended and where it was; the answer is the exit status.
pub(crate) fn exec_and_tell(rt: &HostRuntime, task: &Task<'_>) -> u8
    ensures { Exits (Exec task.now) result }
{
    tell_lines(rt, told_exec(rt, task))
}
