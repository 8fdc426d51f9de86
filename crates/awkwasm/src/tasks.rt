//! What the command line asks for, over real files.
ghost use Rattle.std.specs.Prelude.{◌⊎◌, ℕ, List, map, not, IfErr, IfOk, Ok};
ghost use Rattle.awkwasm.specs.Done.{Does, Exits};
ghost use Rattle.awkwasm.specs.Sights.{ScriptSeen};
ghost use Rattle.command_line.specs.declared.Request.TheVariants.{Run};
ghost use Rattle.host_texts.specs.NameForms.{pair_of};
ghost use Rattle.host_texts.specs.declared.names.NamedText.{NamedText};
ghost use Rattle.run_report.specs.WhereTexts.{is_told, where_text};
ghost use Rattle.run_tasks.specs.Runs.{RunsModule, RunsScript};
ghost use Rattle.task_pages.specs.Environment.{IsSortedByName};
ghost use Rattle.task_pages.specs.Outcomes.{IsUnbegun, IsUnread};
ghost use Rattle.task_pages.specs.ToldLines.{Tells};

use crate::checking::check_file;
use crate::counting::{count_and_tell, stats_and_tell};
use crate::module_sight::exec_and_tell;
use command_line::{Request, Task};
use run_report::{RunEnd, Whereabouts};
use run_tasks::{Surroundings, compile_file, module_end, script_end, script_seen};
use std::io;
use std::io::{Printer, Stderr, Stdin};
use task_pages::{
    Lines, MODULE_LIMIT, TaskError, entries_of, environment_of, explain_to, file_of, imports_task,
    random_state, tell_lines, tell_task, where_lines,
};

/// What a run of the program is in.
pub(crate) type Around<'a> = Surroundings<'a, HostRuntime, Stdin, Printer<'a, HostRuntime>, Stderr>;

/// The surroundings of a run: real files, the standard streams, and the environment.
pub(crate) fn surroundings<'a>(rt: &'a HostRuntime) -> Result<Around<'a>, TaskError>
    ensures order { IfOk result (λ around. IsSortedByName around.environment.items) }
    ensures err { IfErr result IsUnbegun }
{
    let environment = environment_of(rt.alloc(), &entries_of(rt)?)?;
    let state = random_state(rt)?;
    Ok(Surroundings {
        files: rt,
        input: rt.stdin(),
        output: io::writer(rt),
        errors: rt.stderr(),
        environment,
        state,
    })
}

/// Runs the script of a task over real files, behind the fence of the task.
fn run_task(rt: &HostRuntime, task: &Task<'_>) -> Result<RunEnd, TaskError>
    ensures ok { IfOk result (λ e. (environment : List NamedText) × IsSortedByName environment
        × RunsScript task.now (map pair_of environment) e) }
    ensures err { IfErr result IsUnbegun }
{
    let around = surroundings(rt)?;
    Ok(script_end(rt.alloc(), task, around))
}

/// Runs the script of a task, as above, and sees where it was.
fn run_task_where(
    rt: &HostRuntime,
    task: &Task<'_>,
) -> Result<(RunEnd, Option<Whereabouts>), TaskError>
    ensures seen { IfOk result (λ r. ScriptSeen task.now r.0 r.1) }
    ensures err { IfErr result IsUnbegun }
{
    let around = surroundings(rt)?;
    Ok(script_seen(rt.alloc(), task, around))
}

/// Runs the module of these bytes as a task says, over real files, behind the fence of the task.
fn exec_bytes(rt: &HostRuntime, task: &Task<'_>, bytes: &[u8]) -> Result<RunEnd, TaskError>
    ensures ok { IfOk result (λ e. (environment : List NamedText) × IsSortedByName environment
        × RunsModule task.now bytes.now (map pair_of environment) e) }
    ensures err { IfErr result IsUnbegun }
{
    let around = surroundings(rt)?;
    Ok(module_end(rt.alloc(), task, bytes, around))
}

/// Runs the module in the file of a task.
fn exec_task(rt: &HostRuntime, task: &Task<'_>) -> Result<RunEnd, TaskError>
    ensures ok { IfOk result (λ e. (bytes : List ℕ) × (environment : List NamedText)
        × IsSortedByName environment × RunsModule task.now bytes (map pair_of environment) e) }
    ensures err { IfErr result (λ undone. IsUnread undone ⊎ IsUnbegun undone) }
{
    let bytes = file_of(rt, task.subject, MODULE_LIMIT)?;
    exec_bytes(rt, task, &bytes)
}

/// Runs the script of a task, and makes the lines that tell where it was.
fn told_run(rt: &HostRuntime, task: &Task<'_>) -> Result<(RunEnd, Lines), TaskError>
    ensures ok { IfOk result (λ r. Does (Run task.now) (Ok r.0)) }
    ensures told { IfOk result (λ r. Tells (not (is_told r.0)) (ScriptSeen task.now r.0)
        (where_text r.0) r.1) }
    ensures err { IfErr result IsUnbegun }
{
    let (end, found) = run_task_where(rt, task)?;
    let lines = where_lines(rt.alloc(), &end, &found);
    Ok((end, lines))
}

/// Runs the script of a task, and tells how it ended and where it was; the answer is the exit status.
fn run_and_tell(rt: &HostRuntime, task: &Task<'_>) -> u8
    ensures { Exits (Run task.now) result }
{
    tell_lines(rt, told_run(rt, task))
}

/// Does what a command line asks for, over real files; the answer is the exit status.
pub(crate) fn carry_out(rt: &HostRuntime, request: &Request) -> u8
    ensures { Exits request.now result }
{
    if let Request::Run(task) = request {
        if task.tells_stats {
            return stats_and_tell(rt, task);
        }
        if task.tells_where {
            return run_and_tell(rt, task);
        }
    }
    if let Request::Exec(task) = request {
        if task.tells_where {
            return exec_and_tell(rt, task);
        }
    }
    let done = match request {
        Request::Compile {
            script_file,
            out,
            has_lines,
        } => compile_file(rt, script_file, out, *has_lines),
        Request::Check(script_file) => check_file(rt, script_file),
        Request::Run(task) => run_task(rt, task),
        Request::Count(task) => return count_and_tell(rt, task),
        Request::Exec(task) => exec_task(rt, task),
        Request::Imports(file) => imports_task(rt, file),
        Request::Explain(name) => explain_to(rt.alloc(), &mut rt.stdout(), *name),
    };
    tell_task(rt, done)
}
