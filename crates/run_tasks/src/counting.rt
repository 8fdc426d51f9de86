//! Scripts of tasks, run and counted.
ghost use Rattle.std.specs.Prelude.{◌≡◌, map, IfSome};
ghost use Rattle.awk_run.specs.Counted.{IsCountedIn};
ghost use Rattle.run_modules.specs.ModuleRun.{IsGiven};
ghost use Rattle.awk_run.specs.ScriptRuns.{ScriptAnswers};
ghost use Rattle.host_texts.specs.NameForms.{pair_of};
ghost use Rattle.task_pages.specs.Jobs.{fence_of_task, job_of_task};
ghost use Rattle.run_tasks.specs.Outlets.{IsGivenOut};
ghost use Rattle.run_tasks.specs.Runs.{CountsText, GivesText, RunsText};
ghost use Rattle.world_core.specs.TraceParts.{IsHandedOn};
ghost use Rattle.world_os.specs.Behind.{behind};
ghost use Rattle.world_os.specs.Fences.{form_of, lets_read};

use crate::fences::os_world_of;
use crate::sandbox::Surroundings;
use awk_run::{RunCounts, count_script};
use command_line::Task;
use host_texts::NamedText;
use run_report::RunEnd;
use std::alloc::Global;
use std::hash::RandomState;
use std::io::{Read, Write};
use std::rt::Files;
use task_pages::job_on;
use world_core::World;
use world_os::{FencedWorld, FileFence};

/// Runs a script of these bytes as a task says, in an environment, in a world behind the fence of the task, and counts.
fn counted_behind<'a, W: World>(
    alloc: Global,
    task: &Task<'_>,
    script: &[u8],
    environment: Vec<NamedText>,
    state: RandomState,
    world: FencedWorld<W, FileFence<'a>>,
) -> (RunEnd, Option<RunCounts>, FencedWorld<W, FileFence<'a>>)
    requires { form_of world.fence ≡ fence_of_task task.now }
    ensures answers { ScriptAnswers (W.is_modelled × ⊥)
        (IsGiven (IsHandedOn W.did) world.entry.inner result.2.inner) script.now
        (job_of_task task.now (map pair_of environment.items)) task.now.steps
        (behind (lets_read (fence_of_task task.now)) (W.state world.entry.inner)) result.0
        (behind (lets_read (form_of result.2.fence)) (W.state result.2.inner)) }
    ensures counted { IfSome result.1 (IsCountedIn (W.is_modelled × ⊥) script.now
        (job_of_task task.now (map pair_of environment.items)) task.now.steps
        (behind (lets_read (fence_of_task task.now)) (W.state world.entry.inner))) }
{
    match job_on(alloc, task, environment) {
        Ok(job) => count_script(alloc, script, &job, state, world, task.steps),
        Err(_) => (RunEnd::NoMemory, None, world),
    }
}

/// Runs a script of these bytes as a task says, over real files, behind the fence and within the limits of the task, and counts how often its lines are executed,
/// and what the run takes.
pub fn script_counted<R: Files, I: Read + Drop, O: Write + Drop, E: Write + Drop>(
    alloc: Global,
    task: &Task<'_>,
    script: &[u8],
    around: Surroundings<'_, R, I, O, E>,
) -> (RunEnd, Option<RunCounts>)
    ensures answers { RunsText task.now script.now (map pair_of around.entry.environment.items)
        result.0 }
    ensures gave { GivesText (IsGivenOut R.File.contents task.now.streams
        (O.contents around.entry.output) (E.contents around.entry.errors)) task.now script.now
        (map pair_of around.entry.environment.items) result.0 }
    ensures counted { CountsText task.now script.now (map pair_of around.entry.environment.items)
        result.1 }
{
    let streams = (around.input, around.output, around.errors);
    match os_world_of(alloc, around.files, streams, task) {
        Ok(world) => {
            let (end, counts, _) = counted_behind(
                alloc,
                task,
                script,
                around.environment,
                around.state,
                world,
            );
            (end, counts)
        }
        Err(_) => (RunEnd::NoMemory, None),
    }
}
