//! What a task runs: its script or a module, over real files, behind its fence.
ghost use Rattle.std.specs.Prelude.{◌≡◌, map, IfSome};
ghost use Rattle.run_modules.specs.ModuleRun.{Answers, IsGiven};
ghost use Rattle.awk_run.specs.ScriptRuns.{ScriptAnswers};
ghost use Rattle.awk_run.specs.Seen.{IsSeenIn};
ghost use Rattle.host_texts.specs.NameForms.{pair_of};
ghost use Rattle.task_pages.specs.Jobs.{fence_of_task, job_of_task};
ghost use Rattle.run_tasks.specs.Outlets.{IsGivenOut};
ghost use Rattle.run_tasks.specs.Runs.{GivesModule, GivesText, RunsModule, RunsScript, SeesScript};
ghost use Rattle.world_core.specs.TraceParts.{IsHandedOn};
ghost use Rattle.world_os.specs.Behind.{behind};
ghost use Rattle.world_os.specs.Fences.{form_of, lets_read};

use crate::fences::os_world_of;
use awk_run::{Whereabouts, run_module, run_script, run_script_where};
use command_line::Task;
use host_texts::NamedText;
use run_report::RunEnd;
use std::alloc::Global;
use std::hash::RandomState;
use std::io::{Read, Write};
use std::rt::Files;
use task_pages::job_on;
use world_core::World;
use world_os::{FencedWorld, FileFence};

/// What a task is run in: files, the three standard streams, the environment, and what the keys of arrays are hashed with.
#[derive(Drop)]
pub struct Surroundings<'a, R: Files, I: Read + Drop, O: Write + Drop, E: Write + Drop> {
    /// The files of the system.
    pub files: &'a R,
    /// The standard input.
    pub input: I,
    /// The standard output.
    pub output: O,
    /// The standard error.
    pub errors: E,
    /// The environment.
    pub environment: Vec<NamedText>,
    /// It seeds the tables of arrays, and shows in no answer.
    pub state: RandomState,
}

/// Runs a task's script in an environment, in a world behind the fence of the task.
fn script_behind<'a, W: World>(
    alloc: Global,
    task: &Task<'_>,
    environment: Vec<NamedText>,
    state: RandomState,
    world: FencedWorld<W, FileFence<'a>>,
) -> (RunEnd, FencedWorld<W, FileFence<'a>>)
    requires { form_of world.fence ≡ fence_of_task task.now }
    ensures { ScriptAnswers (W.is_modelled × ⊥)
        (IsGiven (IsHandedOn W.did) world.entry.inner result.1.inner) task.now.subject.now
        (job_of_task task.now (map pair_of environment.items)) task.now.steps
        (behind (lets_read (fence_of_task task.now)) (W.state world.entry.inner)) result.0
        (behind (lets_read (form_of result.1.fence)) (W.state result.1.inner)) }
{
    let script = task.subject.as_bytes();
    match job_on(alloc, task, environment) {
        Ok(job) => run_script(alloc, script, &job, state, world, task.steps),
        Err(_) => (RunEnd::NoMemory, world),
    }
}

/// Runs a task's script, as above, and sees where it was.
fn script_seen_behind<'a, W: World>(
    alloc: Global,
    task: &Task<'_>,
    environment: Vec<NamedText>,
    state: RandomState,
    world: FencedWorld<W, FileFence<'a>>,
) -> (RunEnd, Option<Whereabouts>, FencedWorld<W, FileFence<'a>>)
    requires { form_of world.fence ≡ fence_of_task task.now }
    ensures answers { ScriptAnswers (W.is_modelled × ⊥)
        (IsGiven (IsHandedOn W.did) world.entry.inner result.2.inner) task.now.subject.now
        (job_of_task task.now (map pair_of environment.items)) task.now.steps
        (behind (lets_read (fence_of_task task.now)) (W.state world.entry.inner)) result.0
        (behind (lets_read (form_of result.2.fence)) (W.state result.2.inner)) }
    ensures seen { IfSome result.1 (IsSeenIn (W.is_modelled × ⊥) task.now.subject.now
        (job_of_task task.now (map pair_of environment.items)) task.now.steps
        (behind (lets_read (fence_of_task task.now)) (W.state world.entry.inner))) }
{
    let script = task.subject.as_bytes();
    match job_on(alloc, task, environment) {
        Ok(job) => run_script_where(alloc, script, &job, state, world, task.steps),
        Err(_) => (RunEnd::NoMemory, None, world),
    }
}

/// Runs a module as a task says, in an environment, in a world behind the fence of the task.
fn module_behind<'a, W: World>(
    alloc: Global,
    bytes: &[u8],
    task: &Task<'_>,
    environment: Vec<NamedText>,
    state: RandomState,
    world: FencedWorld<W, FileFence<'a>>,
) -> (RunEnd, FencedWorld<W, FileFence<'a>>)
    requires { form_of world.fence ≡ fence_of_task task.now }
    ensures { Answers (W.is_modelled × ⊥)
        (IsGiven (IsHandedOn W.did) world.entry.inner result.1.inner) bytes.now
        (job_of_task task.now (map pair_of environment.items)) task.now.steps
        (behind (lets_read (fence_of_task task.now)) (W.state world.entry.inner)) result.0
        (behind (lets_read (form_of result.1.fence)) (W.state result.1.inner)) }
{
    match job_on(alloc, task, environment) {
        Ok(job) => run_module(alloc, bytes, &job, state, world, task.steps),
        Err(_) => (RunEnd::NoMemory, world),
    }
}

/// Runs the script of a task over real files, behind the fence and within the limits of the task.
pub fn script_end<R: Files, I: Read + Drop, O: Write + Drop, E: Write + Drop>(
    alloc: Global,
    task: &Task<'_>,
    around: Surroundings<'_, R, I, O, E>,
) -> RunEnd
    ensures answers { RunsScript task.now (map pair_of around.entry.environment.items) result }
    ensures gave { GivesText (IsGivenOut R.File.contents task.now.streams
        (O.contents around.entry.output) (E.contents around.entry.errors)) task.now
        task.now.subject.now (map pair_of around.entry.environment.items) result }
{
    let streams = (around.input, around.output, around.errors);
    match os_world_of(alloc, around.files, streams, task) {
        Ok(world) => {
            let (end, _) = script_behind(alloc, task, around.environment, around.state, world);
            end
        }
        Err(_) => RunEnd::NoMemory,
    }
}

/// Runs the script of a task, as above, and sees where it was.
pub fn script_seen<R: Files, I: Read + Drop, O: Write + Drop, E: Write + Drop>(
    alloc: Global,
    task: &Task<'_>,
    around: Surroundings<'_, R, I, O, E>,
) -> (RunEnd, Option<Whereabouts>)
    ensures answers { RunsScript task.now (map pair_of around.entry.environment.items) result.0 }
    ensures gave { GivesText (IsGivenOut R.File.contents task.now.streams
        (O.contents around.entry.output) (E.contents around.entry.errors)) task.now
        task.now.subject.now (map pair_of around.entry.environment.items) result.0 }
    ensures seen { SeesScript task.now (map pair_of around.entry.environment.items) result.1 }
{
    let streams = (around.input, around.output, around.errors);
    match os_world_of(alloc, around.files, streams, task) {
        Ok(world) => {
            let (end, found, _) = script_seen_behind(
                alloc,
                task,
                around.environment,
                around.state,
                world,
            );
            (end, found)
        }
        Err(_) => (RunEnd::NoMemory, None),
    }
}

/// Runs the module of these bytes as a task says, over real files, behind the fence and within the limits of the task.
pub fn module_end<R: Files, I: Read + Drop, O: Write + Drop, E: Write + Drop>(
    alloc: Global,
    task: &Task<'_>,
    bytes: &[u8],
    around: Surroundings<'_, R, I, O, E>,
) -> RunEnd
    ensures answers { RunsModule task.now bytes.now (map pair_of around.entry.environment.items)
        result }
    ensures gave { GivesModule (IsGivenOut R.File.contents task.now.streams
        (O.contents around.entry.output) (E.contents around.entry.errors)) task.now bytes.now
        (map pair_of around.entry.environment.items) result }
{
    let streams = (around.input, around.output, around.errors);
    match os_world_of(alloc, around.files, streams, task) {
        Ok(world) => {
            let (end, _) = module_behind(
                alloc,
                bytes,
                task,
                around.environment,
                around.state,
                world,
            );
            end
        }
        Err(_) => RunEnd::NoMemory,
    }
}
