//! What a task of a module runs, and where the module was.
ghost use Rattle.std.specs.Prelude.{◌≡◌, map, IfSome};
ghost use Rattle.run_modules.specs.ModuleRun.{Answers, IsGiven};
ghost use Rattle.run_modules.specs.ModuleSeen.{IsModuleSeenIn};
ghost use Rattle.host_texts.specs.NameForms.{pair_of};
ghost use Rattle.task_pages.specs.Jobs.{fence_of_task, job_of_task};
ghost use Rattle.run_tasks.specs.Outlets.{IsGivenOut};
ghost use Rattle.run_tasks.specs.Runs.{GivesModule, RunsModule, SeesModule};
ghost use Rattle.world_core.specs.TraceParts.{IsHandedOn};
ghost use Rattle.world_os.specs.Behind.{behind};
ghost use Rattle.world_os.specs.Fences.{form_of, lets_read};

use crate::fences::os_world_of;
use crate::sandbox::Surroundings;
use awk_run::{ModuleWhereabouts, RunEnd, run_module_where};
use command_line::Task;
use host_texts::NamedText;
use std::alloc::Global;
use std::hash::RandomState;
use std::io::{Read, Write};
use std::rt::Files;
use task_pages::job_on;
use world_core::World;
use world_os::{FencedWorld, FileFence};

/// Runs a module as a task says, in an environment, in a world behind the fence of the task, and sees where it was.
fn module_seen_behind<'a, W: World>(
    alloc: Global,
    bytes: &[u8],
    task: &Task<'_>,
    environment: Vec<NamedText>,
    state: RandomState,
    world: FencedWorld<W, FileFence<'a>>,
) -> (
    RunEnd,
    Option<ModuleWhereabouts>,
    FencedWorld<W, FileFence<'a>>,
)
    requires { form_of world.fence ≡ fence_of_task task.now }
    ensures answers { Answers (W.is_modelled × ⊥)
        (IsGiven (IsHandedOn W.did) world.entry.inner result.2.inner) bytes.now
        (job_of_task task.now (map pair_of environment.items)) task.now.steps
        (behind (lets_read (fence_of_task task.now)) (W.state world.entry.inner)) result.0
        (behind (lets_read (form_of result.2.fence)) (W.state result.2.inner)) }
    ensures seen { IfSome result.1 (IsModuleSeenIn (W.is_modelled × ⊥) bytes.now
        (job_of_task task.now (map pair_of environment.items)) task.now.steps
        (behind (lets_read (fence_of_task task.now)) (W.state world.entry.inner))) }
{
    match job_on(alloc, task, environment) {
        Ok(job) => run_module_where(alloc, bytes, &job, state, world, task.steps),
        Err(_) => (RunEnd::NoMemory, None, world),
    }
}

/// Runs the module of these bytes as `module_end` does, and sees where it was.
pub fn module_seen<R: Files, I: Read + Drop, O: Write + Drop, E: Write + Drop>(
    alloc: Global,
    task: &Task<'_>,
    bytes: &[u8],
    around: Surroundings<'_, R, I, O, E>,
) -> (RunEnd, Option<ModuleWhereabouts>)
    ensures answers { RunsModule task.now bytes.now (map pair_of around.entry.environment.items)
        result.0 }
    ensures gave { GivesModule (IsGivenOut R.File.contents task.now.streams
        (O.contents around.entry.output) (E.contents around.entry.errors)) task.now bytes.now
        (map pair_of around.entry.environment.items) result.0 }
    ensures seen { SeesModule task.now bytes.now (map pair_of around.entry.environment.items)
        result.1 }
{
    let streams = (around.input, around.output, around.errors);
    match os_world_of(alloc, around.files, streams, task) {
        Ok(world) => {
            let (end, found, _) = module_seen_behind(
                alloc,
                bytes,
                task,
                around.environment,
                around.state,
                world,
            );
            (end, found)
        }
        Err(_) => (RunEnd::NoMemory, None),
    }
}
