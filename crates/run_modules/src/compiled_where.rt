//! Modules of scripts in the sandbox, with where the scripts were.
ghost use Rattle.std.specs.Prelude.{◌≡◌, [], IfSome};
ghost use Rattle.run_modules.specs.ModuleRun.{Answers, IsGiven};
ghost use Rattle.run_modules.specs.ModuleRunParts.{RunAnswers};
ghost use Rattle.run_modules.specs.Seen.{IsSeenOf, IsSeenOfBytes};
ghost use Rattle.host_calls.specs.Forms.{host_form};
ghost use Rattle.host_tables.specs.Starts.{job_of};
ghost use Rattle.host_values.specs.Findings.{ShownFirst};
ghost use Rattle.sem_primitives.specs.Jobs.{JobForm};
ghost use Rattle.wasm_types.specs.Typing.{ModuleOk};
ghost use Rattle.wasm_types.specs.View.{view_module};

use crate::end::run_end;
use crate::module::read;
use crate::noted_world::{KnowsFailed, NotedWorld};
use crate::whereabouts::run_seen;
use host_calls::{Host, Job};
use module_validator::ValidModule;
use run_report::{Refusal, RunEnd, Whereabouts};
use std::alloc::Global;
use std::hash::RandomState;
use wasm_machine::{LinkFault, Machine};
use world_core::World;

/// Links a module with a host, and runs it.
#[tactic(auto, using(crate::proofs::Gave::none_given))]
fn run_valid_where<W: World + KnowsFailed>(
    alloc: Global,
    script: &[u8],
    valid: ValidModule,
    host: Host<W>,
    steps: u64,
) -> (RunEnd, Option<Whereabouts>, W)
    requires { ModuleOk (view_module valid) }
    ensures answers { (job : JobForm) → ShownFirst (host_form W.state host)
        job ((W.state host.world).readers 0) (W.state host.world).outside
        → host.input.files.writers.items ≡ []
        → RunAnswers W.is_modelled (IsGiven W.did host.world result.2) (view_module valid) job steps
        (W.state host.world) result.0 (W.state result.2) }
    ensures seen { (job : JobForm) → ShownFirst (host_form W.state host)
        job ((W.state host.world).readers 0) (W.state host.world).outside
        → IfSome result.1 (IsSeenOf W.is_modelled script.now (view_module valid) job steps
        (W.state host.world)) }
{
    let mut machine = match Machine::new(alloc, valid, &host) {
        Ok(machine) => machine,
        Err(LinkFault::NoMemory) => return (RunEnd::NoMemory, None, host.into_world()),
        Err(fault) => {
            let end = RunEnd::Refused(Refusal::Link(fault));
            return (end, None, host.into_world());
        }
    };
    let (end, found, host) = run_seen(alloc, script, &mut machine, host, steps);
    (run_end(host.kept_fault(), end), found, host.into_world())
}

/// Runs the module of a script in a job.
#[tactic(auto, using(crate::proofs::Runs::unread_answers, crate::proofs::Gave::none_given))]
fn run_module_where<W: World + KnowsFailed>(
    alloc: Global,
    script: &[u8],
    bytes: &[u8],
    job: &Job,
    state: RandomState,
    world: W,
    steps: u64,
) -> (RunEnd, Option<Whereabouts>, W)
    ensures answers { Answers W.is_modelled (IsGiven W.did world result.2) bytes.now
        (job_of job.now) steps (W.state world) result.0 (W.state result.2) }
    ensures seen { IfSome result.1 (IsSeenOfBytes W.is_modelled script.now bytes.now (job_of job.now)
        steps (W.state world)) }
{
    let valid = match read(alloc, bytes) {
        Ok(valid) => valid,
        Err(end) => return (end, None, world),
    };
    let host = match Host::new(alloc, job, state, world) {
        Ok(host) => host,
        Err(world) => return (RunEnd::NoMemory, None, world),
    };
    run_valid_where(alloc, script, valid, host, steps)
}

/// Runs the module of a script in a job over any world, and tells where the script was: where its run kept the first fault, or else where it ended. None is told of a
/// module that is not run, of a script that ends by itself, or for want of memory.
pub fn run_compiled_where<W: World>(
    alloc: Global,
    script: &[u8],
    bytes: &[u8],
    job: &Job,
    state: RandomState,
    world: W,
    steps: u64,
) -> (RunEnd, Option<Whereabouts>, W)
    ensures answers { Answers W.is_modelled (IsGiven W.did world result.2) bytes.now
        (job_of job.now) steps (W.state world) result.0 (W.state result.2) }
    ensures seen { IfSome result.1 (IsSeenOfBytes W.is_modelled script.now bytes.now (job_of job.now)
        steps (W.state world)) }
{
    let noted = NotedWorld::new(alloc, world);
    let (end, found, noted) = run_module_where(alloc, script, bytes, job, state, noted, steps);
    (end, found, noted.into_inner())
}
