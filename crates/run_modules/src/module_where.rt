//! Modules in the sandbox, with where they were.
ghost use Rattle.std.specs.Prelude.{◌≡◌, [], IfSome, length, map, option_map};
ghost use Rattle.run_modules.specs.ModuleRun.{Answers, IsGiven};
ghost use Rattle.run_modules.specs.ModuleRunParts.{RunAnswers};
ghost use Rattle.run_modules.specs.ModuleSeen.{IsModuleSeenIn, IsModuleSeenOf};
ghost use Rattle.host_calls.specs.Forms.{host_form};
ghost use Rattle.host_tables.specs.Starts.{job_of};
ghost use Rattle.host_values.specs.Findings.{ShownFirst};
ghost use Rattle.script_places.specs.Lines.{form_of};
ghost use Rattle.sem_primitives.specs.Jobs.{JobForm};
ghost use Rattle.wasm_types.specs.Typing.{ModuleOk};
ghost use Rattle.wasm_types.specs.View.{view_module};

use crate::end::run_end;
use crate::module::read;
use crate::module_sights::{ModuleWhereabouts, run_module_seen};
use crate::noted_world::NotedWorld;
use host_calls::{Host, Job};
use module_validator::ValidModule;
use run_report::{Refusal, RunEnd};
use script_places::{FunctionLines, table_in};
use std::alloc::Global;
use std::hash::RandomState;
use wasm_machine::{LinkFault, Machine};
use world_core::World;

/// How many imports a module has.
fn import_count(valid: &ValidModule) -> usize
    ensures { result ≡ length (view_module valid.now).imports }
{
    valid.get().imports.len()
}

/// Links a module with a host, and runs it.
#[tactic(auto, using(crate::proofs::Gave::none_given))]
fn run_valid_seen<W: World>(
    alloc: Global,
    table: &Option<Vec<FunctionLines>>,
    valid: ValidModule,
    host: Host<W>,
    steps: u64,
) -> (RunEnd, Option<ModuleWhereabouts>, W)
    requires { ModuleOk (view_module valid) }
    ensures answers { (job : JobForm) → ShownFirst (host_form W.state host)
        job ((W.state host.world).readers 0) (W.state host.world).outside
        → host.input.files.writers.items ≡ []
        → RunAnswers W.is_modelled (IsGiven W.did host.world result.2) (view_module valid) job steps
        (W.state host.world) result.0 (W.state result.2) }
    ensures seen { (job : JobForm) → ShownFirst (host_form W.state host)
        job ((W.state host.world).readers 0) (W.state host.world).outside
        → IfSome result.1 (IsModuleSeenOf W.is_modelled
        (option_map (λ rows. map form_of rows.items) table.now) (view_module valid) job steps
        (W.state host.world)) }
{
    let imports = import_count(&valid);
    let mut machine = match Machine::new(alloc, valid, &host) {
        Ok(machine) => machine,
        Err(LinkFault::NoMemory) => return (RunEnd::NoMemory, None, host.into_world()),
        Err(fault) => {
            let end = RunEnd::Refused(Refusal::Link(fault));
            return (end, None, host.into_world());
        }
    };
    let (end, found, host) = run_module_seen(alloc, table, imports, &mut machine, host, steps);
    (run_end(host.kept_fault(), end), found, host.into_world())
}

/// Runs a module over a world, and tells where it was.
#[tactic(auto, using(crate::proofs::Runs::unread_answers, crate::proofs::Gave::none_given))]
fn run_seen_over<W: World>(
    alloc: Global,
    bytes: &[u8],
    job: &Job,
    state: RandomState,
    world: W,
    steps: u64,
) -> (RunEnd, Option<ModuleWhereabouts>, W)
    ensures answers { Answers W.is_modelled (IsGiven W.did world result.2) bytes.now
        (job_of job.now) steps (W.state world) result.0 (W.state result.2) }
    ensures seen { IfSome result.1 (IsModuleSeenIn W.is_modelled bytes.now (job_of job.now) steps
        (W.state world)) }
{
    let valid = match read(alloc, bytes) {
        Ok(valid) => valid,
        Err(end) => return (end, None, world),
    };
    let Ok(table) = table_in(alloc, bytes) else {
        return (RunEnd::NoMemory, None, world);
    };
    let host = match Host::new(alloc, job, state, world) {
        Ok(host) => host,
        Err(world) => return (RunEnd::NoMemory, None, world),
    };
    run_valid_seen(alloc, &table, valid, host, steps)
}

/// As `run_module`, and tells where the module was: where its run kept the first fault, or else where it ended. None is told of a module that is not run, or for
/// want of memory. The lines are those that are behind the module's bytes.
pub fn run_module_where<W: World>(
    alloc: Global,
    bytes: &[u8],
    job: &Job,
    state: RandomState,
    world: W,
    steps: u64,
) -> (RunEnd, Option<ModuleWhereabouts>, W)
    ensures answers { Answers W.is_modelled (IsGiven W.did world result.2) bytes.now
        (job_of job.now) steps (W.state world) result.0 (W.state result.2) }
    ensures seen { IfSome result.1 (IsModuleSeenIn W.is_modelled bytes.now (job_of job.now) steps
        (W.state world)) }
{
    let noted = NotedWorld::new(alloc, world);
    let (end, found, noted) = run_seen_over(alloc, bytes, job, state, noted, steps);
    (end, found, noted.into_inner())
}
