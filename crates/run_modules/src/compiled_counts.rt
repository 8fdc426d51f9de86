//! Modules of scripts in the sandbox, with how often the scripts' lines were executed.
ghost use Rattle.std.specs.Prelude.{◌≡◌, [], IfSome, List, None};
ghost use Rattle.run_modules.specs.Counted.{IsCounted, IsCountedOf, IsCountedOfBytes};
ghost use Rattle.run_modules.specs.ModuleRun.{Answers, IsGiven};
ghost use Rattle.run_modules.specs.ModuleRunParts.{RunAnswers};
ghost use Rattle.run_modules.specs.Tallied.{IsTold};
ghost use Rattle.host_calls.specs.Forms.{host_form};
ghost use Rattle.host_calls.specs.Runs.{given_meaning, sight};
ghost use Rattle.host_imports.specs.Imports.{host_types};
ghost use Rattle.host_tables.specs.Starts.{job_of};
ghost use Rattle.host_values.specs.Findings.{ShownFirst};
ghost use Rattle.script_places.specs.Passes.{Moment, nops_in};
ghost use Rattle.script_places.specs.Tallies.{AreTallied, rows_of};
ghost use Rattle.sem_primitives.specs.Jobs.{JobForm};
ghost use Rattle.wasm_model.specs.MachineRuns.{Did};
ghost use Rattle.wasm_model.specs.Typed.{Linked};
ghost use Rattle.wasm_types.specs.Typing.{ModuleOk};
ghost use Rattle.wasm_types.specs.View.{view_module};

use crate::end::run_end;
use crate::module::read;
use crate::noted_world::NotedWorld;
use crate::stepping::step_through;
use host_calls::{Host, Job, Special};
use module_validator::ValidModule;
use run_report::{Refusal, RunCounts, RunEnd};
use script_places::{Tally, greater, lines_of};
use std::alloc::Global;
use std::hash::RandomState;
use wasm_machine::{LinkFault, Machine, MachineEnd};
use world_core::World;

/// What is counted of a run of so many steps, at whose end the host is this one; none where memory is wanting.
fn counts_of<W: World>(
    alloc: Global,
    script: &[u8],
    host: &Host<W>,
    tally: &Tally,
    steps: u64,
) -> Option<RunCounts>
    ensures { (moments : List Moment) → AreTallied moments (rows_of tally.now.rows.items)
        → IfSome result (IsTold script.now (host_form W.state host.now)
        (rows_of tally.now.nops.items) tally.now.values steps moments) }
{
    let Ok(lines) = lines_of(alloc, script, tally) else {
        return None;
    };
    let Ok(records) = host.special_text(Special::Nr) else {
        return None;
    };
    Some(RunCounts {
        lines,
        steps,
        records,
        values: greater(host.live_values(), tally.values),
    })
}

/// Runs a machine from its beginning, and counts its steps.
fn run_counted<W: World>(
    alloc: Global,
    script: &[u8],
    machine: &mut Machine,
    host: Host<W>,
    tally: Tally,
    steps: u64,
) -> (MachineEnd, Option<RunCounts>, Host<W>)
    requires linked { Linked host_types machine.old.program }
    requires going { machine.old.ended ≡ None }
    requires nops { rows_of tally.nops.items ≡ nops_in machine.old.program.whole }
    requires rows { AreTallied [] (rows_of tally.rows.items) }
    requires values { tally.values ≡ 0 }
    ensures did { Did (given_meaning W.is_modelled W.did) machine.old.program steps machine.old.conf
        (sight W.state host) result.0 machine.new.conf (sight W.state result.2) }
    ensures counted { IfSome result.1 (IsCounted W.is_modelled script.now machine.old.program steps
        machine.old.conf (host_form W.state host)) }
{
    let mut host = host;
    let mut tally = tally;
    let (end, taken) = step_through(machine, &mut host, &mut tally, steps);
    let counts = counts_of(alloc, script, &host, &tally, taken);
    (end, counts, host)
}

/// Links a module with a host, and runs it.
#[tactic(auto, using(crate::proofs::Gave::none_given))]
fn run_valid_counted<W: World>(
    alloc: Global,
    script: &[u8],
    valid: ValidModule,
    host: Host<W>,
    steps: u64,
) -> (RunEnd, Option<RunCounts>, W)
    requires { ModuleOk (view_module valid) }
    ensures answers { (job : JobForm) → ShownFirst (host_form W.state host)
        job ((W.state host.world).readers 0) (W.state host.world).outside
        → host.input.files.writers.items ≡ []
        → RunAnswers W.is_modelled (IsGiven W.did host.world result.2) (view_module valid) job steps
        (W.state host.world) result.0 (W.state result.2) }
    ensures counted { (job : JobForm) → ShownFirst (host_form W.state host)
        job ((W.state host.world).readers 0) (W.state host.world).outside
        → IfSome result.1 (IsCountedOf W.is_modelled script.now (view_module valid) job steps
        (W.state host.world)) }
{
    let Ok(tally) = Tally::new(alloc, valid.get()) else {
        return (RunEnd::NoMemory, None, host.into_world());
    };
    let mut machine = match Machine::new(alloc, valid, &host) {
        Ok(machine) => machine,
        Err(LinkFault::NoMemory) => return (RunEnd::NoMemory, None, host.into_world()),
        Err(fault) => {
            let end = RunEnd::Refused(Refusal::Link(fault));
            return (end, None, host.into_world());
        }
    };
    let (end, counts, host) = run_counted(alloc, script, &mut machine, host, tally, steps);
    (run_end(host.kept_fault(), end), counts, host.into_world())
}

/// Runs the module of a script in a job.
#[tactic(auto, using(crate::proofs::Runs::unread_answers, crate::proofs::Gave::none_given))]
fn run_module_counted<W: World>(
    alloc: Global,
    script: &[u8],
    bytes: &[u8],
    job: &Job,
    state: RandomState,
    world: W,
    steps: u64,
) -> (RunEnd, Option<RunCounts>, W)
    ensures answers { Answers W.is_modelled (IsGiven W.did world result.2) bytes.now
        (job_of job.now) steps (W.state world) result.0 (W.state result.2) }
    ensures counted { IfSome result.1 (IsCountedOfBytes W.is_modelled script.now bytes.now
        (job_of job.now) steps (W.state world)) }
{
    let valid = match read(alloc, bytes) {
        Ok(valid) => valid,
        Err(end) => return (end, None, world),
    };
    let host = match Host::new(alloc, job, state, world) {
        Ok(host) => host,
        Err(world) => return (RunEnd::NoMemory, None, world),
    };
    run_valid_counted(alloc, script, valid, host, steps)
}

/// Runs the module of a script in a job over any world, a step at a time, and counts: how often each line's first statement was executed, and what the run took.
/// Nothing is counted of a module that is not run, or for want of memory.
pub fn count_compiled<W: World>(
    alloc: Global,
    script: &[u8],
    bytes: &[u8],
    job: &Job,
    state: RandomState,
    world: W,
    steps: u64,
) -> (RunEnd, Option<RunCounts>, W)
    ensures answers { Answers W.is_modelled (IsGiven W.did world result.2) bytes.now
        (job_of job.now) steps (W.state world) result.0 (W.state result.2) }
    ensures counted { IfSome result.1 (IsCountedOfBytes W.is_modelled script.now bytes.now
        (job_of job.now) steps (W.state world)) }
{
    let noted = NotedWorld::new(alloc, world);
    let (end, counts, noted) = run_module_counted(alloc, script, bytes, job, state, noted, steps);
    (end, counts, noted.into_inner())
}
