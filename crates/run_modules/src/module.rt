//! Modules in the sandbox.
ghost use Rattle.std.specs.Prelude.{◌≡◌, [], IfOk, IfErr};
ghost use Rattle.run_modules.specs.ModuleRun.{Answers, IsGiven};
ghost use Rattle.run_modules.specs.ModuleRunParts.{undecoded, IsTyped, RunAnswers, Unread};
ghost use Rattle.sem_primitives.specs.Jobs.{JobForm};
ghost use Rattle.host_values.specs.Findings.{ShownFirst};
ghost use Rattle.host_calls.specs.Forms.{host_form};
ghost use Rattle.host_tables.specs.Starts.{job_of};
ghost use Rattle.wasm_types.specs.Typing.{ModuleOk};
ghost use Rattle.wasm_types.specs.View.{view_module};

use crate::end::run_end;
use crate::noted_world::NotedWorld;
use host_calls::{Host, Job};
use module_decoder::{DecodeFault, decode};
use module_validator::{InvalidFault, ValidModule, validate};
use run_report::{Refusal, RunEnd};
use std::alloc::Global;
use std::hash::RandomState;
use wasm_machine::{LinkFault, Machine};
use world_core::World;

/// What is answered for bytes that the decoder refuses so.
fn undecoded(fault: DecodeFault) -> RunEnd
    ensures { result ≡ undecoded fault }
{
    match fault {
        DecodeFault::NoMemory => RunEnd::NoMemory,
        fault => RunEnd::Refused(Refusal::Decode(fault)),
    }
}

/// The module that the bytes are, typed; else what is answered.
pub fn read(alloc: Global, bytes: &[u8]) -> Result<ValidModule, RunEnd>
    ensures ok { IfOk result (λ v. IsTyped bytes.now (view_module v)) }
    ensures err { IfErr result (Unread bytes.now) }
{
    let module = match decode(alloc, bytes) {
        Ok(module) => module,
        Err(fault) => return Err(undecoded(fault)),
    };
    match validate(alloc, module) {
        Ok(valid) => Ok(valid),
        Err((_, InvalidFault::NoMemory)) => Err(RunEnd::NoMemory),
        Err((_, fault)) => Err(RunEnd::Refused(Refusal::Invalid(fault))),
    }
}

/// Links a module with a host, and runs it.
#[tactic(auto, using(crate::proofs::Gave::none_given))]
fn run_valid<W: World>(alloc: Global, valid: ValidModule, host: Host<W>, steps: u64) -> (RunEnd, W)
    requires { ModuleOk (view_module valid) }
    ensures { (job : JobForm) → ShownFirst (host_form W.state host)
        job ((W.state host.world).readers 0) (W.state host.world).outside
        → host.input.files.writers.items ≡ []
        → RunAnswers W.is_modelled (IsGiven W.did host.world result.1) (view_module valid) job steps
        (W.state host.world) result.0 (W.state result.1) }
{
    let mut host = host;
    let mut machine = match Machine::new(alloc, valid, &host) {
        Ok(machine) => machine,
        Err(LinkFault::NoMemory) => return (RunEnd::NoMemory, host.into_world()),
        Err(fault) => return (RunEnd::Refused(Refusal::Link(fault)), host.into_world()),
    };
    let end = machine.run(&mut host, steps);
    (run_end(host.kept_fault(), end), host.into_world())
}

/// Runs a module in a job over a world.
#[tactic(auto, using(crate::proofs::Runs::unread_answers, crate::proofs::Gave::none_given))]
fn run_over<W: World>(
    alloc: Global,
    bytes: &[u8],
    job: &Job,
    state: RandomState,
    world: W,
    steps: u64,
) -> (RunEnd, W)
    ensures { Answers W.is_modelled (IsGiven W.did world result.1) bytes.now
        (job_of job.now) steps (W.state world) result.0 (W.state result.1) }
{
    let valid = match read(alloc, bytes) {
        Ok(valid) => valid,
        Err(end) => return (end, world),
    };
    let host = match Host::new(alloc, job, state, world) {
        Ok(host) => host,
        Err(world) => return (RunEnd::NoMemory, world),
    };
    run_valid(alloc, valid, host, steps)
}

/// Runs a module in a job over a world, for so many steps at most, and gives the world back. `state` seeds the tables of its arrays, and shows in
/// no answer.
///
/// The answer is [`RunEnd::Refused`] where the bytes are no module, the typing rules do not allow it, or it does not link with the host, in
/// this order; nothing is done to the world then. [`RunEnd::NoMemory`] may come instead of any other answer, where memory was wanting.
/// Any other answer is how the run ended; the world has its output. Without a kept fault the status is `main`'s result modulo 256.
pub fn run_module<W: World>(
    alloc: Global,
    bytes: &[u8],
    job: &Job,
    state: RandomState,
    world: W,
    steps: u64,
) -> (RunEnd, W)
    ensures { Answers W.is_modelled (IsGiven W.did world result.1) bytes.now
        (job_of job.now) steps (W.state world) result.0 (W.state result.1) }
{
    let noted = NotedWorld::new(alloc, world);
    let (end, noted) = run_over(alloc, bytes, job, state, noted, steps);
    (end, noted.into_inner())
}
