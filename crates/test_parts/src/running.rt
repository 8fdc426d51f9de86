//! Runs a module, at once and cut in two at each of the first steps.
//!
//! The answer is the end of the run, and the sum of what the host was told.
//! With a number behind it, the module is run once, for so many steps: `bench/machine` prints how long that takes, and
//! `tests/limits/refused_allocations` what is said where an allocation fails.
ghost use Rattle.std.specs.Prelude.{IfOk};
ghost use Rattle.test_parts.specs.SmallHost.{small_types};
ghost use Rattle.wasm_model.specs.Typed.{Linked};

use crate::hexadecimal::bytes_of;
use crate::small_host::SmallHost;
use module_decoder::{DecodeFault, decode};
use module_validator::{InvalidFault, ValidModule, validate};
use std::alloc::{AllocError, Global};
use std::fmt;
use wasm_machine::{LinkFault, Machine, MachineEnd};

/// How many steps a run has in all.
const STEPS: u64 = 1_000_000;

/// At how many places a run is cut.
const CUTS: u64 = 60;

/// What refuses a module, or a run.
#[derive(Drop)]
enum Refusal {
    Bytes(DecodeFault),
    Types(InvalidFault),
    Link(LinkFault),
    NoMemory,
}

impl fmt::Display for Refusal {
    fn fmt<W: fmt::Write>(&self, f: &mut fmt::Formatter<W>) -> fmt::Result {
        match self {
            Refusal::Bytes(fault) => write!(f, "{fault:?}"),
            Refusal::Types(fault) => write!(f, "{fault:?}"),
            Refusal::Link(fault) => write!(f, "{fault:?}"),
            Refusal::NoMemory => write!(f, "NoMemory"),
        }
    }
}

/// How a run in two parts went: the end of each part, and the sum of what the host was told.
#[derive(Clone, Copy, PartialEq, Eq)]
struct Outcome {
    first: MachineEnd,
    then: MachineEnd,
    told: u32,
}

impl Outcome {
    /// The end of the whole run.
    fn end(self) -> MachineEnd {
        if self.first == MachineEnd::OutOfSteps {
            self.then
        } else {
            self.first
        }
    }
}

fn valid_of(alloc: Global, bytes: &[u8]) -> Result<ValidModule, Refusal> {
    let module = match decode(alloc, bytes) {
        Ok(module) => module,
        Err(fault) => return Err(Refusal::Bytes(fault)),
    };
    match validate(alloc, module) {
        Ok(valid) => Ok(valid),
        Err((_, fault)) => Err(Refusal::Types(fault)),
    }
}

fn begun(alloc: Global, valid: ValidModule, host: &SmallHost) -> Result<Machine, Refusal>
    ensures { IfOk result (λ m. Linked small_types m.program) }
{
    match Machine::new(alloc, valid, host) {
        Ok(machine) => Ok(machine),
        Err(fault) => Err(Refusal::Link(fault)),
    }
}

/// The machine of a module's bytes, at its beginning.
fn machine_of(alloc: Global, bytes: &[u8], host: &SmallHost) -> Result<Machine, Refusal>
    ensures { IfOk result (λ m. Linked small_types m.program) }
{
    match valid_of(alloc, bytes) {
        Ok(valid) => begun(alloc, valid, host),
        Err(refusal) => Err(refusal),
    }
}

/// The ends of two runs, one after the other.
fn ends_of(
    machine: &mut Machine,
    host: &mut SmallHost,
    first: u64,
    then: u64,
) -> (MachineEnd, MachineEnd)
    requires { Linked small_types machine.old.program }
{
    let end = machine.run(host, first);
    (end, machine.run(host, then))
}

/// A run of so many steps, and on for so many. This alone holds a machine: the more ways out of a function hold one, the longer its proof takes.
fn run_parts(alloc: Global, bytes: &[u8], first: u64, then: u64) -> Result<Outcome, Refusal> {
    let Ok(mut host) = SmallHost::new(alloc) else {
        return Err(Refusal::NoMemory);
    };
    let mut machine = match machine_of(alloc, bytes, &host) {
        Ok(machine) => machine,
        Err(refusal) => return Err(refusal),
    };
    let (first, then) = ends_of(&mut machine, &mut host, first, then);
    Ok(Outcome {
        first,
        then,
        told: host.told(),
    })
}

/// Whether a run that is cut after so many steps ends as the whole one.
fn agrees(alloc: Global, bytes: &[u8], cut: u64, whole: Outcome) -> bool {
    match run_parts(alloc, bytes, cut, STEPS) {
        Ok(parts) => parts.end() == whole.first && parts.told == whole.told,
        Err(_) => false,
    }
}

/// What is said of a refusal.
fn refused(alloc: Global, refusal: Refusal) -> Result<String, AllocError> {
    match refusal {
        Refusal::NoMemory => Err(AllocError),
        refusal => format!(in alloc; "{refusal}"),
    }
}

/// What is said of a run.
fn told(alloc: Global, whole: Outcome) -> Result<String, AllocError> {
    let (end, told) = (whole.first, whole.told);
    format!(in alloc; "{end:?}, host {told}")
}

/// What is said of a run that goes on, and of its cuts.
fn compared(alloc: Global, bytes: &[u8], whole: Outcome) -> Result<String, AllocError> {
    if whole.first == MachineEnd::OutOfSteps {
        return told(alloc, whole);
    }
    if whole.then != whole.first {
        return format!(in alloc; "another end at a later run");
    }
    for cut in 0..CUTS {
        if !agrees(alloc, bytes, cut, whole) {
            return format!(in alloc; "another end where it is cut at {cut}");
        }
    }
    told(alloc, whole)
}

/// What is said of a module that is run at once, and in two parts.
fn answer(alloc: Global, bytes: &[u8]) -> Result<String, AllocError> {
    match run_parts(alloc, bytes, STEPS, 1) {
        Ok(whole) => compared(alloc, bytes, whole),
        Err(refusal) => refused(alloc, refusal),
    }
}

/// What is said of a module that is run once, for so many steps.
fn answer_for(alloc: Global, bytes: &[u8], steps: u64) -> Result<String, AllocError> {
    match run_parts(alloc, bytes, steps, 0) {
        Ok(whole) => told(alloc, whole),
        Err(refusal) => refused(alloc, refusal),
    }
}

/// What is said of a module, and of a module with a number behind it.
pub(crate) fn said(alloc: Global, text: &str) -> Result<String, AllocError> {
    let Some((module, steps)) = text.split_once(" ") else {
        return answer(alloc, &bytes_of(alloc, text.as_bytes())?);
    };
    let Ok(steps) = steps.parse::<u64>() else {
        return format!(in alloc; "no number of steps");
    };
    answer_for(alloc, &bytes_of(alloc, module.as_bytes())?, steps)
}
