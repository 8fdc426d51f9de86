//! What is told of a machine's end.
ghost use Rattle.std.specs.Prelude.{◌≡◌};
ghost use Rattle.run_modules.specs.ModuleRun.{run_end, status};

use awk_values::Fault;
use run_report::RunEnd;
use wasm_machine::MachineEnd;

/// A result modulo 256.
fn status(value: i32) -> u8
    ensures { result ≡ status value }
{
    value.rem_euclid(256) as u8
}

/// What is told of a machine's end, where this fault is kept.
pub fn run_end(kept: Option<Fault>, end: MachineEnd) -> RunEnd
    ensures { result ≡ run_end kept end }
{
    match end {
        MachineEnd::Returned(value) => match kept {
            Some(fault) => RunEnd::Faulted(fault),
            None => RunEnd::Ended(status(value)),
        },
        MachineEnd::Trapped(kind) => RunEnd::Trapped(kind),
        MachineEnd::OutOfSteps => RunEnd::OutOfSteps,
        MachineEnd::Exhausted => RunEnd::Exhausted,
        MachineEnd::NoMemory => RunEnd::NoMemory,
    }
}
