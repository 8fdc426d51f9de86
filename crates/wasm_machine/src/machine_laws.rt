//! Laws of machines, and of what they mean.
ghost use Rattle.std.specs.Prelude.{◌≡◌, ◌+◌, None};
ghost use Rattle.wasm_model.specs.MachineRuns.{Did, IsPrefix};
ghost use Rattle.wasm_model.specs.Typed.{Linked};

use crate::machine::Machine;
pub use wasm_model::reduction_laws::{never_stuck, step_is_reduced, turn_safe};
use wasm_model::{HostCalls, MachineEnd};

/// Two runs, one after the other, are one run of all their steps.
pub fn run_on<H: HostCalls>(
    machine: &mut Machine,
    host: &mut H,
    first: u64,
    then: u64,
) -> MachineEnd
    requires linked { Linked H.types machine.old.program }
    requires going { machine.old.ended ≡ None }
    ensures { Did H.meaning machine.old.program (first + then) machine.old.conf (H.state host.old)
        result machine.new.conf (H.state host.new) }
{
    let end = machine.run(host, first);
    if end != MachineEnd::OutOfSteps {
        return end;
    }
    machine.run(host, then)
}

/// A run that wants memory has written how another run begins that does not.
pub fn run_wanting<H: HostCalls>(machine: &mut Machine, host: &mut H, steps: u64) -> MachineEnd
    requires linked { Linked H.types machine.old.program }
    requires going { machine.old.ended ≡ None }
    ensures did { Did H.meaning machine.old.program steps machine.old.conf (H.state host.old) result
        machine.new.conf (H.state host.new) }
    ensures prefix { result ≡ MachineEnd.NoMemory
        → IsPrefix H.meaning machine.old.program steps machine.old.conf (H.state host.old)
        machine.new.conf (H.state host.new) }
{
    machine.run(host, steps)
}
