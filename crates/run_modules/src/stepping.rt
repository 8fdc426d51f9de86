//! Runs that are counted step by step.
ghost use Rattle.std.specs.Prelude.{◌≡◌, [], None};
ghost use Rattle.run_modules.specs.Tallied.{IsTallied};
ghost use Rattle.host_calls.specs.Forms.{host_form};
ghost use Rattle.host_calls.specs.Runs.{given_meaning, sight};
ghost use Rattle.host_imports.specs.Imports.{host_types};
ghost use Rattle.script_places.specs.Tallies.{AreTallied, rows_of};
ghost use Rattle.wasm_model.specs.MachineRuns.{Did};
ghost use Rattle.wasm_model.specs.Typed.{Linked};

use host_calls::Host;
use script_places::Tally;
use wasm_machine::{Machine, MachineEnd};
use world_core::World;

/// Runs a machine from its beginning, a step at a time, and counts each step. The second answer is how many steps were taken, in the last of which it ended.
pub(crate) fn step_through<W: World>(
    machine: &mut Machine,
    host: &mut Host<W>,
    tally: &mut Tally,
    steps: u64,
) -> (MachineEnd, u64)
    requires linked { Linked host_types machine.old.program }
    requires going { machine.old.ended ≡ None }
    requires rows { AreTallied [] (rows_of tally.old.rows.items) }
    requires values { tally.old.values ≡ 0 }
    ensures did { Did (given_meaning W.is_modelled W.did) machine.old.program steps machine.old.conf
        (sight W.state host.old) result.0 machine.new.conf (sight W.state host.new) }
    ensures nops { tally.new.nops ≡ tally.old.nops }
    ensures tallied { IsTallied W.is_modelled machine.old.program steps result.1 machine.old.conf
        (host_form W.state host.old) result.0 machine.new.conf (host_form W.state host.new)
        (rows_of tally.new.rows.items) tally.new.values }
{
    let mut end = machine.run(host, 0);
    for taken in 0..steps {
        if end != MachineEnd::OutOfSteps {
            return (end, taken);
        }
        tally.note(machine.place(0), host.live_values());
        end = machine.run(host, 1);
    }
    (end, steps)
}
