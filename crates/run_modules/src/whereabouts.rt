//! Where a script was.
ghost use Rattle.std.specs.Prelude.{◌≡◌, IfSome, None};
ghost use Rattle.run_modules.specs.Seen.{IsAbout, IsAboutKept, IsSeen, Tells};
ghost use Rattle.host_calls.specs.Forms.{host_form};
ghost use Rattle.host_calls.specs.Runs.{given_meaning, sight};
ghost use Rattle.host_imports.specs.Imports.{host_types};
ghost use Rattle.wasm_model.specs.MachineRuns.{Did};
ghost use Rattle.wasm_model.specs.Typed.{Linked};

use crate::argument::argument;
use crate::noted_world::KnowsFailed;
use awk_values::Fault;
use host_calls::{Host, Special, Watched};
use run_report::{Subject, Whereabouts};
use script_places::{sites_of, told_of};
use std::alloc::Global;
use wasm_machine::{Machine, MachineEnd};
use world_core::World;

/// What a fault was about which the last step of a machine kept, where that is known.
fn about<W: World + KnowsFailed>(
    alloc: Global,
    machine: &Machine,
    host: &mut Host<W>,
    fault: Fault,
) -> Option<Subject>
    ensures same { sight W.state host.new ≡ sight W.state host.old }
    ensures about { IfSome result (IsAbout fault) }
{
    match fault {
        Fault::OpenInput | Fault::ReadFailed | Fault::OpenOutput | Fault::WriteFailed => {
            host.world().failed(alloc)
        }
        fault => argument(alloc, machine, host, fault),
    }
}

/// What the fault was about that a host keeps, where that is known.
fn kept_about<W: World + KnowsFailed>(
    alloc: Global,
    machine: &Machine,
    host: &mut Host<W>,
) -> Option<Subject>
    ensures same { sight W.state host.new ≡ sight W.state host.old }
    ensures about { IfSome result (IsAboutKept host.old.tables.fault) }
{
    match host.kept_fault() {
        Some(fault) => about(alloc, machine, host, fault),
        None => None,
    }
}

/// What is told of where a machine stands over a host; none where memory is wanting.
fn whereabouts_of<W: World + KnowsFailed>(
    alloc: Global,
    script: &[u8],
    machine: &Machine,
    host: &mut Host<W>,
) -> Option<Whereabouts>
    ensures same { sight W.state host.new ≡ sight W.state host.old }
    ensures told { IfSome result (Tells script.now machine.now.program machine.now.conf
        (host_form W.state host.old)) }
{
    let waiting = machine.waiting();
    let count = told_of(waiting);
    let Ok(sites) = sites_of(alloc, script, machine, count) else {
        return None;
    };
    let Ok(nr) = host.special_text(Special::Nr) else {
        return None;
    };
    let Ok(fnr) = host.special_text(Special::Fnr) else {
        return None;
    };
    let Ok(filename) = host.special_text(Special::Filename) else {
        return None;
    };
    Some(Whereabouts {
        sites,
        more: waiting - count,
        nr,
        fnr,
        filename,
        about: kept_about(alloc, machine, host),
    })
}

/// What is told of where a machine stands that ended so; nothing where its script ended by itself, or memory is wanting.
fn seen_at<W: World + KnowsFailed>(
    alloc: Global,
    script: &[u8],
    machine: &Machine,
    host: &mut Host<W>,
    end: MachineEnd,
) -> Option<Whereabouts>
    ensures same { sight W.state host.new ≡ sight W.state host.old }
    ensures told { IfSome result (Tells script.now machine.now.program machine.now.conf
        (host_form W.state host.old)) }
{
    match (end, host.kept_fault()) {
        (MachineEnd::Returned(_), None) => None,
        _ => whereabouts_of(alloc, script, machine, host),
    }
}

/// Runs a machine from its beginning, and sees where it stands where a fault is kept, or else at its end. It is one run: after the pause it goes on.
pub(crate) fn run_seen<W: World + KnowsFailed>(
    alloc: Global,
    script: &[u8],
    machine: &mut Machine,
    host: Host<W>,
    steps: u64,
) -> (MachineEnd, Option<Whereabouts>, Host<W>)
    requires linked { Linked host_types machine.old.program }
    requires going { machine.old.ended ≡ None }
    ensures did { Did (given_meaning W.is_modelled W.did) machine.old.program steps machine.old.conf
        (sight W.state host) result.0 machine.new.conf (sight W.state result.2) }
    ensures seen { IfSome result.1 (IsSeen W.is_modelled script.now machine.old.program steps
        machine.old.conf (host_form W.state host)) }
{
    let mut watched = Watched { host };
    let (end, left) = machine.run_to_pause(&mut watched, steps);
    let found = seen_at(alloc, script, machine, &mut watched.host, end);
    let Watched { host } = watched;
    if end != MachineEnd::OutOfSteps {
        return (end, found, host);
    }
    let mut host = host;
    let end = machine.run(&mut host, left);
    (end, found, host)
}
