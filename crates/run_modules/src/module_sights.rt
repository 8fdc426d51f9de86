//! Where a module was.
ghost use Rattle.std.specs.Prelude.{◌≡◌, IfOk, IfSome, None, length, map, option_and_then, option_map};
ghost use Rattle.run_modules.specs.ModuleSeen.{AreLineSites, IsLineSite, IsModuleSeen, TellsLines, TellsModule, TellsUnlined};
ghost use Rattle.host_calls.specs.Forms.{host_form};
ghost use Rattle.host_calls.specs.Runs.{given_meaning, sight};
ghost use Rattle.host_imports.specs.Imports.{host_types};
ghost use Rattle.script_places.specs.Lines.{form_of, line_in, name_in};
ghost use Rattle.wasm_model.specs.MachineRuns.{Did};
ghost use Rattle.wasm_model.specs.Typed.{Linked};

use awk_values::Bytes;
use host_calls::{Host, Import, Special, Watched};
use run_report::{CallSite, Whereabouts};
use script_places::{FunctionLines, line_in, name_in, told_of};
use sem_primitives::Primitive;
use std::alloc::{AllocError, Global};
use wasm_machine::{Machine, MachineEnd, Place};
use world_core::World;

/// Where a module was.
#[derive(Drop)]
pub enum ModuleWhereabouts {
    /// The module has the lines of its script: so it is told where the script was.
    Lined(Whereabouts),
    /// It has no lines: the function that was at work, by its number in the module, which counts imports first; none where no function was.
    Unlined(Option<usize>),
}

/// The line of a place in a function, if it is at one.
fn line_at(table: &[FunctionLines], function: usize, place: Option<usize>) -> Option<usize>
    ensures { result ≡ option_and_then (line_in (map form_of table.now) function) place }
{
    match place {
        Some(number) => line_in(table, function, number),
        None => None,
    }
}

/// The name of a function of the script.
fn name_at(
    alloc: Global,
    table: &[FunctionLines],
    function: usize,
) -> Result<Option<Bytes>, AllocError>
    ensures { IfOk result (λ name. name ≡ name_in (map form_of table.now) function) }
{
    let Some(name) = name_in(table, function) else {
        return Ok(None);
    };
    match Bytes::from_slice(alloc, name) {
        Ok(name) => Ok(Some(name)),
        Err(_) => Err(AllocError),
    }
}

/// What is told of a place. In the loop over records, outside of all statements, `next_main` is called.
fn site_at(
    alloc: Global,
    table: &[FunctionLines],
    machine: &Machine,
    at: Place,
) -> Result<CallSite, AllocError>
    ensures { IfOk result (IsLineSite (map form_of table.now) machine.now.program at) }
{
    let next_record = Import::OfPrimitive(Primitive::NextMain);
    let place = machine.statement(at, next_record.number());
    let function = name_at(alloc, table, at.function)?;
    Ok(CallSite {
        place,
        line: line_at(table, at.function, place),
        function,
    })
}

/// The sites of so many frames.
fn line_sites(
    alloc: Global,
    table: &[FunctionLines],
    machine: &Machine,
    count: usize,
) -> Result<Vec<CallSite>, AllocError>
    ensures sites { IfOk result (λ sites. AreLineSites (map form_of table.now)
        machine.now.program machine.now.conf sites.items) }
    ensures count { IfOk result (λ sites. length sites.items ≡ count) }
{
    let mut sites = Vec::new(alloc);
    for number in 0..count {
        let Some(place) = machine.place(number) else {
            return Err(AllocError);
        };
        let site = site_at(alloc, table, machine, place)?;
        sites.push(site)?;
    }
    Ok(sites)
}

/// What is told of where a machine stands over a host, by the lines of its module; none where memory is wanting.
fn lines_seen<W: World>(
    alloc: Global,
    table: &[FunctionLines],
    machine: &Machine,
    host: &Host<W>,
) -> Option<Whereabouts>
    ensures { IfSome result (TellsLines (map form_of table.now) machine.now.program
        machine.now.conf (host_form W.state host.now)) }
{
    let waiting = machine.waiting();
    let count = told_of(waiting);
    let Ok(sites) = line_sites(alloc, table, machine, count) else {
        return None;
    };
    let Ok(nr) = host.special_text(Special::Nr) else {
        return None;
    };
    let Ok(fnr) = host.special_text(Special::Fnr) else {
        return None;
    };
    let Ok(filename) = host.special_text(Special::Filename) else {
        return None;
    };
    Some(Whereabouts {
        sites,
        more: waiting - count,
        nr,
        fnr,
        filename,
        about: None,
    })
}

/// The number of the function at work in a module with so many imports; none where `main` is not called yet, or has returned.
fn function_seen(machine: &Machine, imports: usize) -> Option<usize>
    ensures { TellsUnlined imports machine.now.program.whole machine.now.conf result }
{
    if machine.waiting() == 0 {
        return None;
    }
    match machine.place(0) {
        Some(place) => place.function.checked_add(imports),
        None => None,
    }
}

/// What is told of where a machine stands over a host.
fn module_seen<W: World>(
    alloc: Global,
    table: &Option<Vec<FunctionLines>>,
    imports: usize,
    machine: &Machine,
    host: &Host<W>,
) -> Option<ModuleWhereabouts>
    ensures { IfSome result (TellsModule (option_map (λ rows. map form_of rows.items) table.now)
        imports machine.now.program machine.now.conf (host_form W.state host.now)) }
{
    match table {
        Some(rows) => match lines_seen(alloc, rows, machine, host) {
            Some(found) => Some(ModuleWhereabouts::Lined(found)),
            None => None,
        },
        None => Some(ModuleWhereabouts::Unlined(function_seen(machine, imports))),
    }
}

/// Runs a machine from its beginning, and sees where it stands where a fault is kept, or else at its end. It is one run: after the pause it goes on.
pub(crate) fn run_module_seen<W: World>(
    alloc: Global,
    table: &Option<Vec<FunctionLines>>,
    imports: usize,
    machine: &mut Machine,
    host: Host<W>,
    steps: u64,
) -> (MachineEnd, Option<ModuleWhereabouts>, Host<W>)
    requires linked { Linked host_types machine.old.program }
    requires going { machine.old.ended ≡ None }
    ensures did { Did (given_meaning W.is_modelled W.did) machine.old.program steps machine.old.conf
        (sight W.state host) result.0 machine.new.conf (sight W.state result.2) }
    ensures seen { IfSome result.1 (IsModuleSeen W.is_modelled
        (option_map (λ rows. map form_of rows.items) table.now) imports machine.old.program steps
        machine.old.conf (host_form W.state host)) }
{
    let mut watched = Watched { host };
    let (end, left) = machine.run_to_pause(&mut watched, steps);
    let found = module_seen(alloc, table, imports, machine, &watched.host);
    let Watched { host } = watched;
    if end != MachineEnd::OutOfSteps {
        return (end, found, host);
    }
    let mut host = host;
    let end = machine.run(&mut host, left);
    (end, found, host)
}
