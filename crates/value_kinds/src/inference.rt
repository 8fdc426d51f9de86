//! Which names of a program are unboxed.

ghost use Rattle.std.specs.Prelude.{◌≡◌, map, IfOk};
ghost use Rattle.mid_program.specs.View.{view_declared, view_kind, view_mid, view_routine};
ghost use Rattle.value_kinds.specs.Lanes.{at_first, first_walk, infer, opened, scanned, unseen, walked};
ghost use Rattle.mid_program.specs.Sorted.{kinds_of};
ghost use Rattle.value_kinds.specs.View.{view_kinds, view_lanes, view_scan, view_walk};
ghost use Rattle.value_kinds.specs.Walks.{after_routines, parameters_in};

use crate::lenders::{grant, none_wished};
use crate::names::Lanes;
use crate::scan::Scan;
use crate::step_marks::mark_steps;
use crate::walk::Walk;
use mid_program::{Declared, Kind, Mid, Routine};
use std::alloc::{AllocError, Global};

fn opened(kind: Kind) -> Kind
    ensures { view_kind result ≡ opened (view_kind kind) }
{
    match kind {
        Kind::Array => Kind::Array,
        Kind::Boxed | Kind::Unboxed => Kind::Unboxed,
    }
}

fn open_globals(alloc: Global, globals: &[Declared]) -> Result<Vec<Kind>, AllocError>
    ensures { IfOk result (λ kinds. map view_kind kinds.items
        ≡ map opened (kinds_of (map view_declared globals.now))) }
{
    let mut kinds = Vec::new(alloc);
    for global in globals {
        kinds.push(opened(global.kind))?;
    }
    Ok(kinds)
}

fn open_parameters(alloc: Global, parameters: &[Kind]) -> Result<Vec<Kind>, AllocError>
    ensures { IfOk result
        (λ kinds. map view_kind kinds.items ≡ map opened (map view_kind parameters.now)) }
{
    let mut kinds = Vec::new(alloc);
    for kind in parameters {
        kinds.push(opened(*kind))?;
    }
    Ok(kinds)
}

fn open_routines(alloc: Global, routines: &[Routine]) -> Result<Vec<Vec<Kind>>, AllocError>
    ensures { IfOk result (λ kinds. map view_kinds kinds.items
        ≡ map (map opened) (parameters_in (map view_routine routines.now))) }
{
    let mut kinds = Vec::new(alloc);
    for routine in routines {
        kinds.push(open_parameters(alloc, &routine.parameters)?)?;
    }
    Ok(kinds)
}

/// At first each scalar is unboxed.
fn at_first(alloc: Global, mid: &Mid) -> Result<Lanes, AllocError>
    ensures { IfOk result (λ lanes. view_lanes lanes ≡ at_first (view_mid mid.now)) }
{
    Ok(Lanes {
        numbers: Vec::new(alloc),
        globals: open_globals(alloc, &mid.globals)?,
        parameters: open_routines(alloc, &mid.routines)?,
        lenders: Vec::new(alloc),
    })
}

/// What the scan knows at first.
fn unseen(alloc: Global, mid: &Mid) -> Result<Scan, AllocError>
    ensures { IfOk result (λ scan. view_scan scan ≡ unseen (view_mid mid.now)) }
{
    Ok(Scan {
        free: open_globals(alloc, &mid.globals)?,
        asked: false,
        wishes: none_wished(alloc, &mid.lenders)?,
        numbered: vec![in alloc; false; mid.lenders.len()]?,
    })
}

/// Marks what functions store. The main parts come next, which stand in none of them.
fn mark_routines(walk: &mut Walk, routines: &[Routine])
    ensures { view_walk walk.new
        ≡ after_routines (view_walk walk.old) (map view_routine routines.now) }
{
    for place in 0..routines.len() {
        walk.function = place;
        mark_steps(walk, &routines[place].body);
    }
    walk.function = routines.len();
}

/// The walk over all code, where copies of the names of numbers count.
fn walked(alloc: Global, mid: &Mid, numbers: Lanes) -> Result<Walk, AllocError>
    ensures lanes { IfOk result
        (λ walk. view_lanes walk.lanes ≡ walked (view_lanes numbers) (view_mid mid.now)) }
    ensures scan { IfOk result (λ walk. view_scan walk.scan ≡ scanned (view_mid mid.now)) }
    ensures numbers { IfOk result (λ walk. view_lanes walk.numbers ≡ view_lanes numbers) }
{
    let mut walk = Walk {
        numbers,
        lanes: at_first(alloc, mid)?,
        scan: unseen(alloc, mid)?,
        function: 0,
    };
    mark_routines(&mut walk, &mid.routines);
    mark_steps(&mut walk, &mid.begin);
    mark_steps(&mut walk, &mid.items);
    mark_steps(&mut walk, &mid.end);
    Ok(walk)
}

/// The names of numbers, and the globals that lend their values.
fn first_walk(alloc: Global, mid: &Mid) -> Result<Lanes, AllocError>
    ensures { IfOk result (λ lanes. view_lanes lanes ≡ first_walk (view_mid mid.now)) }
{
    let no_names = Lanes {
        numbers: Vec::new(alloc),
        globals: Vec::new(alloc),
        parameters: Vec::new(alloc),
        lenders: Vec::new(alloc),
    };
    let walk = walked(alloc, mid, no_names)?;
    let mut lanes = walk.lanes;
    let mut scan = walk.scan;
    grant(
        scan.asked,
        &scan.free,
        &scan.numbered,
        &lanes.parameters,
        &mut scan.wishes,
    );
    lanes.lenders = scan.wishes;
    Ok(lanes)
}

/// Which names of a script's code are unboxed: each scalar, unless something else than a number is stored into it, or something else than a number or
/// nothing is given for it as an argument; a global too if copies of such scalars are stored into it; and a parameter too if it is given numbers and copies of
/// a global that lends its value. Two walks find this, since a name is known to take numbers alone only once all code was seen: it takes time linear in the
/// code.
///
/// # Errors
///
/// Where memory is wanting.
pub fn infer(alloc: Global, mid: &Mid) -> Result<Lanes, AllocError>
    ensures { IfOk result (λ lanes. view_lanes lanes ≡ infer (view_mid mid.now)) }
{
    let first = first_walk(alloc, mid)?;
    let second = walked(alloc, mid, first)?;
    let numbers = second.numbers;
    let lanes = second.lanes;
    Ok(Lanes {
        numbers: numbers.globals,
        globals: lanes.globals,
        parameters: lanes.parameters,
        lenders: numbers.lenders,
    })
}
