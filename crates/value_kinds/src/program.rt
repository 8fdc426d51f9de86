//! Whole programs.

ghost use Rattle.std.specs.Prelude.{◌≡◌, map, IfOk, IsOk};
ghost use Rattle.mid_program.specs.Mid.{parameters_at};
ghost use Rattle.mid_program.specs.View.{view_declared, view_kind, view_mid, view_routine};
ghost use Rattle.mid_program.specs.SameRuns.{SameRuns};
ghost use Rattle.value_kinds.specs.Applied.{apply, global_with, globals_with, is_unboxed, kind_with, kinds_with, routine_with, routines_with};
ghost use Rattle.value_kinds.specs.View.{view_lanes};

use crate::lenders::lane_lenders;
use crate::names::{Lanes, Names, is_unboxed, kind_with};
use crate::step::lane_steps;
use mid_program::{Declared, Kind, Mid, Routine};
use std::alloc::AllocError;

fn lane_kind(unboxed: bool, kind: &mut Kind)
    ensures { view_kind kind.new ≡ kind_with unboxed (view_kind kind.old) }
{
    *kind = kind_with(unboxed, *kind);
}

fn lane_kinds(lanes: &[Kind], kinds: &mut Vec<Kind>)
    ensures { map view_kind kinds.new.items
        ≡ kinds_with (is_unboxed (map view_kind lanes.now)) (map view_kind kinds.old.items) }
{
    let mut place = 0;
    for kind in kinds.iter_mut() {
        lane_kind(is_unboxed(lanes, place), kind);
        place += 1;
    }
}

fn lane_global(unboxed: bool, numbers: bool, global: &mut Declared)
    ensures { view_declared global.new ≡ global_with unboxed numbers (view_declared global.old) }
{
    global.kind = kind_with(unboxed, global.kind);
    global.mixed = unboxed && !numbers;
}

fn lane_globals(lanes: &[Kind], numbers: &[Kind], globals: &mut Vec<Declared>)
    ensures { map view_declared globals.new.items
        ≡ globals_with (is_unboxed (map view_kind lanes.now)) (is_unboxed (map view_kind numbers.now))
        (map view_declared globals.old.items) }
{
    let mut place = 0;
    for global in globals.iter_mut() {
        lane_global(is_unboxed(lanes, place), is_unboxed(numbers, place), global);
        place += 1;
    }
}

fn lane_routine(globals: &[Kind], parameters: &[Kind], routine: &mut Routine)
    ensures { view_routine routine.new ≡ routine_with (map view_kind globals.now)
        (map view_kind parameters.now) (view_routine routine.old) }
{
    lane_kinds(parameters, &mut routine.parameters);
    lane_steps(
        Names {
            globals,
            parameters,
        },
        &mut routine.body,
    );
}

/// The lanes of a function's parameters.
pub(crate) fn parameters_at(lanes: &Lanes, place: usize) -> &[Kind]
    ensures { map view_kind result.now ≡ parameters_at (view_lanes lanes.now).parameters place }
{
    if place >= lanes.parameters.len() {
        return &[];
    }
    &lanes.parameters[place]
}

fn lane_routines(lanes: &Lanes, routines: &mut Vec<Routine>)
    ensures { map view_routine routines.new.items ≡ routines_with (view_lanes lanes.now).globals
        (parameters_at (view_lanes lanes.now).parameters) (map view_routine routines.old.items) }
{
    let mut place = 0;
    for routine in routines.iter_mut() {
        lane_routine(&lanes.globals, parameters_at(lanes, place), routine);
        place += 1;
    }
}

/// Gives lanes to the names of a script's code. The code runs as before: with the same status or fault, or still going on, and with the same output, in every
/// setting and for every number of turns.
///
/// # Errors
///
/// None: the code is changed in its place, which takes no memory.
pub fn apply(mid: Mid, lanes: &Lanes) -> Result<Mid, (Mid, AllocError)>
    ensures takes_no_memory { IsOk result }
    ensures code { IfOk result (λ new. view_mid new ≡ apply (view_lanes lanes.now) (view_mid mid)) }
    ensures same_meaning { IfOk result (λ new. SameRuns (view_mid new) (view_mid mid)) }
{
    let mut mid = mid;
    lane_lenders(&lanes.lenders, &mut mid.lenders);
    lane_globals(&lanes.globals, &lanes.numbers, &mut mid.globals);
    lane_routines(lanes, &mut mid.routines);
    let names = Names {
        globals: &lanes.globals,
        parameters: &[],
    };
    lane_steps(names, &mut mid.begin);
    lane_steps(names, &mut mid.items);
    lane_steps(names, &mut mid.end);
    Ok(mid)
}
