//! Whole programs.

ghost use Rattle.std.specs.Prelude.{◌≡◌, map, IfOk, IsOk};
ghost use Rattle.folding.specs.Folding.{fold, folded_routine};
ghost use Rattle.folding.specs.Left.{NoneLeft};
ghost use Rattle.mid_program.specs.Sorted.{IsSorted};
ghost use Rattle.mid_program.specs.View.{view_mid, view_routine};
ghost use Rattle.mid_program.specs.SameRuns.{SameRuns};

use crate::step::fold_steps;
use mid_program::{Mid, Routine};
use std::alloc::AllocError;

fn fold_routine(routine: &mut Routine)
    ensures { view_routine routine.new ≡ folded_routine (view_routine routine.old) }
{
    fold_steps(&mut routine.body);
}

fn fold_routines(routines: &mut Vec<Routine>)
    ensures { map view_routine routines.new.items
        ≡ map folded_routine (map view_routine routines.old.items) }
{
    for routine in routines.iter_mut() {
        fold_routine(routine);
    }
}

/// Computes the constant parts of a script's code. No operator on two number constants is left that does not fault; one that faults is left as it is,
/// and faults when it is reached. The code runs as before: with the same status or fault, or still going on, and with the same output, in every setting and
/// for every number of turns.
///
/// # Errors
///
/// None: the code is changed in its place, which takes no memory.
pub fn fold(mid: Mid) -> Result<Mid, (Mid, AllocError)>
    ensures takes_no_memory { IsOk result }
    ensures code { IfOk result (λ new. view_mid new ≡ fold (view_mid mid)) }
    ensures same_meaning { IfOk result (λ new. SameRuns (view_mid new) (view_mid mid)) }
    ensures none_left { IfOk result (λ new. NoneLeft (view_mid new)) }
    ensures sorted { IfOk result (λ new. IsSorted (view_mid mid) → IsSorted (view_mid new)) }
{
    let mut mid = mid;
    fold_routines(&mut mid.routines);
    fold_steps(&mut mid.begin);
    fold_steps(&mut mid.items);
    fold_steps(&mut mid.end);
    Ok(mid)
}
