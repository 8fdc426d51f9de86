//! A law of the names of scripts, the contract of a function that does nothing.
ghost use Rattle.folding.specs.Folding.{fold};
ghost use Rattle.sem_scripts.specs.Names.{Resolved};
ghost use Rattle.mid_program.specs.Translation.{program_of};
ghost use Rattle.value_kinds.specs.Applied.{apply};
ghost use Rattle.value_kinds.specs.Lanes.{infer};
ghost use Rattle.value_kinds.specs.Unboxed.{UnboxesNumbers};

use crate::lane_laws::numbers_are_unboxed;

/// Each scalar into which a script stores numbers alone, as arguments too, is unboxed in its code, once constants are computed and the names of numbers are
/// found; and so is each global into which it stores copies of such scalars besides.
pub fn names_of_numbers_are_unboxed()
    ensures { (script : Resolved) → UnboxesNumbers script
        (apply (infer (fold (program_of script))) (fold (program_of script))) }
{
    numbers_are_unboxed();
}
