//! Laws of lanes, each the contract of a function that does nothing.
ghost use Rattle.mid_program.specs.Mid.{Program};
ghost use Rattle.mid_program.specs.Sorted.{IsSorted};
ghost use Rattle.mid_program.specs.SameRuns.{SameRuns};
ghost use Rattle.value_kinds.specs.Applied.{apply};
ghost use Rattle.value_kinds.specs.Found.{FindsNumbers};
ghost use Rattle.value_kinds.specs.Lanes.{Lanes, infer};

/// Whatever lanes the names of a program have, it runs as before: with the same status or fault, or still going on, and with the same output,
/// in every setting and for every number of turns.
pub fn lanes_keep_the_meaning()
    ensures { (l : Lanes) (p : Program) → SameRuns (apply l p) p }
{}

/// The lanes that are found unbox each scalar into which numbers alone are stored, and for which numbers alone, or nothing, are given as arguments, and each
/// global into which copies of such scalars are stored besides; nothing lends where such a parameter is. Results of operators, of steps and of comparisons are
/// numbers, and so are number constants.
pub fn numbers_are_unboxed()
    ensures { (p : Program) → FindsNumbers p }
{}

/// A program that is well sorted stays so with the lanes that are found: into an unboxed name numbers alone are stored, or, into a mixed global, copies of
/// unboxed names; for an unboxed parameter numbers alone, or nothing, are given, or copies of the global that lends there; and into that nothing is stored.
pub fn found_lanes_leave_sorted()
    ensures { (p : Program) → IsSorted p → IsSorted (apply (infer p) p) }
{}
