//! Laws of the code that modules have for mid code, each the contract of a function that does nothing.
ghost use Rattle.mid_program.specs.Mid.{Program};
ghost use Rattle.mid_program.specs.Sorted.{IsSorted};
ghost use Rattle.lower_model.specs.Follows.{Follows, FollowsNoted};

/// The machine over values shows what a program does, for every well-sorted program: in every setting and for every number of turns it comes to the same
/// ending with the same output, and it takes at most a fixed number of steps for each turn.
pub fn code_follows()
    ensures { (program : Program) → IsSorted program → Follows program }
{}

/// A run passes the places of statements as often as statements are executed, and in the same order: whatever is noted in the output at each place, and where each
/// statement of the mid code is begun, the machine that notes it shows what the mid code that notes it does.
pub fn places_are_passed()
    ensures { (program : Program) → IsSorted program → FollowsNoted program }
{}
