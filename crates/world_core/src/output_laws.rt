//! Laws of the definition of a world, each the contract of a function that does nothing.
ghost use Rattle.std.specs.Prelude.{◌≡◌, ◌++◌, ℕ, List, false};
ghost use Rattle.world_core.specs.WorldState.{Action, Outside, Target, after};
ghost use Rattle.world_core.specs.About.{is_about};

/// What names hold after one output and then another is what they hold after both as one list; and a name that no action of an output is about
/// holds what it held.
pub fn outputs_add_up()
    ensures follow { (first second : List Action) (outside : Outside)
        → after (first ++ second) outside ≡ after second (after first outside) }
    ensures others { (output : List Action) (outside : Outside) (target : Target)
        → is_about target output ≡ false → after output outside target ≡ outside target }
{}
