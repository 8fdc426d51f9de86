//! Where statements are emitted.
ghost use Rattle.std.specs.Prelude.{◌≡◌, ◌≤◌, suc};
ghost use Rattle.lower_pieces.specs.Bounds.{most_labels, most_places};
ghost use Rattle.lowering.specs.Places.{in_body, in_branch, in_keys, in_last, OwnLabels};
ghost use Rattle.lowering.specs.StepFits.{LoopFits};

/// How many iterators are in use; and how many labels further out the function's exit is, the place where `break` goes, and the one where
/// `continue` goes.
#[derive(Clone, Copy, Drop)]
pub struct Around {
    pub iterators: u32,
    pub exit: u32,
    pub break_to: u32,
    pub continue_to: u32,
}

/// In a block of its own, where no loop is.
pub(crate) const OUTERMOST: Around = Around {
    iterators: 0,
    exit: 0,
    break_to: 0,
    continue_to: 0,
};

/// In one of two ways.
pub(crate) fn in_branch(at: Around) -> Around
    requires labels { suc at.exit ≤ most_labels }
    requires own { OwnLabels at }
    ensures is { result ≡ in_branch at }
    ensures own { OwnLabels result }
{
    Around {
        iterators: at.iterators,
        exit: at.exit + 1,
        break_to: at.break_to + 1,
        continue_to: at.continue_to + 1,
    }
}

/// In the body of a loop.
pub(crate) fn in_body(at: Around) -> Around
    requires { LoopFits at.exit }
    ensures is { result ≡ in_body at }
    ensures own { OwnLabels result }
{
    Around {
        iterators: at.iterators,
        exit: at.exit + 3,
        break_to: 2,
        continue_to: 0,
    }
}

/// After the body of a loop.
pub(crate) fn in_last(at: Around) -> Around
    requires { LoopFits at.exit }
    ensures is { result ≡ in_last at }
    ensures own { OwnLabels result }
{
    Around {
        iterators: at.iterators,
        exit: at.exit + 2,
        break_to: 1,
        continue_to: 0,
    }
}

/// In the body of a loop over keys.
pub(crate) fn in_keys(at: Around) -> Around
    requires labels { LoopFits at.exit }
    requires few { suc at.iterators ≤ most_places }
    ensures is { result ≡ in_keys at }
    ensures own { OwnLabels result }
{
    Around {
        iterators: at.iterators + 1,
        exit: at.exit + 3,
        break_to: 2,
        continue_to: 0,
    }
}
