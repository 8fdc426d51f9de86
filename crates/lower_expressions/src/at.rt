//! Where code is emitted.
ghost use Rattle.std.specs.Prelude.{◌≡◌, suc};
ghost use Rattle.lower_expressions.specs.Fits.{Within};

/// The temporary of its value, where those from it on are free; how many arrays of calls are in use; and how many labels further out the
/// function's exit is.
#[derive(Clone, Copy, Drop)]
pub struct At {
    pub temporary: u32,
    pub arrays: u32,
    pub exit: u32,
}

/// One temporary further.
pub(crate) fn next(at: At) -> At
    requires { Within at.temporary at.arrays at.exit }
    ensures { result ≡ record { temporary = suc at.temporary; arrays = at.arrays; exit = at.exit } }
{
    At {
        temporary: at.temporary + 1,
        arrays: at.arrays,
        exit: at.exit,
    }
}

/// One array of a call further.
pub(crate) fn after_array(at: At) -> At
    requires { Within at.temporary at.arrays at.exit }
    ensures { result ≡ record { temporary = at.temporary; arrays = suc at.arrays; exit = at.exit } }
{
    At {
        temporary: at.temporary,
        arrays: at.arrays + 1,
        exit: at.exit,
    }
}

/// Within one label more.
pub(crate) fn inner_at(at: At) -> At
    requires { Within at.temporary at.arrays at.exit }
    ensures { result ≡ record { temporary = at.temporary; arrays = at.arrays; exit = suc at.exit } }
{
    At {
        temporary: at.temporary,
        arrays: at.arrays,
        exit: at.exit + 1,
    }
}

/// Where a text that is kept is stored.
pub(crate) fn stored_at(at: At) -> At
    requires { Within at.temporary at.arrays at.exit }
    ensures { result
        ≡ record { temporary = suc (suc at.temporary); arrays = at.arrays; exit = suc at.exit } }
{
    At {
        temporary: at.temporary + 2,
        arrays: at.arrays,
        exit: at.exit + 1,
    }
}
