//! The places of parameters, at which a global may lend its value.

ghost use Rattle.std.specs.Prelude.{◌≡◌, map, IfOk};
ghost use Rattle.mid_program.specs.Translation.{most_parameters, none_lend};
ghost use Rattle.mid_program.specs.View.{view_routine};

use mid_program::Routine;
use std::alloc::{AllocError, Global};

/// How many parameters a function has at most.
fn most_parameters(routines: &[Routine]) -> usize
    ensures { result ≡ most_parameters (map view_routine routines.now) }
{
    let mut most = 0;
    for routine in routines {
        most = routine.parameters.len().max(most);
    }
    most
}

/// What lends at each place: nothing yet.
#[tactic(auto, using(crate::proofs::NoneLend::as_often))]
pub(crate) fn none_lend(
    alloc: Global,
    routines: &[Routine],
) -> Result<Vec<Option<usize>>, AllocError>
    ensures { IfOk result (λ lenders. lenders.items
        ≡ none_lend (most_parameters (map view_routine routines.now))) }
{
    Ok(vec![in alloc; None; most_parameters(routines)]?)
}
