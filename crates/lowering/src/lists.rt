//! Lists that grow.
ghost use Rattle.std.specs.Prelude.{[], ◌∷◌, ◌++◌, ◌≡◌, OnOk};

use std::alloc::AllocError;

/// Adds an item to others.
pub(crate) fn pushed<T: Drop>(all: &mut Vec<T>, item: T) -> Result<(), AllocError>
    ensures { OnOk result (all.new.items ≡ all.old.items ++ item ∷ []) }
{
    all.push(item)?;
    Ok(())
}
