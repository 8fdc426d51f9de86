//! The layout of a script.
ghost use Rattle.std.specs.Prelude.{◌≡◌, IfErr, IfOk, map};
ghost use Rattle.mid_program.specs.Sorted.{kinds_of};
ghost use Rattle.mid_program.specs.View.{view_declared, view_mid};
ghost use Rattle.lower_layout.specs.Spans.{arrays_from, IsSmall};

use crate::fault::LowerFault;
use crate::places::Layout;
use crate::spans::{place_globals, place_routines, place_texts};
use mid_program::{Declared, Kind, Mid};
use std::alloc::{AllocError, Global};
use wasm_types::MAX_MODULE_BYTES;

/// More names or ranges a script does not have: each takes a byte of the module.
const MOST_NAMES: usize = MAX_MODULE_BYTES;

/// Which of the names are arrays.
fn array_names(alloc: Global, names: &[Declared]) -> Result<Vec<usize>, AllocError>
    ensures { IfOk result
        (λ arrays. arrays.items ≡ arrays_from 0 (kinds_of (map view_declared names.now))) }
{
    let mut arrays = Vec::new(alloc);
    for (place, name) in names.iter().enumerate() {
        if let Kind::Array = name.kind {
            arrays.push(place)?;
        }
    }
    Ok(arrays)
}

/// The layout of a script: its texts and names stand in memory one after the other.
///
/// # Errors
///
/// [`LowerFault::TooLarge`] where it has more names or ranges than a module has bytes, or where its texts and names take 2^32 bytes or more, and nowhere else;
/// and [`LowerFault::NoMemory`].
pub fn layout(alloc: Global, mid: &Mid) -> Result<Layout<'_>, LowerFault>
    ensures layout { IfOk result (λ made. made.program.now ≡ mid.now) }
    ensures too_large { IfErr result
        (λ fault. fault ≡ LowerFault.TooLarge → IsSmall (view_mid mid.now) → ⊥) }
{
    if mid.globals.len() > MOST_NAMES || mid.ranges > MOST_NAMES {
        return Err(LowerFault::TooLarge);
    }
    let mut spans = Vec::new(alloc);
    let place = place_texts(&mut spans, 0, mid.texts.as_slice())?;
    let place = place_globals(&mut spans, place, &mid.globals)?;
    place_routines(&mut spans, place, &mid.routines)?;
    let arrays = array_names(alloc, &mid.globals)?;
    Ok(Layout {
        program: mid,
        spans,
        arrays,
    })
}
