//! The globals that lend their values, by the places of parameters.

ghost use Rattle.std.specs.Prelude.{◌≡◌, false, get_or, map, IfOk};
ghost use Rattle.mid_program.specs.Sorted.{lender_at};
ghost use Rattle.mid_program.specs.View.{view_kind};
ghost use Rattle.value_kinds.specs.Applied.{lenders_with};
ghost use Rattle.value_kinds.specs.Lanes.{any_unboxed, by_place, granted, none_wished};
ghost use Rattle.value_kinds.specs.View.{view_kinds};

use crate::names::is_unboxed;
use mid_program::Kind;
use std::alloc::{AllocError, Global};

/// What lends at a place, if anything does.
pub(crate) fn lender_at(lenders: &[Option<usize>], place: usize) -> Option<usize>
    ensures { result ≡ lender_at lenders.now place }
{
    if place >= lenders.len() {
        return None;
    }
    lenders[place]
}

/// Places at which nothing is wished.
pub(crate) fn none_wished(
    alloc: Global,
    lenders: &[Option<usize>],
) -> Result<Vec<Option<usize>>, AllocError>
    ensures { IfOk result (λ wishes. wishes.items ≡ none_wished lenders.now) }
{
    let mut wishes = Vec::new(alloc);
    for _ in lenders {
        wishes.push(None)?;
    }
    Ok(wishes)
}

/// Whether some function has an unboxed parameter at this place.
fn any_unboxed(functions: &[Vec<Kind>], place: usize) -> bool
    ensures { result ≡ any_unboxed (map view_kinds functions.now) place }
{
    for kinds in functions {
        if is_unboxed(kinds, place) {
            return true;
        }
    }
    false
}

/// Whether a number is given at a place.
fn is_numbered(numbered: &[bool], place: usize) -> bool
    ensures { result ≡ get_or numbered.now place false }
{
    if place >= numbered.len() {
        return false;
    }
    numbered[place]
}

/// What lends at a place where this is wished. A global does if nothing but the command line stores into it, before the script runs, a number is given there
/// too, and no parameter there has numbers alone.
fn granted(
    asked: bool,
    free: &[Kind],
    numbered: &[bool],
    functions: &[Vec<Kind>],
    place: usize,
    wish: Option<usize>,
) -> Option<usize>
    ensures { result ≡ granted asked (map view_kind free.now) numbered.now
        (map view_kinds functions.now) place wish }
{
    match wish {
        Some(global) => {
            if !asked
                && is_numbered(numbered, place)
                && is_unboxed(free, global)
                && !any_unboxed(functions, place)
            {
                Some(global)
            } else {
                None
            }
        }
        None => None,
    }
}

/// Leaves of the wishes what lends.
pub(crate) fn grant(
    asked: bool,
    free: &[Kind],
    numbered: &[bool],
    functions: &[Vec<Kind>],
    wishes: &mut Vec<Option<usize>>,
)
    ensures { wishes.new.items ≡ by_place (granted asked (map view_kind free.now) numbered.now
        (map view_kinds functions.now)) wishes.old.items }
{
    let mut place = 0;
    for wish in wishes.iter_mut() {
        *wish = granted(asked, free, numbered, functions, place, *wish);
        place += 1;
    }
}

/// Each place gets its lender.
pub(crate) fn lane_lenders(lenders: &[Option<usize>], places: &mut Vec<Option<usize>>)
    ensures { places.new.items ≡ lenders_with (lender_at lenders.now) places.old.items }
{
    let mut place = 0;
    for lender in places.iter_mut() {
        *lender = lender_at(lenders, place);
        place += 1;
    }
}
