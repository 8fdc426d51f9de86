//! Texts that are placed in memory, one after the other.
ghost use Rattle.std.specs.Prelude.{◌≡◌, IfErr, IfOk, length, map};
ghost use Rattle.mid_program.specs.View.{view_declared, view_routine, view_texts};
ghost use Rattle.lower_layout.specs.Spans.{global_names, routine_names, ArePast, ArePlaced, IsPast, IsPlaced};

use crate::fault::LowerFault;
use mid_program::{Declared, Routine};

/// A text's place in memory, and how long it is.
#[derive(Clone, Copy, Drop)]
pub struct Span {
    pub place: u32,
    pub size: u32,
}

/// Places a text, and says where the next one goes.
fn place_text(spans: &mut Vec<Span>, place: u32, text: &[u8]) -> Result<u32, LowerFault>
    ensures placed { IfOk result
        (λ end. IsPlaced end place (length text.now) spans.old.items spans.new.items) }
    ensures too_large { IfErr result
        (λ fault. fault ≡ LowerFault.TooLarge → IsPast place (length text.now)) }
{
    let left = u32::MAX - place;
    if text.len() > left as usize {
        return Err(LowerFault::TooLarge);
    }
    let size = text.len() as u32;
    spans.push(Span { place, size })?;
    Ok(place + size)
}

/// Places texts, and says where the next one goes.
pub(crate) fn place_texts(
    spans: &mut Vec<Span>,
    place: u32,
    texts: &[Vec<u8>],
) -> Result<u32, LowerFault>
    ensures placed { IfOk result
        (λ end. ArePlaced end place (view_texts texts.now) spans.old.items spans.new.items) }
    ensures too_large { IfErr result
        (λ fault. fault ≡ LowerFault.TooLarge → ArePast place (view_texts texts.now)) }
{
    let mut next = place;
    for text in texts {
        next = place_text(spans, next, text)?;
    }
    Ok(next)
}

/// Places the names of globals.
pub(crate) fn place_globals(
    spans: &mut Vec<Span>,
    place: u32,
    globals: &[Declared],
) -> Result<u32, LowerFault>
    ensures placed { IfOk result
        (λ end. ArePlaced end place (global_names (map view_declared globals.now))
        spans.old.items spans.new.items) }
    ensures too_large { IfErr result
        (λ fault. fault ≡ LowerFault.TooLarge
        → ArePast place (global_names (map view_declared globals.now))) }
{
    let mut next = place;
    for declared in globals {
        next = place_text(spans, next, &declared.name)?;
    }
    Ok(next)
}

/// Places the names of functions.
pub(crate) fn place_routines(
    spans: &mut Vec<Span>,
    place: u32,
    routines: &[Routine],
) -> Result<u32, LowerFault>
    ensures placed { IfOk result
        (λ end. ArePlaced end place (routine_names (map view_routine routines.now))
        spans.old.items spans.new.items) }
    ensures too_large { IfErr result
        (λ fault. fault ≡ LowerFault.TooLarge
        → ArePast place (routine_names (map view_routine routines.now))) }
{
    let mut next = place;
    for routine in routines {
        next = place_text(spans, next, &routine.name)?;
    }
    Ok(next)
}
