//! What was read of a group, and the steps that tokens take on it.
ghost use Rattle.std.specs.Prelude.{◌≡◌, ◌<◌, ◌+◌, Some, IfOk, IfSome, option_map};
ghost use Rattle.ere_syntax.specs.Tree.{Group, Repeat, most_ere_nesting};
ghost use Rattle.ere_syntax.specs.Reading.{IsNeat, bar, either, finish, fresh, joined, put};
ghost use Rattle.ere_syntax.specs.Frames.{IsSized, atom_view, frame_view, some_concat, some_or};
ghost use Rattle.ere_syntax.specs.Sizes.{IsSize};
ghost use Rattle.ere_syntax.specs.View.{view, views};

use crate::size::Size;
use crate::token::Atom;
use crate::tree::{Ere, Times};
use latched::{boxed, push};
use std::alloc::{AllocError, Global};

/// A piece of a branch, and its size.
#[derive(Drop)]
pub(crate) struct Part {
    pub(crate) ere: Ere,
    pub(crate) size: Size,
}

/// What was read of a group: its branches so far, the pieces of the branch at hand, the size of both, and its last piece.
#[derive(Drop)]
pub(crate) struct Frame {
    pub(crate) branches: Vec<Ere>,
    pub(crate) pieces: Vec<Ere>,
    pub(crate) size: Size,
    pub(crate) last: Option<Part>,
}

/// A group of which nothing was read.
pub(crate) fn fresh(alloc: Global) -> Frame
    ensures same { frame_view result ≡ fresh }
    ensures sized { IsSized result }
{
    Frame {
        branches: Vec::new(alloc),
        pieces: Vec::new(alloc),
        size: Size::none(),
        last: None,
    }
}

/// The tree of an atom.
pub(crate) fn atom(alloc: Global, atom: Atom) -> Result<Ere, AllocError>
    ensures { IfOk result (λ e. view e ≡ atom_view atom) }
{
    match atom {
        Atom::Byte(byte) => Ok(Ere::Byte(byte)),
        Atom::Any => Ok(Ere::Any),
        Atom::Bracket(set) => Ok(Ere::Bracket(Box::new(alloc, set)?)),
    }
}

/// The pieces and the last one as one.
fn joined(pieces: Vec<Ere>, last: Ere) -> Result<Ere, AllocError>
    ensures { IfOk result
        (λ e. Some (view e) ≡ joined (some_concat (views pieces.items)) (Some (view last))) }
{
    if pieces.is_empty() {
        return Ok(last);
    }
    let mut pieces = pieces;
    push(&mut pieces, last)?;
    Ok(Ere::Concat(pieces))
}

/// The branches and the last one as one.
fn either(branches: Vec<Ere>, last: Ere) -> Result<Ere, AllocError>
    ensures { IfOk result (λ e. view e ≡ either (some_or (views branches.items)) (view last)) }
{
    if branches.is_empty() {
        return Ok(last);
    }
    let mut branches = branches;
    push(&mut branches, last)?;
    Ok(Ere::Or(branches))
}

/// The frame with one more piece.
pub(crate) fn put(frame: Frame, part: Part) -> Result<Frame, AllocError>
    ensures same { IsNeat (frame_view frame)
        → IfOk result (λ f. frame_view f ≡ put (frame_view frame) (view part.ere)) }
    ensures sized { IsSized frame → IsSize part.size (view part.ere)
        → IfOk result (λ f. IsSized f) }
{
    let Frame {
        branches,
        pieces,
        size,
        last,
    } = frame;
    match last {
        None => Ok(Frame {
            branches,
            pieces,
            size,
            last: Some(part),
        }),
        Some(before) => {
            let mut pieces = pieces;
            push(&mut pieces, before.ere)?;
            Ok(Frame {
                branches,
                pieces,
                size: size.beside(before.size),
                last: Some(part),
            })
        }
    }
}

/// The frame behind the end of a branch; nothing where the branch is empty.
pub(crate) fn bar(alloc: Global, frame: Frame) -> Result<Option<Frame>, AllocError>
    ensures same { IfOk result (λ r. option_map frame_view r ≡ bar (frame_view frame)) }
    ensures sized { IsSized frame → IfOk result (λ r. IfSome r (λ f. IsSized f)) }
{
    let Frame {
        branches,
        pieces,
        size,
        last,
    } = frame;
    match last {
        None => Ok(None),
        Some(last) => {
            let branch = joined(pieces, last.ere)?;
            let mut branches = branches;
            push(&mut branches, branch)?;
            Ok(Some(Frame {
                branches,
                pieces: Vec::new(alloc),
                size: size.beside(last.size),
                last: None,
            }))
        }
    }
}

/// What stands in the group, at its end; nothing where its last branch is empty.
pub(crate) fn finish(frame: Frame) -> Result<Option<Part>, AllocError>
    ensures same { IfOk result (λ r. option_map (λ p. view p.ere) r ≡ finish (frame_view frame)) }
    ensures sized { IsSized frame → IfOk result (λ r. IfSome r (λ p. IsSize p.size (view p.ere))) }
{
    let Frame {
        branches,
        pieces,
        size,
        last,
    } = frame;
    match last {
        None => Ok(None),
        Some(last) => {
            let branch = joined(pieces, last.ere)?;
            let ere = either(branches, branch)?;
            Ok(Some(Part {
                ere,
                size: size.beside(last.size),
            }))
        }
    }
}

/// The part in parentheses; nothing where that is nested too deeply.
pub(crate) fn grouped(alloc: Global, part: Part) -> Result<Option<Part>, AllocError>
    ensures same { IfOk result (λ r. IfSome r (λ p. view p.ere ≡ Group (view part.ere))) }
    ensures deep { IfOk result (λ r. r ≡ None → most_ere_nesting < part.size.nesting + 1) }
    ensures sized { IsSize part.size (view part.ere)
        → IfOk result (λ r. IfSome r (λ p. IsSize p.size (view p.ere))) }
{
    match part.size.deeper() {
        None => Ok(None),
        Some(size) => Ok(Some(Part {
            ere: Ere::Group(boxed(alloc, part.ere)?),
            size,
        })),
    }
}

/// The part, repeated; nothing where that is nested too deeply.
pub(crate) fn repeated(alloc: Global, part: Part, times: Times) -> Result<Option<Part>, AllocError>
    ensures same { IfOk result
        (λ r. IfSome r (λ p. view p.ere ≡ Repeat (view part.ere) times.low times.high)) }
    ensures deep { IfOk result (λ r. r ≡ None → most_ere_nesting < part.size.nesting + 1) }
    ensures sized { IsSize part.size (view part.ere)
        → IfOk result (λ r. IfSome r (λ p. IsSize p.size (view p.ere))) }
{
    match part.size.repeated(times).deeper() {
        None => Ok(None),
        Some(size) => Ok(Some(Part {
            ere: Ere::Repeat(boxed(alloc, part.ere)?, times),
            size,
        })),
    }
}
