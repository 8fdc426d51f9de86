//! The step that a token takes on what was read.
ghost use Rattle.std.specs.Prelude.{◌≡◌, Some, List};
ghost use Rattle.ere_syntax.specs.Lexing.{token_view};
ghost use Rattle.ere_syntax.specs.Reading.{IsNeat, put, repeated};
ghost use Rattle.ere_syntax.specs.Frames.{IsSized, frame_view};
ghost use Rattle.ere_syntax.specs.Sizes.{IsOne};
ghost use Rattle.ere_syntax.specs.Steps.{AreReady, FrameAnswer, SpecFrame, StepAnswer, closing_step, opening_step, stack_view, stepped};
ghost use Rattle.ere_syntax.specs.Tree.{Tree};
ghost use Rattle.ere_syntax.specs.View.{view};

use crate::fault::EreFault;
use crate::frame::{Frame, Part, atom, bar, finish, fresh, grouped, put, repeated};
use crate::size::{MAX_ERE_NESTING, Size};
use crate::token::Token;
use crate::tree::{Ere, Times};
use latched::push;
use std::alloc::Global;

/// Puts a piece of one position into the frame.
fn put_one(frame: Frame, ere: Ere) -> Result<Option<Frame>, EreFault>
    ensures { (t : Tree) → view ere ≡ t → IsOne t → IsNeat (frame_view frame) → IsSized frame
        → FrameAnswer (put (frame_view frame) t) result }
{
    let part = Part {
        ere,
        size: Size::one(),
    };
    Ok(Some(put(frame, part)?))
}

/// Repeats the last piece; nothing where there is none.
fn repeat_last(alloc: Global, frame: Frame, times: Times) -> Result<Option<Frame>, EreFault>
    ensures { (g : SpecFrame) → IsSized frame → repeated (frame_view frame) times.low times.high
        ≡ Some g → FrameAnswer g result }
{
    let Frame {
        branches,
        pieces,
        size,
        last,
    } = frame;
    match last {
        None => Ok(None),
        Some(part) => match repeated(alloc, part, times)? {
            None => Err(EreFault::EreTooLarge),
            Some(part) => Ok(Some(Frame {
                branches,
                pieces,
                size,
                last: Some(part),
            })),
        },
    }
}

/// Begins a group.
fn open_group(
    alloc: Global,
    stack: &mut Vec<Frame>,
    frame: Frame,
) -> Result<Option<Frame>, EreFault>
    ensures { (x : List SpecFrame × SpecFrame) → AreReady stack.old.items frame
        → opening_step (stack_view stack.old.items) (frame_view frame) ≡ Some x
        → StepAnswer x stack.new.items result }
{
    if stack.len() >= MAX_ERE_NESTING as usize {
        return Err(EreFault::EreTooLarge);
    }
    push(stack, frame)?;
    Ok(Some(fresh(alloc)))
}

/// Ends a group; nothing where its last branch is empty.
fn close_group(
    alloc: Global,
    stack: &mut Vec<Frame>,
    frame: Frame,
) -> Result<Option<Frame>, EreFault>
    ensures { (x : List SpecFrame × SpecFrame) → AreReady stack.old.items frame
        → closing_step (stack_view stack.old.items) (frame_view frame) ≡ Some x
        → StepAnswer x stack.new.items result }
{
    match finish(frame)? {
        None => Ok(None),
        Some(part) => match stack.pop() {
            None => Ok(None),
            Some(outer) => match grouped(alloc, part)? {
                None => Err(EreFault::EreTooLarge),
                Some(group) => Ok(Some(put(outer, group)?)),
            },
        },
    }
}

/// The frame behind a token; nothing where it may not stand here.
pub(crate) fn step(
    alloc: Global,
    stack: &mut Vec<Frame>,
    frame: Frame,
    token: Token,
) -> Result<Option<Frame>, EreFault>
    ensures { (x : List SpecFrame × SpecFrame) → AreReady stack.old.items frame
        → stepped (token_view token) (stack_view stack.old.items) (frame_view frame) ≡ Some x
        → StepAnswer x stack.new.items result }
{
    match token {
        Token::Atom(kind) => put_one(frame, atom(alloc, kind)?),
        Token::Begin => put_one(frame, Ere::Start),
        Token::Stop => put_one(frame, Ere::End),
        Token::Open => open_group(alloc, stack, frame),
        Token::Close => close_group(alloc, stack, frame),
        Token::Bar => Ok(bar(alloc, frame)?),
        Token::Times(times) => repeat_last(alloc, frame, times),
    }
}
