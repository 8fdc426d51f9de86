//! Which statement is at work at a place of a function's code.
ghost use Rattle.std.specs.List.{count_by};
ghost use Rattle.std.specs.Prelude.{◌≡◌, ◌<◌, false, slice_get, take, true};
ghost use Rattle.wasm_loader.specs.Laid.{laid};
ghost use Rattle.wasm_machine.specs.StatementAt.{BeginsAt, CalledAt, CalledBetween, IsStatementAt, LoopBefore, is_nop, nop_over, opened_over};

use wasm_loader::layout::{Layout, Op};
use wasm_loader::narrow::Narrow;

/// Whether a `nop` stands at a place.
fn is_nop(layout: &Layout, at: usize) -> bool
    ensures { result ≡ nop_over (slice_get (laid layout.now).forms at) }
{
    matches!(layout.ops.get(at), Some(Op::Plain(Narrow::Nop)))
}

/// How many `nop`s stand before a place.
fn nops_before(layout: &Layout, place: usize) -> usize
    ensures { result ≡ count_by is_nop (take place (laid layout.now).forms) }
{
    let mut count: usize = 0;
    for at in 0..place {
        if is_nop(layout, at) {
            count += 1;
        }
    }
    count
}

/// Whether this import is called at a place.
fn is_called(layout: &Layout, numbers: &[u32], import: u32, at: usize) -> bool
    ensures yes { result ≡ true → CalledAt (laid layout.now).forms numbers.now import at }
    ensures no { result ≡ false → CalledAt (laid layout.now).forms numbers.now import at → ⊥ }
{
    match layout.ops.get(at) {
        Some(Op::Plain(Narrow::Call(callee))) => match numbers.get(*callee as usize) {
            Some(number) => *number == import,
            None => false,
        },
        _ => false,
    }
}

/// Whether this import is called at a place between two.
fn is_called_between(layout: &Layout, numbers: &[u32], import: u32, from: usize, to: usize) -> bool
    ensures yes { result ≡ true
        → CalledBetween (laid layout.now).forms numbers.now import from to }
    ensures no { result ≡ false
        → CalledBetween (laid layout.now).forms numbers.now import from to → ⊥ }
{
    for at in from..to {
        if is_called(layout, numbers, import, at) {
            return true;
        }
    }
    false
}

/// Whether a loop begins at a place in which this import is called, and a later place is before its end.
fn is_loop_before(layout: &Layout, numbers: &[u32], import: u32, place: usize, at: usize) -> bool
    requires { at < place }
    ensures yes { result ≡ true
        → LoopBefore (laid layout.now).forms numbers.now import place at }
    ensures no { result ≡ false
        → LoopBefore (laid layout.now).forms numbers.now import place at → ⊥ }
{
    match layout.ops.get(at) {
        Some(Op::Loop(_, past)) => {
            let past = *past as usize;
            place < past && is_called_between(layout, numbers, import, at + 1, past)
        }
        _ => false,
    }
}

/// Of bodies that are open after an operation, how many are so before it.
fn opened(layout: &Layout, at: usize, after: usize) -> usize
    requires { after < usize.MAX }
    ensures { result ≡ opened_over (slice_get (laid layout.now).forms at) after }
{
    match layout.ops.get(at) {
        Some(Op::Block(_, _) | Op::Loop(_, _)) => after.saturating_sub(1),
        Some(Op::If(_, _, _)) => after.saturating_sub(2),
        Some(Op::End) => after + 1,
        _ => after,
    }
}

/// Where the statement begins that is at work at a place. `ended` is how many of the bodies that are open at a place before it end before it.
fn beginning(layout: &Layout, numbers: &[u32], import: u32, place: usize) -> Option<usize>
    ensures { BeginsAt (laid layout.now).forms numbers.now import place result }
{
    let mut ended: usize = 0;
    for back in 0..place {
        let at = place - 1 - back;
        if ended == 0 && is_nop(layout, at) {
            return Some(at);
        }
        if is_loop_before(layout, numbers, import, place, at) {
            return None;
        }
        ended = opened(layout, at, ended);
    }
    None
}

/// The place of the statement at work at a place of a code: the number of the `nop` with which it begins.
pub(crate) fn statement_at(
    layout: &Layout,
    numbers: &[u32],
    import: u32,
    place: usize,
) -> Option<usize>
    ensures { IsStatementAt (laid layout.now).forms numbers.now import place result }
{
    match beginning(layout, numbers, import, place) {
        Some(at) => Some(nops_before(layout, at)),
        None => None,
    }
}
