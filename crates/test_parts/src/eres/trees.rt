//! What is asked of a tree.
use crate::eres::call::Call;
use crate::eres::matches::of_automaton;
use ere_match::build;
use ere_syntax::{ByteSet, Ere, EreFault, Times, read_ere};
use std::alloc::{AllocError, Global};

/// A value on the heap.
fn boxed<T: Drop>(alloc: Global, value: T) -> Result<Box<T>, EreFault> {
    Ok(Box::new(alloc, value)?)
}

/// An expression whose counts are reversed, which no text writes.
fn reversed(alloc: Global) -> Result<Ere, EreFault> {
    let times = Times {
        low: 3,
        high: Some(2),
    };
    Ok(Ere::Repeat(boxed(alloc, Ere::Byte(b'a'))?, times))
}

fn tree_of(alloc: Global, call: Call, expression: &[u8]) -> Result<Ere, EreFault> {
    match call {
        Call::Reversed => reversed(alloc),
        _ => read_ere(alloc, expression),
    }
}

/// How many bytes a set has.
fn count_of(set: &ByteSet) -> usize {
    let mut count: usize = 0;
    for byte in 0..=255u8 {
        if set.contains(byte) {
            count = count.saturating_add(1);
        }
    }
    count
}

/// Whether a set has these bytes.
fn has_all(set: &ByteSet, bytes: &[u8]) -> bool {
    for byte in bytes {
        if !set.contains(*byte) {
            return false;
        }
    }
    true
}

/// How many bytes an expression takes that stands in brackets, and whether these are among them.
fn counted(ere: &Ere, bytes: &[u8]) -> (usize, bool) {
    match ere {
        Ere::Bracket(set) => (count_of(set), has_all(set, bytes)),
        _ => (0, false),
    }
}

fn set(alloc: Global, ere: &Ere, bytes: &[u8]) -> Result<String, AllocError> {
    let (count, all) = counted(ere, bytes);
    format!(in alloc; "{count} {all}")
}

/// What a line asks of its automaton, which is refused only where memory ran out.
fn matched(
    alloc: Global,
    call: Call,
    ere: &Ere,
    text: &[u8],
    from: usize,
) -> Result<String, AllocError> {
    match build(alloc, ere) {
        Ok(auto) => {
            let mut auto = auto;
            of_automaton(alloc, call, &mut auto, text, from)
        }
        Err(_) => Err(AllocError),
    }
}

/// What a line asks of its tree, which may be too large to be shown.
fn of_tree(
    alloc: Global,
    call: Call,
    ere: &Ere,
    text: &[u8],
    from: usize,
) -> Result<String, AllocError> {
    match call {
        Call::Tree => format!(in alloc; "{ere:?}"),
        Call::Set => set(alloc, ere, text),
        Call::Read => String::from_str(alloc, "tree"),
        _ => matched(alloc, call, ere, text, from),
    }
}

/// What a line asks of its expression.
pub(crate) fn of_expression(
    alloc: Global,
    call: Call,
    expression: &[u8],
    text: &[u8],
    from: usize,
) -> Result<String, EreFault> {
    let ere = tree_of(alloc, call, expression)?;
    Ok(of_tree(alloc, call, &ere, text, from)?)
}
