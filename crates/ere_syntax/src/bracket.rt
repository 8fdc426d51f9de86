//! The parts of a bracket expression.
ghost use Rattle.std.specs.Prelude.{◌≡◌, ℕ, ◌<◌, ◌||◌, false, length, option_map, slice_index_or};
ghost use Rattle.ere_syntax.specs.Bracket.{dash_at, front, names, names_front, starts, value};
ghost use Rattle.ere_syntax.specs.Readers.{behind, byte_and, member_at, one_at};
ghost use Rattle.ere_syntax.specs.Reads.{begun, closed_by, in_item, item_and, item_of, kept, read_bracket, read_members, read_named, set_and, upper_by};

use crate::class::{Class, between, class_of};
use crate::escape::escape;
use crate::tree::ByteSet;

/// What stands at the front within brackets.
#[derive(Clone, Copy)]
pub(crate) enum Front {
    Closes,
    Names,
    Begins,
    Wrong,
}

/// Whether this byte stands at the front.
pub(crate) fn starts(byte: u8, text: &[u8]) -> bool
    ensures { result ≡ starts byte text.now }
{
    match text {
        [first, ..] => *first == byte,
        [] => false,
    }
}

/// What follows a dash that makes a range.
pub(crate) fn dash(text: &[u8]) -> Option<&[u8]>
    ensures { option_map (λ rest. rest.now) result ≡ dash_at text.now }
{
    match text {
        [b'-', b']', ..] => None,
        [b'-', rest @ ..] if !rest.is_empty() => Some(rest),
        _ => None,
    }
}

/// One byte in brackets, and what follows; or what was left where reading stopped.
pub(crate) fn one(text: &[u8]) -> Result<(u8, &[u8]), &[u8]>
    ensures { option_map (λ x. byte_and x.0 x.1.now) (kept result)
        ≡ option_map (λ x. byte_and (value x.0) x.1) (one_at text.now) }
{
    match text {
        [] => Err(text),
        [b'\\', rest @ ..] => escape(rest),
        [first, rest @ ..] => Ok((*first, rest)),
    }
}

/// Whether a class or the like is named behind a bracket.
fn names(text: &[u8]) -> bool
    ensures { result ≡ names text.now }
{
    starts(b':', text) || starts(b'.', text) || starts(b'=', text)
}

/// Whether a class or the like stands at the front.
fn names_front(text: &[u8]) -> bool
    ensures { result ≡ names_front text.now }
{
    match text {
        [] => false,
        [first, rest @ ..] => *first == b'[' && names(rest),
    }
}

/// What follows the first byte.
pub(crate) fn behind(text: &[u8]) -> &[u8]
    ensures { result.now ≡ behind text.now }
{
    match text {
        [_, rest @ ..] => rest,
        [] => text,
    }
}

/// What stands at the front, where `first` says that no member stands before it.
pub(crate) fn front_of(first: bool, text: &[u8]) -> Front
    ensures { result ≡ front first text.now }
{
    match text {
        [] => Front::Wrong,
        [byte, rest @ ..] => {
            if *byte == b']' && !first {
                Front::Closes
            } else if *byte == b'[' && names(rest) {
                Front::Names
            } else if *byte == b'-' && !first && !starts(b']', rest) {
                Front::Wrong
            } else {
                Front::Begins
            }
        }
    }
}

/// The upper byte of a range, and what follows; or what was left where reading stopped.
pub(crate) fn upper(lower: u8, text: &[u8]) -> Result<(u8, &[u8]), &[u8]>
    ensures { option_map (λ x. byte_and x.0 x.1.now) (kept result) ≡ upper_by lower text.now }
{
    if names_front(text) {
        return Err(text);
    }
    match one(text) {
        Ok((byte, rest)) if lower <= byte => Ok((byte, rest)),
        Ok((_, rest)) => Err(rest),
        Err(rest) => Err(rest),
    }
}

/// A member of a bracket expression.
#[derive(Clone, Copy)]
pub(crate) enum Item {
    Single(u8),
    Range(u8, u8),
    Named(Class),
}

impl Item {
    fn contains(self, byte: u8) -> bool
        ensures { result ≡ in_item self byte }
    {
        match self {
            Item::Single(single) => byte == single,
            Item::Range(low, high) => between(low, high, byte),
            Item::Named(class) => class.contains(byte),
        }
    }
}

/// The class that is named at the front, with its bracket.
fn named(text: &[u8]) -> Result<(Item, &[u8]), &[u8]>
    ensures { option_map (λ x. item_and x.0 x.1.now) (kept result) ≡ read_named text.now }
{
    match text {
        [_, b':', rest @ ..] => match class_of(rest) {
            Some((class, after)) => Ok((Item::Named(class), after)),
            None => Err(text),
        },
        _ => Err(text),
    }
}

/// The byte or the range at the front.
fn begun(text: &[u8]) -> Result<(Item, &[u8]), &[u8]>
    ensures { option_map (λ x. item_and x.0 x.1.now) (kept result) ≡ begun text.now }
{
    match one(text) {
        Err(stop) => Err(stop),
        Ok((byte, rest)) => match dash(rest) {
            None => Ok((Item::Single(byte), rest)),
            Some(after) => match upper(byte, after) {
                Err(stop) => Err(stop),
                Ok((high, rest)) => Ok((Item::Range(byte, high), rest)),
            },
        },
    }
}

/// The member at the front, and what follows; or what was left where reading stopped.
fn member(text: &[u8], front: Front) -> Result<(Item, &[u8]), &[u8]>
    ensures { option_map (λ x. item_and x.0 x.1.now) (kept result)
        ≡ option_map (λ x. item_and (item_of x.0) x.1) (member_at text.now front) }
{
    match front {
        Front::Names => named(text),
        Front::Begins => begun(text),
        Front::Closes | Front::Wrong => Err(text),
    }
}

/// What follows the bracket that closes the members, where it stands at the front.
fn behind_close(front: Front, text: &[u8]) -> Option<&[u8]>
    ensures { option_map (λ rest. rest.now) result ≡ closed_by front text.now }
{
    match front {
        Front::Closes => match text {
            [_, after @ ..] => Some(after),
            [] => None,
        },
        _ => None,
    }
}

/// Puts the bytes of a member into the set.
fn insert(set: &mut ByteSet, item: Item)
    ensures size { length set.new.has ≡ 256 }
    ensures bytes { (c : ℕ) → c < 256 → slice_index_or set.new.has c false
        ≡ (slice_index_or set.old.has c false || in_item item c) }
{
    for byte in 0..256usize {
        if item.contains(byte as u8) {
            set.has[byte] = true;
        }
    }
}

/// The bytes of the members up to the bracket that closes them, and what follows; or what was left where reading stopped.
fn members(text: &[u8]) -> Result<(ByteSet, &[u8]), &[u8]>
    ensures { option_map (λ x. set_and x.0.has x.1.now) (kept result) ≡ read_members text.now }
{
    let mut set = ByteSet::empty();
    let mut rest = text;
    let mut first = true;
    loop {
        let front = front_of(first, rest);
        match behind_close(front, rest) {
            Some(after) => return Ok((set, after)),
            None => {}
        }
        match member(rest, front) {
            Err(stop) => return Err(stop),
            Ok((item, after)) => {
                insert(&mut set, item);
                rest = after;
                first = false;
            }
        }
    }
}

/// The bytes of a bracket expression, behind its first bracket, and what follows; or what was left where reading stopped.
pub(crate) fn bracket(text: &[u8]) -> Result<(ByteSet, &[u8]), &[u8]>
    ensures { option_map (λ x. set_and x.0.has x.1.now) (kept result) ≡ read_bracket text.now }
{
    if !starts(b'^', text) {
        return members(text);
    }
    match members(behind(text)) {
        Err(stop) => Err(stop),
        Ok((set, after)) => Ok((set.complement(), after)),
    }
}
