//! The expressions that were met last.
ghost use Rattle.std.specs.Prelude.{◌≡◌, ◌<◌, IfErr, IfOk, IfSome, IsSome, OnOk, Some, length, slice_get, true};
ghost use Rattle.sem_primitives.specs.Eres.{expression_of};
ghost use Rattle.host_bytes.specs.Outcomes.{IsStopOf};

use crate::matcher::Matcher;
use awk_values::{Bytes, Stop};
use lru::LruCache;
use std::alloc::{AllocError, Global};
use std::marker::Model;
use std::mem::{replace, swap};
use std::num::NonZeroUsize;

/// How many are near.
const NEAR: usize = 15;

/// How many are kept beside the last one and those near.
const MANY: usize = 48;

/// The matchers of the last texts that were asked for. They change no answer, so a clause sees nothing of them.
#[derive(Drop)]
pub struct Expressions {
    /// The one that was asked for last: a script asks for most again at once, and then no text is hashed.
    last: Option<Matcher>,
    /// A few that were asked for before it, in any order. They are found by their texts, without a hash.
    near: Vec<Matcher>,
    /// Those that were asked for before them.
    before: LruCache<Bytes, Matcher>,
}

impl Model for Expressions {
    ghost Value = { Unit {0} };

    ghost view = { λ e. tt };
}

/// Whether a matcher is there, and is that of a text.
fn is_last(last: &Option<Matcher>, text: &Bytes) -> bool
    ensures { result ≡ true → last.now ≡ Some text.now }
{
    match last {
        Some(matcher) => matcher.is_of(text),
        None => false,
    }
}

/// Lends the matcher that is there.
fn lend(last: &mut Option<Matcher>) -> &mut Matcher
    requires { IsSome last.old }
    ensures { last.old ≡ Some result.now }
{
    match last {
        Some(matcher) => matcher,
        None => unreachable!(),
    }
}

/// The matcher of a text: one that was kept, which is taken, or a new one.
fn take_or_make(
    before: &mut LruCache<Bytes, Matcher>,
    alloc: Global,
    text: &Bytes,
) -> Result<Matcher, Stop>
    ensures ok { IfOk result (λ matcher. matcher ≡ text.now) }
    ensures err { IfErr result (IsStopOf (expression_of text.now)) }
{
    if let Some(matcher) = before.pop(text) {
        if matcher.is_of(text) {
            return Ok(matcher);
        }
    }
    Matcher::of(alloc, text.kept(alloc)?)
}

/// Keeps a matcher, in place of the one that was asked for longest ago where there are enough. Where there is no memory to keep it, it is let go.
fn keep(before: &mut LruCache<Bytes, Matcher>, matcher: Matcher) {
    if let Ok(text) = matcher.text() {
        let _ = before.put(text, matcher);
    }
}

/// Keeps the matcher that was the last one near, in place of one that is kept apart.
fn move_near(near: &mut Vec<Matcher>, before: &mut LruCache<Bytes, Matcher>, former: Matcher) {
    if near.len() < NEAR {
        let _ = near.push(former);
        return;
    }
    keep(before, replace(&mut near[0], former));
}

/// Puts the matcher of a text in the place of the last one, which is kept. It stands apart for its large locals.
#[inline(never)]
fn fetch(
    last: &mut Option<Matcher>,
    near: &mut Vec<Matcher>,
    before: &mut LruCache<Bytes, Matcher>,
    alloc: Global,
    text: &Bytes,
) -> Result<(), Stop>
    ensures ok { OnOk result (last.new ≡ Some text.now) }
    ensures err { IfErr result (IsStopOf (expression_of text.now)) }
{
    let matcher = take_or_make(before, alloc, text)?;
    if let Some(former) = replace(last, Some(matcher)) {
        move_near(near, before, former);
    }
    Ok(())
}

/// The place of the matcher of a text near, where it is there.
fn place_near(near: &[Matcher], text: &Bytes) -> Option<usize>
    ensures { IfSome result (λ place. slice_get near.now place ≡ Some text.now) }
{
    for place in 0..near.len() {
        if near[place].is_of(text) {
            return Some(place);
        }
    }
    None
}

/// Makes the matcher at this place near the last one, in exchange for the former one.
fn exchange(last: &mut Option<Matcher>, near: &mut [Matcher], place: usize) -> bool
    requires { place < length near.old }
    ensures { result ≡ true → last.new ≡ slice_get near.old place }
{
    match last {
        Some(matcher) => {
            swap(matcher, &mut near[place]);
            true
        }
        None => false,
    }
}

/// Makes the matcher of a text the last one, where it is near.
fn recall_near(last: &mut Option<Matcher>, near: &mut Vec<Matcher>, text: &Bytes) -> bool
    ensures { result ≡ true → last.new ≡ Some text.now }
{
    match place_near(near, text) {
        Some(place) => exchange(last, near, place),
        None => false,
    }
}

/// Makes the matcher of a text the last one.
#[inline(always)]
fn recall(
    last: &mut Option<Matcher>,
    near: &mut Vec<Matcher>,
    before: &mut LruCache<Bytes, Matcher>,
    alloc: Global,
    text: &Bytes,
) -> Result<(), Stop>
    ensures ok { OnOk result (last.new ≡ Some text.now) }
    ensures err { IfErr result (IsStopOf (expression_of text.now)) }
{
    if is_last(last, text) {
        return Ok(());
    }
    if recall_near(last, near, text) {
        return Ok(());
    }
    fetch(last, near, before, alloc, text)
}

impl Expressions {
    /// No expression was met yet.
    ///
    /// # Errors
    ///
    /// There is no memory.
    pub fn new(alloc: Global) -> Result<Expressions, AllocError> {
        Ok(Expressions {
            last: None,
            near: Vec::new(alloc),
            before: LruCache::sparse(alloc, NonZeroUsize::new(MANY).unwrap())?,
        })
    }

    /// The matcher of a text.
    ///
    /// # Errors
    ///
    /// The fault of a text that is no expression, or one past the limits; [`Stop::NoMemory`].
    pub fn automaton(&mut self, alloc: Global, text: &Bytes) -> Result<&mut Matcher, Stop>
        ensures ok { IfOk result (λ matcher. matcher.now ≡ text.now) }
        ensures err { IfErr result (IsStopOf (expression_of text.now)) }
    {
        recall(
            &mut self.last,
            &mut self.near,
            &mut self.before,
            alloc,
            text,
        )?;
        Ok(lend(&mut self.last))
    }
}
