//! The environment of a run.
ghost use Rattle.std.specs.Prelude.{◌≡◌, map, option_map, vec_items, IfOk};
ghost use Rattle.std.specs.Cmp.Lexicographic.{slice_cmp};
ghost use Rattle.std.specs.List.Sorted.{IsPermutation};
ghost use Rattle.std.specs.Ordering.{nat_cmp};
ghost use Rattle.task_pages.specs.Environment.{ArePairsIn, IsEnvironmentOf, IsPairIn, IsSortedByName, named_pair};
ghost use Rattle.host_texts.specs.NameForms.{pair_of};

use crate::job::named_text;
use host_texts::NamedText;
use std::alloc::{AllocError, Global};
use std::cmp::Ordering;
use std::env::{Env, FillError};

/// How many bytes are made room for at first, for an entry.
const ROOM: usize = 256;

/// The bytes of the entry of this number; none past the last.
fn entry_at(rt: &HostRuntime, number: usize) -> Result<Option<Vec<u8>>, AllocError> {
    let mut bytes = Vec::new(rt.alloc());
    let mut room = ROOM;
    for _ in 0..usize::BITS {
        bytes.resize(room, 0)?;
        match rt.var_at(number, bytes.as_mut_slice()) {
            Ok(length) => {
                bytes.truncate(length);
                return Ok(Some(bytes));
            }
            Err(FillError::NotPresent) => return Ok(None),
            Err(FillError::TooLong) => room = room.saturating_mul(2),
        }
    }
    Err(AllocError)
}

/// The entries of the environment, as the system has them.
///
/// # Errors
///
/// For want of memory.
pub fn entries_of(rt: &HostRuntime) -> Result<Vec<Vec<u8>>, AllocError> {
    let mut entries = Vec::new(rt.alloc());
    for number in 0..usize::MAX {
        let Some(entry) = entry_at(rt, number)? else {
            break;
        };
        entries.push(entry)?;
    }
    Ok(entries)
}

/// The name and the text around the first `=` of an entry; none where it has no name or no `=`.
fn pair_of_text(alloc: Global, entry: &str) -> Result<Option<NamedText>, AllocError>
    ensures { IfOk result (λ pair. option_map pair_of pair ≡ named_pair entry.now) }
{
    match entry.split_once('=') {
        None => Ok(None),
        Some((name, _)) if name.is_empty() => Ok(None),
        Some((name, text)) => Ok(Some(named_text(alloc, name, text)?)),
    }
}

/// The name and the text of an entry. An entry that is not UTF-8 is left out.
fn pair_in(alloc: Global, entry: &[u8]) -> Result<Option<NamedText>, AllocError>
    ensures { IfOk result (λ pair. IsPairIn entry.now (option_map pair_of pair)) }
{
    match str::from_utf8(entry) {
        Ok(text) => pair_of_text(alloc, text),
        Err(_) => Ok(None),
    }
}

/// The pairs that these entries are, in their order.
fn pairs_in(alloc: Global, entries: &[Vec<u8>]) -> Result<Vec<NamedText>, AllocError>
    ensures { IfOk result (λ pairs. ArePairsIn (map vec_items entries.now)
        (map pair_of pairs.items)) }
{
    let mut pairs = Vec::new(alloc);
    for entry in entries {
        if let Some(pair) = pair_in(alloc, entry)? {
            pairs.push(pair)?;
        }
    }
    Ok(pairs)
}

/// How two pairs are in order.
fn by_name(one: &NamedText, other: &NamedText) -> Ordering
    ensures { result ≡ slice_cmp nat_cmp (pair_of one.now).0 (pair_of other.now).0 }
{
    one.name.as_slice().cmp(&other.name.as_slice())
}

/// The same pairs, sorted by name. Pairs of one name stay in their order.
fn sorted(pairs: Vec<NamedText>) -> Result<Vec<NamedText>, AllocError>
    ensures order { IfOk result (λ texts. IsSortedByName texts.items) }
    ensures all { IfOk result (λ texts. IsPermutation pairs.items texts.items) }
{
    let mut texts = pairs;
    texts.sort_by(|a, b| by_name(a, b))?;
    Ok(texts)
}

/// The environment of these entries, sorted by name, but for entries that are not UTF-8.
///
/// # Errors
///
/// For want of memory.
pub fn environment_of(alloc: Global, entries: &[Vec<u8>]) -> Result<Vec<NamedText>, AllocError>
    ensures order { IfOk result (λ texts. IsSortedByName texts.items) }
    ensures all { IfOk result (λ texts. IsEnvironmentOf (map vec_items entries.now) texts.items) }
{
    Ok(sorted(pairs_in(alloc, entries)?)?)
}
