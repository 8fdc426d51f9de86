//! What is asked of an automaton.
use crate::eres::call::Call;
use ere_match::{Auto, DeadEnds, first_match, first_match_by_threads, is_match, next_match};
use std::alloc::{AllocError, Global};

/// The place of a match as answers show it.
fn shown(alloc: Global, found: Option<(usize, usize)>) -> Result<String, AllocError> {
    match found {
        Some((start, end)) => format!(in alloc; "{start} {end}"),
        None => String::from_str(alloc, "none"),
    }
}

/// The first match from a place on.
fn first_from(
    alloc: Global,
    auto: &mut Auto,
    text: &[u8],
    from: usize,
) -> Result<String, AllocError> {
    if from > text.len() {
        return String::from_str(alloc, "no place of the text");
    }
    let found = first_match(auto, text, from)?;
    shown(alloc, found)
}

/// Whether there is a match, asked twice.
fn asked_twice(alloc: Global, auto: &mut Auto, text: &[u8]) -> Result<String, AllocError> {
    let one = is_match(auto, text)?;
    let again = is_match(auto, text)?;
    format!(in alloc; "{one} {again}")
}

/// The first place from which threads find another match than the table, if there is one. Where memory runs out the table is
/// asked once more.
fn difference(auto: &mut Auto, text: &[u8]) -> Result<Option<usize>, AllocError> {
    for from in 0..text.len() + 1 {
        let found = match first_match(auto, text, from) {
            Ok(found) => found,
            Err(_) => first_match(auto, text, from)?,
        };
        if found != first_match_by_threads(auto, text, from) {
            return Ok(Some(from));
        }
    }
    Ok(None)
}

/// Whether threads find the same matches.
fn by_threads(alloc: Global, auto: &mut Auto, text: &[u8]) -> Result<String, AllocError> {
    match difference(auto, text)? {
        Some(from) => format!(in alloc; "different from {from} on"),
        None => String::from_str(alloc, "same"),
    }
}

/// Where a match is looked for behind another one.
fn behind(found: (usize, usize)) -> usize {
    found.1.max(found.0.saturating_add(1))
}

/// All matches, one behind another, by searches that tell each other from where no match ends.
fn all(alloc: Global, auto: &mut Auto, text: &[u8]) -> Result<Vec<(usize, usize)>, AllocError> {
    let mut all = Vec::new(alloc);
    let mut ends = DeadEnds::new(alloc, auto);
    let mut at = 0;
    for _turn in 0..text.len() + 1 {
        if at > text.len() {
            break;
        }
        match next_match(auto, text, at, &mut ends)? {
            Some(found) => {
                all.push(found)?;
                at = behind(found);
            }
            None => break,
        }
    }
    Ok(all)
}

/// Whether a search that is told nothing, and one without a table, find this.
fn is_found(
    auto: &mut Auto,
    text: &[u8],
    at: usize,
    found: Option<(usize, usize)>,
) -> Result<bool, AllocError> {
    if at > text.len() {
        return Ok(found.is_none());
    }
    let one = first_match(auto, text, at)?;
    Ok(one == found && first_match_by_threads(auto, text, at) == found)
}

/// Whether these are the matches that are found if each is looked for alone.
fn are_found(auto: &mut Auto, text: &[u8], all: &[(usize, usize)]) -> Result<bool, AllocError> {
    let mut at = 0;
    for found in all {
        if !is_found(auto, text, at, Some(*found))? {
            return Ok(false);
        }
        at = behind(*found);
    }
    is_found(auto, text, at, None)
}

/// How many matches there are, and whether each is found if it is looked for alone.
fn all_of(alloc: Global, auto: &mut Auto, text: &[u8]) -> Result<String, AllocError> {
    let all = all(alloc, auto, text)?;
    let same = are_found(auto, text, &all)?;
    format!(in alloc; "{} {same}", all.len())
}

/// How many matches there are, one behind another, and where the first begins and ends; only the first is looked for where
/// `all` does not ask for the others.
fn found(auto: &mut Auto, text: &[u8], all: bool) -> Result<(usize, usize, usize), AllocError> {
    let mut first = (0, 0);
    let mut count: usize = 0;
    let mut at = 0;
    for turn in 0..text.len() {
        if at > text.len() {
            break;
        }
        match first_match(auto, text, at)? {
            Some((start, end)) => {
                if turn == 0 {
                    first = (start, end);
                }
                count = count.saturating_add(1);
                at = end.max(at.saturating_add(1));
            }
            None => break,
        }
        if !all {
            break;
        }
    }
    Ok((count, first.0, first.1))
}

/// How many matches of a long text are found, and where the first begins and ends.
fn counted(alloc: Global, auto: &mut Auto, text: &[u8], all: bool) -> Result<String, AllocError> {
    let (count, start, end) = found(auto, text, all)?;
    format!(in alloc; "{count} from {start} to {end}")
}

/// What a line asks of its automaton.
pub(crate) fn of_automaton(
    alloc: Global,
    call: Call,
    auto: &mut Auto,
    text: &[u8],
    from: usize,
) -> Result<String, AllocError> {
    match call {
        Call::Match => asked_twice(alloc, auto, text),
        Call::Threads => by_threads(alloc, auto, text),
        Call::All => all_of(alloc, auto, text),
        Call::Long => counted(alloc, auto, text, false),
        Call::LongAll => counted(alloc, auto, text, true),
        _ => first_from(alloc, auto, text, from),
    }
}
