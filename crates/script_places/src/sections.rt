//! The sections of a module, and among them the one of lines.
ghost use Rattle.std.specs.Prelude.{◌≡◌, MatchOption, None, Some, drop};
ghost use Rattle.script_places.specs.Reading.{counted_at, held, own_of, own_section, section_at};

use crate::writing::OWN_NAME;
use wasm_types::take_u32;

/// How many bytes a module begins with.
const HEADER_LENGTH: usize = 8;

/// Bytes with their number before them, and what comes after them.
pub(crate) fn counted(bytes: &[u8]) -> Option<(&[u8], &[u8])>
    ensures { MatchOption result (counted_at bytes.now ≡ None)
        (λ x. counted_at bytes.now ≡ Some (x.0.now, x.1.now)) }
{
    let (count, rest) = take_u32(bytes)?;
    let count = count as usize;
    if count <= rest.len() {
        Some((&rest[..count], &rest[count..]))
    } else {
        None
    }
}

/// A section: its number, its contents, and what comes after it.
fn section(bytes: &[u8]) -> Option<(u8, &[u8], &[u8])>
    ensures { MatchOption result (section_at bytes.now ≡ None)
        (λ x. section_at bytes.now ≡ Some (x.0, x.1.now, x.2.now)) }
{
    match bytes {
        [] => None,
        [id, rest @ ..] => {
            let (contents, after) = counted(rest)?;
            Some((*id, contents, after))
        }
    }
}

/// What the section of lines has behind its name; else what was found before.
fn newer<'a>(found: Option<&'a [u8]>, id: u8, contents: &'a [u8]) -> Option<&'a [u8]>
    ensures { held result ≡ own_of (held found.entry) id contents.now }
{
    if id == 0 && contents.starts_with(&OWN_NAME) {
        Some(&contents[OWN_NAME.len()..])
    } else {
        found
    }
}

/// What comes after the header.
fn after_header(bytes: &[u8]) -> &[u8]
    ensures { result.now ≡ drop 8 bytes.now }
{
    if bytes.len() < HEADER_LENGTH {
        return &[];
    }
    &bytes[HEADER_LENGTH..]
}

/// What the last section of lines has behind its name.
pub(crate) fn own_section(bytes: &[u8]) -> Option<&[u8]>
    ensures { held result ≡ own_section bytes.now }
{
    let turns = bytes.len();
    let mut rest = after_header(bytes);
    let mut found = None;
    for _ in 0..turns {
        let Some((id, contents, after)) = section(rest) else {
            return found;
        };
        found = newer(found, id, contents);
        rest = after;
    }
    found
}
