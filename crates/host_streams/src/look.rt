//! What the bytes read so far tell of the first record.
ghost use Rattle.std.specs.Prelude.{◌≡◌, ◌+◌, ◌≤◌, length, drop};
ghost use Rattle.std.specs.List.{prefix_len};
ghost use Rattle.sem_primitives.specs.Records.{begins, is_newline, skipped, trimmed, without_last, width};
ghost use Rattle.host_streams.specs.Looks.{FindsCut, HasNoneBefore, IsScanned, Looks, searched};

use memchr::memchr;
use sem_primitives::MAX_TEXT;

/// What is known of the bytes at a record's front: so many newlines are skipped, and so many bytes after them begin no separator.
#[derive(Clone, Copy, Drop)]
pub(crate) struct Known {
    pub(crate) skipped: usize,
    pub(crate) searched: usize,
}

/// The record from the first place to the second, with what follows it from the third; or too long a record; or none yet, with the places of the
/// one that it is if the end follows, and what is known by now.
#[derive(Clone, Copy, Drop)]
pub(crate) enum Look {
    Record(usize, usize, usize),
    Long,
    More(usize, usize, usize),
}

fn find_byte(bytes: &[u8], byte: u8, at: usize) -> Option<usize>
    requires within { at ≤ length bytes.now }
    requires none { HasNoneBefore (Some byte) at bytes.now }
    ensures { FindsCut (Some byte) bytes.now result }
{
    match memchr(byte, &bytes[at..]) {
        Some(k) => Some(at + k),
        None => None,
    }
}

/// Whether two newlines stand at the front.
fn is_empty_line(bytes: &[u8]) -> bool
    ensures { result ≡ begins None bytes.now }
{
    match bytes {
        [x, y, ..] => *x == b'\n' && *y == b'\n',
        _ => false,
    }
}

fn find_empty_line(bytes: &[u8], from: usize) -> Option<usize>
    requires within { from ≤ length bytes.now }
    requires none { HasNoneBefore None from bytes.now }
    ensures { FindsCut None bytes.now result }
{
    let mut at = from;
    'lines: loop {
        match memchr(b'\n', &bytes[at..]) {
            Some(k) => {
                let place = at + k;
                if is_empty_line(&bytes[place..]) {
                    return Some(place);
                }
                at = place + 1;
            }
            None => return None,
        }
    }
}

/// The place of the first separator; none begins in the first bytes up to `at`.
fn find(bytes: &[u8], rs: Option<u8>, at: usize) -> Option<usize>
    requires within { at ≤ length bytes.now }
    requires none { HasNoneBefore rs at bytes.now }
    ensures { FindsCut rs bytes.now result }
{
    match rs {
        Some(byte) => find_byte(bytes, byte, at),
        None => find_empty_line(bytes, at),
    }
}

fn width(rs: Option<u8>) -> usize
    ensures value { result ≡ width rs }
    ensures most { result ≤ 2 }
{
    match rs {
        Some(_) => 1,
        None => 2,
    }
}

fn newlines(bytes: &[u8]) -> usize
    ensures value { result ≡ prefix_len is_newline bytes.now }
    ensures within { result ≤ length bytes.now }
{
    bytes.iter().take_while(|b| **b == 10).count()
}

fn skipped_of(bytes: &[u8], rs: Option<u8>) -> usize
    ensures value { result ≡ skipped rs bytes.now }
    ensures within { result ≤ length bytes.now }
{
    match rs {
        Some(_) => 0,
        None => newlines(bytes),
    }
}

/// How many newlines before the record are skipped.
fn skipped(bytes: &[u8], rs: Option<u8>, known: Known) -> usize
    requires known { IsScanned rs bytes.now known }
    ensures value { result ≡ skipped rs bytes.now }
    ensures within { result + known.searched ≤ length bytes.now }
    ensures none { HasNoneBefore rs known.searched (drop result bytes.now) }
{
    if known.searched > 0 {
        return known.skipped;
    }
    known.skipped + skipped_of(&bytes[known.skipped..], rs)
}

fn paragraph_len(bytes: &[u8]) -> usize
    ensures value { result ≡ length (without_last bytes.now) }
    ensures within { result ≤ length bytes.now }
    ensures most { length bytes.now ≤ result + 1 }
{
    let len = bytes.len();
    if len > 0 && bytes[len - 1] == 10 {
        len - 1
    } else {
        len
    }
}

/// How many bytes are a record where no separator follows.
fn trimmed(bytes: &[u8], rs: Option<u8>) -> usize
    ensures value { result ≡ length (trimmed rs bytes.now) }
    ensures within { result ≤ length bytes.now }
    ensures most { length bytes.now ≤ result + 1 }
{
    match rs {
        Some(_) => bytes.len(),
        None => paragraph_len(bytes),
    }
}

/// How many bytes begin no separator whatever follows, where there is none yet.
fn searched(bytes: &[u8], rs: Option<u8>) -> usize
    ensures { result ≡ searched rs bytes.now }
{
    match rs {
        Some(_) => bytes.len(),
        None => bytes.len().saturating_sub(1),
    }
}

/// What the bytes tell of the first record.
pub(crate) fn seen(bytes: &[u8], rs: Option<u8>, known: Known) -> Look
    requires known { IsScanned rs bytes.now known }
    ensures { Looks rs bytes.now result }
{
    let from = skipped(bytes, rs, known);
    let body = &bytes[from..];
    match find(body, rs, known.searched) {
        Some(len) => {
            let to = from + len;
            if to > MAX_TEXT {
                return Look::Long;
            }
            Look::Record(from, to, to + width(rs))
        }
        None => {
            let to = from + trimmed(body, rs);
            if to > MAX_TEXT {
                return Look::Long;
            }
            Look::More(from, to, searched(body, rs))
        }
    }
}
