//! Which names take an assignment (POSIX.1-2017 awk, "OPTIONS", -v; "OPERANDS", assignment).
ghost use Rattle.std.specs.Prelude.{◌≡◌, drop, length, take_while};
ghost use Rattle.sem_primitives.specs.Assignments.{begins_name, continues_name, is_name, takes_none};
ghost use Rattle.sem_primitives.specs.Texts.{is_empty};

use awk_tokens::reserved_word;

/// Whether a name may begin with this byte.
fn begins_name(byte: u8) -> bool
    ensures { result ≡ begins_name byte }
{
    byte.is_ascii_alphabetic() || byte == b'_'
}

/// Whether a byte may stand in a name.
fn continues_name(byte: u8) -> bool
    ensures { result ≡ continues_name byte }
{
    byte.is_ascii_alphanumeric() || byte == b'_'
}

/// Whether each byte may stand in a name.
fn is_continued(text: &[u8]) -> bool
    ensures { result ≡ is_empty (drop (length (take_while continues_name text.now)) text.now) }
{
    for byte in text {
        if !continues_name(*byte) {
            return false;
        }
    }
    true
}

/// Whether a text is a name.
fn is_name(text: &[u8]) -> bool
    ensures { result ≡ is_name text.now }
{
    match text {
        [] => false,
        [first, rest @ ..] => begins_name(*first) && is_continued(rest),
    }
}

/// What is no name, a reserved word and the two arrays that awk sets take no assignment.
pub(crate) fn takes_none(name: &[u8]) -> bool
    ensures { result ≡ takes_none name.now }
{
    !is_name(name)
        || reserved_word(name).is_some()
        || name == b"ARGV".as_slice()
        || name == b"ENVIRON".as_slice()
}
