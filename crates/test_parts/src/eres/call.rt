//! What a line asks for.
use crate::eres::line_words::{letter, word};

/// The call that a line names.
#[derive(Clone, Copy)]
pub(crate) enum Call {
    Tree,
    Set,
    First,
    Match,
    Threads,
    All,
    Read,
    Found,
    Long,
    LongAll,
    Reversed,
}

/// A call on a long text; of one that repeats matches all are looked for.
fn long_of(kind: u8) -> Call {
    match kind {
        b'g' => Call::LongAll,
        _ => Call::Long,
    }
}

/// The names of calls.
static CALLS: [(&str, Call); 10] = [
    ("tree", Call::Tree),
    ("set", Call::Set),
    ("first", Call::First),
    ("match", Call::Match),
    ("threads", Call::Threads),
    ("all", Call::All),
    ("read", Call::Read),
    ("found", Call::Found),
    ("long", Call::Long),
    ("reversed", Call::Reversed),
];

/// The call of a name.
fn named(name: &str) -> Option<Call> {
    for (it, call) in &CALLS {
        if *it == name {
            return Some(*call);
        }
    }
    None
}

pub(crate) fn call_of(line: &str) -> Option<Call> {
    match named(word(line, 0)) {
        Some(Call::Long) => Some(long_of(letter(line, 1))),
        call => call,
    }
}
