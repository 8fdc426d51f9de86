//! The nodes of an automaton.
ghost use Rattle.std.specs.Prelude.{◌≡◌, false, slice_index_or};
ghost use Rattle.ere_match.specs.Runs.{filter_set};

use ere_syntax::ByteSet;

/// Which bytes pass.
#[derive(Drop)]
pub(crate) enum Filter {
    Byte(u8),
    Any,
    Bracket(Box<ByteSet>),
}

/// A state: what it does, and where it leads.
#[derive(Drop)]
pub(crate) enum Node {
    Take(Filter, usize),
    Split(usize, usize),
    Start(usize),
    End(usize),
    Never,
    Accept,
}

impl Filter {
    /// Whether the byte passes.
    pub(crate) fn takes(&self, byte: u8) -> bool
        ensures { result ≡ slice_index_or (filter_set self.now) byte false }
    {
        match self {
            Filter::Byte(wanted) => byte == *wanted,
            Filter::Any => true,
            Filter::Bracket(set) => set.contains(byte),
        }
    }
}
