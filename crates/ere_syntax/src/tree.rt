//! The tree of a regular expression.
ghost use Rattle.std.specs.Prelude.{◌≡◌, ℕ, ◌<◌, Bool, false, slice_index_or};
ghost use Rattle.ere_syntax.specs.Bracket.{not};

/// A set of bytes.
#[derive(Clone, Copy, Debug)]
pub struct ByteSet {
    /// Whether each byte is in the set.
    pub has: [bool; 256],
}

impl ByteSet {
    /// No byte.
    pub(crate) fn empty() -> ByteSet
        ensures { (c : ℕ) → c < 256 → slice_index_or result.has c false ≡ false }
    {
        ByteSet { has: [false; 256] }
    }

    /// Whether the byte is in the set.
    pub fn contains(&self, byte: u8) -> bool
        ensures { result ≡ slice_index_or self.now.has byte false }
    {
        self.has[byte as usize]
    }

    /// The bytes that are not in the set.
    pub(crate) fn complement(self) -> ByteSet
        ensures { (c : ℕ) → c < 256 → slice_index_or result.has c false
            ≡ not (slice_index_or self.has c false) }
    {
        let mut has = self.has;
        for byte in has.iter_mut() {
            *byte = !*byte;
        }
        ByteSet { has }
    }
}

/// How often a repetition is allowed to go round.
#[derive(Clone, Copy, Debug)]
pub struct Times {
    /// At least so often.
    pub low: u8,
    /// At most so often; as often as one likes where there is none.
    pub high: Option<u8>,
}

/// The tree of a regular expression.
#[derive(Debug, Drop)]
pub enum Ere {
    /// The empty text.
    Empty,
    /// One byte.
    Byte(u8),
    /// Any byte.
    Any,
    /// A byte of a bracket expression.
    Bracket(Box<ByteSet>),
    /// The start of the whole text.
    Start,
    /// The end of the whole text.
    End,
    /// An expression in parentheses.
    Group(Box<Ere>),
    /// A repetition.
    Repeat(Box<Ere>, Times),
    /// Pieces one after another.
    Concat(Vec<Ere>),
    /// Alternatives.
    Or(Vec<Ere>),
}
