//! Why tokens have no script.

use awk_tokens::LeftOut;
use std::fmt;
use thiserror::Error;

/// What a script uses and this language leaves out.
#[derive(Clone, Copy, Debug, PartialEq, Eq)]
pub enum Feature {
    /// A word that is left out.
    Word(LeftOut),
    /// `|`.
    Pipe,
}

impl fmt::Display for Feature {
    fn fmt<W: fmt::Write>(&self, f: &mut fmt::Formatter<W>) -> fmt::Result {
        match self {
            Feature::Word(word) => write!(f, "{word}"),
            Feature::Pipe => f.write_str("|"),
        }
    }
}

/// Why tokens have no script. Lines count from 1.
#[derive(Clone, Copy, Debug, PartialEq, Eq, Error)]
pub enum ParseFault {
    /// The token on this line begins something that the language leaves out.
    #[error("line {0}: {1} is not part of this language")]
    LeftOut(usize, Feature),
    /// A number on this line is not whole.
    #[error("line {0}: the number is not whole")]
    NotWhole(usize),
    /// A number on this line is outside -2^53 to 2^53.
    #[error("line {0}: the number is outside -2^53 to 2^53")]
    ConstantRange(usize),
    /// The tokens are those of no script; the line is that of the token at which reading stopped, or of the last.
    #[error("line {0}: syntax error")]
    Syntax(usize),
    /// The tokens are those of no script of depth 1,000 or less; the line is that of the token at which reading stopped, or of the last.
    #[error("line {0}: the script is nested more than 1,000 deep")]
    TooDeep(usize),
    /// `next`, `nextfile`, `break`, `continue` or `return` on this line stands where it has no meaning.
    #[error("line {0}: the jump has no meaning here")]
    Misplaced(usize),
    /// Memory was refused.
    #[error("out of memory")]
    NoMemory,
}
