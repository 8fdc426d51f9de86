//! Why a script has no code.
use awk_parse::ParseFault;
use awk_resolve::ResolveFault;
use awk_tokens::TokenFault;
use ere_syntax::EreFault;
use thiserror::Error;

/// Why a script has no code. The cause that comes first in this list is told; `NoMemory` may come instead of any of them.
///
/// The faults within are never their own want of memory: that is [`CompileFault::NoMemory`].
#[derive(Debug, Drop, Error)]
pub enum CompileFault {
    /// The script has more than 1,048,576 bytes.
    #[error("TooLarge")]
    TooLarge,
    /// The bytes are not cut into tokens.
    #[error("{0}")]
    Token(TokenFault),
    /// The tokens are those of no script, or of one in which something is left out or misplaced.
    #[error("{0}")]
    Parse(ParseFault),
    /// The first constant regular expression that is refused, by its line, which counts from 1.
    #[error("line {0}: {1}")]
    Ere(usize, EreFault),
    /// A name is refused.
    #[error("{0}")]
    Resolve(ResolveFault),
    /// Memory was wanting.
    #[error("NoMemory")]
    NoMemory,
}

impl From<TokenFault> for CompileFault {
    ghost use Rattle.std.specs.Prelude.{◌≡◌};
    ghost use Rattle.run_report.specs.CompileFaults.{of_tokens};

    ghost from_gives = { λ fault e. e ≡ of_tokens fault };

    fn from(fault: TokenFault) -> CompileFault {
        match fault {
            TokenFault::NoMemory => CompileFault::NoMemory,
            fault => CompileFault::Token(fault),
        }
    }
}

impl From<ParseFault> for CompileFault {
    ghost use Rattle.std.specs.Prelude.{◌≡◌};
    ghost use Rattle.run_report.specs.CompileFaults.{of_tree};

    ghost from_gives = { λ fault e. e ≡ of_tree fault };

    fn from(fault: ParseFault) -> CompileFault {
        match fault {
            ParseFault::NoMemory => CompileFault::NoMemory,
            fault => CompileFault::Parse(fault),
        }
    }
}

impl From<ResolveFault> for CompileFault {
    ghost use Rattle.std.specs.Prelude.{◌≡◌};
    ghost use Rattle.run_report.specs.CompileFaults.{of_names};

    ghost from_gives = { λ fault e. e ≡ of_names fault };

    fn from(fault: ResolveFault) -> CompileFault {
        match fault {
            ResolveFault::NoMemory => CompileFault::NoMemory,
            fault => CompileFault::Resolve(fault),
        }
    }
}
