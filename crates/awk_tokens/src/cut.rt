//! A script is cut into its longest pieces.

ghost use Rattle.std.specs.Prelude.{◌≡◌, ◌+◌, ◌≤◌, length, ◌⊎◌, Ok, Err, IfOk, IfErr, Some, map};
ghost use Rattle.awk_tokens.specs.declared.token.TokenFault.TheVariants.{NoMemory};
ghost use Rattle.awk_tokens.specs.State.{context_of};
ghost use Rattle.awk_tokens.specs.Cutting.{newlines, refusal, followed, kept, IsTokens};
ghost use Rattle.awk_tokens.specs.Reading.{raw_of};
ghost use Rattle.awk_tokens.specs.Views.{spelled};

use crate::before::Before;
use crate::endings::{with_inserted, without_dropped};
use crate::front::front;
use crate::token::{Piece, Punctuator, Token, TokenFault, TokenKind};
use std::alloc::{AllocError, AllocFailed, Global};

impl From<AllocError> for TokenFault {
    ghost from_gives = { λ _ e. e ≡ NoMemory };

    fn from(_e: AllocError) -> TokenFault {
        TokenFault::NoMemory
    }
}

impl<T: Drop> From<AllocFailed<T>> for TokenFault {
    ghost from_gives = { λ _ e. e ≡ NoMemory };

    fn from(_e: AllocFailed<T>) -> TokenFault {
        TokenFault::NoMemory
    }
}

fn count_newlines(bytes: &[u8]) -> usize
    ensures count { result ≡ newlines bytes.now }
    ensures few { result ≤ length bytes.now }
{
    bytes.iter().filter(|b| **b == b'\n').count()
}

/// Why no piece begins with this byte.
fn refused(division: bool, line: usize, first: u8) -> TokenFault
    ensures { result ≡ refusal division line first }
{
    if first == b'"' {
        TokenFault::OpenString(line)
    } else if first == b'/' && !division {
        TokenFault::OpenEre(line)
    } else {
        TokenFault::BadByte(line)
    }
}

fn kind_with(rest: &[u8], kind: TokenKind) -> TokenKind
    ensures { result ≡ followed rest.now kind }
{
    match (rest, kind) {
        ([b'(', ..], TokenKind::Name) => TokenKind::FuncName,
        _ => kind,
    }
}

/// The kind that a piece is kept as, if it is kept.
fn kind_kept(before: &Before, piece: Piece, rest: &[u8]) -> Option<TokenKind>
    ensures { result ≡ kept (context_of before.now) rest.now (Some piece) }
{
    match piece {
        Piece::Blank => None,
        Piece::Newline => {
            if before.drops() {
                None
            } else {
                Some(TokenKind::Punctuator(Punctuator::Semicolon))
            }
        }
        Piece::Token(kind) => Some(kind_with(rest, kind)),
    }
}

/// The tokens that the script has, each newline dropped or turned into `;`.
pub(crate) fn cut<'a>(alloc: Global, script: &'a [u8]) -> Result<Vec<Token<'a>>, TokenFault>
    ensures found { IfOk result (λ ts. Ok (map spelled ts.items) ≡ raw_of script.now) }
    ensures refused { IfErr result (λ e. (e ≡ NoMemory) ⊎ (Err e ≡ raw_of script.now)) }
{
    let mut tokens = Vec::with_capacity(alloc, script.len() / 4)?;
    let mut before = Before::new(alloc);
    let mut line: usize = 1;
    let mut rest = script;
    while !rest.is_empty() {
        let division = before.divides();
        let Some((piece, more)) = front(division, rest) else {
            return Err(refused(division, line, rest[0]));
        };
        let (text, after) = rest.split_at(more + 1);
        let kept = kind_kept(&before, piece, after);
        if let Some(kind) = kept {
            before.push(kind)?;
            tokens.push(Token { kind, line, text })?;
        }
        line += count_newlines(text);
        rest = after;
    }
    Ok(tokens)
}

/// The tokens of a script, each with its kind, its line and its bytes.
///
/// The script is cut from the left into the longest pieces: blanks, comments, newlines and tokens. A slash divides
/// after an operand and begins an ERE elsewhere; after `)` it begins one only where the parenthesis is that of
/// `if`, `while` or `for`. A newline is dropped where a statement goes on, and is a `;` elsewhere. A `;` directly
/// between `}` and `else` or `while` is dropped, and one is put before each `}` that needs it and at the end.
///
/// `BadByte`, `OpenString` and `OpenEre` come where this cutting cannot go on, with the line of the byte at which it
/// stops; `NoMemory` only where memory was refused. (POSIX.1-2017, awk, "Lexical Conventions", in the profile of this
/// project.)
pub fn tokens<'a>(alloc: Global, script: &'a [u8]) -> Result<Vec<Token<'a>>, TokenFault>
    ensures found { IfOk result (λ ts. IsTokens script.now (Ok (map spelled ts.items))) }
    ensures refused { IfErr result (λ e. (e ≡ NoMemory) ⊎ IsTokens script.now (Err e)) }
{
    let pieces = cut(alloc, script)?;
    let kept = without_dropped(alloc, &pieces)?;
    let ended = with_inserted(alloc, &kept)?;
    Ok(ended)
}
