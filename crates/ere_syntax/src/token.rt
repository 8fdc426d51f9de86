//! The tokens of a regular expression.
ghost use Rattle.std.specs.Prelude.{◌≡◌, option_map};
ghost use Rattle.ere_syntax.specs.Lexing.{bracket_token, counted_token, escape_token, lexed, token_and, token_view};
ghost use Rattle.ere_syntax.specs.Counts.{counted};
ghost use Rattle.ere_syntax.specs.Reads.{kept};

use crate::bracket::bracket;
use crate::escape::escape;
use crate::interval::interval;
use crate::sign::{Sign, sign_of};
use crate::tree::{ByteSet, Times};

/// What takes one byte of a text.
#[derive(Clone, Copy)]
pub(crate) enum Atom {
    Byte(u8),
    Any,
    Bracket(ByteSet),
}

/// A token.
#[derive(Clone, Copy)]
pub(crate) enum Token {
    Atom(Atom),
    Begin,
    Stop,
    Open,
    Close,
    Bar,
    Times(Times),
}

/// An interval and what follows it, or an ordinary brace where none begins; nothing where its counts are wrong.
fn counted(rest: &[u8]) -> Option<(Token, &[u8])>
    ensures { option_map (λ x. token_and (token_view x.0) x.1.now) result
        ≡ counted_token rest.now (counted rest.now) }
{
    match interval(rest) {
        None => Some((Token::Atom(Atom::Byte(b'{')), rest)),
        Some((counts, after)) => match counts.times() {
            Some(times) => Some((Token::Times(times), after)),
            None => None,
        },
    }
}

/// The bracket expression behind its first bracket, and what follows.
fn bracketed(rest: &[u8]) -> Result<(Token, &[u8]), &[u8]>
    ensures { option_map (λ x. token_and (token_view x.0) x.1.now) (kept result)
        ≡ bracket_token rest.now }
{
    match bracket(rest) {
        Ok((set, after)) => Ok((Token::Atom(Atom::Bracket(set)), after)),
        Err(stop) => Err(stop),
    }
}

/// The byte behind a backslash, and what follows.
fn escaped(rest: &[u8]) -> Result<(Token, &[u8]), &[u8]>
    ensures { option_map (λ x. token_and (token_view x.0) x.1.now) (kept result)
        ≡ escape_token rest.now }
{
    match escape(rest) {
        Ok((byte, after)) => Ok((Token::Atom(Atom::Byte(byte)), after)),
        Err(stop) => Err(stop),
    }
}

/// The token at the front where so many groups are open, and what follows; or what was left where reading stopped.
pub(crate) fn next_token(text: &[u8], groups: usize) -> Result<(Token, &[u8]), &[u8]>
    ensures { option_map (λ x. token_and (token_view x.0) x.1.now) (kept result)
        ≡ lexed groups text.now }
{
    let [byte, rest @ ..] = text else {
        return Err(text);
    };
    let token = match sign_of(*byte) {
        None => Token::Atom(Atom::Byte(*byte)),
        Some(Sign::Dot) => Token::Atom(Atom::Any),
        Some(Sign::Hat) => Token::Begin,
        Some(Sign::Dollar) => Token::Stop,
        Some(Sign::OpenMark) => Token::Open,
        Some(Sign::CloseMark) if groups == 0 => Token::Atom(Atom::Byte(b')')),
        Some(Sign::CloseMark) => Token::Close,
        Some(Sign::BarMark) => Token::Bar,
        Some(Sign::Star) => Token::Times(Times { low: 0, high: None }),
        Some(Sign::Plus) => Token::Times(Times { low: 1, high: None }),
        Some(Sign::Query) => Token::Times(Times {
            low: 0,
            high: Some(1),
        }),
        Some(Sign::Brace) => return counted(rest).ok_or(text),
        Some(Sign::BracketMark) => return bracketed(rest),
        Some(Sign::Backslash) => return escaped(rest),
    };
    Ok((token, rest))
}
