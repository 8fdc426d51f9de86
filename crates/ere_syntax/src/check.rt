//! Whether a text has a tree: a count of open groups and the kind of the last piece decide it, with no memory.
ghost use Rattle.std.specs.Prelude.{◌≡◌, ◌<◌, ◌+◌, ◌^◌, true, MatchResult, None};
ghost use Rattle.ere_syntax.specs.Lexing.{token_view};
ghost use Rattle.ere_syntax.specs.Reading.{has_some, is_some, takes_times};
ghost use Rattle.ere_syntax.specs.EreOf.{ere_of};
ghost use Rattle.ere_syntax.specs.Steps.{follow_by};

use crate::token::{Token, next_token};

/// The last piece of a branch: none yet, one that takes no repetition, one that takes one.
#[derive(Clone, Copy)]
pub(crate) enum Last {
    Nothing,
    Anchor,
    Piece,
}

impl Last {
    fn has_some(self) -> bool
        ensures { result ≡ has_some self }
    {
        !matches!(self, Last::Nothing)
    }

    fn takes_times(self) -> bool
        ensures { result ≡ takes_times self }
    {
        matches!(self, Last::Piece)
    }
}

/// The open groups and the last piece behind a token, where it may stand here.
fn follow(token: &Token, groups: usize, last: Last) -> Option<(usize, Last)>
    requires { groups + 1 < 2 ^ 64 }
    ensures { result ≡ follow_by (token_view token.now) groups last }
{
    match token {
        Token::Atom(_) => Some((groups, Last::Piece)),
        Token::Begin => Some((groups, Last::Anchor)),
        Token::Stop => Some((groups, Last::Piece)),
        Token::Open => Some((groups + 1, Last::Nothing)),
        Token::Close => {
            if groups == 0 || !last.has_some() {
                None
            } else {
                Some((groups - 1, Last::Piece))
            }
        }
        Token::Bar => {
            if last.has_some() {
                Some((groups, Last::Nothing))
            } else {
                None
            }
        }
        Token::Times(_) => {
            if last.takes_times() {
                Some((groups, Last::Piece))
            } else {
                None
            }
        }
    }
}

/// Whether the text has a tree; if not, what was left where reading stopped.
pub(crate) fn check(text: &[u8]) -> Result<(), &[u8]>
    ensures { MatchResult result (λ _. is_some (ere_of text.now) ≡ true)
        (λ _. ere_of text.now ≡ None) }
{
    if text.is_empty() {
        return Ok(());
    }
    let mut rest = text;
    let mut groups = 0usize;
    let mut last = Last::Nothing;
    while !rest.is_empty() {
        match next_token(rest, groups) {
            Err(stop) => return Err(stop),
            Ok((token, after)) => match follow(&token, groups, last) {
                None => return Err(rest),
                Some((open, kind)) => {
                    groups = open;
                    last = kind;
                    rest = after;
                }
            },
        }
    }
    if groups == 0 && last.has_some() {
        Ok(())
    } else {
        Err(rest)
    }
}
