//! What the first tokens of a statement are.

ghost use Rattle.std.specs.Prelude.{◌≡◌, MatchOption, None, Some, Ok, Err, true, map};
ghost use Rattle.awk_tokens.specs.Views.{spelled};
ghost use Rattle.awk_grammar.specs.Lexeme.{spoken_after};
ghost use Rattle.awk_grammar.specs.Reading.{Syntax as SyntaxFault, name_at};
ghost use Rattle.awk_grammar.specs.ReadStmt.{keys_at, is_in};
ghost use Rattle.awk_parse.specs.Seen.{seen};

use crate::mark::{Mark, after};
use crate::peek::after_name;
use awk_tokens::{Keyword, Token, TokenKind};

/// A name after `function`, where it may also be one directly before `(`, and the tokens after it.
pub(crate) fn after_function_name<'a>(
    tokens: &'a [Token<'a>],
) -> Option<(&'a [u8], &'a [Token<'a>])>
    ensures { MatchOption result
        (name_at (spoken_after true (map spelled tokens.now)) ≡ Err SyntaxFault)
        (λ n. name_at (spoken_after true (map spelled tokens.now)) ≡ Ok (n.0.now, seen n.1.now)) }
{
    match tokens {
        [
            Token {
                kind: TokenKind::Name | TokenKind::FuncName,
                text,
                ..
            },
            rest @ ..,
        ] => Some((text, rest)),
        _ => None,
    }
}

/// The key, the array and what is after them, where the tokens are those of `key in array )`.
pub(crate) fn keys<'a>(tokens: &'a [Token<'a>]) -> Option<(&'a [u8], &'a [u8], &'a [Token<'a>])>
    ensures { MatchOption result (keys_at (seen tokens.now) ≡ None)
        (λ o. keys_at (seen tokens.now) ≡ Some (o.0.now, o.1.now, seen o.2.now)) }
{
    let (key, others) = after_name(tokens)?;
    let others = after(Mark::In, others)?;
    let (array, others) = after_name(others)?;
    let rest = after(Mark::Close, others)?;
    Some((key, array, rest))
}

/// Whether `in` comes first.
pub(crate) fn is_in(tokens: &[Token<'_>]) -> bool
    ensures { result ≡ is_in (seen tokens.now) }
{
    matches!(
        tokens,
        [
            Token {
                kind: TokenKind::Keyword(Keyword::In),
                ..
            },
            ..,
        ]
    )
}
