//! The tokens by which the grammar is read, and whether one of them comes next.

ghost use Rattle.std.specs.Prelude.{◌≡◌, MatchOption, None, Some, Ok, Err};
ghost use Rattle.awk_tokens.specs.Views.{spelled};
ghost use Rattle.awk_grammar.specs.Reading.{Syntax as SyntaxFault};
ghost use Rattle.awk_parse.specs.Marks.{mark_at, mark_if, mark_of};
ghost use Rattle.awk_parse.specs.Seen.{lexeme_of, seen};

use awk_tokens::{Keyword, Punctuator, Token, TokenKind};

/// A token by which the grammar is read.
#[derive(Clone, Copy, PartialEq, Eq)]
pub enum Mark {
    Open,
    Close,
    OpenBracket,
    CloseBracket,
    OpenBrace,
    CloseBrace,
    Comma,
    Colon,
    Semicolon,
    Less,
    In,
    Else,
    While,
}

/// The mark that a token is, if it is one.
fn mark_of(token: &Token<'_>) -> Option<Mark>
    ensures { result ≡ mark_of (lexeme_of (spelled token.now)) }
{
    let mark = match token.kind {
        TokenKind::Punctuator(Punctuator::OpenParen) => Mark::Open,
        TokenKind::Punctuator(Punctuator::CloseParen) => Mark::Close,
        TokenKind::Punctuator(Punctuator::OpenBracket) => Mark::OpenBracket,
        TokenKind::Punctuator(Punctuator::CloseBracket) => Mark::CloseBracket,
        TokenKind::Punctuator(Punctuator::OpenBrace) => Mark::OpenBrace,
        TokenKind::Punctuator(Punctuator::CloseBrace) => Mark::CloseBrace,
        TokenKind::Punctuator(Punctuator::Comma) => Mark::Comma,
        TokenKind::Punctuator(Punctuator::Colon) => Mark::Colon,
        TokenKind::Punctuator(Punctuator::Semicolon) => Mark::Semicolon,
        TokenKind::Punctuator(Punctuator::Less) => Mark::Less,
        TokenKind::Keyword(Keyword::In) => Mark::In,
        TokenKind::Keyword(Keyword::Else) => Mark::Else,
        TokenKind::Keyword(Keyword::While) => Mark::While,
        _ => return None,
    };
    Some(mark)
}

/// The tokens after a mark, if that comes first.
pub(crate) fn after<'a>(mark: Mark, tokens: &'a [Token<'a>]) -> Option<&'a [Token<'a>]>
    ensures may { MatchOption result (mark_if mark (seen tokens.now) ≡ None)
        (λ r. mark_if mark (seen tokens.now) ≡ Some (seen r.now)) }
    ensures must { MatchOption result (mark_at mark (seen tokens.now) ≡ Err SyntaxFault)
        (λ r. mark_at mark (seen tokens.now) ≡ Ok (seen r.now)) }
{
    let [first, rest @ ..] = tokens else {
        return None;
    };
    let found = mark_of(first)?;
    if found == mark { Some(rest) } else { None }
}
