//! Each `;` that is dropped before `else` and `while`, or put before `}` and at the end.

ghost use Rattle.std.specs.Prelude.{◌≡◌, List, IfOk, map, option_map, false, None};
ghost use Rattle.awk_tokens.specs.Rules.{is_semicolon, is_open_brace, is_close_brace, is_lead, leads, rule_two, inserted, is_open_end, is_unended, rule_three};
ghost use Rattle.awk_tokens.specs.Views.{spelled};

use crate::reserved_words::Keyword;
use crate::token::{Punctuator, Token, TokenKind};
use std::alloc::{AllocError, Global};

fn ends_statement(kind: TokenKind) -> bool
    ensures { result ≡ is_semicolon kind }
{
    matches!(kind, TokenKind::Punctuator(Punctuator::Semicolon))
}

fn opens_brace(kind: TokenKind) -> bool
    ensures { result ≡ is_open_brace kind }
{
    matches!(kind, TokenKind::Punctuator(Punctuator::OpenBrace))
}

fn closes_brace(kind: TokenKind) -> bool
    ensures { result ≡ is_close_brace kind }
{
    matches!(kind, TokenKind::Punctuator(Punctuator::CloseBrace))
}

/// Whether `else` or `while` stands at the front.
fn continues(tokens: &[Token]) -> bool
    ensures { result ≡ leads (map spelled tokens.now) }
{
    match tokens {
        [] => false,
        [token, ..] => matches!(
            token.kind,
            TokenKind::Keyword(Keyword::Else | Keyword::While)
        ),
    }
}

/// The tokens without each `;` directly between `}` and `else` or `while`.
pub(crate) fn without_dropped<'a>(
    alloc: Global,
    tokens: &[Token<'a>],
) -> Result<Vec<Token<'a>>, AllocError>
    ensures { IfOk result (λ ts. map spelled ts.items ≡ rule_two false (map spelled tokens.now)) }
{
    let mut kept = Vec::with_capacity(alloc, tokens.len())?;
    let mut brace = false;
    let mut rest = tokens;
    while let [token, after @ ..] = rest {
        let dropped = brace && ends_statement(token.kind) && continues(after);
        if !dropped {
            kept.push(*token)?;
        }
        brace = closes_brace(token.kind);
        rest = after;
    }
    Ok(kept)
}

fn inserted_after<'a>(former: Option<Token<'a>>) -> Token<'a>
    ensures { spelled result ≡ inserted (option_map spelled former.entry) }
{
    let line = match former {
        None => 1,
        Some(token) => token.line,
    };
    Token {
        kind: TokenKind::Punctuator(Punctuator::Semicolon),
        line,
        text: &[],
    }
}

fn needs_end(former: Option<Token>) -> bool
    ensures { result ≡ is_open_end (option_map spelled former.entry) }
{
    match former {
        None => true,
        Some(token) => {
            !(opens_brace(token.kind) || closes_brace(token.kind) || ends_statement(token.kind))
        }
    }
}

fn stays_open(former: Option<Token>) -> bool
    ensures { result ≡ is_unended (option_map spelled former.entry) }
{
    match former {
        None => false,
        Some(token) => !(closes_brace(token.kind) || ends_statement(token.kind)),
    }
}

/// The tokens with a `;` before each `}` that needs one, and at the end.
pub(crate) fn with_inserted<'a>(
    alloc: Global,
    tokens: &[Token<'a>],
) -> Result<Vec<Token<'a>>, AllocError>
    ensures { IfOk result (λ ts. map spelled ts.items ≡ rule_three None (map spelled tokens.now)) }
{
    let mut ended = Vec::with_capacity(alloc, tokens.len())?;
    let mut former: Option<Token<'a>> = None;
    let mut rest = tokens;
    while let [token, after @ ..] = rest {
        if closes_brace(token.kind) && needs_end(former) {
            ended.push(inserted_after(former))?;
        }
        ended.push(*token)?;
        former = Some(*token);
        rest = after;
    }
    if stays_open(former) {
        ended.push(inserted_after(former))?;
    }
    Ok(ended)
}
