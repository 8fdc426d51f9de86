//! What is missing where reading stopped.

ghost use Rattle.std.specs.Prelude.{◌≡◌, if◌then◌else◌, option_map, slice_get};
ghost use Rattle.script_check.specs.Remarks.{view_said};
ghost use Rattle.script_check.specs.Stopped.{begins_item, begins_no_operand, begins_none, closer, closes, closing, closing_by, innermost, is_brace, is_for, is_operator, is_outside, is_semicolon, is_word_for, lacks_operand, opens, syntax, syntax_at, wants_operand};

use crate::finding::{Said, Severity};
use crate::text::kind_at;
use awk_tokens::{Keyword, Punctuator, Token, TokenKind};

/// What is missing, and the line in which it was opened.
fn syntax<'a>(text: &'static str, line: Option<usize>) -> Said<'a>
    ensures { view_said result ≡ syntax text.now line }
{
    Said {
        severity: Severity::Error,
        word: "Syntax",
        name: &[],
        text,
        line,
    }
}

/// Whether an operand must come behind it.
fn is_operator(sign: Punctuator) -> bool
    ensures { result ≡ is_operator sign }
{
    matches!(
        sign,
        Punctuator::Plus
            | Punctuator::Minus
            | Punctuator::Star
            | Punctuator::Slash
            | Punctuator::Percent
            | Punctuator::Caret
            | Punctuator::Bang
            | Punctuator::Greater
            | Punctuator::Less
            | Punctuator::Question
            | Punctuator::Tilde
            | Punctuator::Dollar
            | Punctuator::Assign
            | Punctuator::PlusAssign
            | Punctuator::MinusAssign
            | Punctuator::StarAssign
            | Punctuator::SlashAssign
            | Punctuator::PercentAssign
            | Punctuator::CaretAssign
            | Punctuator::Equal
            | Punctuator::LessEqual
            | Punctuator::GreaterEqual
            | Punctuator::NotEqual
            | Punctuator::NotTilde
            | Punctuator::And
            | Punctuator::Or
            | Punctuator::Append
    )
}

/// Whether no operand begins with it.
fn begins_none(sign: Punctuator) -> bool
    ensures { result ≡ begins_none sign }
{
    matches!(
        sign,
        Punctuator::OpenBrace
            | Punctuator::CloseBrace
            | Punctuator::CloseParen
            | Punctuator::CloseBracket
            | Punctuator::Semicolon
            | Punctuator::Comma
            | Punctuator::Star
            | Punctuator::Percent
            | Punctuator::Caret
            | Punctuator::Question
            | Punctuator::Colon
            | Punctuator::Tilde
            | Punctuator::Equal
            | Punctuator::LessEqual
            | Punctuator::GreaterEqual
            | Punctuator::And
            | Punctuator::Or
    )
}

/// Whether an operand must come behind this token.
fn wants_operand(kind: Option<TokenKind>) -> bool
    ensures { result ≡ wants_operand kind }
{
    match kind {
        Some(TokenKind::Punctuator(sign)) => is_operator(sign),
        _ => false,
    }
}

/// Whether no operand begins with this token.
fn begins_no_operand(kind: Option<TokenKind>) -> bool
    ensures { result ≡ begins_no_operand kind }
{
    match kind {
        Some(TokenKind::Punctuator(sign)) => begins_none(sign),
        _ => false,
    }
}

/// Whether an operand is missing before the token of this number.
fn lacks_operand(tokens: &[Token<'_>], stop: usize) -> bool
    ensures { result ≡ lacks_operand tokens.now stop }
{
    stop > 0 && wants_operand(kind_at(tokens, stop - 1)) && begins_no_operand(kind_at(tokens, stop))
}

/// Whether this token opens a parenthesis, bracket or brace.
fn opens(kind: Option<TokenKind>) -> bool
    ensures { result ≡ opens kind }
{
    matches!(
        kind,
        Some(TokenKind::Punctuator(
            Punctuator::OpenParen | Punctuator::OpenBracket | Punctuator::OpenBrace
        ))
    )
}

/// Whether this token closes one.
fn closes(kind: Option<TokenKind>) -> bool
    ensures { result ≡ closes kind }
{
    matches!(
        kind,
        Some(TokenKind::Punctuator(
            Punctuator::CloseParen | Punctuator::CloseBracket | Punctuator::CloseBrace
        ))
    )
}

/// The number of the innermost parenthesis, bracket or brace that is open behind so many tokens.
fn innermost(tokens: &[Token<'_>], end: usize) -> Option<usize>
    ensures { result ≡ innermost tokens.now 0 end }
{
    let mut closed: usize = 0;
    for back in 0..end {
        let i = end - 1 - back;
        let kind = kind_at(tokens, i);
        if closes(kind) {
            closed += 1;
        } else if opens(kind) {
            if closed == 0 {
                return Some(i);
            }
            closed -= 1;
        }
    }
    None
}

/// Whether this token begins an item of a script, and nothing else.
fn begins_item(kind: TokenKind) -> bool
    ensures { result ≡ begins_item kind }
{
    matches!(
        kind,
        TokenKind::Keyword(Keyword::Function | Keyword::Begin | Keyword::End)
    )
}

fn is_brace(kind: TokenKind) -> bool
    ensures { result ≡ is_brace kind }
{
    matches!(
        kind,
        TokenKind::Punctuator(Punctuator::OpenBrace | Punctuator::CloseBrace)
    )
}

fn is_semicolon(kind: TokenKind) -> bool
    ensures { result ≡ is_semicolon kind }
{
    matches!(kind, TokenKind::Punctuator(Punctuator::Semicolon))
}

/// Whether this token is never in parentheses or brackets.
fn is_outside(kind: TokenKind) -> bool
    ensures { result ≡ is_outside kind }
{
    begins_item(kind) || is_brace(kind)
}

fn is_word_for(kind: Option<TokenKind>) -> bool
    ensures { result ≡ is_word_for kind }
{
    matches!(kind, Some(TokenKind::Keyword(Keyword::For)))
}

/// Whether a parenthesis is that of a `for`, in which semicolons are.
fn is_for(tokens: &[Token<'_>], opening: usize) -> bool
    ensures { result ≡ is_for tokens.now opening }
{
    opening > 0 && is_word_for(kind_at(tokens, opening - 1))
}

/// A text, if it is so.
fn only_if(holds: bool, text: &'static str) -> Option<&'static str>
    ensures { option_map (λ t. t.now) result ≡ (if holds then Some text.now else None) }
{
    if holds { Some(text) } else { None }
}

/// What closes an opening, where a token of this kind cannot be in it.
fn closer(opening: TokenKind, of_for: bool, kind: TokenKind, at_end: bool) -> Option<&'static str>
    ensures { option_map (λ t. t.now) result ≡ closer opening of_for kind at_end }
{
    match opening {
        TokenKind::Punctuator(Punctuator::OpenParen) => {
            let ends = is_outside(kind) || (is_semicolon(kind) && !of_for);
            only_if(ends, ") is missing, opened in line")
        }
        TokenKind::Punctuator(Punctuator::OpenBracket) => {
            let ends = is_outside(kind) || is_semicolon(kind);
            only_if(ends, "] is missing, opened in line")
        }
        TokenKind::Punctuator(Punctuator::OpenBrace) => {
            only_if(at_end || begins_item(kind), "} is missing, opened in line")
        }
        _ => None,
    }
}

/// What closes the opening of this number, where a token of this kind cannot be in it.
fn closing_at<'a>(
    tokens: &[Token<'_>],
    kind: TokenKind,
    at_end: bool,
    number: usize,
) -> Option<Said<'a>>
    ensures { option_map view_said result
        ≡ closing_by tokens.now kind at_end number (slice_get tokens.now number) }
{
    if number >= tokens.len() {
        return None;
    }
    let open = tokens[number];
    let text = closer(open.kind, is_for(tokens, number), kind, at_end)?;
    Some(syntax(text, Some(open.line)))
}

/// What closes the innermost opening, where the token at which reading stopped cannot be in it.
fn closing<'a>(tokens: &[Token<'_>], stop: usize) -> Option<Said<'a>>
    ensures { option_map view_said result ≡ closing tokens.now stop }
{
    if stop >= tokens.len() {
        return None;
    }
    let at_end = stop + 1 == tokens.len();
    let number = innermost(tokens, if at_end { tokens.len() } else { stop })?;
    closing_at(tokens, tokens[stop].kind, at_end, number)
}

/// What is said where reading stopped at the token of this number.
pub(crate) fn syntax_at<'a>(tokens: &[Token<'_>], stop: usize) -> Said<'a>
    ensures { view_said result ≡ syntax_at tokens.now stop }
{
    if lacks_operand(tokens, stop) {
        return syntax("an operand is missing", None);
    }
    match closing(tokens, stop) {
        Some(said) => said,
        None => syntax("the script does not go on so", None),
    }
}
