//! Where tokens begin in a script.

ghost use Rattle.std.specs.Prelude.{◌≡◌, ◌≤◌, ◌++◌, [], ◌∷◌, IfOk, OnOk, if◌then◌else◌, length, map};
ghost use Rattle.script_check.specs.Places.{between, end_of, is_told, next, renumbered, starts, stops, told};

use awk_tokens::{Punctuator, Token, TokenKind};
use std::alloc::{AllocError, Global};

/// What stands between two tokens, at a byte.
#[derive(Clone, Copy, Debug, PartialEq, Eq)]
pub(crate) enum Gap {
    /// Blanks, newlines and semicolons that are no tokens.
    Blank,
    /// A comment.
    Comment,
    /// Behind a backslash.
    Escaped,
}

/// Whether a token that begins with `first` begins at a byte.
fn stops(gap: Gap, first: u8, byte: u8) -> bool
    ensures { result ≡ stops gap first byte }
{
    match gap {
        Gap::Blank => byte == first,
        Gap::Comment => byte == b'\n' && byte == first,
        Gap::Escaped => false,
    }
}

/// What stands behind a byte.
fn next(gap: Gap, byte: u8) -> Gap
    ensures { result ≡ next gap byte }
{
    match gap {
        Gap::Comment if byte != b'\n' => Gap::Comment,
        Gap::Blank if byte == b'#' => Gap::Comment,
        Gap::Blank if byte == b'\\' => Gap::Escaped,
        _ => Gap::Blank,
    }
}

/// How many bytes stand before a token's text.
fn between(text: &[u8], rest: &[u8]) -> usize
    ensures value { result ≡ between text.now rest.now }
    ensures within { result ≤ length rest.now }
{
    let [first, ..] = text else {
        return 0;
    };
    let mut gap = Gap::Blank;
    for i in 0..rest.len() {
        if stops(gap, *first, rest[i]) {
            return i;
        }
        gap = next(gap, rest[i]);
    }
    rest.len()
}

/// Where a token ends that begins there; at the end of the script at most.
fn end_of(script: &[u8], start: usize, text: &[u8]) -> usize
    requires { start ≤ length script.now }
    ensures within { result ≤ length script.now }
    ensures value { result ≡ end_of script.now start text.now }
{
    if text.len() <= script.len() - start {
        start + text.len()
    } else {
        script.len()
    }
}

/// Where each token of a script begins: behind the token before it, blanks, comments, newlines and semicolons that are no tokens.
///
/// # Errors
///
/// Where memory is wanting.
pub fn starts(alloc: Global, script: &[u8], tokens: &[Token<'_>]) -> Result<Vec<usize>, AllocError>
    ensures { IfOk result
        (λ found. found.items ≡ starts script.now tokens.now (length tokens.now)) }
{
    let mut found = Vec::new(alloc);
    let mut end = 0;
    for i in 0..tokens.len() {
        let start = end + between(tokens[i].text, &script[end..]);
        found.push(start)?;
        end = end_of(script, start, tokens[i].text);
    }
    Ok(found)
}

/// The tokens with their numbers, from 0, in place of their lines.
///
/// # Errors
///
/// Where memory is wanting.
pub(crate) fn renumbered<'a>(
    alloc: Global,
    tokens: &[Token<'a>],
) -> Result<Vec<Token<'a>>, AllocError>
    ensures { IfOk result
        (λ found. found.items ≡ renumbered tokens.now (length tokens.now)) }
{
    let mut found = Vec::new(alloc);
    for i in 0..tokens.len() {
        let token = tokens[i];
        found.push(Token {
            kind: token.kind,
            line: i,
            text: token.text,
        })?;
    }
    Ok(found)
}

/// Whether a use stands at a token of this kind: at a name, `=` and `/`.
fn is_told(kind: TokenKind) -> bool
    ensures { result ≡ is_told kind }
{
    matches!(
        kind,
        TokenKind::Name
            | TokenKind::FuncName
            | TokenKind::Punctuator(Punctuator::Assign | Punctuator::Slash)
    )
}

/// Adds a number, if it is to be.
fn push_if(numbers: &mut Vec<usize>, holds: bool, number: usize) -> Result<(), AllocError>
    ensures { OnOk result (numbers.new.items
        ≡ numbers.old.items ++ (if holds then number ∷ [] else [])) }
{
    if holds {
        numbers.push(number)?;
    }
    Ok(())
}

/// The numbers of the tokens at which uses stand.
///
/// # Errors
///
/// Where memory is wanting.
pub fn told(alloc: Global, tokens: &[Token<'_>]) -> Result<Vec<usize>, AllocError>
    ensures { IfOk result (λ found. found.items ≡ told tokens.now (length tokens.now)) }
{
    let mut found = Vec::new(alloc);
    for i in 0..tokens.len() {
        push_if(&mut found, is_told(tokens[i].kind), i)?;
    }
    Ok(found)
}
