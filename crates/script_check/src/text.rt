//! A script that is cut into tokens.

ghost use Rattle.std.specs.Prelude.{◌≡◌, option_map};
ghost use Rattle.script_check.specs.Layout.{found_at, kind_at, text_at, use_place, view_spot, view_text};
ghost use Rattle.script_check.specs.Remarks.{view_finding, view_said};

use crate::finding::{Finding, Said, bounded};
use awk_tokens::{Token, TokenKind};

/// How many bytes a script has, its tokens, where each begins, and at which of them uses stand.
#[derive(Clone, Copy)]
pub(crate) struct Text<'s, 'a> {
    pub size: usize,
    pub tokens: &'s [Token<'a>],
    pub starts: &'s [usize],
    pub told: &'s [usize],
}

/// The number and the text of a token at which a use stands.
#[derive(Clone, Copy)]
pub(crate) struct Spot<'a> {
    pub number: usize,
    pub name: &'a [u8],
}

/// The kind of the token of this number, if there is one.
pub(crate) fn kind_at(tokens: &[Token<'_>], number: usize) -> Option<TokenKind>
    ensures { result ≡ kind_at tokens.now number }
{
    if number < tokens.len() {
        Some(tokens[number].kind)
    } else {
        None
    }
}

/// The text of the token of this number.
pub(crate) fn text_at<'a>(tokens: &[Token<'a>], number: usize) -> &'a [u8]
    ensures { result.now ≡ text_at tokens.now number }
{
    if number < tokens.len() {
        tokens[number].text
    } else {
        &[]
    }
}

/// A finding at the token of this number.
pub(crate) fn found_at<'a>(text: &Text<'_, 'a>, number: usize, said: Said<'a>) -> Finding<'a>
    ensures { view_finding result ≡ found_at (view_text text.now) number (view_said said.entry) }
{
    if number < text.starts.len() && number < text.tokens.len() {
        let length = text.tokens[number].text.len();
        bounded(text.size, text.starts[number], length, said)
    } else {
        bounded(text.size, 0, 0, said)
    }
}

/// Where the use of this number stands.
pub(crate) fn use_place<'a>(text: &Text<'_, 'a>, at: usize) -> Option<Spot<'a>>
    ensures { option_map view_spot result ≡ use_place (view_text text.now) at }
{
    if at >= text.told.len() {
        return None;
    }
    let number = text.told[at];
    if number >= text.tokens.len() {
        return None;
    }
    Some(Spot {
        number,
        name: text.tokens[number].text,
    })
}
