//! What is looked for in the tokens before the tree.

ghost use Rattle.std.specs.Prelude.{◌≡◌, map};
ghost use Rattle.awk_tokens.specs.Views.{spelled};
ghost use Rattle.awk_text.specs.Number.{number_of_text};
ghost use Rattle.awk_parse.specs.Scan.{number_fault, kind_fault, scan};

use crate::fault::{Feature, ParseFault};
use awk_text::{NumberFault, number_of};
use awk_tokens::{Punctuator, Token, TokenKind};

/// What is wrong with a number.
fn number_fault(line: usize, text: &[u8]) -> Option<ParseFault>
    ensures { result ≡ number_fault line (number_of_text text.now) }
{
    match number_of(text) {
        Ok(_) => None,
        Err(NumberFault::Fraction) => Some(ParseFault::NotWhole(line)),
        Err(NumberFault::Range) => Some(ParseFault::ConstantRange(line)),
    }
}

/// What is wrong with a token.
fn token_fault(token: &Token<'_>) -> Option<ParseFault>
    ensures { result ≡ kind_fault token.now.kind token.now.line token.now.text.now }
{
    match token.kind {
        TokenKind::Number => number_fault(token.line, token.text),
        TokenKind::LeftOut(word) => Some(ParseFault::LeftOut(token.line, Feature::Word(word))),
        TokenKind::Punctuator(Punctuator::Pipe) => {
            Some(ParseFault::LeftOut(token.line, Feature::Pipe))
        }
        _ => None,
    }
}

/// The first token that the language leaves out, or number that it does not have.
pub(crate) fn scan(tokens: &[Token<'_>]) -> Option<ParseFault>
    ensures { result ≡ scan (map spelled tokens.now) }
{
    for token in tokens {
        if let Some(fault) = token_fault(token) {
            return Some(fault);
        }
    }
    None
}
