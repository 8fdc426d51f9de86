//! The longest piece at the front of bytes.

ghost use Rattle.std.specs.Prelude.{◌≡◌, ◌∷◌, [], length, false};
ghost use Rattle.awk_tokens.specs.declared.token.Piece.TheVariants.{Token};
ghost use Rattle.awk_tokens.specs.Words.{entry, reserved_word_of};
ghost use Rattle.awk_tokens.specs.Pieces.{goes_on, on_line, starts_name, word_kind, punctuators};
ghost use Rattle.awk_tokens.specs.Reading.{count_while, close_at, joined_at, name_of, punctuator_of, front_of, shorter, with_piece};

use crate::number::number;
use crate::reserved_words::{ReservedWord, entry, reserved_word};
use crate::token::{Piece, Punctuator, TokenKind};

fn begins_name(byte: u8) -> bool
    ensures { result ≡ starts_name byte }
{
    (b'A' <= byte && byte <= b'Z') || (b'a' <= byte && byte <= b'z') || byte == b'_'
}

fn continues_name(byte: u8) -> bool
    ensures { result ≡ goes_on byte }
{
    begins_name(byte) || (b'0' <= byte && byte <= b'9')
}

fn name_bytes(bytes: &[u8]) -> usize
    ensures { result ≡ count_while goes_on bytes.now }
{
    bytes.iter().take_while(|b| continues_name(**b)).count()
}

fn line_bytes(bytes: &[u8]) -> usize
    ensures { result ≡ count_while on_line bytes.now }
{
    bytes.iter().take_while(|b| **b != b'\n').count()
}

/// How many bytes there are up to the closing quote.
#[tactic(auto, using(crate::proofs::Fronts::step_escaped, crate::proofs::Fronts::step_plain, crate::proofs::Fronts::stop_escaped, crate::proofs::Fronts::stop_quote, crate::proofs::Fronts::stop_line, crate::proofs::Fronts::close_end))]
fn closing(newlines: bool, quote: u8, bytes: &[u8]) -> Option<usize>
    ensures { result ≡ close_at newlines quote false bytes.now }
{
    let mut escaped = false;
    for (i, b) in bytes.iter().enumerate() {
        if escaped {
            if *b == b'\n' && !newlines {
                return None;
            }
            escaped = false;
        } else if *b == quote {
            return Some(i + 1);
        } else if *b == b'\n' {
            return None;
        } else {
            escaped = *b == b'\\';
        }
    }
    None
}

fn word(text: &[u8]) -> TokenKind
    ensures { result ≡ word_kind (reserved_word_of text.now) }
{
    match reserved_word(text) {
        None => TokenKind::Name,
        Some(ReservedWord::Keyword(word)) => TokenKind::Keyword(word),
        Some(ReservedWord::Builtin(function)) => TokenKind::Builtin(function),
        Some(ReservedWord::LeftOut(word)) => TokenKind::LeftOut(word),
    }
}

#[tactic(auto, using(crate::proofs::Fronts::name_from))]
fn name(bytes: &[u8]) -> Option<(Piece, usize)>
    ensures { result ≡ name_of bytes.now }
{
    match bytes {
        [_, rest @ ..] => {
            let more = name_bytes(rest);
            let kind = word(&bytes[..more + 1]);
            Some((Piece::Token(kind), more))
        }
        [] => None,
    }
}

/// The punctuator that a byte is.
#[tactic(auto, unfolding(crate::specs::Pieces::punctuators))]
fn short_mark(byte: u8) -> Option<Punctuator>
    ensures { result ≡ entry (byte ∷ []) punctuators }
{
    match byte {
        b'{' => Some(Punctuator::OpenBrace),
        b'}' => Some(Punctuator::CloseBrace),
        b'(' => Some(Punctuator::OpenParen),
        b')' => Some(Punctuator::CloseParen),
        b'[' => Some(Punctuator::OpenBracket),
        b']' => Some(Punctuator::CloseBracket),
        b';' => Some(Punctuator::Semicolon),
        b',' => Some(Punctuator::Comma),
        b'+' => Some(Punctuator::Plus),
        b'-' => Some(Punctuator::Minus),
        b'*' => Some(Punctuator::Star),
        b'/' => Some(Punctuator::Slash),
        b'%' => Some(Punctuator::Percent),
        b'^' => Some(Punctuator::Caret),
        b'!' => Some(Punctuator::Bang),
        b'>' => Some(Punctuator::Greater),
        b'<' => Some(Punctuator::Less),
        b'|' => Some(Punctuator::Pipe),
        b'?' => Some(Punctuator::Question),
        b':' => Some(Punctuator::Colon),
        b'~' => Some(Punctuator::Tilde),
        b'$' => Some(Punctuator::Dollar),
        b'=' => Some(Punctuator::Assign),
        _ => None,
    }
}

/// The punctuator that two bytes are.
#[tactic(auto, unfolding(crate::specs::Pieces::punctuators))]
fn long_mark(first: u8, second: u8) -> Option<Punctuator>
    ensures { result ≡ entry (first ∷ second ∷ []) punctuators }
{
    match (first, second) {
        (b'+', b'=') => Some(Punctuator::PlusAssign),
        (b'-', b'=') => Some(Punctuator::MinusAssign),
        (b'*', b'=') => Some(Punctuator::StarAssign),
        (b'/', b'=') => Some(Punctuator::SlashAssign),
        (b'%', b'=') => Some(Punctuator::PercentAssign),
        (b'^', b'=') => Some(Punctuator::CaretAssign),
        (b'=', b'=') => Some(Punctuator::Equal),
        (b'<', b'=') => Some(Punctuator::LessEqual),
        (b'>', b'=') => Some(Punctuator::GreaterEqual),
        (b'!', b'=') => Some(Punctuator::NotEqual),
        (b'!', b'~') => Some(Punctuator::NotTilde),
        (b'+', b'+') => Some(Punctuator::Increment),
        (b'-', b'-') => Some(Punctuator::Decrement),
        (b'&', b'&') => Some(Punctuator::And),
        (b'|', b'|') => Some(Punctuator::Or),
        (b'>', b'>') => Some(Punctuator::Append),
        _ => None,
    }
}

/// The punctuator that this byte is.
fn short(byte: u8) -> Option<(Piece, usize)>
    ensures { result ≡ shorter (entry (byte ∷ []) punctuators) }
{
    match short_mark(byte) {
        Some(p) => Some((Piece::Token(TokenKind::Punctuator(p)), 0)),
        None => None,
    }
}

#[tactic(auto, unfolding(crate::specs::Reading::mark_at))]
fn punctuator(bytes: &[u8]) -> Option<(Piece, usize)>
    ensures { result ≡ punctuator_of bytes.now }
{
    match bytes {
        [] => None,
        [first] => short(*first),
        [first, second, ..] => match long_mark(*first, *second) {
            Some(p) => Some((Piece::Token(TokenKind::Punctuator(p)), 1)),
            None => short(*first),
        },
    }
}

#[tactic(auto, unfolding(crate::specs::Reading::joined_at))]
fn line_end(bytes: &[u8]) -> Option<(Piece, usize)>
    ensures { result ≡ joined_at bytes.now }
{
    match bytes {
        [b'\n', ..] => Some((Piece::Blank, 1)),
        _ => None,
    }
}

/// A token of this kind, if there is one, and how many bytes it takes beside the first.
fn token(kind: TokenKind, more: Option<usize>) -> Option<(Piece, usize)>
    ensures { result ≡ with_piece (Token kind) more }
{
    match more {
        Some(more) => Some((Piece::Token(kind), more)),
        None => None,
    }
}

/// The longest piece, and how many bytes it takes beside the first.
#[tactic(auto, unfolding(crate::specs::Reading::front_at))]
pub(crate) fn front(division: bool, bytes: &[u8]) -> Option<(Piece, usize)>
    ensures { result ≡ front_of division bytes.now }
{
    match bytes {
        [] => None,
        [b' ' | b'\t', ..] => Some((Piece::Blank, 0)),
        [b'\\', rest @ ..] => line_end(rest),
        [b'\n', ..] => Some((Piece::Newline, 0)),
        [b'#', rest @ ..] => Some((Piece::Blank, line_bytes(rest))),
        [first, rest @ ..] => {
            if begins_name(*first) {
                name(bytes)
            } else if (b'0' <= *first && *first <= b'9') || *first == b'.' {
                token(TokenKind::Number, number(bytes))
            } else if *first == b'"' {
                token(TokenKind::Str, closing(true, b'"', rest))
            } else if *first == b'/' && !division {
                token(TokenKind::Ere, closing(false, b'/', rest))
            } else {
                punctuator(bytes)
            }
        }
    }
}
