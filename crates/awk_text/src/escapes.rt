//! Escape sequences of strings.
ghost use Rattle.std.specs.Prelude.{◌≡◌, ℕ, ◌+◌, ◌-◌, ◌*◌, ◌%◌, ◌++◌, ◌∷◌, ◌<◌, ◌≤◌, true, length, IfOk, MatchOption};
ghost use Rattle.awk_text.specs.Escapes.{between, escaped, is_octal, letter_escape, octal, string_text, unescaped};

use std::alloc::{AllocError, Global};

/// The byte that a backslash and this byte stand for, where they stand for one.
fn letter(byte: u8) -> Option<u8>
    ensures { result ≡ letter_escape byte }
{
    match byte {
        b'"' | b'/' | b'\\' => Some(byte),
        b'a' => Some(7),
        b'b' => Some(8),
        b'f' => Some(12),
        b'n' => Some(b'\n'),
        b'r' => Some(b'\r'),
        b't' => Some(b'\t'),
        b'v' => Some(11),
        _ => None,
    }
}

fn is_octal(byte: u8) -> bool
    ensures { result ≡ is_octal byte }
{
    b'0' <= byte && byte <= b'7'
}

/// The octal digit at the front, and what follows it.
fn digit_at(text: &[u8]) -> Option<(u8, &[u8])>
    ensures { MatchOption result ((n more : ℕ) → octal n more text.now ≡ (n % 256) ∷ unescaped
        text.now) (λ d. (text.now ≡ d.0 ∷ d.1.now) × (is_octal d.0 ≡ true)) }
{
    match text {
        [] => None,
        [digit, rest @ ..] => {
            if is_octal(*digit) {
                Some((*digit, rest))
            } else {
                None
            }
        }
    }
}

/// The number with one more octal digit behind it.
fn with_digit(number: u16, digit: u8) -> u16
    requires small { number < 64 }
    requires octal { is_octal digit ≡ true }
    ensures value { result ≡ number * 8 + (digit - 48) }
    ensures small { result < number * 8 + 8 }
{
    number * 8 + u16::from(digit - b'0')
}

fn low_byte(number: u16) -> u8
    ensures { result ≡ number % 256 }
{
    (number % 256) as u8
}

/// The low eight bits of the number that up to two more octal digits go on from `first`, and what follows them.
#[tactic(auto, using(crate::proofs::Octals::octals))]
fn octal(first: u8, text: &[u8]) -> (u8, &[u8])
    requires { first < 8 }
    ensures value { octal first 2 text.now ≡ result.0 ∷ unescaped result.1.now }
    ensures behind { length result.1.now ≤ length text.now }
{
    let Some((second, rest)) = digit_at(text) else {
        return (first, text);
    };
    let two = with_digit(u16::from(first), second);
    let Some((third, behind)) = digit_at(rest) else {
        return (low_byte(two), rest);
    };
    (low_byte(with_digit(two, third)), behind)
}

/// Adds what a backslash, this byte and the front of what follows it stand for, and gives what is left.
fn push_escape<'a>(out: &mut Vec<u8>, byte: u8, text: &'a [u8]) -> Result<&'a [u8], AllocError>
    ensures value { IfOk result
        (λ rest. out.new.items ++ unescaped rest.now ≡ out.old.items ++ escaped (byte ∷ text.now)) }
    ensures behind { IfOk result (λ rest. length rest.now ≤ length text.now) }
{
    if is_octal(byte) {
        let (byte, rest) = octal(byte - b'0', text);
        out.push(byte)?;
        return Ok(rest);
    }
    if byte == b'\n' {
        return Ok(text);
    }
    match letter(byte) {
        Some(letter) => {
            out.push(letter)?;
            Ok(text)
        }
        None => {
            out.extend_from_slice(&[b'\\', byte])?;
            Ok(text)
        }
    }
}

/// Adds what a backslash before this text stands for, and gives what is left.
fn push_behind<'a>(out: &mut Vec<u8>, text: &'a [u8]) -> Result<&'a [u8], AllocError>
    ensures value { IfOk result
        (λ rest. out.new.items ++ unescaped rest.now ≡ out.old.items ++ escaped text.now) }
    ensures behind { IfOk result (λ rest. length rest.now ≤ length text.now) }
{
    match text {
        [] => {
            out.push(b'\\')?;
            Ok(text)
        }
        [byte, rest @ ..] => push_escape(out, *byte, rest),
    }
}

/// The text that bytes with escape sequences stand for (POSIX.1-2017 awk, "Lexical Conventions"). A backslash and one of `"`, `/`, `\`,
/// `a`, `b`, `f`, `n`, `r`, `t` and `v` stand for one byte, and so does a backslash with one to three octal digits: the low eight bits of
/// their number. A backslash before a newline is dropped with it. Before another byte, and at the end, the backslash is kept.
///
/// # Errors
///
/// [`AllocError`] where there is no memory for the text.
pub fn unescape(alloc: Global, text: &[u8]) -> Result<Vec<u8>, AllocError>
    ensures { IfOk result (λ out. out.items ≡ unescaped text.now) }
{
    let mut out = Vec::new(alloc);
    let mut rest = text;
    while let [byte, after @ ..] = rest {
        rest = if *byte == b'\\' {
            push_behind(&mut out, after)?
        } else {
            out.push(*byte)?;
            after
        };
    }
    Ok(out)
}

/// What is between the first and the last byte.
fn between(quoted: &[u8]) -> &[u8]
    ensures { result.now ≡ between quoted.now }
{
    match quoted {
        [_, inner @ .., _] => inner,
        _ => &[],
    }
}

/// The text of a string, given with its quotes: what [`unescape`] makes of the bytes between them.
///
/// # Errors
///
/// [`AllocError`] where there is no memory for the text.
pub fn string_text(alloc: Global, quoted: &[u8]) -> Result<Vec<u8>, AllocError>
    ensures { IfOk result (λ text. text.items ≡ string_text quoted.now) }
{
    unescape(alloc, between(quoted))
}
