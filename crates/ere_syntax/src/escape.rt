//! Escapes: those of awk's strings, and any other escaped byte is that byte.
ghost use Rattle.std.specs.Prelude.{◌≡◌, ◌≤◌, ◌-◌, ◌∷◌, true, option_map};
ghost use Rattle.ere_syntax.specs.Bracket.{escape_value, is_octal, letter_value, octal_value};
ghost use Rattle.ere_syntax.specs.Readers.{byte_and, escape_at, octals_at};
ghost use Rattle.ere_syntax.specs.Reads.{kept};

fn is_octal(byte: u8) -> bool
    ensures { result ≡ is_octal byte }
{
    b'0' <= byte && byte <= b'7'
}

/// The byte of an escape, behind its backslash, and what follows; or what was left where reading stopped.
pub(crate) fn escape(text: &[u8]) -> Result<(u8, &[u8]), &[u8]>
    ensures { option_map (λ x. byte_and x.0 x.1.now) (kept result)
        ≡ option_map (λ x. byte_and (escape_value x.0) x.1) (escape_at text.now) }
{
    match text {
        [] => Err(text),
        [first, rest @ ..] => {
            if is_octal(*first) {
                Ok(octal(*first, rest))
            } else {
                Ok((letter(*first), rest))
            }
        }
    }
}

/// What an octal digit counts.
fn count_of(digit: u8) -> u16
    requires { is_octal digit ≡ true }
    ensures small { result ≤ 7 }
    ensures value { result ≡ digit - 48 }
{
    u16::from(digit - b'0')
}

/// The byte of the octal digit and at most two further ones, and what follows.
fn octal(first: u8, text: &[u8]) -> (u8, &[u8])
    requires { is_octal first ≡ true }
    ensures { byte_and result.0 result.1.now
        ≡ byte_and (octal_value 0 (first ∷ (octals_at 2 text.now).0)) (octals_at 2 text.now).1 }
{
    let one = count_of(first);
    match text {
        [a, b, rest @ ..] if is_octal(*a) && is_octal(*b) => {
            let number = (one * 8 + count_of(*a)) * 8 + count_of(*b);
            ((number % 256) as u8, rest)
        }
        [a, rest @ ..] if is_octal(*a) => ((one * 8 + count_of(*a)) as u8, rest),
        _ => (one as u8, text),
    }
}

/// The byte of a letter behind a backslash.
fn letter(byte: u8) -> u8
    ensures { result ≡ letter_value byte }
{
    match byte {
        b'a' => 7,
        b'b' => 8,
        b'f' => 12,
        b'n' => 10,
        b'r' => 13,
        b't' => 9,
        b'v' => 11,
        _ => byte,
    }
}
