//! Fields of rows and answers: bytes written with escapes of awk.
use std::alloc::AllocError;

/// The last three bits of a number, as an octal digit.
fn octal(bits: u8) -> char {
    (b'0' | (bits & 7)) as char
}

/// Adds a byte: as itself where that is printed in ASCII and no backslash.
fn push_byte(text: &mut String, byte: u8) -> Result<(), AllocError> {
    match byte {
        b'\\' => text.push_str("\\\\"),
        b'\t' => text.push_str("\\t"),
        b'\n' => text.push_str("\\n"),
        b' '..=b'~' => text.push(byte as char),
        _ => {
            text.push('\\')?;
            text.push(octal(byte >> 6))?;
            text.push(octal(byte >> 3))?;
            text.push(octal(byte))
        }
    }
}

/// Adds bytes as a field has them.
pub(crate) fn push_escaped(text: &mut String, bytes: &[u8]) -> Result<(), AllocError> {
    for byte in bytes {
        push_byte(text, *byte)?;
    }
    Ok(())
}
