//! Bytes as answers show them.
use std::alloc::AllocError;

/// Adds a byte: in octal where it is a backslash or not printable ASCII.
fn show_byte(out: &mut String, byte: u8) -> Result<(), AllocError> {
    if b' ' <= byte && byte <= b'~' && byte != b'\\' {
        return out.push(byte as char);
    }
    out.push('\\')?;
    for digit in [byte >> 6, (byte >> 3) & 7, byte & 7] {
        out.push((b'0' + (digit & 7)) as char)?;
    }
    Ok(())
}

/// Adds bytes.
pub(crate) fn show(out: &mut String, bytes: &[u8]) -> Result<(), AllocError> {
    for byte in bytes {
        show_byte(out, *byte)?;
    }
    Ok(())
}
