//! Bytes that are written in hexadecimal.
use std::alloc::{AllocError, Global};

/// The number that a hexadecimal digit stands for.
fn digit(byte: u8) -> u8 {
    match byte {
        b'0'..=b'9' => byte - b'0',
        b'a'..=b'f' => byte - b'a' + 10,
        _ => 0,
    }
}

/// The bytes that a text writes.
pub(crate) fn bytes_of(alloc: Global, text: &[u8]) -> Result<Vec<u8>, AllocError> {
    let mut bytes = Vec::new(alloc);
    for pair in text.chunks_exact(2) {
        if let [high, low] = pair {
            bytes.push((digit(*high) & 15) << 4 | digit(*low) & 15)?;
        }
    }
    Ok(bytes)
}
