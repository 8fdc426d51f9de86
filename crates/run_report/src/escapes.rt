//! Texts for a terminal.
ghost use Rattle.std.specs.Prelude.{◌≡◌, ◌++◌, ◌<◌, IfOk, OnOk};
ghost use Rattle.run_report.specs.Escapes.{escape, hex_digit, is_control, shown, shown_byte};

use std::alloc::{AllocError, Global};

/// Whether a byte, after another one, is a control character that ends no line.
fn is_control(before: u8, byte: u8) -> bool
    ensures { result ≡ is_control before byte }
{
    (byte < 32 && byte != b'\n') || byte == 127 || (before == 0xc2 && (128..160).contains(&byte))
}

/// A digit of 16.
fn hex_digit(n: u8) -> u8
    requires { n < 16 }
    ensures { result ≡ hex_digit n }
{
    if n < 10 { b'0' + n } else { b'a' - 10 + n }
}

/// Adds a byte, or the escape that is shown for it.
pub(crate) fn push_shown(text: &mut Vec<u8>, before: u8, byte: u8) -> Result<(), AllocError>
    ensures { OnOk result (text.new.items ≡ text.old.items ++ shown_byte before byte) }
{
    if is_control(before, byte) {
        let escape = [b'\\', b'x', hex_digit(byte / 16), hex_digit(byte % 16)];
        text.extend_from_slice(&escape)
    } else {
        Ok(text.push(byte)?)
    }
}

/// A text for a terminal: `\x` and two digits of 16 stand for each control character but the ends of lines, so that no text of the caller's changes what the
/// terminal does.
///
/// # Errors
///
/// Where memory is wanting.
#[tactic(auto, unfolding(crate::specs::Escapes::shown_after))]
pub fn shown(alloc: Global, text: &[u8]) -> Result<Vec<u8>, AllocError>
    ensures { IfOk result (λ bytes. bytes.items ≡ shown text.now) }
{
    let mut bytes = Vec::new(alloc);
    let mut before = 0;
    for byte in text {
        push_shown(&mut bytes, before, *byte)?;
        before = *byte;
    }
    Ok(bytes)
}
