//! What the decoder and the validator answer to a module. One that is decoded is written and decoded again before it is validated; if it is written in other
//! bytes, they are said too.
ghost use Rattle.std.specs.Prelude.{◌≤◌};
ghost use Rattle.std.specs.List.{All};
ghost use Rattle.wasm_types.specs.Instructions.{depths};
ghost use Rattle.wasm_types.specs.Profile.{most_nesting};
ghost use Rattle.wasm_types.specs.View.{view_module};

use crate::round_trip::decode_written;
use module_decoder::decode;
use module_validator::validate;
use module_writer::write;
use std::alloc::{AllocError, Global};
use wasm_types::Module;

/// The digit for a number below 16.
fn digit_of(number: u8) -> char {
    if number < 10 {
        char::from(b'0' + number % 10)
    } else {
        char::from(b'a' + (number - 10) % 6)
    }
}

fn text_of(alloc: Global, bytes: &[u8]) -> Result<String, AllocError> {
    let mut text = String::new(alloc);
    for byte in bytes {
        text.push(digit_of(*byte >> 4))?;
        text.push(digit_of(*byte & 15))?;
    }
    Ok(text)
}

/// What the validator says of a module.
fn verdict(alloc: Global, whole: Module) -> Result<String, AllocError>
    requires { All (λ f. depths f.body ≤ most_nesting) (view_module whole).funcs }
{
    match validate(alloc, whole) {
        Ok(_) => format!(in alloc; "valid"),
        Err((_, fault)) => format!(in alloc; "{fault}"),
    }
}

/// What is said of a module.
pub(crate) fn answer(alloc: Global, bytes: &[u8]) -> Result<String, AllocError> {
    let module = match decode(alloc, bytes) {
        Ok(module) => module,
        Err(fault) => return format!(in alloc; "{fault:?}"),
    };
    let again = match decode_written(alloc, &module) {
        Ok(Ok(again)) => again,
        Ok(Err(fault)) => return format!(in alloc; "read again: {fault:?}"),
        Err(fault) => return format!(in alloc; "written: {fault:?}"),
    };
    let said = verdict(alloc, again)?;
    match write(alloc, &module) {
        Ok(written) if written.as_slice() == bytes => Ok(said),
        Ok(written) => format!(in alloc; "{said}, written as {}", text_of(alloc, &written)?),
        Err(fault) => format!(in alloc; "written: {fault:?}"),
    }
}
