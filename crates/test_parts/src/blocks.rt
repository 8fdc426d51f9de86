//! Bodies nested to the limit, read, written again and validated.

ghost use Rattle.std.specs.Prelude.{◌≤◌};
ghost use Rattle.std.specs.List.{All};
ghost use Rattle.wasm_types.specs.Instructions.{depths};
ghost use Rattle.wasm_types.specs.Profile.{most_nesting};
ghost use Rattle.wasm_types.specs.View.{view_module};

use module_decoder::{DecodeFault, decode};
use module_validator::validate;
use module_writer::write;
use std::alloc::{AllocError, Global};
use std::test::Fail;
use wasm_types::{Module, write_u32};

/// A module with one function, whose body is so many blocks, loops or choices, one within the other.
fn nested(alloc: Global, opener: u8, depth: u32) -> Result<Vec<u8>, AllocError> {
    let mut body = Vec::new(alloc);
    body.push(0)?;
    for _ in 0..depth {
        if opener == 0x04 {
            body.extend_from_slice(b"\x41\x00")?;
        }
        body.push(opener)?;
        body.push(0x40)?;
    }
    for _ in 0..depth {
        body.push(0x0b)?;
    }
    body.push(0x0b)?;
    let mut code = Vec::new(alloc);
    code.push(1)?;
    code.extend_from_slice(&write_u32(alloc, u32::try_from(body.len()).unwrap_or(0))?)?;
    code.extend_from_slice(&body)?;
    let mut bytes = Vec::new(alloc);
    bytes.extend_from_slice(b"\0asm\x01\0\0\0\x01\x04\x01\x60\0\0\x03\x02\x01\0\x0a")?;
    bytes.extend_from_slice(&write_u32(alloc, u32::try_from(code.len()).unwrap_or(0))?)?;
    bytes.extend_from_slice(&code)?;
    Ok(bytes)
}

/// Whether a module is written as these bytes, and valid.
fn is_again(alloc: Global, whole: Module, bytes: &[u8]) -> bool
    requires { All (λ f. depths f.body ≤ most_nesting) (view_module whole).funcs }
{
    match write(alloc, &whole) {
        Ok(again) => again.as_slice() == bytes && validate(alloc, whole).is_ok(),
        Err(_) => false,
    }
}

fn is_read_again(alloc: Global, bytes: &[u8]) -> bool {
    match decode(alloc, bytes) {
        Ok(module) => is_again(alloc, module, bytes),
        Err(_) => false,
    }
}

#[test]
fn bodies_nested_to_the_limit(rt: HostRuntime) -> Result<(), Fail> {
    for opener in [0x02, 0x03, 0x04] {
        let deep = nested(rt.alloc(), opener, 4000)?;
        assert!(rt; is_read_again(rt.alloc(), &deep));
        let deeper = nested(rt.alloc(), opener, 4001)?;
        let refused = matches!(decode(rt.alloc(), &deeper), Err(DecodeFault::TooLarge));
        assert!(rt; refused);
    }
    Ok(())
}
