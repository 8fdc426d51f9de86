//! Codes of one byte, and names.

ghost use Rattle.std.specs.Prelude.{◌≡◌};
ghost use Rattle.wasm_types.specs.Instructions.{val_code, block_code};
ghost use Rattle.wasm_types.specs.ModuleGrammar.{mut_code};
ghost use Rattle.module_writer.specs.Outputs.{Adds};
ghost use Rattle.module_writer.specs.Writers.{name_to};

use crate::output::Output;
use wasm_types::{BlockType, ValType};

/// The byte of a value's type.
pub(crate) fn val_code(t: ValType) -> u8
    ensures { result ≡ val_code t }
{
    match t {
        ValType::I32 => 0x7f,
        ValType::I64 => 0x7e,
    }
}

/// The byte of a block's type.
pub(crate) fn block_code(t: BlockType) -> u8
    ensures { result ≡ block_code t }
{
    match t {
        None => 0x40,
        Some(t) => val_code(t),
    }
}

/// The byte that says whether a global can be written.
pub(crate) fn mut_code(mutable: bool) -> u8
    ensures { result ≡ mut_code mutable }
{
    if mutable { 0x01 } else { 0x00 }
}

/// A name.
pub(crate) fn name(out: &mut Output, name: &str)
    ensures { Adds out.old out.new (name_to name.now out.old.bytes.items) }
{
    out.counted(name.as_bytes());
}
