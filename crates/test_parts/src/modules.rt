//! Modules of WebAssembly.
ghost use Rattle.std.specs.Prelude.{IfErr, IfOk};
ghost use Rattle.test_parts.specs.Unfits.{HasCause};
ghost use Rattle.wasm_types.specs.ModuleGrammar.{IsModule};
ghost use Rattle.wasm_types.specs.Typing.{ModuleOk};
ghost use Rattle.wasm_types.specs.View.{view_module};

use module_decoder::{DecodeFault, decode};
use module_validator::{InvalidFault, ValidModule, validate};
use std::alloc::Global;

/// Why bytes are not a module that may run.
#[derive(Drop)]
pub enum Unfit {
    /// They are no module.
    Undecoded(DecodeFault),
    /// They are one that the typing rules do not allow.
    Invalid(InvalidFault),
}

/// The module that some bytes are, if the typing rules allow it.
///
/// # Errors
///
/// What [`decode`] or [`validate`] says, in this order.
pub fn checked_module(alloc: Global, bytes: &[u8]) -> Result<ValidModule, Unfit>
    ensures module { IfOk result (λ m. IsModule bytes.now (view_module m)) }
    ensures typed { IfOk result (λ m. ModuleOk (view_module m)) }
    ensures refused { IfErr result (λ why. HasCause bytes.now why) }
{
    let module = match decode(alloc, bytes) {
        Ok(module) => module,
        Err(fault) => return Err(Unfit::Undecoded(fault)),
    };
    match validate(alloc, module) {
        Ok(valid) => Ok(valid),
        Err((_, fault)) => Err(Unfit::Invalid(fault)),
    }
}
