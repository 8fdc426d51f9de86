//! Writing a module and reading it again.

ghost use Rattle.std.specs.Prelude.{◌≡◌, ◌≤◌, ℕ, List, IfOk, IfErr, MatchResult};
ghost use Rattle.std.specs.List.{All};
ghost use Rattle.wasm_types.specs.Instructions.{depths};
ghost use Rattle.wasm_types.specs.Profile.{most_nesting};
ghost use Rattle.wasm_types.specs.View.{view_module};
ghost use Rattle.wasm_types.specs.ModuleGrammar.{IsModule};
ghost use Rattle.module_decoder.specs.declared.fault.DecodeFault.TheVariants.{NoMemory};
ghost use Rattle.module_writer.specs.declared.fault.WriteFault.TheVariants.{TooLarge};

use module_decoder::{DecodeFault, decode};
use module_writer::{WriteFault, write};
use std::alloc::Global;
use wasm_types::Module;

/// Writes a module and decodes its bytes: what comes back is the same module, and the decoder's only fault is want of memory.
/// A module that is not written is past a limit, so no bytes are its, or there was no memory.
pub fn decode_written(alloc: Global, m: &Module) -> Result<Result<Module, DecodeFault>, WriteFault>
    ensures again { IfOk result
        (λ r. MatchResult r (λ again. view_module again ≡ view_module m.now) (λ e. e ≡ NoMemory)) }
    ensures nested { IfOk result
        (λ r. IfOk r (λ again. All (λ f. depths f.body ≤ most_nesting) (view_module again).funcs)) }
    ensures refused { IfErr result
        (λ e. e ≡ TooLarge → (bytes : List ℕ) → IsModule bytes (view_module m.now) → ⊥) }
{
    let bytes = write(alloc, m)?;
    Ok(decode(alloc, &bytes))
}
