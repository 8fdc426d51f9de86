//! Laws of the definitions, each the contract of a function that does nothing.

ghost use Rattle.std.specs.Prelude.{◌≡◌, ℕ, List};
ghost use Rattle.wasm_types.specs.Syntax.{ModuleForm};
ghost use Rattle.wasm_types.specs.ModuleGrammar.{IsModule};

/// Bytes are of at most one module.
pub fn one_module()
    ensures { (bytes : List ℕ) (m n : ModuleForm) → IsModule bytes m → IsModule bytes n → m ≡ n }
{}
