//! Laws on the bytes of modules, each the contract of a function that does nothing.
ghost use Rattle.std.specs.Prelude.{◌≡◌, ◌⊎◌, ◌≤◌, ℕ, List, length};
ghost use Rattle.wasm_types.specs.Syntax.{ModuleForm};
ghost use Rattle.wasm_types.specs.ModuleGrammar.{IsModule};
ghost use Rattle.wasm_types.specs.Typing.{ModuleOk};
ghost use Rattle.module_writer.specs.Limits.{HoldsWords, PassesALimit};
ghost use Rattle.module_writer.specs.Size.{module_size};

/// A module that the rules type, whose constants have their widths and whose names are UTF-8, has bytes, as many as `module_size` counts; or else it passes a
/// limit. So nothing else keeps it from being written.
pub fn typed_modules_have_bytes()
    ensures { (m : ModuleForm) → ModuleOk m → HoldsWords m
        → ((bytes : List ℕ) × IsModule bytes m × (length bytes ≡ module_size m)) ⊎ PassesALimit m }
{}

/// No bytes of a module are fewer than `module_size` counts, and a module that passes a limit has none.
pub fn no_bytes_are_fewer()
    ensures { (m : ModuleForm) (bytes : List ℕ) → IsModule bytes m → (module_size m ≤ length bytes)
        × (PassesALimit m → ⊥) }
{}
