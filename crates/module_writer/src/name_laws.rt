//! Laws of the definitions, each the contract of a function that does nothing.

ghost use Rattle.std.specs.Prelude.{ℕ, ◌≤◌, ◌++◌, List, length};
ghost use Rattle.wasm_types.specs.Syntax.{ModuleForm};
ghost use Rattle.wasm_types.specs.ModuleGrammar.{Custom, IsCustom, IsModule, IsSection};
ghost use Rattle.wasm_types.specs.Profile.{most_module_bytes};
ghost use Rattle.module_writer.specs.Names.{names_text};

/// A custom section behind a module's bytes leaves no trace: they are of the same module, unless they are too many.
pub fn custom_sections_leave_no_trace()
    ensures { (bytes custom contents : List ℕ) (m : ModuleForm) → IsModule bytes m → IsCustom contents
        → IsSection (Custom contents) custom → length (bytes ++ custom) ≤ most_module_bytes
        → IsModule (bytes ++ custom) m }
{}

/// Names are such a section.
pub fn names_leave_no_trace()
    ensures { (bytes : List ℕ) (first : ℕ) (names : List (List ℕ)) (m : ModuleForm) → IsModule bytes m
        → length (bytes ++ names_text first names) ≤ most_module_bytes
        → IsModule (bytes ++ names_text first names) m }
{}
