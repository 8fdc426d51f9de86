//! Laws of the definitions, each the contract of a function that does nothing.
ghost use Rattle.std.specs.Prelude.{◌≡◌, ◌≤◌, ◌++◌, List, Some, ℕ, length};
ghost use Rattle.script_places.specs.Lines.{FunctionForm, lines_text};
ghost use Rattle.script_places.specs.Reading.{AllFit, table_in};
ghost use Rattle.wasm_types.specs.ModuleGrammar.{IsModule};
ghost use Rattle.wasm_types.specs.Profile.{most_module_bytes};
ghost use Rattle.wasm_types.specs.Syntax.{ModuleForm};

/// The table that is written behind the bytes of a module is the one that is found, whatever other sections the module has.
pub fn tables_are_found()
    ensures { (bytes : List ℕ) (m : ModuleForm) (table : List FunctionForm) → IsModule bytes m
        → AllFit table → length (bytes ++ lines_text table) ≤ most_module_bytes
        → table_in (bytes ++ lines_text table) ≡ Some table }
{}
