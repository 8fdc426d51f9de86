//! The module of every well-sorted program is typed, and links with a host that has the imports of the table.
//!
//! Laws of the module of a program, each the contract of a function that does nothing.
ghost use Rattle.std.specs.Prelude.{◌≡◌, ◌+◌, ◌≤◌, ◌^◌, ◌↔◌, ℕ, Some, length, map, slice_get, true};
ghost use Rattle.std.specs.List.{All};
ghost use Rattle.mid_program.specs.Mid.{Program};
ghost use Rattle.mid_program.specs.Sorted.{IsSorted};
ghost use Rattle.lower_model.specs.Emission.{function_number};
ghost use Rattle.lower_model.specs.Functions.{texts_of};
ghost use Rattle.host_imports.specs.Names.{import_number};
ghost use Rattle.lower_model.specs.Modules.{all_callees, any_calls, called_imports, imports_of, module_of, new_number};
ghost use Rattle.host_imports.specs.declared.import.Import.{Import};
ghost use Rattle.lower_model.specs.Places.{memory_of};
ghost use Rattle.agreement.specs.Typed.Finds.{table_finds};
ghost use Rattle.wasm_model.specs.Links.{SegmentsFit, main_of, numbers_for};
ghost use Rattle.wasm_types.specs.Typing.{ModuleOk};

/// The typing rules allow the module of a program exactly if its texts, and the names that it announces, take at most 4 GiB.
pub fn typed()
    ensures { (p : Program) → IsSorted p
        → (length (memory_of (texts_of p)) ≤ 2 ^ 32) ↔ ModuleOk (module_of p) }
{}

/// What stays of the imports, and under which numbers: an import that code calls is the one that stands under its new number, one that no code calls
/// is left out, and the functions come after those that stay, in their order.
pub fn numbered()
    ensures called { (p : Program) (i : Import)
        → any_calls (import_number i) (all_callees p) ≡ true
        → slice_get (imports_of p) (new_number (called_imports p) (import_number i)) ≡ Some i }
    ensures left_out { (p : Program)
        → All (λ i. any_calls (import_number i) (all_callees p) ≡ true) (imports_of p) }
    ensures functions { (p : Program) (f : ℕ) → new_number (called_imports p) (function_number f)
        ≡ length (imports_of p) + f }
{}

/// The module of a program links with a host that has all imports: each that it has is there with its type, under its number in the table;
/// `main` is exported, the last function; and the texts lie within the memory.
pub fn links()
    ensures imports { (p : Program) → numbers_for table_finds (module_of p)
        ≡ map (λ i. Some (import_number i)) (imports_of p) }
    ensures main { (p : Program) → main_of (module_of p)
        ≡ Some (length (imports_of p) + length p.routines) }
    ensures segments { (p : Program) → SegmentsFit (module_of p) }
{}
