//! Runs pass the places of a script's statements as the script executes them: laws alone.
//!
//! Laws of the spots of scripts, each the contract of a function that does nothing.
ghost use Rattle.std.specs.Prelude.{◌≡◌, ℕ, List, Some, map, slice_get};
ghost use Rattle.awk_grammar.specs.Trees.{Item};
ghost use Rattle.sem_scripts.specs.Kinds.{resolved};
ghost use Rattle.sem_scripts.specs.Names.{Resolved};
ghost use Rattle.sem_scripts.specs.ScriptRun.{Setting, resolved_run};
ghost use Rattle.lower_model.specs.Machine.{Notes};
ghost use Rattle.lower_model.specs.Noted.{noted_run_in};
ghost use Rattle.mid_program.specs.Sorted.{IsSorted};
ghost use Rattle.lower_model.specs.Modules.{module_of};
ghost use Rattle.wasm_types.specs.Syntax.{FuncForm};
ghost use Rattle.agreement.specs.Passed.Passed.{Passes};
ghost use Rattle.agreement.specs.Places.Statements.{starts_in};
ghost use Rattle.agreement.specs.Spots.InOrder.{spots_in};
ghost use Rattle.agreement.specs.Spots.Marked.{marked_run, no_marks};
ghost use Rattle.agreement.specs.Spots.Places.{final_program, place_of};
ghost use Rattle.agreement.specs.Spots.Probed.{module_place, probed_script};

/// With nothing marked a script does what it does.
pub fn scripts_without_marks()
    ensures { (script : Resolved) (s : Setting) (turns : ℕ) → marked_run no_marks script s turns
        ≡ resolved_run script s turns }
{}

/// A script's code notes the places of the script's spots as the script passes them.
pub fn spots_have_places()
    ensures { (notes : Notes) (script : Resolved) (s : Setting) (turns : ℕ)
        → noted_run_in notes (final_program script) s turns
        ≡ marked_run (λ home spot. notes (place_of script home spot)) script s turns }
{}

/// A run of a script's module passes the places of the spots that the script passes, as often and in the same order, and among the same actions. So each execution
/// of a statement by the meaning of scripts passes the statement's place once.
pub fn statements_are_passed()
    ensures { (script : Resolved) → IsSorted (final_program script)
        → Passes (probed_script script) (module_of (final_program script)) }
{}

/// The places of a function's code, in a script's module, are those of the script's spots, in the same order: the n-th `nop` of the code is the place of the n-th spot.
pub fn spots_are_in_order()
    ensures { (items : List Item) (function : ℕ) (func : FuncForm)
        → slice_get (module_of (final_program (resolved items))).funcs function ≡ Some func
        → starts_in func.body
        ≡ map (λ spot. module_place (resolved items) spot.0 spot.1) (spots_in items function) }
{}
