//! What the rows compute is what the definitions say. Each law is the contract of a function that does nothing.
ghost use Rattle.std.specs.Prelude.{◌≡◌, ◌↔◌, ℕ, List, Ok, Err};
ghost use Rattle.awk_grammar.specs.Trees.{Item};
ghost use Rattle.sem_scripts.specs.ScriptRun.{Ending, Setting};
ghost use Rattle.test_parts.specs.Sources.{Refused, run_in, script_of};
ghost use Rattle.test_parts.specs.Meant.{IsRefusedFor, IsRunOf, IsScriptOf};

/// The script that is read from bytes is the one that they spell: their tokens' only tree, in which nothing is left out, out of place or refused.
/// Where none is read, the cause that is named holds.
pub fn scripts_are_read()
    ensures script { (bytes : List ℕ) (script : List Item)
        → (script_of bytes ≡ Ok script) ↔ IsScriptOf bytes script }
    ensures refused { (bytes : List ℕ) (why : Refused) → script_of bytes ≡ Err why
        → IsRefusedFor bytes why }
{}

/// The run that is computed from bytes is the run of the script that they spell.
pub fn runs_are_computed()
    ensures { (bytes : List ℕ) (setting : Setting) (turns : ℕ) (ending : Ending) →
        (run_in bytes setting turns ≡ Ok ending) ↔ IsRunOf bytes setting turns ending }
{}
