//! Laws of the modules of scripts, each the contract of a function that does nothing.
ghost use Rattle.std.specs.Prelude.{◌≡◌, ◌≤◌, ◌^◌, List, None, length};
ghost use Rattle.awk_tokens.specs.Cutting.{Spelled};
ghost use Rattle.awk_grammar.specs.Trees.{Item};
ghost use Rattle.awk_parse.specs.Parsing.{IsParsed};
ghost use Rattle.awk_grammar.specs.Kinds.{refusal};
ghost use Rattle.sem_scripts.specs.Kinds.{resolved};
ghost use Rattle.mid_program.specs.Mid.{Program};
ghost use Rattle.sem_scripts.specs.Names.{Resolved};
ghost use Rattle.sem_scripts.specs.ScriptRun.{resolved_run};
ghost use Rattle.mid_program.specs.Sorted.{IsSorted};
ghost use Rattle.mid_program.specs.Translation.{program_of};
ghost use Rattle.mid_program.specs.SameRuns.{SameRuns};
ghost use Rattle.lower_model.specs.Functions.{texts_of};
ghost use Rattle.lower_model.specs.Modules.{module_of};
ghost use Rattle.lower_model.specs.Places.{memory_of};
ghost use Rattle.wasm_types.specs.Typing.{ModuleOk};
ghost use Rattle.agreement.specs.Modules.Agreement.{Agreement};

use agreement::modules::modules_agree;
use mid_code::meaning_laws::same_meaning;
use script_code::translation_laws::parsed_scripts_are_placed;

/// Every script that has a tree, and whose names are not refused, agrees with the module of its code, over every host of the table: in every job and
/// whatever the outside is, what one does the other does, faults and too many nested calls included; the module never traps, and its work for each
/// turn is bounded.
pub fn scripts_agree()
    ensures { (tokens : List Spelled) (items : List Item)
        → IsParsed tokens items → refusal items ≡ None
        → Agreement (resolved_run (resolved items)) (module_of (program_of (resolved items))) }
{
    same_meaning();
    parsed_scripts_are_placed();
    modules_agree();
}

/// A script agrees with the module of any well-sorted code that runs as the script's own does: once constant parts are computed and names of numbers
/// are unboxed.
pub fn rewritten_scripts_agree()
    ensures { (script : Resolved) (p : Program) → SameRuns p (program_of script) → IsSorted p
        → Agreement (resolved_run script) (module_of p) }
{
    same_meaning();
    modules_agree();
}

/// The typing rules allow that module, where the texts of the script and the names that it announces take at most 4 GiB.
pub fn modules_are_typed()
    ensures { (tokens : List Spelled) (items : List Item)
        → IsParsed tokens items → refusal items ≡ None
        → length (memory_of (texts_of (program_of (resolved items)))) ≤ 2 ^ 32
        → ModuleOk (module_of (program_of (resolved items))) }
{
    parsed_scripts_are_placed();
    agreement::typed::typed();
}
