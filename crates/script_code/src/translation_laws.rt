//! Laws of the code of scripts, each the contract of a function that does nothing.
ghost use Rattle.std.specs.Prelude.{◌≡◌, List, None};
ghost use Rattle.awk_tokens.specs.Cutting.{Spelled};
ghost use Rattle.awk_grammar.specs.Item.{IsScript};
ghost use Rattle.awk_grammar.specs.Trees.{Item};
ghost use Rattle.awk_parse.specs.Parsing.{IsParsed};
ghost use Rattle.awk_grammar.specs.Kinds.{refusal};
ghost use Rattle.sem_scripts.specs.Kinds.{resolved};
ghost use Rattle.sem_scripts.specs.Names.{Resolved};
ghost use Rattle.mid_program.specs.Sorted.{IsSorted};
ghost use Rattle.mid_program.specs.Translation.{program_of};
ghost use Rattle.script_code.specs.Fits.{Fits};
ghost use Rattle.script_code.specs.Placed.{ArePlaced};

/// The code of a script is well sorted, where each name of the script is what it is used as, its functions are there, its trees are well
/// formed and its jumps stand in their places.
pub fn code_is_sorted()
    ensures { (script : Resolved) → Fits script → IsSorted (program_of script) }
{}

/// A script with well-formed trees, and jumps in their places, whose names are not refused fits with the kinds of its names; so its code is
/// well sorted.
pub fn resolved_scripts_fit()
    ensures fits { (items : List Item) → IsScript items → ArePlaced items → refusal items ≡ None
        → Fits (resolved items) }
    ensures code { (items : List Item) → IsScript items → ArePlaced items → refusal items ≡ None
        → IsSorted (program_of (resolved items)) }
{}

/// A script that the parser gives has its jumps in their places; so its code is well sorted, where its names are not refused.
pub fn parsed_scripts_are_placed()
    ensures placed { (tokens : List Spelled) (items : List Item) → IsParsed tokens items
        → ArePlaced items }
    ensures code { (tokens : List Spelled) (items : List Item) → IsParsed tokens items
        → refusal items ≡ None → IsSorted (program_of (resolved items)) }
{}
