//! Laws of the definitions, each the contract of a function that does nothing.
ghost use Rattle.std.specs.Prelude.{◌≡◌, ◌≤◌, List, length, slice_get, ℕ};
ghost use Rattle.awk_grammar.specs.Trees.{Item};
ghost use Rattle.awk_tokens.specs.Cutting.{Spelled};
ghost use Rattle.awk_tree.specs.Lines.{function_names, line_of};
ghost use Rattle.script_places.specs.Lines.{line_in, name_in};
ghost use Rattle.script_lines.specs.Lined.{table_of, told_line};

/// The table of a script's module tells of each of its functions the name that it has in the script, and of a place the line that it has there.
pub fn tables_tell_the_script()
    ensures names { (tokens : List Spelled) (script : List Item) (function : ℕ)
        → name_in (table_of tokens script) function ≡ slice_get (function_names script) function }
    ensures lines { (tokens : List Spelled) (script : List Item) (function place : ℕ)
        → function ≤ length (function_names script)
        → line_in (table_of tokens script) function place
        ≡ told_line (line_of tokens script function place) }
{}
