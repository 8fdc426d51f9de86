//! Laws of what the parser answers, each the contract of a function that does nothing.
ghost use Rattle.std.specs.Prelude.{◌≡◌, ◌↔◌, ℕ, IsTrue, List, length};
ghost use Rattle.awk_tokens.specs.Cutting.{Spelled};
ghost use Rattle.awk_tokens.specs.Numbers.{is_number};
ghost use Rattle.awk_grammar.specs.Trees.{Item};
ghost use Rattle.awk_grammar.specs.TreeOf.{IsTreeOf};
ghost use Rattle.awk_parse.specs.Jumps.{jump_lines, script_jumps};
ghost use Rattle.awk_parse.specs.Numbers.{IsUnsigned};

/// There are as many words `next`, `break`, `continue` and `return` among a script's tokens as jumps in its tree. So the line of `Misplaced`
/// is that of the jump's own word.
pub fn jump_words_are_jumps()
    ensures { (tokens : List Spelled) (script : List Item) → IsTreeOf tokens script
        → length (jump_lines tokens) ≡ length (script_jumps script) }
{}

/// A number of a script is number text without space bytes and without a sign, and every such text is a number of a script. So the parser
/// and the values of numeric strings agree on what a number looks like.
pub fn script_numbers_are_number_texts()
    ensures { (text : List ℕ) → IsTrue (is_number text) ↔ IsUnsigned text }
{}
