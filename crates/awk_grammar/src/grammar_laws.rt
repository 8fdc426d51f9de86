//! Laws of the grammar.

ghost use Rattle.std.specs.Prelude.{◌≡◌, ℕ, ◌≤◌, List, Ok, Err};
ghost use Rattle.awk_tokens.specs.Cutting.{Spelled};
ghost use Rattle.awk_grammar.specs.Token.{Token};
ghost use Rattle.awk_grammar.specs.Reading.{Syntax};
ghost use Rattle.awk_grammar.specs.Item.{IsScript, print_script};
ghost use Rattle.awk_grammar.specs.Trees.{Item, script_depth};
ghost use Rattle.awk_grammar.specs.ReadItem.{script_at};
ghost use Rattle.awk_grammar.specs.TreeOf.{IsTreeOf, IsReadAs};

/// Tokens have at most one well-formed script.
pub fn one_script()
    ensures printed { (s t : List Item) → IsScript s → IsScript t → print_script s ≡ print_script t
        → s ≡ t }
    ensures tokens { (tokens : List Spelled) (s t : List Item) → IsTreeOf tokens s
        → IsTreeOf tokens t → s ≡ t }
{}

/// What reading to a depth gives is a well-formed script of at most that depth, and the tokens are its own.
pub fn read_scripts_are_well_formed()
    ensures { (depth : ℕ) (tokens : List Token) (script : List Item) → script_at depth tokens
        ≡ Ok script → IsReadAs depth tokens script }
{}

/// Every well-formed script of at most a depth is read from its tokens.
pub fn well_formed_scripts_are_read()
    ensures { (script : List Item) (depth : ℕ) → IsScript script → script_depth script ≤ depth
        → script_at depth (print_script script) ≡ Ok script }
{}

/// Where reading refuses the tokens for their syntax, they have no well-formed script of any depth.
pub fn syntax_means_no_script()
    ensures { (depth : ℕ) (tokens : List Token) (script : List Item) → script_at depth tokens
        ≡ Err Syntax → IsScript script → print_script script ≡ tokens → ⊥ }
{}
