//! The productions derive the well-formed trees from their tokens, and nothing else. Each law is the contract of a function that does nothing.
ghost use Rattle.std.specs.Prelude.{◌≡◌, ◌↔◌, Bool, List};
ghost use Rattle.awk_tokens.specs.Cutting.{Spelled};
ghost use Rattle.awk_grammar.specs.Token.{Token};
ghost use Rattle.awk_grammar.specs.Tree.{print, IsWellFormed};
ghost use Rattle.awk_grammar.specs.Trees.{Tree, Item};
ghost use Rattle.awk_grammar.specs.Item.{IsScript, print_script};
ghost use Rattle.awk_grammar.specs.Lexeme.{spoken};
ghost use Rattle.awk_grammar.specs.TreeOf.{IsTreeOf};
ghost use Rattle.awk_tree.specs.Expressions.{Expr, Derives};
ghost use Rattle.awk_tree.specs.Scripts.{ScriptOf};

use awk_grammar::one_script;

/// The productions of expressions derive a tree from tokens exactly where the tree is well formed and the tokens are its own.
pub fn expressions_are_derived()
    ensures { (greater : Bool) (t : Tree) (ts : List Token)
        → Derives greater Expr t ts ↔ (IsWellFormed greater t × (print t ≡ ts)) }
{}

/// The productions of scripts derive a script from tokens exactly where it is well formed and the tokens are its own.
pub fn scripts_are_derived()
    ensures printed { (script : List Item) (ts : List Token)
        → ScriptOf script ts ↔ (IsScript script × (print_script script ≡ ts)) }
    ensures tokens { (script : List Item) (tokens : List Spelled)
        → ScriptOf script (spoken tokens) ↔ IsTreeOf tokens script }
{}

/// The grammar is unambiguous: from the same tokens it derives one script at most.
pub fn one_script_is_derived()
    ensures { (s t : List Item) (ts : List Token) → ScriptOf s ts → ScriptOf t ts → s ≡ t }
{
    one_script();
}
