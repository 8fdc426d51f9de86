//! What an expression is, where its code depends on that.

ghost use Rattle.std.specs.Prelude.{◌≡◌, ℕ, List, [], ◌∷◌, None, MatchOption, if◌then◌else◌};
ghost use Rattle.awk_grammar.specs.Trees.{Bin, Tree, Var};
ghost use Rattle.awk_grammar.specs.View.{view as tree, view_binary};
ghost use Rattle.awk_grammar.specs.Marks.{bare_name};
ghost use Rattle.awk_text.specs.Escapes.{between};
ghost use Rattle.sem_primitives.specs.declared.table.Primitive.TheVariants as row;
ghost use Rattle.mid_program.specs.Mid.{Code, Do};
ghost use Rattle.sem_scripts.specs.Names.{Scope};
ghost use Rattle.sem_scripts.specs.Steps.{ere_in, is_ere};
ghost use Rattle.mid_program.specs.Translation.{code_of, ere_for, one, truncated_code, two};
ghost use Rattle.mid_program.specs.declared.mid.Arithmetic.{Arithmetic};
ghost use Rattle.mid_program.specs.declared.mid.Operation.{Operation};

use awk_grammar::{BinaryOp, Expr};

/// The name that an expression is, if it is a bare name.
pub(crate) fn bare_name(e: &Expr) -> Option<&[u8]>
    ensures { MatchOption result (bare_name (tree e.now) ≡ None) (λ name. tree e.now
        ≡ Var name.now) }
{
    match e {
        Expr::Var(name) => Some(name),
        _ => None,
    }
}

/// What is between the slashes of an ERE token.
pub(crate) fn ere_text(token: &[u8]) -> &[u8]
    ensures { result.now ≡ between token.now }
{
    match token {
        [_, inner @ .., _] => inner,
        _ => &[],
    }
}

/// The ERE that an expression is, parentheses aside, if it is an ERE token.
pub(crate) fn ere_in(e: &Expr) -> Option<&[u8]>
    ensures { MatchOption result (ere_in (tree e.now) ≡ []) (λ text. ere_in (tree e.now)
        ≡ text.now ∷ []) }
{
    match e {
        Expr::Ere(token) => Some(ere_text(token)),
        Expr::Group(inner) => ere_in(inner),
        _ => None,
    }
}

/// Whether an expression is an ERE token, parentheses aside.
pub(crate) fn is_ere(e: &Expr) -> bool
    ensures { result ≡ is_ere (ere_in (tree e.now)) }
{
    ere_in(e).is_some()
}

/// Whether the right operand of an operator is matched.
pub(crate) fn is_match(op: BinaryOp) -> bool
    ensures { (t : Tree) → ere_for (view_binary op) t ≡ (if result then ere_in t else []) }
{
    matches!(op, BinaryOp::Match | BinaryOp::NoMatch)
}

/// Whether an operator divides.
#[tactic(auto, unfolding(mid_program::specs::Translation::truncated_code))]
pub(crate) fn is_quotient(op: BinaryOp) -> bool
    ensures { (texts : List (List ℕ)) (scope : Scope) (a b : Tree) (whole : Code)
        → truncated_code texts scope (Bin (view_binary op) a b) whole
        ≡ (if result then Do (Operation.Inline Arithmetic.Truncated) (two (code_of texts scope a)
        (code_of texts scope b)) else Do (Operation.Host row.IntOf) (one whole)) }
{
    matches!(op, BinaryOp::Divide)
}
