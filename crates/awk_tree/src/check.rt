//! Whether an expression is well formed.

ghost use Rattle.std.specs.Prelude.{◌≡◌, ◌&&◌, true};
ghost use Rattle.awk_grammar.specs.Token.{Assign};
ghost use Rattle.awk_grammar.specs.Tree.{suits};
ghost use Rattle.awk_grammar.specs.Trees.{Other};
ghost use Rattle.awk_grammar.specs.WellFormed.{joins, is_some_tree, well_formed, all_well_formed};
ghost use Rattle.awk_grammar.specs.View.{view, views, view_binary, view_assign};

use awk_grammar::{
    AssignOp, BinaryOp, Builtin, Expr, Next, behind_left, fits_right, has_edge, head, is_allowed,
    is_field, left_floor, level, may_begin, suits, takes,
};

/// Whether an operator may stand between these operands.
fn joins(greater: bool, op: BinaryOp, a: &Expr, b: &Expr) -> bool
    ensures { result ≡ joins greater (view_binary op) (view a.now) (view b.now) }
{
    let first = head(b);
    has_edge(left_floor(op), a)
        && fits_right(op, b)
        && may_begin(op, first)
        && !takes(true, a, behind_left(op, first))
        && is_allowed(greater, op)
}

/// Whether the left side may be assigned to.
fn assigns(greater: bool, op: AssignOp, a: &Expr, b: &Expr) -> bool
    ensures { result ≡ joins greater (Other (Assign (view_assign op))) (view a.now) (view b.now) }
{
    has_edge(13, a) && !takes(true, a, Next::Other)
}

#[tactic(auto, using(awk_grammar::proofs::Views::some_views))]
pub(crate) fn are_some(es: &[Expr]) -> bool
    ensures { result ≡ is_some_tree (views es.now) }
{
    match es {
        [] => false,
        [_, ..] => true,
    }
}

/// Whether an expression is well formed where `greater` says whether `>` may stand outside parentheses and brackets.
#[cycle(check)]
pub(crate) fn is_fine(greater: bool, e: &Expr) -> bool
    ensures { result ≡ well_formed greater (view e.now) }
{
    match e {
        Expr::Number(_)
        | Expr::Str(_)
        | Expr::Ere(_)
        | Expr::Length
        | Expr::Var(_)
        | Expr::Getline => true,
        Expr::Element(_, subscripts) => are_subscripts(subscripts),
        Expr::Field(inner) => is_field(inner) && is_fine(greater, inner),
        Expr::Group(inner) => is_fine(true, inner),
        Expr::Call(_, arguments) => are_fine(true, arguments),
        Expr::Apply(function, arguments) => are_arguments(*function, arguments),
        Expr::Unary(_, inner) => level(inner) >= 9 && is_fine(greater, inner),
        Expr::PreStep(_, inner) | Expr::PostStep(_, inner) | Expr::GetlineInto(inner) => {
            level(inner) >= 13 && is_fine(greater, inner)
        }
        Expr::Binary(op, a, b) => {
            joins(greater, *op, a, b) && is_fine(greater, a) && is_fine(greater, b)
        }
        Expr::Assign(op, a, b) => {
            assigns(greater, *op, a, b) && is_fine(greater, a) && is_fine(greater, b)
        }
        Expr::In(a, _) => has_edge(3, a) && is_fine(greater, a),
        Expr::InList(first, others, _) => is_fine(true, first) && are_subscripts(others),
        Expr::Conditional(a, b, c) => {
            has_edge(1, a) && is_fine(greater, a) && is_fine(greater, b) && is_fine(greater, c)
        }
        Expr::GetlineFrom(file) => level(file) >= 12 && is_fine(greater, file),
        Expr::GetlineIntoFrom(place, file) => {
            level(place) >= 13
                && level(file) >= 12
                && is_fine(greater, place)
                && is_fine(greater, file)
        }
    }
}

#[cycle(check)]
pub(crate) fn are_fine(greater: bool, es: &[Expr]) -> bool
    ensures { result ≡ all_well_formed greater (views es.now) }
{
    for e in es {
        if !is_fine(greater, e) {
            return false;
        }
    }
    true
}

/// Whether these may be subscripts: at least one, each well formed.
#[cycle(check)]
pub(crate) fn are_subscripts(es: &[Expr]) -> bool
    ensures { result ≡ (is_some_tree (views es.now) && all_well_formed true (views es.now)) }
{
    are_some(es) && are_fine(true, es)
}

/// Whether a built-in function takes these, each well formed.
#[cycle(check)]
fn are_arguments(function: Builtin, es: &[Expr]) -> bool
    ensures { result ≡ (suits function (views es.now) && all_well_formed true (views es.now)) }
{
    suits(function, es) && are_fine(true, es)
}
