//! What the grammar asks of an expression where it stands.

ghost use Rattle.std.specs.Prelude.{◌≡◌, nat_le};
ghost use Rattle.awk_grammar.specs.Tree.{level, edge, takes, is_field, fits, op_level, op_edge, op_left, op_right, op_allowed, suits, is_var, within, second_is_var, third_is_lvalue};
ghost use Rattle.awk_grammar.specs.Trees.{count};
ghost use Rattle.awk_grammar.specs.Shape.{view_next, head_of, behind, may_join};
ghost use Rattle.awk_grammar.specs.View.{view, views, view_binary, view_unary};

use crate::tree::{BinaryOp, Builtin, Expr, UnaryOp};

/// What a token is to the end of the expression before it.
#[derive(Clone, Copy)]
pub enum Next {
    Paren,
    Bracket,
    LValue,
    Less,
    Step,
    Sign,
    Other,
}

/// The level of the expression that an operator makes.
pub fn binary_level(op: BinaryOp) -> u8
    ensures level { result ≡ op_level (view_binary op) }
    ensures edge { result ≡ op_edge (view_binary op) }
{
    match op {
        BinaryOp::Or => 1,
        BinaryOp::And => 2,
        BinaryOp::Match | BinaryOp::NoMatch => 4,
        BinaryOp::Less
        | BinaryOp::LessEqual
        | BinaryOp::Equal
        | BinaryOp::NotEqual
        | BinaryOp::Greater
        | BinaryOp::GreaterEqual => 5,
        BinaryOp::Concat => 6,
        BinaryOp::Add | BinaryOp::Subtract => 7,
        BinaryOp::Multiply | BinaryOp::Divide | BinaryOp::Modulo => 8,
        BinaryOp::Power => 10,
    }
}

/// The least level of an operator's left operand.
pub fn left_floor(op: BinaryOp) -> u8
    ensures { result ≡ op_left (view_binary op) }
{
    match op {
        BinaryOp::Or => 1,
        BinaryOp::And => 2,
        BinaryOp::Match | BinaryOp::NoMatch => 5,
        BinaryOp::Less
        | BinaryOp::LessEqual
        | BinaryOp::Equal
        | BinaryOp::NotEqual
        | BinaryOp::Greater
        | BinaryOp::GreaterEqual => 6,
        BinaryOp::Concat => 6,
        BinaryOp::Add | BinaryOp::Subtract => 7,
        BinaryOp::Multiply | BinaryOp::Divide | BinaryOp::Modulo => 8,
        BinaryOp::Power => 11,
    }
}

/// Whether an operator takes this expression as its right operand, by the levels.
pub fn fits_right(op: BinaryOp, e: &Expr) -> bool
    ensures { result ≡ fits (op_right (view_binary op)) (view e.now) }
{
    match op {
        BinaryOp::Or => level(e) >= 2,
        BinaryOp::And => level(e) >= 3,
        BinaryOp::Match | BinaryOp::NoMatch => level(e) >= 5,
        BinaryOp::Less
        | BinaryOp::LessEqual
        | BinaryOp::Equal
        | BinaryOp::NotEqual
        | BinaryOp::Greater
        | BinaryOp::GreaterEqual => level(e) >= 6,
        BinaryOp::Concat => level(e) >= 7,
        BinaryOp::Add | BinaryOp::Subtract => level(e) >= 8,
        BinaryOp::Multiply | BinaryOp::Divide | BinaryOp::Modulo => level(e) >= 9,
        BinaryOp::Power => level(e) >= 9,
    }
}

/// How tightly an expression holds together.
pub fn level(e: &Expr) -> u8
    ensures { result ≡ level (view e.now) }
{
    match e {
        Expr::Conditional(_, _, _) => 0,
        Expr::Assign(_, _, _) | Expr::In(_, _) | Expr::InList(_, _, _) => 3,
        Expr::Binary(op, _, _) => binary_level(*op),
        Expr::Unary(_, _) => 9,
        Expr::PreStep(_, _)
        | Expr::PostStep(_, _)
        | Expr::Getline
        | Expr::GetlineInto(_)
        | Expr::GetlineFrom(_)
        | Expr::GetlineIntoFrom(_, _) => 11,
        Expr::Number(_)
        | Expr::Str(_)
        | Expr::Ere(_)
        | Expr::Length
        | Expr::Group(_)
        | Expr::Call(_, _)
        | Expr::Apply(_, _) => 12,
        Expr::Var(_) | Expr::Element(_, _) | Expr::Field(_) => 13,
    }
}

/// Whether an expression may be a left operand where this level is wanted: none at its right edge is less.
///
/// It asks level by level, since clang compiles a recursion that ends in `.min(9)` to a wrong answer.
#[tactic(auto, using(crate::proofs::Views::floor_of_min))]
pub fn has_edge(floor: u8, e: &Expr) -> bool
    ensures { result ≡ nat_le floor (edge (view e.now)) }
{
    match e {
        Expr::Unary(_, inner) => floor <= 9 && has_edge(floor, inner),
        Expr::Binary(op, _, b) => floor <= binary_level(*op) && has_edge(floor, b),
        Expr::Assign(_, _, _) => floor == 0,
        _ => floor <= level(e),
    }
}

/// Whether an expression may stand directly behind `$`.
pub fn is_field(e: &Expr) -> bool
    ensures { result ≡ is_field (view e.now) }
{
    match e {
        Expr::Unary(_, inner) => is_field(inner),
        Expr::PreStep(_, _) => true,
        _ => level(e) >= 12,
    }
}

/// Whether the end of an expression takes this token; `steps` says whether a step behind an LValue is taken.
pub fn takes(steps: bool, e: &Expr, next: Next) -> bool
    ensures { result ≡ takes steps (view e.now) (view_next next) }
{
    match e {
        Expr::Number(_)
        | Expr::Str(_)
        | Expr::Ere(_)
        | Expr::Group(_)
        | Expr::Call(_, _)
        | Expr::Apply(_, _)
        | Expr::PostStep(_, _)
        | Expr::In(_, _)
        | Expr::InList(_, _, _) => false,
        Expr::Length => matches!(next, Next::Paren),
        Expr::Var(_) => matches!(next, Next::Bracket) || (matches!(next, Next::Step) && steps),
        Expr::Element(_, _) => matches!(next, Next::Step) && steps,
        Expr::Field(inner) => takes(false, inner, next) || (matches!(next, Next::Step) && steps),
        Expr::Unary(_, inner)
        | Expr::PreStep(_, inner)
        | Expr::Binary(_, _, inner)
        | Expr::Assign(_, _, inner)
        | Expr::Conditional(_, _, inner)
        | Expr::GetlineFrom(inner)
        | Expr::GetlineIntoFrom(_, inner) => takes(steps, inner, next),
        Expr::Getline => matches!(next, Next::LValue | Next::Less),
        Expr::GetlineInto(inner) => takes(steps, inner, next) || matches!(next, Next::Less),
    }
}

/// The first token of an expression, as the end of one before it sees it.
pub fn head(e: &Expr) -> Next
    ensures { result ≡ head_of (view e.now) }
{
    match e {
        Expr::Number(_)
        | Expr::Str(_)
        | Expr::Ere(_)
        | Expr::Length
        | Expr::Call(_, _)
        | Expr::Apply(_, _)
        | Expr::Getline
        | Expr::GetlineInto(_)
        | Expr::GetlineFrom(_)
        | Expr::GetlineIntoFrom(_, _)
        | Expr::Unary(UnaryOp::Not, _) => Next::Other,
        Expr::Unary(UnaryOp::Plus | UnaryOp::Minus, _) => Next::Sign,
        Expr::Var(_) | Expr::Element(_, _) | Expr::Field(_) => Next::LValue,
        Expr::Group(_) | Expr::InList(_, _, _) => Next::Paren,
        Expr::PreStep(_, _) => Next::Step,
        Expr::PostStep(_, first)
        | Expr::Binary(_, first, _)
        | Expr::Assign(_, first, _)
        | Expr::In(first, _)
        | Expr::Conditional(first, _, _) => head(first),
    }
}

/// What stands behind the left operand, where the right one begins so.
pub fn behind_left(op: BinaryOp, head: Next) -> Next
    ensures { result ≡ behind (view_binary op) head }
{
    match op {
        BinaryOp::Concat => head,
        BinaryOp::Add | BinaryOp::Subtract => Next::Sign,
        BinaryOp::Less => Next::Less,
        _ => Next::Other,
    }
}

/// Whether a right operand may begin so.
pub fn may_begin(op: BinaryOp, head: Next) -> bool
    ensures { result ≡ may_join (view_binary op) head }
{
    !(matches!(op, BinaryOp::Concat) && matches!(head, Next::Sign))
}

/// Whether the operator may stand here, where `greater` says whether `>` may.
pub fn is_allowed(greater: bool, op: BinaryOp) -> bool
    ensures { result ≡ op_allowed greater (view_binary op) }
{
    match op {
        BinaryOp::Greater => greater,
        _ => true,
    }
}

fn is_name(e: &Expr) -> bool
    ensures { result ≡ is_var (view e.now) }
{
    matches!(e, Expr::Var(_))
}

#[tactic(auto, using(crate::proofs::Views::second_short))]
fn second_is_name(arguments: &[Expr]) -> bool
    ensures { result ≡ second_is_var (views arguments.now) }
{
    match arguments {
        [_, second, ..] => is_name(second),
        _ => false,
    }
}

#[tactic(auto, using(crate::proofs::Views::third_short))]
fn third_is_place(arguments: &[Expr]) -> bool
    ensures { result ≡ third_is_lvalue (views arguments.now) }
{
    match arguments {
        [_, _, third, ..] => level(third) >= 13,
        _ => true,
    }
}

/// Whether there are this many arguments.
#[tactic(auto, using(crate::proofs::Views::count_views))]
fn are_within(least: usize, most: usize, arguments: &[Expr]) -> bool
    ensures { result ≡ within least most (views arguments.now) }
{
    least <= arguments.len() && arguments.len() <= most
}

#[tactic(auto, using(crate::proofs::Views::count_views))]
fn are_some(arguments: &[Expr]) -> bool
    ensures { result ≡ nat_le 1 (count (views arguments.now)) }
{
    1 <= arguments.len()
}

/// Whether a built-in function takes these arguments.
pub fn suits(function: Builtin, arguments: &[Expr]) -> bool
    ensures { result ≡ suits function (views arguments.now) }
{
    match function {
        Builtin::Length | Builtin::Fflush => are_within(0, 1, arguments),
        Builtin::Substr => are_within(2, 3, arguments),
        Builtin::Index | Builtin::Match => are_within(2, 2, arguments),
        Builtin::Split => are_within(2, 3, arguments) && second_is_name(arguments),
        Builtin::Sub | Builtin::Gsub => are_within(2, 3, arguments) && third_is_place(arguments),
        Builtin::Sprintf => are_some(arguments),
        Builtin::ToLower | Builtin::ToUpper | Builtin::Int | Builtin::Close => {
            are_within(1, 1, arguments)
        }
    }
}
