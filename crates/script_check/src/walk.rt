//! The uses in an expression.

ghost use Rattle.std.specs.Prelude.{◌≡◌, ◌++◌, ◌∷◌, [], int_lt};
ghost use Rattle.awk_text.specs.Number.{number_of_text};
ghost use Rattle.awk_grammar.specs.Token.{Assign};
ghost use Rattle.awk_grammar.specs.Trees.{Other, Call};
ghost use Rattle.awk_grammar.specs.View.{view, views, view_assign, view_binary};
ghost use Rattle.script_check.specs.Uses.{all_uses, assigned_way, at_assigning, at_op, does, element_deed, is_condition, is_uneven, leaves_rest, left_way, number_in, numbers_leave_rest, operand_uses, operand_way, scalar_deed, texts_leave_rest, uses};
ghost use Rattle.script_check.specs.View.{AddsUses, view_place};
ghost use Rattle.script_check.specs.declared.uses.Deed.TheVariants.{ReadsArray};

use crate::uses::{Deed, Use, Way};
use awk_grammar::{AssignOp, BinaryOp, Builtin, Expr};
use awk_text::number_of;
use latched::LatchedVec;

/// The uses that were found.
pub(crate) type Uses<'a> = LatchedVec<Use<'a>>;

/// Adds a use.
pub(crate) fn put<'a>(out: &mut Uses<'a>, place: Option<&'a [u8]>, deed: Deed, name: &'a [u8])
    ensures { AddsUses out.old out.new (does (view_place place.entry) deed name.now ∷ []) }
{
    out.push(Use { deed, place, name });
}

/// What is done at a bare name.
fn scalar_deed(way: Way) -> Deed
    ensures { result ≡ scalar_deed way }
{
    match way {
        Way::Asked | Way::Condition => Deed::Reads,
        Way::Assigned => Deed::Sets,
        Way::Changed => Deed::Changes,
        Way::Filled => Deed::ChangesArray,
        Way::Given => Deed::Gives,
        Way::Joined => Deed::Joins,
    }
}

/// What is done at the name of an array with subscripts.
fn element_deed(way: Way) -> Deed
    ensures { result ≡ element_deed way }
{
    match way {
        Way::Assigned => Deed::SetsArray,
        Way::Changed => Deed::ChangesArray,
        _ => Deed::ReadsArray,
    }
}

/// How the left side of an operator is used.
fn left_way(way: Way, op: BinaryOp) -> Way
    ensures { result ≡ left_way way (view_binary op) }
{
    match (op, way) {
        (BinaryOp::Concat, Way::Joined) => Way::Joined,
        _ => Way::Asked,
    }
}

/// How the left side of an assignment is used.
fn assigned_way(op: AssignOp) -> Way
    ensures { result ≡ assigned_way (view_assign op) }
{
    match op {
        AssignOp::Set => Way::Assigned,
        _ => Way::Changed,
    }
}

/// How an argument of a built-in function is used.
fn operand_way(function: Builtin, argument: usize) -> Way
    ensures { result ≡ operand_way function argument }
{
    match function {
        Builtin::Split if argument == 1 => Way::Filled,
        Builtin::Sub | Builtin::Gsub if argument == 2 => Way::Changed,
        _ => Way::Asked,
    }
}

/// The text of a constant number.
fn number_in(e: &Expr) -> Option<&[u8]>
    ensures { view_place result ≡ number_in (view e.now) }
{
    match e {
        Expr::Number(text) => Some(text),
        _ => None,
    }
}

/// Whether a number above 0 does not divide the other.
fn leaves_rest(m: i64, n: i64) -> bool
    ensures { result ≡ leaves_rest m n }
{
    n > 0 && m % n != 0
}

/// Whether the number of a text does not divide that of the other.
fn texts_leave_rest(m: &[u8], n: &[u8]) -> bool
    ensures { result ≡ numbers_leave_rest (number_of_text m.now) (number_of_text n.now) }
{
    match (number_of(m), number_of(n)) {
        (Ok(m), Ok(n)) => leaves_rest(m, n),
        _ => false,
    }
}

/// Whether both are constants, and the second does not divide the first.
fn is_uneven(a: &Expr, b: &Expr) -> bool
    ensures { result ≡ is_uneven (view a.now) (view b.now) }
{
    match (number_in(a), number_in(b)) {
        (Some(m), Some(n)) => texts_leave_rest(m, n),
        _ => false,
    }
}

/// Adds what is done at `/`.
fn put_binary<'a>(
    out: &mut Uses<'a>,
    place: Option<&'a [u8]>,
    way: Way,
    op: BinaryOp,
    a: &'a Expr,
    b: &'a Expr,
)
    ensures { AddsUses out.old out.new
        (at_op (view_place place.entry) way (view_binary op) (view a.now) (view b.now)) }
{
    if let BinaryOp::Divide = op {
        put(out, place, Deed::Divides(is_uneven(a, b)), &[]);
    }
}

/// Adds what is done at `=`.
fn put_assign<'a>(out: &mut Uses<'a>, place: Option<&'a [u8]>, way: Way, op: AssignOp)
    ensures { AddsUses out.old out.new
        (at_assigning (view_place place.entry) way (view_assign op)) }
{
    if let AssignOp::Set = op {
        put(
            out,
            place,
            Deed::Assigns(matches!(way, Way::Condition)),
            &[],
        );
    }
}

/// Adds the uses in an expression that stands in a place and is used so.
#[cycle(walk)]
pub(crate) fn push_expr<'a>(out: &mut Uses<'a>, place: Option<&'a [u8]>, way: Way, e: &'a Expr)
    ensures { AddsUses out.old out.new (uses (view_place place.entry) way (view e.now)) }
{
    match e {
        Expr::Number(_) | Expr::Str(_) | Expr::Ere(_) | Expr::Length | Expr::Getline => {}
        Expr::Var(name) => put(out, place, scalar_deed(way), name),
        Expr::Element(name, subscripts) => {
            push_element(out, place, element_deed(way), name, subscripts)
        }
        Expr::Field(inner)
        | Expr::Group(inner)
        | Expr::Unary(_, inner)
        | Expr::GetlineFrom(inner) => push_expr(out, place, Way::Asked, inner),
        Expr::PreStep(_, inner) | Expr::PostStep(_, inner) | Expr::GetlineInto(inner) => {
            push_expr(out, place, Way::Changed, inner)
        }
        Expr::Call(name, arguments) => push_call(out, place, name, arguments),
        Expr::Apply(function, arguments) => push_operands(out, place, *function, arguments),
        Expr::Binary(op, a, b) => {
            push_expr(out, place, left_way(way, *op), a);
            put_binary(out, place, way, *op, a, b);
            push_expr(out, place, Way::Asked, b);
        }
        Expr::Assign(op, a, b) => {
            push_expr(out, place, assigned_way(*op), a);
            put_assign(out, place, way, *op);
            push_expr(out, place, Way::Asked, b);
        }
        Expr::GetlineIntoFrom(a, b) => {
            push_expr(out, place, Way::Changed, a);
            push_expr(out, place, Way::Asked, b);
        }
        Expr::In(subscript, array) => {
            push_expr(out, place, Way::Asked, subscript);
            put(out, place, Deed::ReadsArray, array);
        }
        Expr::InList(first, others, array) => {
            push_expr(out, place, Way::Asked, first);
            push_others(out, place, others, array);
        }
        Expr::Conditional(a, b, c) => {
            push_expr(out, place, Way::Asked, a);
            push_expr(out, place, Way::Asked, b);
            push_expr(out, place, Way::Asked, c);
        }
    }
}

/// Adds what is done at an array's name, and the uses in its subscripts.
#[cycle(walk)]
pub(crate) fn push_element<'a>(
    out: &mut Uses<'a>,
    place: Option<&'a [u8]>,
    deed: Deed,
    name: &'a [u8],
    subscripts: &'a [Expr],
)
    ensures { AddsUses out.old out.new (does (view_place place.entry) deed name.now
        ∷ all_uses (view_place place.entry) Way.Asked (views subscripts.now)) }
{
    put(out, place, deed, name);
    push_all(out, place, Way::Asked, subscripts);
}

#[cycle(walk)]
fn push_call<'a>(out: &mut Uses<'a>, place: Option<&'a [u8]>, name: &'a [u8], arguments: &'a [Expr])
    ensures { AddsUses out.old out.new
        (uses (view_place place.entry) Way.Asked (Call name.now (views arguments.now))) }
{
    put(out, place, Deed::Calls(arguments.len()), name);
    push_all(out, place, Way::Given, arguments);
}

/// Adds the uses in the further subscripts that are looked for in an array, and its name.
#[cycle(walk)]
fn push_others<'a>(out: &mut Uses<'a>, place: Option<&'a [u8]>, others: &'a [Expr], array: &'a [u8])
    ensures { AddsUses out.old out.new (all_uses (view_place place.entry) Way.Asked
        (views others.now) ++ does (view_place place.entry) ReadsArray array.now ∷ []) }
{
    push_all(out, place, Way::Asked, others);
    put(out, place, Deed::ReadsArray, array);
}

/// Adds the uses in expressions that are all used so.
#[cycle(walk)]
pub(crate) fn push_all<'a>(out: &mut Uses<'a>, place: Option<&'a [u8]>, way: Way, es: &'a [Expr])
    ensures { AddsUses out.old out.new (all_uses (view_place place.entry) way (views es.now)) }
{
    for e in es {
        push_expr(out, place, way, e);
    }
}

/// Adds the uses in a built-in function's arguments.
#[cycle(walk)]
fn push_operands<'a>(
    out: &mut Uses<'a>,
    place: Option<&'a [u8]>,
    function: Builtin,
    arguments: &'a [Expr],
)
    ensures { AddsUses out.old out.new
        (operand_uses (view_place place.entry) function 0 (views arguments.now)) }
{
    for i in 0..arguments.len() {
        push_expr(out, place, operand_way(function, i), &arguments[i]);
    }
}
