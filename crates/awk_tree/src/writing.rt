//! From an expression to its tokens.

ghost use Rattle.std.specs.Prelude.{◌≡◌, [], ◌∷◌, ◌++◌, ◌<◌, length, drop, MatchOption, OnOk};
ghost use Rattle.awk_grammar.specs.Token.{Infix, Assign, Compare, Less, StepMark, Name, GetlineWord, InWord, Open, Close};
ghost use Rattle.awk_grammar.specs.Tree.{op_tokens, print, print_list, print_more};
ghost use Rattle.awk_grammar.specs.Trees.{prefix_token};
ghost use Rattle.awk_grammar.specs.LexemeCases.{keyword_lexeme, mark_lexeme};
ghost use Rattle.awk_tree.specs.Lexemes.{lexeme, lexemes};
ghost use Rattle.awk_grammar.specs.View.{view, views, view_step, view_unary, view_binary, view_assign};

use awk_grammar::{AssignOp, BinaryOp, Builtin, Expr, Printed, StepOp, UnaryOp};
use awk_tokens::{Keyword, Punctuator};
use std::alloc::AllocError;

/// Adds a token.
pub fn put<'a>(out: &mut Vec<Printed<'a>>, token: Printed<'a>) -> Result<(), AllocError>
    ensures { OnOk result
        (lexemes out.new.items ≡ lexemes out.old.items ++ lexeme token.entry ∷ []) }
{
    out.push(token)?;
    Ok(())
}

/// Adds a punctuator.
pub fn mark(out: &mut Vec<Printed>, punctuator: Punctuator) -> Result<(), AllocError>
    ensures { OnOk result
        (lexemes out.new.items ≡ lexemes out.old.items ++ mark_lexeme punctuator ∷ []) }
{
    put(out, Printed::Punctuator(punctuator))
}

/// Adds a word.
pub fn word(out: &mut Vec<Printed>, keyword: Keyword) -> Result<(), AllocError>
    ensures { OnOk result
        (lexemes out.new.items ≡ lexemes out.old.items ++ keyword_lexeme keyword ∷ []) }
{
    put(out, Printed::Keyword(keyword))
}

fn step_mark(step: StepOp) -> Punctuator
    ensures { mark_lexeme result ≡ StepMark (view_step step) }
{
    match step {
        StepOp::Increment => Punctuator::Increment,
        StepOp::Decrement => Punctuator::Decrement,
    }
}

fn prefix_mark(op: UnaryOp) -> Punctuator
    ensures { mark_lexeme result ≡ prefix_token (view_unary op) }
{
    match op {
        UnaryOp::Not => Punctuator::Bang,
        UnaryOp::Plus => Punctuator::Plus,
        UnaryOp::Minus => Punctuator::Minus,
    }
}

/// The punctuator that an operator is; juxtaposition has none.
fn operator_mark(op: BinaryOp) -> Option<Punctuator>
    ensures { MatchOption result (op_tokens (view_binary op) ≡ [])
        (λ m. op_tokens (view_binary op) ≡ mark_lexeme m ∷ []) }
{
    match op {
        BinaryOp::Or => Some(Punctuator::Or),
        BinaryOp::And => Some(Punctuator::And),
        BinaryOp::Match => Some(Punctuator::Tilde),
        BinaryOp::NoMatch => Some(Punctuator::NotTilde),
        BinaryOp::Less => Some(Punctuator::Less),
        BinaryOp::LessEqual => Some(Punctuator::LessEqual),
        BinaryOp::Equal => Some(Punctuator::Equal),
        BinaryOp::NotEqual => Some(Punctuator::NotEqual),
        BinaryOp::Greater => Some(Punctuator::Greater),
        BinaryOp::GreaterEqual => Some(Punctuator::GreaterEqual),
        BinaryOp::Concat => None,
        BinaryOp::Add => Some(Punctuator::Plus),
        BinaryOp::Subtract => Some(Punctuator::Minus),
        BinaryOp::Multiply => Some(Punctuator::Star),
        BinaryOp::Divide => Some(Punctuator::Slash),
        BinaryOp::Modulo => Some(Punctuator::Percent),
        BinaryOp::Power => Some(Punctuator::Caret),
    }
}

fn push_operator(out: &mut Vec<Printed>, op: BinaryOp) -> Result<(), AllocError>
    ensures { OnOk result
        (lexemes out.new.items ≡ lexemes out.old.items ++ op_tokens (view_binary op)) }
{
    match operator_mark(op) {
        Some(punctuator) => mark(out, punctuator),
        None => Ok(()),
    }
}

fn assignment_mark(op: AssignOp) -> Punctuator
    ensures { mark_lexeme result ≡ Infix (Assign (view_assign op)) }
{
    match op {
        AssignOp::Set => Punctuator::Assign,
        AssignOp::Add => Punctuator::PlusAssign,
        AssignOp::Subtract => Punctuator::MinusAssign,
        AssignOp::Multiply => Punctuator::StarAssign,
        AssignOp::Divide => Punctuator::SlashAssign,
        AssignOp::Modulo => Punctuator::PercentAssign,
        AssignOp::Power => Punctuator::CaretAssign,
    }
}

/// Adds the tokens of an expression.
#[cycle(printer)]
pub fn push_expr<'a>(out: &mut Vec<Printed<'a>>, e: &'a Expr) -> Result<(), AllocError>
    ensures { OnOk result (lexemes out.new.items ≡ lexemes out.old.items ++ print (view e.now)) }
{
    match e {
        Expr::Number(text) => put(out, Printed::Number(text)),
        Expr::Str(text) => put(out, Printed::Str(text)),
        Expr::Ere(text) => put(out, Printed::Ere(text)),
        Expr::Length => put(out, Printed::Builtin(Builtin::Length)),
        Expr::Var(name) => put(out, Printed::Name(name)),
        Expr::Element(name, subscripts) => {
            let name = Printed::Name(name);
            push_listed(
                out,
                name,
                Punctuator::OpenBracket,
                subscripts,
                Punctuator::CloseBracket,
            )
        }
        Expr::Field(inner) => push_after(out, Printed::Punctuator(Punctuator::Dollar), inner),
        Expr::Group(inner) => push_within(out, inner, Punctuator::CloseParen),
        Expr::Call(name, arguments) => {
            let name = Printed::FuncName(name);
            push_listed(
                out,
                name,
                Punctuator::OpenParen,
                arguments,
                Punctuator::CloseParen,
            )
        }
        Expr::Apply(function, arguments) => {
            let name = Printed::Builtin(*function);
            push_listed(
                out,
                name,
                Punctuator::OpenParen,
                arguments,
                Punctuator::CloseParen,
            )
        }
        Expr::Unary(op, inner) => push_after(out, Printed::Punctuator(prefix_mark(*op)), inner),
        Expr::PreStep(step, inner) => push_after(out, Printed::Punctuator(step_mark(*step)), inner),
        Expr::PostStep(step, inner) => push_before(out, inner, step_mark(*step)),
        Expr::Binary(op, a, b) => {
            push_expr(out, a)?;
            push_operand(out, *op, b)
        }
        Expr::Assign(op, a, b) => {
            push_expr(out, a)?;
            push_after(out, Printed::Punctuator(assignment_mark(*op)), b)
        }
        Expr::In(a, name) => push_member(out, a, name),
        Expr::InList(first, others, name) => {
            push_within(out, first, Punctuator::Comma)?;
            push_others(out, others, name)
        }
        Expr::Conditional(a, b, c) => {
            push_expr(out, a)?;
            push_after(out, Printed::Punctuator(Punctuator::Question), b)?;
            push_after(out, Printed::Punctuator(Punctuator::Colon), c)
        }
        Expr::Getline => word(out, Keyword::Getline),
        Expr::GetlineInto(place) => push_after(out, Printed::Keyword(Keyword::Getline), place),
        Expr::GetlineFrom(file) => push_getline_from(out, file),
        Expr::GetlineIntoFrom(place, file) => {
            push_after(out, Printed::Keyword(Keyword::Getline), place)?;
            push_after(out, Printed::Punctuator(Punctuator::Less), file)
        }
    }
}

/// Adds a token and the expression that comes after it.
#[cycle(printer)]
pub(crate) fn push_after<'a>(
    out: &mut Vec<Printed<'a>>,
    token: Printed<'a>,
    e: &'a Expr,
) -> Result<(), AllocError>
    ensures { OnOk result (lexemes out.new.items
        ≡ lexemes out.old.items ++ (lexeme token.entry ∷ print (view e.now))) }
{
    put(out, token)?;
    push_expr(out, e)
}

/// Adds an expression and the punctuator that comes after it.
#[cycle(printer)]
fn push_before<'a>(
    out: &mut Vec<Printed<'a>>,
    e: &'a Expr,
    after: Punctuator,
) -> Result<(), AllocError>
    ensures { OnOk result (lexemes out.new.items
        ≡ lexemes out.old.items ++ (print (view e.now) ++ mark_lexeme after ∷ [])) }
{
    push_expr(out, e)?;
    mark(out, after)
}

/// Adds an operator and the operand that comes after it.
#[cycle(printer)]
fn push_operand<'a>(out: &mut Vec<Printed<'a>>, op: BinaryOp, e: &'a Expr) -> Result<(), AllocError>
    ensures { OnOk result (lexemes out.new.items
        ≡ lexemes out.old.items ++ (op_tokens (view_binary op) ++ print (view e.now))) }
{
    push_operator(out, op)?;
    push_expr(out, e)
}

/// Adds a subscript, `in` and the array.
#[cycle(printer)]
fn push_member<'a>(
    out: &mut Vec<Printed<'a>>,
    e: &'a Expr,
    name: &'a [u8],
) -> Result<(), AllocError>
    ensures { OnOk result (lexemes out.new.items
        ≡ lexemes out.old.items ++ (print (view e.now) ++ (InWord ∷ (Name name.now ∷ [])))) }
{
    push_expr(out, e)?;
    push_in(out, name)
}

/// Adds `getline` and the file that is read.
#[cycle(printer)]
fn push_getline_from<'a>(out: &mut Vec<Printed<'a>>, file: &'a Expr) -> Result<(), AllocError>
    ensures { OnOk result (lexemes out.new.items ≡ lexemes out.old.items
        ++ (GetlineWord ∷ (Infix (Compare Less) ∷ print (view file.now)))) }
{
    word(out, Keyword::Getline)?;
    push_after(out, Printed::Punctuator(Punctuator::Less), file)
}

/// Adds `(`, an expression, and the punctuator that comes after it.
#[cycle(printer)]
pub(crate) fn push_within<'a>(
    out: &mut Vec<Printed<'a>>,
    e: &'a Expr,
    after: Punctuator,
) -> Result<(), AllocError>
    ensures { OnOk result (lexemes out.new.items ≡ lexemes out.old.items
        ++ (Open ∷ (print (view e.now) ++ mark_lexeme after ∷ []))) }
{
    push_after(out, Printed::Punctuator(Punctuator::OpenParen), e)?;
    mark(out, after)
}

/// Adds `in` and the array.
pub(crate) fn push_in<'a>(out: &mut Vec<Printed<'a>>, name: &'a [u8]) -> Result<(), AllocError>
    ensures { OnOk result
        (lexemes out.new.items ≡ lexemes out.old.items ++ (InWord ∷ (Name name.now ∷ []))) }
{
    word(out, Keyword::In)?;
    put(out, Printed::Name(name))
}

/// Adds a token, and a list in brackets.
#[cycle(printer)]
pub(crate) fn push_listed<'a>(
    out: &mut Vec<Printed<'a>>,
    token: Printed<'a>,
    before: Punctuator,
    list: &'a [Expr],
    after: Punctuator,
) -> Result<(), AllocError>
    ensures { OnOk result (lexemes out.new.items ≡ lexemes out.old.items ++ (lexeme token.entry
        ∷ (mark_lexeme before ∷ (print_list (views list.now) ++ mark_lexeme after ∷ [])))) }
{
    put(out, token)?;
    mark(out, before)?;
    push_list(out, list)?;
    mark(out, after)
}

/// Adds the rest of a list of subscripts in parentheses, and the array.
#[cycle(printer)]
fn push_others<'a>(
    out: &mut Vec<Printed<'a>>,
    others: &'a [Expr],
    name: &'a [u8],
) -> Result<(), AllocError>
    ensures { OnOk result (lexemes out.new.items ≡ lexemes out.old.items
        ++ (print_list (views others.now) ++ (Close ∷ (InWord ∷ (Name name.now ∷ []))))) }
{
    push_list(out, others)?;
    mark(out, Punctuator::CloseParen)?;
    push_in(out, name)
}

/// Adds expressions with commas between them.
#[cycle(printer)]
pub(crate) fn push_list<'a>(out: &mut Vec<Printed<'a>>, es: &'a [Expr]) -> Result<(), AllocError>
    ensures { OnOk result
        (lexemes out.new.items ≡ lexemes out.old.items ++ print_list (views es.now)) }
{
    if es.is_empty() {
        return Ok(());
    }
    push_expr(out, &es[0])?;
    push_more(out, es)
}

#[cycle(printer)]
fn push_more<'a>(out: &mut Vec<Printed<'a>>, es: &'a [Expr]) -> Result<(), AllocError>
    requires { 0 < length es.now }
    ensures { OnOk result
        (lexemes out.new.items ≡ lexemes out.old.items ++ print_more (views (drop 1 es.now))) }
{
    for i in 1..es.len() {
        push_after(out, Printed::Punctuator(Punctuator::Comma), &es[i])?;
    }
    Ok(())
}
