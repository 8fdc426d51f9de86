//! What the first tokens are.

ghost use Rattle.std.specs.Prelude.{◌≡◌, MatchOption, None, Some, Ok, Err, map};
ghost use Rattle.awk_grammar.specs.Reading.{Syntax as SyntaxFault, step_at, link_at, link_level, link_left, stops, name_at};
ghost use Rattle.awk_tokens.specs.Views.{spelled};
ghost use Rattle.awk_grammar.specs.LexemeCases.{mark_lexeme};
ghost use Rattle.awk_grammar.specs.ReadStmt.{starts_expr};
ghost use Rattle.awk_grammar.specs.Shape.{view_next};
ghost use Rattle.awk_grammar.specs.Tree.{class_at, is_start};
ghost use Rattle.awk_grammar.specs.View.{view, view_step};
ghost use Rattle.awk_parse.specs.Operands.{joining_at};
ghost use Rattle.awk_parse.specs.Seen.{seen, first_line, lexeme_of, begins_operand, view_link, infix_link};
ghost use Rattle.awk_parse.specs.declared.refusal.Refusal.TheVariants.{Syntax};

use crate::refusal::Refusal;
use awk_grammar::{
    AssignOp, BinaryOp, Expr, Next, StepOp, binary_level, has_edge, left_floor, takes,
};
use awk_tokens::{Keyword, Punctuator, Token, TokenKind};

/// The line of the first token, if there is one.
pub fn line_of(tokens: &[Token<'_>]) -> Option<usize>
    ensures { result ≡ first_line (map spelled tokens.now) }
{
    match tokens {
        [] => None,
        [first, ..] => Some(first.line),
    }
}

/// Reading stops at these tokens, since they do not go on as the grammar wants.
pub fn stopped(tokens: &[Token<'_>]) -> Refusal
    ensures { result ≡ Syntax (first_line (map spelled tokens.now)) }
{
    Refusal::Syntax(line_of(tokens))
}

/// A name, and the tokens after it.
pub fn after_name<'a>(tokens: &'a [Token<'a>]) -> Option<(&'a [u8], &'a [Token<'a>])>
    ensures { MatchOption result (name_at (seen tokens.now) ≡ Err SyntaxFault)
        (λ n. name_at (seen tokens.now) ≡ Ok (n.0.now, seen n.1.now)) }
{
    match tokens {
        [
            Token {
                kind: TokenKind::Name,
                text,
                ..
            },
            rest @ ..,
        ] => Some((text, rest)),
        _ => None,
    }
}

/// A step, and the tokens after it.
pub(crate) fn step<'a>(tokens: &'a [Token<'a>]) -> Option<(StepOp, &'a [Token<'a>])>
    ensures { MatchOption result (step_at (seen tokens.now) ≡ None)
        (λ r. step_at (seen tokens.now) ≡ Some (view_step r.0, seen r.1.now)) }
{
    match tokens {
        [
            Token {
                kind: TokenKind::Punctuator(Punctuator::Increment),
                ..
            },
            rest @ ..,
        ] => Some((StepOp::Increment, rest)),
        [
            Token {
                kind: TokenKind::Punctuator(Punctuator::Decrement),
                ..
            },
            rest @ ..,
        ] => Some((StepOp::Decrement, rest)),
        _ => None,
    }
}

/// Whether an expression may begin here.
pub fn begins_expr(tokens: &[Token<'_>]) -> bool
    ensures { result ≡ starts_expr (seen tokens.now) }
{
    let [first, ..] = tokens else {
        return false;
    };
    match first.kind {
        TokenKind::Punctuator(Punctuator::Plus | Punctuator::Minus) => true,
        _ => begins_operand(first),
    }
}

/// What the first token is to the end of the expression before it.
fn next_of(tokens: &[Token<'_>]) -> Next
    ensures { view_next result ≡ class_at (seen tokens.now) }
{
    let [first, ..] = tokens else {
        return Next::Other;
    };
    match first.kind {
        TokenKind::Punctuator(Punctuator::OpenParen) => Next::Paren,
        TokenKind::Punctuator(Punctuator::OpenBracket) => Next::Bracket,
        TokenKind::Name | TokenKind::Punctuator(Punctuator::Dollar) => Next::LValue,
        TokenKind::Punctuator(Punctuator::Less) => Next::Less,
        TokenKind::Punctuator(Punctuator::Increment | Punctuator::Decrement) => Next::Step,
        _ => Next::Other,
    }
}

/// Whether an LValue may begin here.
pub(crate) fn begins_lvalue(tokens: &[Token<'_>]) -> bool
    ensures { result ≡ is_start (class_at (seen tokens.now)) }
{
    matches!(next_of(tokens), Next::LValue)
}

/// What stands between two sides.
#[derive(Clone, Copy)]
pub(crate) enum Infix {
    Binary(BinaryOp),
    Assign(AssignOp),
}

/// What joins an expression to what follows it.
#[derive(Clone, Copy)]
pub(crate) enum Link {
    Joined(Infix),
    In,
    Question,
}

/// The level of the expression that a link makes.
fn link_level(link: Link) -> u8
    ensures { result ≡ link_level (view_link link) }
{
    match link {
        Link::Joined(Infix::Binary(op)) => binary_level(op),
        Link::Joined(Infix::Assign(_)) | Link::In => 3,
        Link::Question => 0,
    }
}

/// The least level of what stands before a link.
fn link_left(link: Link) -> u8
    ensures { result ≡ link_left (view_link link) }
{
    match link {
        Link::Joined(Infix::Binary(op)) => left_floor(op),
        Link::Joined(Infix::Assign(_)) => 13,
        Link::In => 3,
        Link::Question => 1,
    }
}

/// The operator that a punctuator is, where `greater` says whether `>` may be one.
fn infix_of(greater: bool, mark: Punctuator) -> Option<Link>
    ensures { MatchOption result (infix_link greater (mark_lexeme mark) ≡ None)
        (λ l. infix_link greater (mark_lexeme mark) ≡ Some (view_link l)) }
{
    let link = match mark {
        Punctuator::Plus => Link::Joined(Infix::Binary(BinaryOp::Add)),
        Punctuator::Minus => Link::Joined(Infix::Binary(BinaryOp::Subtract)),
        Punctuator::Star => Link::Joined(Infix::Binary(BinaryOp::Multiply)),
        Punctuator::Slash => Link::Joined(Infix::Binary(BinaryOp::Divide)),
        Punctuator::Percent => Link::Joined(Infix::Binary(BinaryOp::Modulo)),
        Punctuator::Caret => Link::Joined(Infix::Binary(BinaryOp::Power)),
        Punctuator::Less => Link::Joined(Infix::Binary(BinaryOp::Less)),
        Punctuator::LessEqual => Link::Joined(Infix::Binary(BinaryOp::LessEqual)),
        Punctuator::Equal => Link::Joined(Infix::Binary(BinaryOp::Equal)),
        Punctuator::NotEqual => Link::Joined(Infix::Binary(BinaryOp::NotEqual)),
        Punctuator::GreaterEqual => Link::Joined(Infix::Binary(BinaryOp::GreaterEqual)),
        Punctuator::Tilde => Link::Joined(Infix::Binary(BinaryOp::Match)),
        Punctuator::NotTilde => Link::Joined(Infix::Binary(BinaryOp::NoMatch)),
        Punctuator::And => Link::Joined(Infix::Binary(BinaryOp::And)),
        Punctuator::Or => Link::Joined(Infix::Binary(BinaryOp::Or)),
        Punctuator::Assign => Link::Joined(Infix::Assign(AssignOp::Set)),
        Punctuator::PlusAssign => Link::Joined(Infix::Assign(AssignOp::Add)),
        Punctuator::MinusAssign => Link::Joined(Infix::Assign(AssignOp::Subtract)),
        Punctuator::StarAssign => Link::Joined(Infix::Assign(AssignOp::Multiply)),
        Punctuator::SlashAssign => Link::Joined(Infix::Assign(AssignOp::Divide)),
        Punctuator::PercentAssign => Link::Joined(Infix::Assign(AssignOp::Modulo)),
        Punctuator::CaretAssign => Link::Joined(Infix::Assign(AssignOp::Power)),
        Punctuator::Question => Link::Question,
        Punctuator::Greater => {
            if !greater {
                return None;
            }
            Link::Joined(Infix::Binary(BinaryOp::Greater))
        }
        _ => return None,
    };
    Some(link)
}

/// Whether an expression may begin with this token and stand directly after another.
fn begins_operand(token: &Token<'_>) -> bool
    ensures { result ≡ begins_operand (lexeme_of (spelled token.now)) }
{
    match token.kind {
        TokenKind::Name
        | TokenKind::FuncName
        | TokenKind::Number
        | TokenKind::Str
        | TokenKind::Ere
        | TokenKind::Builtin(_)
        | TokenKind::Keyword(Keyword::Getline) => true,
        TokenKind::Punctuator(mark) => matches!(
            mark,
            Punctuator::Dollar
                | Punctuator::OpenParen
                | Punctuator::Bang
                | Punctuator::Increment
                | Punctuator::Decrement
        ),
        TokenKind::Keyword(_) | TokenKind::LeftOut(_) => false,
    }
}

fn infix_at(greater: bool, token: &Token<'_>) -> Option<Link>
    ensures { MatchOption result (infix_link greater (lexeme_of (spelled token.now)) ≡ None)
        (λ l. infix_link greater (lexeme_of (spelled token.now)) ≡ Some (view_link l)) }
{
    match token.kind {
        TokenKind::Keyword(Keyword::In) => Some(Link::In),
        TokenKind::Punctuator(mark) => infix_of(greater, mark),
        _ => None,
    }
}

/// What joins an expression to the tokens, and those after it; juxtaposition has no token.
fn next_link<'a>(greater: bool, tokens: &'a [Token<'a>]) -> Option<(Link, &'a [Token<'a>])>
    ensures { MatchOption result (link_at greater (seen tokens.now) ≡ None)
        (λ o. link_at greater (seen tokens.now) ≡ Some (view_link o.0, seen o.1.now)) }
{
    let [first, rest @ ..] = tokens else {
        return None;
    };
    if begins_operand(first) {
        return Some((Link::Joined(Infix::Binary(BinaryOp::Concat)), tokens));
    }
    let link = infix_at(greater, first)?;
    Some((link, rest))
}

/// Whether a link does not take the expression as its left side where this level is the least.
fn stops(least: u8, left: &Expr, tokens: &[Token<'_>], link: Link) -> bool
    ensures { result ≡ stops least (view left.now) (seen tokens.now) (view_link link) }
{
    link_level(link) < least
        || !has_edge(link_left(link), left)
        || takes(true, left, next_of(tokens))
}

/// What joins an expression to the tokens where this level is the least, and those after it.
#[inline(never)]
pub(crate) fn joining<'a>(
    greater: bool,
    least: u8,
    left: &Expr,
    tokens: &'a [Token<'a>],
) -> Option<(Link, &'a [Token<'a>])>
    ensures { MatchOption result (joining_at greater least (view left.now) (seen tokens.now) ≡ None)
        (λ o. joining_at greater least (view left.now) (seen tokens.now)
        ≡ Some (view_link o.0, seen o.1.now)) }
{
    let (link, rest) = next_link(greater, tokens)?;
    if stops(least, left, tokens, link) {
        return None;
    }
    Some((link, rest))
}
