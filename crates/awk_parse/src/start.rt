//! What an operand begins with.

ghost use Rattle.std.specs.Prelude.{◌≡◌, ◌∷◌, MatchOption, Some, None};
ghost use Rattle.awk_grammar.specs.LexemeCases.{mark_lexeme};
ghost use Rattle.awk_grammar.specs.Trees.{Leaf};
ghost use Rattle.awk_grammar.specs.View.{view};
ghost use Rattle.awk_parse.specs.Seen.{seen, view_mode};
ghost use Rattle.awk_parse.specs.Starts.{start_at, view_start, view_prefix, view_literal, mode_below};
ghost use Rattle.awk_parse.specs.Parsed.{at, Parsed, is_read};

use crate::deep::Deep;
use crate::mode::{Mode, under};
use crate::source::Source;
use awk_grammar::{Expr, StepOp, UnaryOp};
use awk_tokens::{Builtin, Keyword, Punctuator, Token, TokenKind};

/// What stands for itself.
#[derive(Clone, Copy)]
pub(crate) enum Literal {
    Number,
    Str,
    Ere,
}

/// What stands before its one operand.
#[derive(Clone, Copy)]
pub(crate) enum Prefix {
    Field,
    Unary(UnaryOp),
    Step(StepOp),
}

/// What an operand begins with.
#[derive(Clone, Copy)]
pub(crate) enum Start<'a> {
    Literal(Literal, &'a [u8]),
    Name(&'a [u8]),
    FuncName(&'a [u8]),
    Builtin(Builtin),
    Getline,
    Paren,
    Prefix(Prefix),
}

/// What begins with a punctuator that has these tokens after it.
fn marked<'a>(mark: Punctuator, rest: &'a [Token<'a>]) -> Option<(Start<'a>, &'a [Token<'a>])>
    ensures { MatchOption result (start_at (mark_lexeme mark ∷ seen rest.now) ≡ None)
        (λ o. start_at (mark_lexeme mark ∷ seen rest.now) ≡ Some (view_start o.0, seen o.1.now)) }
{
    let start = match mark {
        Punctuator::Dollar => Start::Prefix(Prefix::Field),
        Punctuator::OpenParen => Start::Paren,
        Punctuator::Bang => Start::Prefix(Prefix::Unary(UnaryOp::Not)),
        Punctuator::Plus => Start::Prefix(Prefix::Unary(UnaryOp::Plus)),
        Punctuator::Minus => Start::Prefix(Prefix::Unary(UnaryOp::Minus)),
        Punctuator::Increment => Start::Prefix(Prefix::Step(StepOp::Increment)),
        Punctuator::Decrement => Start::Prefix(Prefix::Step(StepOp::Decrement)),
        _ => return None,
    };
    Some((start, rest))
}

/// What operand begins here, and the tokens after that.
#[inline(never)]
pub(crate) fn start_of<'a>(tokens: &'a [Token<'a>]) -> Option<(Start<'a>, &'a [Token<'a>])>
    ensures { MatchOption result (start_at (seen tokens.now) ≡ None)
        (λ o. start_at (seen tokens.now) ≡ Some (view_start o.0, seen o.1.now)) }
{
    let [first, rest @ ..] = tokens else {
        return None;
    };
    let start = match first.kind {
        TokenKind::Number => Start::Literal(Literal::Number, first.text),
        TokenKind::Str => Start::Literal(Literal::Str, first.text),
        TokenKind::Ere => Start::Literal(Literal::Ere, first.text),
        TokenKind::Name => Start::Name(first.text),
        TokenKind::FuncName => Start::FuncName(first.text),
        TokenKind::Builtin(function) => Start::Builtin(function),
        TokenKind::Keyword(Keyword::Getline) => Start::Getline,
        TokenKind::Punctuator(mark) => return marked(mark, rest),
        TokenKind::Keyword(_) | TokenKind::LeftOut(_) => return None,
    };
    Some((start, rest))
}

/// What is read after a prefix.
pub(crate) fn mode_below(mode: Mode, prefix: Prefix) -> Mode
    ensures { view_mode result ≡ mode_below (view_mode mode) (view_prefix prefix) }
{
    match prefix {
        Prefix::Field => Mode::InField,
        Prefix::Unary(_) => under(mode),
        Prefix::Step(_) => Mode::LValue,
    }
}

fn tree_of(literal: Literal, text: Vec<u8>) -> Expr
    ensures { view result ≡ Leaf (view_literal literal text.items) }
{
    match literal {
        Literal::Number => Expr::Number(text),
        Literal::Str => Expr::Str(text),
        Literal::Ere => Expr::Ere(text),
    }
}

/// What stands for itself, as an expression.
#[inline(never)]
pub(crate) fn constant(source: &mut Source<'_>, literal: Literal, text: &[u8]) -> Deep
    ensures { Parsed (view result.tree) (at source.old) (at source.new)
        (is_read (Leaf (view_literal literal text.now))) }
{
    let text = source.copied(text);
    Deep {
        tree: tree_of(literal, text),
        depth: 1,
    }
}
