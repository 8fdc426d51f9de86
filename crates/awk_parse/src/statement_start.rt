//! What items, simple statements and redirections begin with.

ghost use Rattle.std.specs.Prelude.{◌≡◌, ◌∷◌, MatchOption, None, Some, map};
ghost use Rattle.awk_tokens.specs.declared.token.TokenKind.TheVariants.{Keyword as OfWord};
ghost use Rattle.awk_tokens.specs.Views.{spelled};
ghost use Rattle.awk_grammar.specs.Lexeme.{is_function, spoken_after};
ghost use Rattle.awk_grammar.specs.LexemeCases.{keyword_lexeme};
ghost use Rattle.awk_grammar.specs.View.{view};
ghost use Rattle.awk_grammar.specs.ViewStmt.{view_stmts, view_target, view_item};
ghost use Rattle.awk_parse.specs.Seen.{seen};
ghost use Rattle.awk_parse.specs.StatementStarts.{redirected_at, target_of, deed_at, view_plain_start, lead_at, view_stmt_start, opening_at, acting, view_item_start};

use awk_grammar::{Expr, Item, Jump, Leaving, PrintTarget, PrintWord, Stmt};
use awk_tokens::{Keyword, Punctuator, Token, TokenKind};

/// How what is printed is written to a file.
#[derive(Clone, Copy)]
pub(crate) enum Redirection {
    File,
    FileEnd,
}

/// The redirection that comes first, and the tokens after it.
pub(crate) fn redirected<'a>(tokens: &'a [Token<'a>]) -> Option<(Redirection, &'a [Token<'a>])>
    ensures { MatchOption result (redirected_at (seen tokens.now) ≡ None)
        (λ o. redirected_at (seen tokens.now) ≡ Some (o.0, seen o.1.now)) }
{
    match tokens {
        [
            Token {
                kind: TokenKind::Punctuator(Punctuator::Greater),
                ..
            },
            rest @ ..,
        ] => Some((Redirection::File, rest)),
        [
            Token {
                kind: TokenKind::Punctuator(Punctuator::Append),
                ..
            },
            rest @ ..,
        ] => Some((Redirection::FileEnd, rest)),
        _ => None,
    }
}

/// Where output goes that is written so to this file.
pub(crate) fn target_of(redirection: Redirection, file: Expr) -> PrintTarget
    ensures { view_target result ≡ target_of redirection (view file) }
{
    match redirection {
        Redirection::File => PrintTarget::File(file),
        Redirection::FileEnd => PrintTarget::FileEnd(file),
    }
}

/// What a simple statement begins with, and the tokens after that.
#[derive(Clone, Copy)]
pub(crate) enum PlainStart<'a> {
    Print(PrintWord, &'a [Token<'a>]),
    Delete(&'a [Token<'a>]),
    Value,
}

/// What simple statement begins here.
pub(crate) fn plain_start<'a>(tokens: &'a [Token<'a>]) -> PlainStart<'a>
    ensures { view_plain_start result ≡ deed_at (seen tokens.now) }
{
    let [first, rest @ ..] = tokens else {
        return PlainStart::Value;
    };
    match first.kind {
        TokenKind::Keyword(Keyword::Print) => PlainStart::Print(PrintWord::Print, rest),
        TokenKind::Keyword(Keyword::Printf) => PlainStart::Print(PrintWord::Printf, rest),
        TokenKind::Keyword(Keyword::Delete) => PlainStart::Delete(rest),
        _ => PlainStart::Value,
    }
}

/// What a loop begins with.
#[derive(Clone, Copy)]
pub(crate) enum LoopWord {
    While,
    Do,
    For,
}

/// What a statement begins with that holds no other, and is no simple one.
#[derive(Clone, Copy)]
pub(crate) enum Short {
    Empty,
    Jump(Jump),
    Leave(Leaving),
}

/// What a statement begins with, and the tokens after that.
#[derive(Clone, Copy)]
pub(crate) enum StmtStart<'a> {
    Block(&'a [Token<'a>]),
    If(&'a [Token<'a>]),
    Loop(LoopWord, &'a [Token<'a>]),
    Short(Short, &'a [Token<'a>]),
    Simple,
}

/// What statement begins with a word that has these tokens after it.
fn stmt_by<'a>(word: Keyword, rest: &'a [Token<'a>]) -> StmtStart<'a>
    ensures { view_stmt_start result ≡ lead_at
        (keyword_lexeme word ∷ spoken_after (is_function (OfWord word)) (map spelled rest.now)) }
{
    match word {
        Keyword::If => StmtStart::If(rest),
        Keyword::While => StmtStart::Loop(LoopWord::While, rest),
        Keyword::Do => StmtStart::Loop(LoopWord::Do, rest),
        Keyword::For => StmtStart::Loop(LoopWord::For, rest),
        Keyword::Break => StmtStart::Short(Short::Jump(Jump::Break), rest),
        Keyword::Continue => StmtStart::Short(Short::Jump(Jump::Continue), rest),
        Keyword::Next => StmtStart::Short(Short::Jump(Jump::Next), rest),
        Keyword::NextFile => StmtStart::Short(Short::Jump(Jump::NextFile), rest),
        Keyword::Exit => StmtStart::Short(Short::Leave(Leaving::Exit), rest),
        Keyword::Return => StmtStart::Short(Short::Leave(Leaving::Return), rest),
        _ => StmtStart::Simple,
    }
}

/// What statement begins here.
#[inline(never)]
pub(crate) fn stmt_start<'a>(tokens: &'a [Token<'a>]) -> StmtStart<'a>
    ensures { view_stmt_start result ≡ lead_at (seen tokens.now) }
{
    let [first, rest @ ..] = tokens else {
        return StmtStart::Simple;
    };
    match first.kind {
        TokenKind::Punctuator(Punctuator::OpenBrace) => StmtStart::Block(rest),
        TokenKind::Punctuator(Punctuator::Semicolon) => StmtStart::Short(Short::Empty, rest),
        TokenKind::Keyword(word) => stmt_by(word, rest),
        _ => StmtStart::Simple,
    }
}

/// When the statements of an item without a pattern are taken.
#[derive(Clone, Copy)]
pub(crate) enum When {
    Begin,
    End,
    Always,
}

/// Statements that are taken then.
pub(crate) fn taken(when: When, statements: Vec<Stmt>) -> Item
    ensures { view_item result ≡ acting when (view_stmts statements.items) }
{
    match when {
        When::Begin => Item::Begin(statements),
        When::End => Item::End(statements),
        When::Always => Item::Action(statements),
    }
}

/// What an item begins with, and the tokens after that.
#[derive(Clone, Copy)]
pub(crate) enum ItemStart<'a> {
    Function(&'a [Token<'a>]),
    /// The tokens begin with the brace.
    Action(When, &'a [Token<'a>]),
    Nothing(&'a [Token<'a>]),
    Rule,
}

/// What item begins with a word that has these tokens after it.
fn item_by<'a>(word: Keyword, rest: &'a [Token<'a>]) -> ItemStart<'a>
    ensures { view_item_start result ≡ opening_at
        (keyword_lexeme word ∷ spoken_after (is_function (OfWord word)) (map spelled rest.now)) }
{
    match word {
        Keyword::Function => ItemStart::Function(rest),
        Keyword::Begin => ItemStart::Action(When::Begin, rest),
        Keyword::End => ItemStart::Action(When::End, rest),
        _ => ItemStart::Rule,
    }
}

/// What item begins here.
pub(crate) fn item_start<'a>(tokens: &'a [Token<'a>]) -> ItemStart<'a>
    ensures { view_item_start result ≡ opening_at (seen tokens.now) }
{
    let [first, rest @ ..] = tokens else {
        return ItemStart::Rule;
    };
    match first.kind {
        TokenKind::Punctuator(Punctuator::OpenBrace) => ItemStart::Action(When::Always, tokens),
        TokenKind::Punctuator(Punctuator::Semicolon) => ItemStart::Nothing(rest),
        TokenKind::Keyword(word) => item_by(word, rest),
        _ => ItemStart::Rule,
    }
}
