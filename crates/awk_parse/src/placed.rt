//! Where `next`, `nextfile`, `break`, `continue` and `return` may stand.

ghost use Rattle.std.specs.Prelude.{◌≡◌, ◌++◌, ◌∷◌, [], OnOk, IfOk, map};
ghost use Rattle.awk_tokens.specs.Views.{spelled};
ghost use Rattle.awk_grammar.specs.ViewStmt.{view_stmt, view_stmts, view_jump, view_leaving, view_item, view_items, view_script};
ghost use Rattle.awk_parse.specs.Jumps.{jump_fits, leave_fits, jumps, all_jumps, item_jumps, script_jumps, is_jump, jump_lines, first_misplaced};

use awk_grammar::{Item, Jump, Leaving, Script, Stmt};
use awk_tokens::{Keyword, Token, TokenKind};
use std::alloc::{AllocError, Global};

/// What a statement is part of.
#[derive(Clone, Copy)]
pub(crate) enum Place {
    InFunction,
    InBeginOrEnd,
    InRule,
}

/// Whether a jump may stand there, where `looped` says whether it is within a loop.
fn jump_fits(place: Place, looped: bool, jump: Jump) -> bool
    ensures { result ≡ jump_fits place looped (view_jump jump) }
{
    match jump {
        Jump::Break | Jump::Continue => looped,
        Jump::Next | Jump::NextFile => !matches!(place, Place::InBeginOrEnd),
    }
}

fn push_leave(out: &mut Vec<bool>, place: Place, leaving: Leaving) -> Result<(), AllocError>
    ensures { OnOk result
        (out.new.items ≡ out.old.items ++ leave_fits place (view_leaving leaving)) }
{
    match leaving {
        Leaving::Exit => Ok(()),
        Leaving::Return => {
            out.push(matches!(place, Place::InFunction))?;
            Ok(())
        }
    }
}

fn push_jump(out: &mut Vec<bool>, place: Place, looped: bool, jump: Jump) -> Result<(), AllocError>
    ensures { OnOk result
        (out.new.items ≡ out.old.items ++ (jump_fits place looped (view_jump jump) ∷ [])) }
{
    out.push(jump_fits(place, looped, jump))?;
    Ok(())
}

/// Of each jump in a statement, whether it may stand where it does.
#[cycle(placed)]
fn push_jumps(out: &mut Vec<bool>, place: Place, looped: bool, s: &Stmt) -> Result<(), AllocError>
    ensures { OnOk result (out.new.items ≡ out.old.items ++ jumps place looped (view_stmt s.now)) }
{
    match s {
        Stmt::Block(body) => push_all(out, place, looped, body),
        Stmt::Empty | Stmt::Simple(_) => Ok(()),
        Stmt::If(_, body) => push_jumps(out, place, looped, body),
        Stmt::IfElse(_, then, otherwise) => {
            push_jumps(out, place, looped, then)?;
            push_jumps(out, place, looped, otherwise)
        }
        Stmt::While(_, body)
        | Stmt::Do(body, _)
        | Stmt::For(_, _, _, body)
        | Stmt::ForIn(_, _, body) => push_jumps(out, place, true, body),
        Stmt::Jump(jump) => push_jump(out, place, looped, *jump),
        Stmt::Leave(leaving, _) => push_leave(out, place, *leaving),
    }
}

#[cycle(placed)]
fn push_all(
    out: &mut Vec<bool>,
    place: Place,
    looped: bool,
    body: &[Stmt],
) -> Result<(), AllocError>
    ensures { OnOk result
        (out.new.items ≡ out.old.items ++ all_jumps place looped (view_stmts body.now)) }
{
    for s in body {
        push_jumps(out, place, looped, s)?;
    }
    Ok(())
}

fn push_item(out: &mut Vec<bool>, item: &Item) -> Result<(), AllocError>
    ensures { OnOk result (out.new.items ≡ out.old.items ++ item_jumps (view_item item.now)) }
{
    match item {
        Item::Function(_, _, body) => push_all(out, Place::InFunction, false, body),
        Item::Begin(body) | Item::End(body) => push_all(out, Place::InBeginOrEnd, false, body),
        Item::Action(body) | Item::Rule(_, body) => push_all(out, Place::InRule, false, body),
        Item::PatternOnly(_) | Item::Empty => Ok(()),
    }
}

fn push_items(out: &mut Vec<bool>, items: &[Item]) -> Result<(), AllocError>
    ensures { OnOk result (out.new.items ≡ out.old.items ++ script_jumps (view_items items.now)) }
{
    for item in items {
        push_item(out, item)?;
    }
    Ok(())
}

fn is_jump(kind: TokenKind) -> bool
    ensures { result ≡ is_jump kind }
{
    matches!(
        kind,
        TokenKind::Keyword(
            Keyword::Break | Keyword::Continue | Keyword::Next | Keyword::NextFile | Keyword::Return
        )
    )
}

/// The lines of the jumps.
fn jump_lines(alloc: Global, tokens: &[Token<'_>]) -> Result<Vec<usize>, AllocError>
    ensures { IfOk result (λ lines. lines.items ≡ jump_lines (map spelled tokens.now)) }
{
    let mut lines = Vec::new(alloc);
    for token in tokens {
        if is_jump(token.kind) {
            lines.push(token.line)?;
        }
    }
    Ok(lines)
}

/// The line of the first that is not in its place.
fn first_misplaced(fits: &[bool], lines: &[usize]) -> Option<usize>
    ensures { result ≡ first_misplaced fits.now lines.now }
{
    for (index, fit) in fits.iter().enumerate() {
        let Some(line) = lines.get(index) else {
            return None;
        };
        if !*fit {
            return Some(*line);
        }
    }
    None
}

/// The line of the first jump of a script that stands where it has no meaning.
pub(crate) fn misplaced(
    alloc: Global,
    script: &Script,
    tokens: &[Token<'_>],
) -> Result<Option<usize>, AllocError>
    ensures { IfOk result (λ line. line ≡ first_misplaced (script_jumps (view_script script.now))
        (jump_lines (map spelled tokens.now))) }
{
    let mut fits = Vec::new(alloc);
    push_items(&mut fits, &script.items)?;
    let lines = jump_lines(alloc, tokens)?;
    Ok(first_misplaced(&fits, &lines))
}
