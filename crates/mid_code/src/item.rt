//! The code of items.

ghost use Rattle.std.specs.Prelude.{◌≡◌, ◌≤◌, ◌+◌, ◌||◌, List, ◌∷◌, true, false, IfOk, OnOk};
ghost use Rattle.awk_grammar.specs.Trees.{Item as PlainItem};
ghost use Rattle.awk_grammar.specs.View.{view as tree};
ghost use Rattle.awk_grammar.specs.ViewStmt.{view_item, view_items, view_pattern, view_stmts as tree_stmts};
ghost use Rattle.sem_scripts.specs.Items.{print_record, reads_records};
ghost use Rattle.sem_scripts.specs.Ranges.{item_ranges, range_count};
ghost use Rattle.mid_program.specs.Mid as plain;
ghost use Rattle.mid_program.specs.Translation.{begin_code, code_of, end_code, items_code, steps_code, where_code};
ghost use Rattle.mid_program.specs.ViewCode.{view_steps};
ghost use Rattle.mid_code.specs.ViewScope.{scope_of, texts_of};
ghost use Rattle.mid_code.specs.Made.{MakesStep};
ghost use Rattle.mid_code.specs.ViewActions.{AddsItem};

use crate::build::{over, record};
use crate::expression::code;
use crate::fallible::{push_made, single};
use crate::scope::Scope;
use crate::statement::{block, branches, done_where, in_turn, nothing, steps};
use awk_grammar::{Expr, Item, Pattern, Stmt};
use mid_program::{Code, Operand, Step};
use sem_primitives::{Destination, Listed};
use std::alloc::{AllocError, Global};

/// The code of an action.
fn action(scope: &Scope<'_>, body: &[Stmt]) -> Result<Step, AllocError>
    ensures { MakesStep result (plain.Block (steps_code (texts_of scope.now) (scope_of scope.now)
        (tree_stmts body.now))) }
{
    block(steps(scope, body))
}

/// The code of an action that is left out: the record is printed.
#[tactic(auto, using(crate::proofs::StepParts::print_record_is, crate::proofs::Views::view_block))]
fn print_record(scope: &Scope<'_>) -> Result<Step, AllocError>
    ensures { MakesStep result (plain.Block (steps_code (texts_of scope.now) (scope_of scope.now)
        print_record)) }
{
    let values = single(scope.alloc, Operand::Code(record(scope.alloc)?))?;
    let printed = over(Listed::Print(Destination::Standard), values);
    Ok(Step::Block(single(scope.alloc, Step::Eval(printed))?))
}

/// The code that opens or closes a range where a pattern is true.
fn marked(
    scope: &Scope<'_>,
    number: usize,
    pattern: &Expr,
    is_open: bool,
) -> Result<Step, AllocError>
    ensures { MakesStep result (plain.If (code_of (texts_of scope.now) (scope_of scope.now) (tree
        pattern.now)) (plain.Mark number is_open) (plain.Block plain.NoStep)) }
{
    let mark = Ok(Step::Mark(number, is_open));
    done_where(scope.alloc, code(scope, pattern), mark)
}

/// The code that opens a range where its first pattern is true.
fn opening(scope: &Scope<'_>, number: usize, first: &Expr) -> Result<Step, AllocError>
    ensures { MakesStep result (plain.If (plain.IsOpen number) (plain.Block plain.NoStep) (plain.If
        (code_of (texts_of scope.now) (scope_of scope.now) (tree first.now)) (plain.Mark number
        true) (plain.Block plain.NoStep))) }
{
    let opened = marked(scope, number, first, true);
    let is_open = Ok(Code::IsOpen(number));
    branches(scope.alloc, is_open, Ok(nothing(scope.alloc)), opened)
}

/// The code that closes a range where its last pattern is true, before its action.
fn closing(
    scope: &Scope<'_>,
    number: usize,
    last: &Expr,
    action: Result<Step, AllocError>,
) -> Result<Step, AllocError>
    ensures { (s : plain.Step) → MakesStep action s → MakesStep result (plain.If (plain.IsOpen
        number) (plain.Block (plain.Then (plain.If (code_of (texts_of scope.now) (scope_of
        scope.now) (tree last.now)) (plain.Mark number false) (plain.Block plain.NoStep)) (plain.Then
        s plain.NoStep))) (plain.Block plain.NoStep)) }
{
    let closed = marked(scope, number, last, false);
    let both = in_turn(scope.alloc, closed, action);
    done_where(scope.alloc, Ok(Code::IsOpen(number)), both)
}

/// The code of an action where its pattern is met, which has this number if it is a range.
fn where_met(
    scope: &Scope<'_>,
    number: usize,
    pattern: &Pattern,
    action: Result<Step, AllocError>,
) -> Result<Step, AllocError>
    ensures { (s : plain.Step) → MakesStep action s → MakesStep result (where_code (texts_of
        scope.now) (scope_of scope.now) number (view_pattern pattern.now) s) }
{
    match pattern {
        Pattern::One(e) => done_where(scope.alloc, code(scope, e), action),
        Pattern::Range(first, last) => {
            let closing = closing(scope, number, last, action);
            in_turn(scope.alloc, opening(scope, number, first), closing)
        }
    }
}

/// The code of items.
#[derive(Drop)]
pub(crate) struct Actions {
    pub begin: Vec<Step>,
    /// What is done for each record.
    pub each: Vec<Step>,
    pub end: Vec<Step>,
    /// How many ranges the items have.
    pub ranges: usize,
}

/// Adds the code of an item; its range, if it has one, has the next number.
fn push_item(found: &mut Actions, scope: &Scope<'_>, item: &Item) -> Result<(), AllocError>
    ensures { OnOk result (AddsItem (texts_of scope.now) (scope_of scope.now) found.old found.new
        (view_item item.now)) }
{
    match item {
        Item::Begin(body) => push_made(&mut found.begin, action(scope, body)),
        Item::End(body) => push_made(&mut found.end, action(scope, body)),
        Item::Action(body) => push_made(&mut found.each, action(scope, body)),
        Item::Rule(pattern, body) => {
            let action = action(scope, body);
            let met = where_met(scope, found.ranges, pattern, action);
            push_made(&mut found.each, met)
        }
        Item::PatternOnly(pattern) => {
            let action = print_record(scope);
            let met = where_met(scope, found.ranges, pattern, action);
            push_made(&mut found.each, met)
        }
        Item::Function(_, _, _) | Item::Empty => Ok(()),
    }
}

/// How many ranges an item has: one where its pattern is a range.
fn ranges_of(item: &Item) -> usize
    ensures is { result ≡ item_ranges (view_item item.now) }
    ensures within { result ≤ 1 }
{
    match item {
        Item::Rule(Pattern::Range(_, _), _) | Item::PatternOnly(Pattern::Range(_, _)) => 1,
        _ => 0,
    }
}

/// The code of all items.
pub(crate) fn code_of_items(scope: &Scope<'_>, items: &[Item]) -> Result<Actions, AllocError>
    ensures begin { IfOk result (λ found. view_steps found.begin.items
        ≡ begin_code (texts_of scope.now) (scope_of scope.now) (view_items items.now)) }
    ensures each { IfOk result (λ found. view_steps found.each.items
        ≡ items_code (texts_of scope.now) (scope_of scope.now) 0 (view_items items.now)) }
    ensures end { IfOk result (λ found. view_steps found.end.items
        ≡ end_code (texts_of scope.now) (scope_of scope.now) (view_items items.now)) }
    ensures ranges { IfOk result (λ found. found.ranges ≡ range_count (view_items items.now)) }
{
    let alloc = scope.alloc;
    let mut found = Actions {
        begin: Vec::new(alloc),
        each: Vec::new(alloc),
        end: Vec::new(alloc),
        ranges: 0,
    };
    for item in items {
        push_item(&mut found, scope, item)?;
        found.ranges += ranges_of(item);
    }
    Ok(found)
}

/// Whether records are read for an item; before the actions of END all are.
fn reads_record(item: &Item) -> bool
    ensures { (items : List PlainItem) → reads_records (view_item item.now ∷ items)
        ≡ (result || reads_records items) }
{
    match item {
        Item::End(_) | Item::Action(_) | Item::Rule(_, _) | Item::PatternOnly(_) => true,
        Item::Function(_, _, _) | Item::Begin(_) | Item::Empty => false,
    }
}

/// Whether there are items for which records are read.
pub(crate) fn reads_records(items: &[Item]) -> bool
    ensures { result ≡ reads_records (view_items items.now) }
{
    for item in items {
        if reads_record(item) {
            return true;
        }
    }
    false
}
