//! The code of statements. A statement's place is the `nop` that begins its code.
ghost use Rattle.std.specs.Prelude.{◌≤◌, is_some, suc};
ghost use Rattle.wasm_types.specs.Syntax.{Done};
ghost use Rattle.mid_program.specs.ViewCode.{view, view_array, view_step, view_steps};
ghost use Rattle.lower_model.specs.Quick.{pair_in, step_jumps};
ghost use Rattle.lower_model.specs.Statements.{step_emitted, steps_emitted};
ghost use Rattle.lower_pieces.specs.Bounds.{most_labels, most_places};
ghost use Rattle.lower_pieces.specs.Emits.{Emits, Holds};
ghost use Rattle.lower_expressions.specs.Fits.{ArrayFits, Fits};
ghost use Rattle.lower_expressions.specs.View.{view_layout};
ghost use Rattle.lower_modules.specs.Labels.{more_if};
ghost use Rattle.lowering.specs.Parts.{chosen, first_turn, key_turn, keys_walked, plainly_chosen, quick_way, quickly_chosen, rounds, tested_turn, turn, turn_body, turn_ended};
ghost use Rattle.lowering.specs.Places.{OwnLabels};
ghost use Rattle.lowering.specs.StepFits.{ChoiceFits, has_block, LoopFits, StepFits, StepsFit, TestFits};

use crate::around::{Around, in_body, in_branch, in_keys, in_last};
use crate::evaluating::{done, exit_with, tested};
use crate::leaving::{WAY_EXIT, WAY_NEXT, left_by, marked};
use crate::loops::{iterator_left, iterator_made, key_stored, rounds, tested_on};
use crate::returning::returned;
use crate::testing::{left_unless, left_unless_pair};
use lower_expressions::FunctionLayout;
use lower_pieces::{Emitted, block, emit, emit_if};
use lower_quick::{is_nothing, pair_in, step_jumps};
use mid_program::{ArrayName, Code, Step};
use wasm_types::Simple;

/// Adds the code of statements, one after the other.
#[cycle(statements)]
#[tactic(auto, unfolding(lower_model::specs::Statements::step_emitted, lower_model::specs::Statements::steps_emitted))]
pub(crate) fn statements(layout: &FunctionLayout<'_>, out: &mut Emitted, steps: &[Step], at: Around)
    requires fit { StepsFit (view_layout layout.now) (view_steps steps.now) at.iterators at.exit }
    requires own { OwnLabels at }
    ensures { Emits out.old out.new (steps_emitted (view_layout layout.now)
        (view_steps steps.now) at.iterators at.exit at.break_to at.continue_to) }
{
    for step in steps {
        statement(layout, out, step, at);
    }
}

/// Adds the code of a statement.
#[cycle(statements)]
#[tactic(auto, unfolding(lower_model::specs::Statements::step_emitted, lower_model::specs::Statements::steps_emitted))]
fn statement(layout: &FunctionLayout<'_>, out: &mut Emitted, step: &Step, at: Around)
    requires fit { StepFits (view_layout layout.now) (view_step step.now) at.iterators at.exit }
    requires own { OwnLabels at }
    ensures { Emits out.old out.new (step_emitted (view_layout layout.now)
        (view_step step.now) at.iterators at.exit at.break_to at.continue_to) }
{
    emit(out, Simple::Nop);
    match step {
        Step::Eval(code) => done(layout, out, code, at.exit),
        Step::Block(steps) => statements(layout, out, steps, at),
        Step::If(test, yes, no) => choice(layout, out, test, yes, no, at),
        Step::Loop(tests_first, test, body, last) => {
            looped(layout, out, *tests_first, test, body, last, at);
        }
        Step::Each(array, store, body) => keys(layout, out, *array, store, body, at),
        Step::Break => emit(out, Simple::Br(at.break_to)),
        Step::Continue => emit(out, Simple::Br(at.continue_to)),
        Step::Next => left_by(out, WAY_NEXT, at.exit),
        Step::Exit => left_by(out, WAY_EXIT, at.exit),
        Step::ExitWith(code) => exit_with(layout, out, code, at.exit),
        Step::Return(code) => returned(layout, out, code, at.exit),
        Step::Mark(item, opens) => marked(out, *item, *opens),
    }
}

/// The code of a statement in a list of its own.
#[cycle(statements)]
pub(crate) fn inner(layout: &FunctionLayout<'_>, step: &Step, at: Around) -> Emitted
    requires fit { StepFits (view_layout layout.now) (view_step step.now) at.iterators at.exit }
    requires own { OwnLabels at }
    ensures { Holds result (step_emitted (view_layout layout.now)
        (view_step step.now) at.iterators at.exit at.break_to at.continue_to) }
{
    let mut code = Emitted::new(layout.alloc);
    statement(layout, &mut code, step, at);
    code
}

/// Adds a choice of two statements by an `if`.
#[cycle(statements)]
fn plain_choice(
    layout: &FunctionLayout<'_>,
    out: &mut Emitted,
    test: &Code,
    yes: &Step,
    no: &Step,
    at: Around,
)
    requires labels { suc at.exit ≤ most_labels }
    requires own { OwnLabels at }
    requires test { Fits (view_layout layout.now) (view test.now) 0 0 at.exit }
    requires yes { StepFits
        (view_layout layout.now) (view_step yes.now) at.iterators (suc at.exit) }
    requires no { StepFits (view_layout layout.now) (view_step no.now) at.iterators (suc at.exit) }
    ensures { Emits out.old out.new (plainly_chosen
        (view_layout layout.now) (view test.now) (view_step yes.now) (view_step no.now) at) }
{
    tested(layout, out, test, at.exit);
    let yes = inner(layout, yes, in_branch(at));
    let no = inner(layout, no, in_branch(at));
    emit_if(layout.alloc, out, yes, no);
}

/// Adds the test of a choice, and what is done where it holds; elsewhere the block around it is left.
#[cycle(statements)]
fn quick_way(layout: &FunctionLayout<'_>, out: &mut Emitted, test: &Code, yes: &Step, at: Around)
    requires labels { suc (suc (suc at.exit)) ≤ most_labels }
    requires own { OwnLabels at }
    requires test { TestFits (view_layout layout.now) (view test.now) (suc (suc at.exit)) }
    requires yes { StepFits (view_layout layout.now) (view_step yes.now) at.iterators
        (suc (suc at.exit)) }
    ensures { Emits out.old out.new
        (quick_way (view_layout layout.now) (view test.now) (view_step yes.now) at) }
{
    left_unless_pair(layout, out, test, at.exit + 2, 0);
    statement(layout, out, yes, in_branch(in_branch(at)));
    emit(out, Simple::Br(1));
}

/// Adds a choice of two statements by a comparison of sources.
#[cycle(statements)]
fn quick_choice(
    layout: &FunctionLayout<'_>,
    out: &mut Emitted,
    test: &Code,
    yes: &Step,
    no: &Step,
    at: Around,
)
    requires labels { suc (suc (suc at.exit)) ≤ most_labels }
    requires own { OwnLabels at }
    requires test { TestFits (view_layout layout.now) (view test.now) (suc (suc at.exit)) }
    requires yes { StepFits (view_layout layout.now) (view_step yes.now) at.iterators
        (suc (suc at.exit)) }
    requires no { StepFits (view_layout layout.now) (view_step no.now) at.iterators (suc at.exit) }
    ensures { Emits out.old out.new (quickly_chosen
        (view_layout layout.now) (view test.now) (view_step yes.now) (view_step no.now) at) }
{
    let mut way = Emitted::new(layout.alloc);
    quick_way(layout, &mut way, test, yes, at);
    let mut ways = Emitted::new(layout.alloc);
    block(layout.alloc, &mut ways, way);
    statement(layout, &mut ways, no, in_branch(at));
    block(layout.alloc, out, ways);
}

/// Adds a choice of two statements.
#[cycle(statements)]
fn choice(
    layout: &FunctionLayout<'_>,
    out: &mut Emitted,
    test: &Code,
    yes: &Step,
    no: &Step,
    at: Around,
)
    requires own { OwnLabels at }
    requires fit { ChoiceFits (view_layout layout.now) (view test.now) at.exit }
    requires yes { StepFits (view_layout layout.now) (view_step yes.now) at.iterators
        (suc (more_if (is_some (pair_in (view test.now))) at.exit)) }
    requires no { StepFits (view_layout layout.now) (view_step no.now) at.iterators (suc at.exit) }
    ensures { Emits out.old out.new (chosen (view_layout layout.now)
        (view test.now) (view_step yes.now) (view_step no.now) at) }
{
    if pair_in(test).is_some() {
        quick_choice(layout, out, test, yes, no, at);
    } else {
        plain_choice(layout, out, test, yes, no, at);
    }
}

/// Adds the body of a loop that begins with its test.
#[cycle(statements)]
fn turn_body(layout: &FunctionLayout<'_>, out: &mut Emitted, body: &Step, at: Around)
    requires labels { LoopFits at.exit }
    requires body { StepFits (view_layout layout.now) (view_step body.now) at.iterators
        (suc (suc (more_if (step_jumps (view_step body.now)) at.exit))) }
    ensures { Emits out.old out.new
        (turn_body (view_layout layout.now) (view_step body.now) at.iterators at.exit) }
{
    if step_jumps(body) {
        let inside = inner(layout, body, in_body(at));
        block(layout.alloc, out, inside);
    } else {
        statement(layout, out, body, in_last(at));
    }
}

/// Adds what stands between the body of a loop and the next turn.
#[cycle(statements)]
fn turn_ended(layout: &FunctionLayout<'_>, out: &mut Emitted, last: &Step, at: Around)
    requires labels { LoopFits at.exit }
    requires last { StepFits (view_layout layout.now) (view_step last.now) at.iterators
        (suc (suc at.exit)) }
    ensures { Emits out.old out.new
        (turn_ended (view_layout layout.now) (view_step last.now) at.iterators at.exit) }
{
    if is_nothing(last) {
        emit(out, Simple::Br(0));
    } else {
        statement(layout, out, last, in_last(at));
        emit(out, Simple::Br(0));
    }
}

/// Adds a turn of a loop that begins with its test.
#[cycle(statements)]
fn tested_turn(
    layout: &FunctionLayout<'_>,
    out: &mut Emitted,
    test: &Code,
    body: &Step,
    last: &Step,
    at: Around,
)
    requires labels { LoopFits at.exit }
    requires test { TestFits (view_layout layout.now) (view test.now) (suc (suc at.exit)) }
    requires body { StepFits (view_layout layout.now) (view_step body.now) at.iterators
        (suc (suc (more_if (step_jumps (view_step body.now)) at.exit))) }
    requires last { StepFits (view_layout layout.now) (view_step last.now) at.iterators
        (suc (suc at.exit)) }
    ensures { Emits out.old out.new (tested_turn (view_layout layout.now)
        (view test.now) (view_step body.now) (view_step last.now) at.iterators at.exit) }
{
    left_unless(layout, out, test, at.exit + 2, 1);
    turn_body(layout, out, body, at);
    turn_ended(layout, out, last, at);
}

/// Adds a turn of a loop that ends with its test.
#[cycle(statements)]
fn first_turn(
    layout: &FunctionLayout<'_>,
    out: &mut Emitted,
    test: &Code,
    body: &Step,
    last: &Step,
    at: Around,
)
    requires labels { LoopFits at.exit }
    requires test { Fits (view_layout layout.now) (view test.now) 0 0 (suc (suc at.exit)) }
    requires body { StepFits (view_layout layout.now) (view_step body.now) at.iterators
        (suc (suc (suc at.exit))) }
    requires last { StepFits (view_layout layout.now) (view_step last.now) at.iterators
        (suc (suc at.exit)) }
    ensures { Emits out.old out.new (first_turn (view_layout layout.now)
        (view test.now) (view_step body.now) (view_step last.now) at.iterators at.exit) }
{
    let inside = inner(layout, body, in_body(at));
    block(layout.alloc, out, inside);
    statement(layout, out, last, in_last(at));
    tested_on(layout, out, test, at.exit);
}

/// Adds a turn of a loop.
#[cycle(statements)]
fn turn(
    layout: &FunctionLayout<'_>,
    out: &mut Emitted,
    tests_first: bool,
    test: &Code,
    body: &Step,
    last: &Step,
    at: Around,
)
    requires labels { LoopFits at.exit }
    requires test { TestFits (view_layout layout.now) (view test.now) (suc (suc at.exit)) }
    requires body { StepFits (view_layout layout.now) (view_step body.now) at.iterators
        (suc (suc (more_if (has_block tests_first (view_step body.now)) at.exit))) }
    requires last { StepFits (view_layout layout.now) (view_step last.now) at.iterators
        (suc (suc at.exit)) }
    ensures { Emits out.old out.new (turn tests_first (view_layout layout.now)
        (view test.now) (view_step body.now) (view_step last.now) at.iterators at.exit) }
{
    if tests_first {
        tested_turn(layout, out, test, body, last, at);
    } else {
        first_turn(layout, out, test, body, last, at);
    }
}

/// Adds a loop.
#[cycle(statements)]
fn looped(
    layout: &FunctionLayout<'_>,
    out: &mut Emitted,
    tests_first: bool,
    test: &Code,
    body: &Step,
    last: &Step,
    at: Around,
)
    requires labels { LoopFits at.exit }
    requires test { TestFits (view_layout layout.now) (view test.now) (suc (suc at.exit)) }
    requires body { StepFits (view_layout layout.now) (view_step body.now) at.iterators
        (suc (suc (more_if (has_block tests_first (view_step body.now)) at.exit))) }
    requires last { StepFits (view_layout layout.now) (view_step last.now) at.iterators
        (suc (suc at.exit)) }
    ensures { Emits out.old out.new (rounds (turn tests_first (view_layout layout.now)
        (view test.now) (view_step body.now) (view_step last.now) at.iterators at.exit Done)) }
{
    let mut code = Emitted::new(layout.alloc);
    turn(layout, &mut code, tests_first, test, body, last, at);
    rounds(layout.alloc, out, code);
}

/// Adds a turn of a loop over keys.
#[cycle(statements)]
fn key_turn(layout: &FunctionLayout<'_>, out: &mut Emitted, store: &Code, body: &Step, at: Around)
    requires labels { LoopFits at.exit }
    requires few { suc at.iterators ≤ most_places }
    requires store { Fits (view_layout layout.now) (view store.now) 1 0 (suc (suc at.exit)) }
    requires body { StepFits (view_layout layout.now) (view_step body.now) (suc at.iterators)
        (suc (suc (suc at.exit))) }
    ensures { Emits out.old out.new (key_turn (view_layout layout.now)
        (view store.now) (view_step body.now) at.iterators at.exit) }
{
    key_stored(layout, out, store, at.iterators, at.exit + 2);
    let inside = inner(layout, body, in_keys(at));
    block(layout.alloc, out, inside);
    emit(out, Simple::Br(0));
}

/// Adds a loop over the keys of an array.
#[cycle(statements)]
fn keys(
    layout: &FunctionLayout<'_>,
    out: &mut Emitted,
    array: ArrayName,
    store: &Code,
    body: &Step,
    at: Around,
)
    requires labels { LoopFits at.exit }
    requires few { suc at.iterators ≤ most_places }
    requires array { ArrayFits (view_array array) }
    requires store { Fits (view_layout layout.now) (view store.now) 1 0 (suc (suc at.exit)) }
    requires body { StepFits (view_layout layout.now) (view_step body.now) (suc at.iterators)
        (suc (suc (suc at.exit))) }
    ensures { Emits out.old out.new (keys_walked (view_layout layout.now)
        (view_array array) (view store.now) (view_step body.now) at.iterators at.exit) }
{
    iterator_made(layout, out, array, at.iterators);
    let mut turn = Emitted::new(layout.alloc);
    key_turn(layout, &mut turn, store, body, at);
    rounds(layout.alloc, out, turn);
    iterator_left(layout, out, at.iterators);
}
