//! What statements store.

ghost use Rattle.std.specs.Prelude.{◌≡◌, ◌∷◌, []};
ghost use Rattle.mid_program.specs.Mid.{a_value};
ghost use Rattle.mid_program.specs.ViewCode.{view, view_step, view_steps};
ghost use Rattle.mid_program.specs.Stores.{step_stores, steps_stores, stores};
ghost use Rattle.value_kinds.specs.View.{view_walk};
ghost use Rattle.value_kinds.specs.Walks.{after};

use crate::form::Form;
use crate::kept::Kept;
use crate::marks::mark_code;
use crate::walk::Walk;
use mid_program::{Code, Step};
use sem_primitives::{Answer, Sort};

/// Marks what the code of a statement stores: nothing is kept outside it.
fn mark_alone(walk: &mut Walk, code: &Code)
    ensures { view_walk walk.new ≡ after (view_walk walk.old) (stores [] (view code.now)) }
{
    mark_code(walk, &Kept::Nothing, code);
}

/// The same of code that stores a value, which is kept.
fn mark_store(walk: &mut Walk, code: &Code)
    ensures { view_walk walk.new
        ≡ after (view_walk walk.old) (stores (a_value ∷ []) (view code.now)) }
{
    let value = Form::PrimitiveAnswer(Answer::Of(Sort::Value));
    mark_code(walk, &Kept::Last(value, &Kept::Nothing), code);
}

/// Marks what a step stores.
#[cycle(step_marks)]
fn mark_step(walk: &mut Walk, step: &Step)
    ensures { view_walk walk.new
        ≡ after (view_walk walk.old) (step_stores (view_step step.now)) }
{
    match step {
        Step::Eval(code) | Step::ExitWith(code) | Step::Return(code) => mark_alone(walk, code),
        Step::Block(steps) => mark_steps(walk, steps),
        Step::If(test, yes, no) => {
            mark_alone(walk, test);
            mark_step(walk, yes);
            mark_step(walk, no);
        }
        Step::Loop(_, test, body, between) => {
            mark_alone(walk, test);
            mark_step(walk, body);
            mark_step(walk, between);
        }
        Step::Each(_, store, body) => {
            mark_store(walk, store);
            mark_step(walk, body);
        }
        Step::Break | Step::Continue | Step::Next | Step::Exit | Step::Mark(_, _) => {}
    }
}

/// Marks what steps store.
#[cycle(step_marks)]
pub(crate) fn mark_steps(walk: &mut Walk, steps: &[Step])
    ensures { view_walk walk.new
        ≡ after (view_walk walk.old) (steps_stores (view_steps steps.now)) }
{
    for step in steps {
        mark_step(walk, step);
    }
}
