//! Statements.

ghost use Rattle.std.specs.Prelude.{◌≡◌};
ghost use Rattle.mid_program.specs.Mid.{Do};
ghost use Rattle.mid_program.specs.ViewCode.{view_step, view_steps};
ghost use Rattle.mid_program.specs.Rewriting.{step_in, steps_in};
ghost use Rattle.value_kinds.specs.View.{slots};

use crate::code::lane_code;
use crate::names::Names;
use mid_program::Step;

/// Gives lanes to the names in a step.
#[cycle(step_lanes)]
fn lane_step(names: Names<'_>, step: &mut Step)
    ensures { view_step step.new ≡ step_in (slots names.entry) Do (view_step step.old) }
{
    match step {
        Step::Eval(code) => lane_code(names, code),
        Step::Block(steps) => lane_steps(names, steps),
        Step::If(test, yes, no) => {
            lane_code(names, test);
            lane_step(names, yes);
            lane_step(names, no);
        }
        Step::Loop(_, test, body, between) => {
            lane_code(names, test);
            lane_step(names, body);
            lane_step(names, between);
        }
        Step::Each(_, store, body) => {
            lane_code(names, store);
            lane_step(names, body);
        }
        Step::ExitWith(code) => lane_code(names, code),
        Step::Return(code) => lane_code(names, code),
        Step::Break | Step::Continue | Step::Next | Step::Exit | Step::Mark(_, _) => {}
    }
}

/// Gives lanes to the names in steps.
#[cycle(step_lanes)]
pub(crate) fn lane_steps(names: Names<'_>, steps: &mut Vec<Step>)
    ensures { view_steps steps.new.items
        ≡ steps_in (slots names.entry) Do (view_steps steps.old.items) }
{
    for step in steps.iter_mut() {
        lane_step(names, step);
    }
}
