//! Statements.

ghost use Rattle.std.specs.Prelude.{◌≡◌};
ghost use Rattle.folding.specs.Folding.{folded_steps, reduced, same};
ghost use Rattle.mid_program.specs.ViewCode.{view_step, view_steps};
ghost use Rattle.mid_program.specs.Rewriting.{step_in};

use crate::code::fold_code;
use mid_program::Step;

/// Computes the constant parts of a step.
#[cycle(folding_steps)]
fn fold_step(step: &mut Step)
    ensures { view_step step.new ≡ step_in same reduced (view_step step.old) }
{
    match step {
        Step::Eval(code) => fold_code(code),
        Step::Block(steps) => fold_steps(steps),
        Step::If(test, yes, no) => {
            fold_code(test);
            fold_step(yes);
            fold_step(no);
        }
        Step::Loop(_, test, body, between) => {
            fold_code(test);
            fold_step(body);
            fold_step(between);
        }
        Step::Each(_, store, body) => {
            fold_code(store);
            fold_step(body);
        }
        Step::ExitWith(code) => fold_code(code),
        Step::Return(code) => fold_code(code),
        Step::Break | Step::Continue | Step::Next | Step::Exit | Step::Mark(_, _) => {}
    }
}

/// Computes the constant parts of steps.
#[cycle(folding_steps)]
pub(crate) fn fold_steps(steps: &mut Vec<Step>)
    ensures { view_steps steps.new.items ≡ folded_steps (view_steps steps.old.items) }
{
    for step in steps.iter_mut() {
        fold_step(step);
    }
}
