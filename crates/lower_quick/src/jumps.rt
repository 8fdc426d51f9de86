//! What a loop's body does to the loop.
ghost use Rattle.std.specs.Prelude.{◌≡◌};
ghost use Rattle.mid_program.specs.ViewCode.{view_step, view_steps};
ghost use Rattle.lower_model.specs.Quick.{is_nothing, step_jumps, steps_jump};

use mid_program::Step;

/// Whether a step leaves the loop around it by `break`, or goes on with it by `continue`.
#[cycle(step_jumps)]
pub fn step_jumps(step: &Step) -> bool
    ensures { result ≡ step_jumps (view_step step.now) }
{
    match step {
        Step::Block(steps) => steps_jump(steps),
        Step::If(_, yes, no) => step_jumps(yes) || step_jumps(no),
        Step::Break | Step::Continue => true,
        Step::Eval(_)
        | Step::Loop(_, _, _, _)
        | Step::Each(_, _, _)
        | Step::Next
        | Step::Exit
        | Step::ExitWith(_)
        | Step::Return(_)
        | Step::Mark(_, _) => false,
    }
}

/// Whether one of several steps does.
#[cycle(step_jumps)]
fn steps_jump(steps: &[Step]) -> bool
    ensures { result ≡ steps_jump (view_steps steps.now) }
{
    for step in steps {
        if step_jumps(step) {
            return true;
        }
    }
    false
}

/// Whether a step does nothing, and is no place of the code.
pub fn is_nothing(step: &Step) -> bool
    ensures { result ≡ is_nothing (view_step step.now) }
{
    match step {
        Step::Block(steps) => steps.as_slice().is_empty(),
        _ => false,
    }
}
