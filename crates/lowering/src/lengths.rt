//! How long the code of `main` is at least. It is made piece by piece for this and dropped, so that a script whose code is too long is refused before all of
//! it is there at once. Few statements are not looked at: their code is soon there.
ghost use Rattle.std.specs.Prelude.{◌≡◌, ◌<◌, ◌≤◌, ◌-◌, nat_le, true, IfOk};
ghost use Rattle.mid_program.specs.View.{view_mid};
ghost use Rattle.mid_program.specs.ViewCode.{view_step, view_steps};
ghost use Rattle.lower_model.specs.Statements.{main_body, step_emitted, steps_emitted};
ghost use Rattle.lower_expressions.specs.View.{view_layout};
ghost use Rattle.lower_modules.specs.Lengths.{least_in};
ghost use Rattle.lower_modules.specs.Limits.{most_bytes};
ghost use Rattle.lowering.specs.Lengths.{main_statements, statements_at, statements_in, Weighs};
ghost use Rattle.lowering.specs.StepFits.{PartsFit, StepFits, StepsFit};

use crate::around::OUTERMOST;
use crate::steps::inner;
use lower_expressions::FunctionLayout;
use lower_modules::least_in;
use mid_program::{Mid, Step};
use std::alloc::AllocError;
use wasm_types::MAX_MODULE_BYTES;

/// The most bytes of a module.
const MOST_BYTES: u64 = MAX_MODULE_BYTES as u64;

/// The code of so many statements is not measured first.
const FEW_STATEMENTS: u32 = 10_000;

/// What is left of a number after one for each statement here, with those that stand in it.
#[cycle(statements)]
fn left_after(left: u32, step: &Step) -> u32
    ensures { result ≡ left - statements_at (view_step step.now) }
{
    let left = left.saturating_sub(1);
    match step {
        Step::Block(steps) => left_after_all(left, steps),
        Step::If(_, yes, no) => left_after(left_after(left, yes), no),
        Step::Loop(_, _, body, last) => left_after(left_after(left, body), last),
        Step::Each(_, _, body) => left_after(left, body),
        _ => left,
    }
}

/// What is left of a number after one for each of these statements, with those that stand in them.
#[cycle(statements)]
fn left_after_all(left: u32, steps: &[Step]) -> u32
    ensures { result ≡ left - statements_in (view_steps steps.now) }
{
    let mut left = left;
    for step in steps {
        left = left_after(left, step);
    }
    left
}

/// Whether `main` has few statements.
fn is_short(mid: &Mid) -> bool
    ensures { result ≡ nat_le (main_statements (view_mid mid.now)) 10000 }
{
    let left = left_after_all(FEW_STATEMENTS + 1, &mid.begin);
    let left = left_after_all(left, &mid.items);
    left_after_all(left, &mid.end) > 0
}

/// How long the code of a statement is at least; that of a block by its statements, of which a script may have all in one.
#[cycle(lengths)]
fn step_length(layout: &FunctionLayout<'_>, step: &Step) -> Result<u64, AllocError>
    requires { StepFits (view_layout layout.now) (view_step step.now) 0 0 }
    ensures { IfOk result (λ bytes. Weighs bytes
        (step_emitted (view_layout layout.now) (view_step step.now) 0 0 0 0)) }
{
    match step {
        Step::Block(steps) => steps_length(layout, steps),
        _ => {
            let code = inner(layout, step, OUTERMOST).all()?;
            Ok(least_in(&code))
        }
    }
}

/// How long the code of statements is at least. What comes after too much is not looked at.
#[cycle(lengths)]
fn steps_length(layout: &FunctionLayout<'_>, steps: &[Step]) -> Result<u64, AllocError>
    requires { StepsFit (view_layout layout.now) (view_steps steps.now) 0 0 }
    ensures { IfOk result (λ bytes. Weighs bytes
        (steps_emitted (view_layout layout.now) (view_steps steps.now) 0 0 0 0)) }
{
    let mut bytes: u64 = 0;
    for step in steps {
        bytes = bytes.saturating_add(step_length(layout, step)?);
        if bytes > MOST_BYTES {
            return Ok(bytes);
        }
    }
    Ok(bytes)
}

/// How long the code of `main` is at least.
fn main_length(layout: &FunctionLayout<'_>) -> Result<u64, AllocError>
    requires { PartsFit (view_layout layout.now) (view_mid layout.now.script.now.program.now) }
    ensures { IfOk result (λ bytes. bytes ≤ least_in
        (main_body (view_layout layout.now) (view_mid layout.now.script.now.program.now))) }
{
    let program = layout.script.program;
    let begin = steps_length(layout, &program.begin)?;
    if begin > MOST_BYTES {
        return Ok(begin);
    }
    let end = steps_length(layout, &program.end)?;
    if end > MOST_BYTES {
        return Ok(end);
    }
    let outside = begin.saturating_add(end);
    if !program.reads {
        return Ok(outside);
    }
    let items = steps_length(layout, &program.items)?;
    if items > MOST_BYTES {
        return Ok(items);
    }
    Ok(outside.saturating_add(items))
}

/// Whether the code of `main` is surely too long for a module.
pub(crate) fn is_too_long(layout: &FunctionLayout<'_>) -> Result<bool, AllocError>
    requires { PartsFit (view_layout layout.now) (view_mid layout.now.script.now.program.now) }
    ensures { IfOk result (λ long. long ≡ true → most_bytes < least_in
        (main_body (view_layout layout.now) (view_mid layout.now.script.now.program.now))) }
{
    if is_short(layout.script.program) {
        return Ok(false);
    }
    Ok(main_length(layout)? > MOST_BYTES)
}
