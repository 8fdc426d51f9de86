//! Laws of the definitions.
ghost use Rattle.wasm_model.specs.Frames.{FrameForm, local_step};
ghost use Rattle.wasm_model.specs.Machines.{Conf, ProgramForm, turn};
ghost use Rattle.wasm_model.specs.StepReductions.{IsStepReduced};
ghost use Rattle.wasm_model.specs.Typed.{ConfOk, FrameOk, IsSafe, IsSafeTurn, ProgramOk};
ghost use Rattle.wasm_types.specs.Typing.{Context};

use crate::host::HostCalls;

/// A well-typed frame takes a step that is safe: never stuck, and what it leads to is well typed.
pub fn never_stuck()
    ensures { (C : Context) (f : FrameForm) → FrameOk C f → IsSafe C (local_step f) }
{}

/// A well-typed configuration takes a turn that is safe: never stuck, and what it leads to is well typed.
pub fn turn_safe()
    ensures { (m : ProgramForm) → ProgramOk m → (c : Conf) → ConfOk m.whole c
        → IsSafeTurn m (turn m c) }
{}

/// A step of a well-typed configuration is the specification's own reductions (Core 1.0, section 4.4) of its nested form, of which exactly
/// one counts as a step, with any host; none does where the run is over. Where the machine is exhausted, which the specification does not
/// know, a call stands next with 10,000 frames open besides the first.
pub fn step_is_reduced<H: HostCalls>()
    ensures { (m : ProgramForm) → ProgramOk m → (c : Conf) (h : H.State) → ConfOk m.whole c
        → IsStepReduced H.meaning m (turn m c) c h }
{}
