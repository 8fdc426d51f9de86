//! Machines.
ghost use Rattle.std.specs.Prelude.{◌≡◌, ◌≢◌, ◌≤◌, ◌-◌, length, false, true, IfErr, IfOk, IfSome, MatchOption, None, Some, slice_get};
ghost use Rattle.wasm_machine.specs.Places.{HasStatement, StandsAt, frame_at};
ghost use Rattle.wasm_machine.specs.StateStretches.{CalledLast};
ghost use Rattle.wasm_model.specs.Links.{IsNew, Refuses};
ghost use Rattle.wasm_model.specs.Reductions.{Reduced};
ghost use Rattle.wasm_model.specs.Runs.{told_run};
ghost use Rattle.wasm_model.specs.MachineRuns.{Did, lasting};
ghost use Rattle.wasm_model.specs.Typed.{Linked, SafeRun};
ghost use Rattle.wasm_types.specs.View.{view_module};

use crate::link::{codes_of, first_state, link};
use crate::places::{Place, place_of};
use crate::program::Program;
use crate::run::{Parts, run, run_to_pause};
use crate::sites::{fused_of, no_lines};
use module_validator::ValidModule;
use std::alloc::Global;
use std::marker::Model;
use wasm_model::{End, HostCalls, LinkFault, MachineEnd, RunEnd};
use wasm_store::{TrapKind, Word};
use wasm_types::Simple;

/// What a machine tells of a run's end.
fn tell(end: RunEnd) -> MachineEnd
    requires { SafeRun end }
    ensures { told_run end ≡ Some result }
{
    match end {
        RunEnd::Ended(End::Returned(Some(Word::I32(n)))) => MachineEnd::Returned(n.cast_signed()),
        RunEnd::Ended(End::Trapped(kind)) => MachineEnd::Trapped(kind),
        RunEnd::Ended(End::Exhausted) => MachineEnd::Exhausted,
        RunEnd::Ended(_) => unreachable!(),
        RunEnd::OutOfSteps => MachineEnd::OutOfSteps,
        RunEnd::NoMemory => MachineEnd::NoMemory,
    }
}

/// A machine that runs one module. A contract sees its module with the numbers of its imports, its configuration, and how it ended.
#[derive(Drop)]
pub struct Machine {
    parts: Parts,
    ended: Option<MachineEnd>,
}

impl Model for Machine {
    ghost use Rattle.std.specs.Coded.{codes};
    ghost use Rattle.wasm_machine.specs.Codes.{instructions_code};
    ghost use Rattle.std.specs.Prelude.{◌≡◌, None};
    ghost use Rattle.wasm_machine.specs.Standing.{Stand};
    ghost use Rattle.wasm_machine.specs.Confs.{conf_of};
    ghost use Rattle.wasm_machine.specs.ViewConf.{HasCodes, HasLines, program_of};
    ghost use Rattle.wasm_model.specs.Runs.{MachineForm};
    ghost use Rattle.wasm_model.specs.Typed.{MachineOk};

    ghost Value = { MachineForm };

    ghost coded = { Prim.hlevel (codes, instructions_code (Prim.hlevel codes)) };

    ghost view = { λ a. record {
      program = program_of a.parts.program;
      conf = conf_of a.parts.program.codes.items a.parts.state;
      ended = a.ended;
    } };

    ghost invariant = { λ a. (HasCodes a.parts.program × HasLines a.parts.program a.parts.lines.items)
        × (a.ended ≡ None → Stand a.parts.program.codes.items a.parts.state.frames)
        × MachineOk (program_of a.parts.program)
        (conf_of a.parts.program.codes.items a.parts.state) a.ended };
}

impl Machine {
    /// The machine of a module, at its beginning. The start function runs before `main`.
    ///
    /// # Errors
    ///
    /// In this order: [`LinkFault::NoMain`], [`LinkFault::BadImport`] of the first import that the host lacks by name and type, and
    /// [`LinkFault::SegmentBounds`]. [`LinkFault::NoMemory`] where memory is wanting.
    pub fn new<H: HostCalls>(
        alloc: Global,
        valid: ValidModule,
        host: &H,
    ) -> Result<Machine, LinkFault>
        ensures ok { IfOk result (IsNew H.finds (view_module valid)) }
        ensures linked { IfOk result (λ m. Linked H.types m.program) }
        ensures refused { IfErr result (Refuses H.finds (view_module valid)) }
    {
        let (main, numbers) = match link(alloc, valid.get(), host) {
            Ok(linked) => linked,
            Err(fault) => return Err(fault),
        };
        let mut whole = valid.into_module();
        let Ok(codes) = codes_of(alloc, &mut whole, main) else {
            return Err(LinkFault::NoMemory);
        };
        let Ok(state) = first_state(alloc, &whole, &codes) else {
            return Err(LinkFault::NoMemory);
        };
        let fused = fused_of(&codes);
        let program = Program {
            whole,
            numbers,
            codes,
        };
        let Ok(lines) = no_lines(alloc, &program, fused) else {
            return Err(LinkFault::NoMemory);
        };
        Ok(Machine {
            parts: Parts {
                program,
                lines,
                state,
            },
            ended: None,
        })
    }

    /// So many steps, or fewer where it ends. After [`MachineEnd::OutOfSteps`] a further run goes on; any other end is answered again by
    /// every later run, and nothing changes.
    ///
    /// The calls of the start function and of `main` are steps; `main` has returned once its own body ends, and no step follows. What the machine
    /// did is a chain of the specification's own reductions (`reduced`), of which as many count as it took steps.
    ///
    /// The host is to have the imports that it had when the machine was made.
    pub fn run<H: HostCalls>(&mut self, host: &mut H, steps: u64) -> MachineEnd
        requires linked { Linked H.types self.old.program }
        ensures program { self.new.program ≡ self.old.program }
        ensures run { self.old.ended ≡ None
            → Did H.meaning self.old.program steps self.old.conf (H.state host.old) result
            self.new.conf (H.state host.new) }
        ensures reduced { self.old.ended ≡ None
            → Reduced H.meaning self.old.program steps self.old.conf (H.state host.old) result
            self.new.conf (H.state host.new) }
        ensures again { IfSome self.old.ended
            (λ e. (result ≡ e) × (self.new ≡ self.old) × (host.new ≡ host.old)) }
        ensures ended { self.old.ended ≡ None → self.new.ended ≡ lasting result }
    {
        if let Some(end) = self.ended {
            return end;
        }
        let end = tell(run(&mut self.parts, host, steps));
        if end != MachineEnd::OutOfSteps {
            self.ended = Some(end);
        }
        end
    }

    /// The same, but the run pauses also where the host is in a state in which it is to pause: after the call that led there. The second answer is how many of
    /// the steps are left; a further run goes on after [`MachineEnd::OutOfSteps`].
    pub fn run_to_pause<H: HostCalls>(&mut self, host: &mut H, steps: u64) -> (MachineEnd, u64)
        requires linked { Linked H.types self.old.program }
        ensures program { self.new.program ≡ self.old.program }
        ensures run { self.old.ended ≡ None
            → Did H.meaning self.old.program (steps - result.1) self.old.conf (H.state host.old)
            result.0 self.new.conf (H.state host.new) }
        ensures within { result.1 ≤ steps }
        ensures paused { self.old.ended ≡ None → result.1 ≢ 0 → H.halts (H.state host.new) ≡ true }
        ensures first { self.old.ended ≡ None → result.0 ≡ MachineEnd.OutOfSteps
            → H.halts (H.state host.old) ≡ false → H.halts (H.state host.new) ≡ true
            → CalledLast H.meaning self.old.program H.halts steps result.1 self.old.conf
            (H.state host.old) self.new.conf (H.state host.new) }
        ensures again { IfSome self.old.ended
            (λ e. (result ≡ (e, steps)) × (self.new ≡ self.old) × (host.new ≡ host.old)) }
        ensures ended { self.old.ended ≡ None → self.new.ended ≡ lasting result.0 }
    {
        if let Some(end) = self.ended {
            return (end, steps);
        }
        let stopped = run_to_pause(&mut self.parts, host, steps);
        let end = tell(stopped.end);
        if end != MachineEnd::OutOfSteps {
            self.ended = Some(end);
        }
        (end, stopped.left)
    }

    /// How many frames wait: one less than are open. The last of them is the first frame, in which the machine calls `main`.
    pub fn waiting(&self) -> usize
        ensures { result ≡ length self.now.conf.callers }
    {
        self.parts.state.frames.waiting()
    }

    /// Where a frame stands. The one at work has the number 0; those that wait come after it, the innermost first.
    pub fn place(&self, number: usize) -> Option<Place>
        ensures stands { MatchOption result (frame_at self.now.conf number ≡ None)
            (λ place. StandsAt self.now.program.whole place (frame_at self.now.conf number)) }
        ensures within { self.now.ended ≡ None
            → IfSome result (λ place. place.function ≤ length self.now.program.whole.funcs) }
    {
        match self.parts.state.frames.numbered(number) {
            Some(frame) => Some(place_of(frame)),
            None => None,
        }
    }

    /// The instruction at a place of the flat code, if there is one without a body.
    pub fn instruction(&self, place: Place) -> Option<Simple> {
        self.parts.program.instruction(place)
    }

    /// The number that the host has for the import that is called at a place, if one is.
    pub fn import(&self, place: Place) -> Option<u32> {
        self.parts.program.import(place)
    }

    /// Whether the innermost block around a place also stands around another place of that function.
    pub fn encloses(&self, outer: Place, inner: usize) -> bool {
        self.parts.program.encloses(outer, inner)
    }

    /// The word of a local of the frame at work.
    pub fn local(&self, number: u32) -> Option<Word> {
        self.parts.state.frames.local(number)
    }

    /// The value of a global.
    pub fn global(&self, number: u32) -> Option<Word>
        ensures { result ≡ slice_get self.now.conf.globals number }
    {
        self.parts.state.globals.get(number)
    }

    /// The bytes of the memory.
    pub fn memory(&self) -> &[u8]
        ensures { result.now ≡ self.now.conf.memory.bytes }
    {
        self.parts.state.memory.bytes()
    }

    /// The number of the `nop` with which the statement begins that is at work at a place, among those of its function's code: the last one before the place in
    /// whose block it stands. In a loop in which this import of the host is called, by its number there, what comes before the loop does not count.
    pub fn statement(&self, place: Place, import: u32) -> Option<usize>
        ensures { HasStatement self.now.program import place result }
    {
        self.parts.program.statement(place, import)
    }
}
