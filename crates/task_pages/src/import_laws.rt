//! Laws of the calls that modules make, each the contract of a function that does nothing.
ghost use Rattle.std.specs.Prelude.{◌≡◌, ℕ, List, [], false};
ghost use Rattle.host_step.specs.HostState.{HostState};
ghost use Rattle.host_step.specs.HostStep.{StepOf};
ghost use Rattle.host_imports.specs.declared.import.Import.{Import};
ghost use Rattle.task_pages.specs.Calls.{only};
ghost use Rattle.task_pages.specs.Powers.{writes};
ghost use Rattle.wasm_model.specs.Machines.{Conf, ProgramForm};
ghost use Rattle.wasm_model.specs.Runs.{Ran};
ghost use Rattle.wasm_model.specs.declared.host.HostAnswer.{HostAnswer};
ghost use Rattle.wasm_model.specs.declared.ends.RunEnd.{RunEnd};
ghost use Rattle.wasm_store.specs.declared.word.Word.{Word};
ghost use Rattle.world_core.specs.WorldState.{Action};

use wasm_model::HostCalls;

/// A run makes no call but those that its module imports, whatever its host is: it is a run over the host without all others.
pub fn runs_make_imported_calls<H: HostCalls>()
    ensures { (m : ProgramForm) (steps : ℕ) (c c' : Conf) (h h' : H.State) (output : List H.Output)
        (e : RunEnd) → Ran H.meaning m steps c h output e c' h'
        → Ran (only m.numbers H.meaning) m steps c h output e c' h' }
{}

/// No call but `print` and `printf` puts anything out.
pub fn other_calls_write_nothing()
    ensures { (i : Import) (before after : HostState) (words : List Word) (memory : List ℕ)
        (a : HostAnswer) (output : List Action) → writes i ≡ false
        → StepOf i before words memory a after output → output ≡ [] }
{}
