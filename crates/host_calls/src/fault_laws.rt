//! Laws of runs over the host, each the contract of a function that does nothing.
ghost use Rattle.std.specs.Prelude.{◌≡◌, ℕ, List, None, Some};
ghost use Rattle.awk_values.specs.declared.fault.Fault.{Fault};
ghost use Rattle.host_step.specs.HostState.{HostState};
ghost use Rattle.host_values.specs.FormMeaning.{Told, form_meaning};
ghost use Rattle.host_values.specs.Forms.{HostForm};
ghost use Rattle.host_values.specs.Shown.{Shown};
ghost use Rattle.wasm_model.specs.Machines.{Conf, ProgramForm};
ghost use Rattle.wasm_model.specs.Runs.{Steps};
ghost use Rattle.world_core.specs.WorldState.{Action};

use world_core::World;

/// A fault that is kept stays: wherever the run goes on from there, it is the one that is kept. So where none is kept, none was kept before.
pub fn kept_faults_stay<W: World>()
    ensures stays { (program : ProgramForm) (taken rest : ℕ) (start conf later : Conf)
        (first form last : HostForm) (state : HostState) (output more : List Action)
        → Shown first state
        → Steps (form_meaning W.is_modelled) program taken start (Told first) output conf (Told form)
        → Steps (form_meaning W.is_modelled) program rest conf (Told form) more later (Told last)
        → (fault : Fault) → form.fault ≡ Some fault → last.fault ≡ Some fault }
    ensures none_before { (program : ProgramForm) (taken rest : ℕ) (start conf later : Conf)
        (first form last : HostForm) (state : HostState) (output more : List Action)
        → Shown first state
        → Steps (form_meaning W.is_modelled) program taken start (Told first) output conf (Told form)
        → Steps (form_meaning W.is_modelled) program rest conf (Told form) more later (Told last)
        → last.fault ≡ None → form.fault ≡ None }
{}
