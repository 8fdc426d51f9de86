//! A run over a host that is told by its tables is a run over a host of the table of imports.
//!
//! Laws of the definitions, each the contract of a function that does nothing.
ghost use Rattle.std.specs.Prelude.{ℕ, List};
ghost use Rattle.sem_primitives.specs.Jobs.{JobForm};
ghost use Rattle.wasm_model.specs.Links.{IsNew};
ghost use Rattle.wasm_model.specs.Machines.{Conf};
ghost use Rattle.wasm_model.specs.Runs.{MachineForm};
ghost use Rattle.wasm_model.specs.MachineRuns.{Did};
ghost use Rattle.wasm_model.specs.declared.ends.MachineEnd.{MachineEnd};
ghost use Rattle.wasm_types.specs.Syntax.{ModuleForm};
ghost use Rattle.wasm_types.specs.Typing.{ModuleOk};
ghost use Rattle.world_core.specs.WorldState.{Action, Outside, Source};
ghost use Rattle.host_imports.specs.Imports.{host_finds};
ghost use Rattle.host_step.specs.Starts.{state_at_start};
ghost use Rattle.host_values.specs.Forms.{HostForm};
ghost use Rattle.host_values.specs.FormMeaning.{FormState, form_meaning};
ghost use Rattle.host_values.specs.Findings.{ShownFirst};
ghost use Rattle.host_values.specs.Shown.{Shown};
ghost use Rattle.sem_scripts.specs.ScriptRun.{Ending, Setting};
ghost use Rattle.agreement.specs.Modules.Agreement.{Agreement};
ghost use Rattle.agreement.specs.Runs.ToldRuns.{DoesSo, DoesSoThere, FoundRun, GoesOnThere, ToldRun, done_output};
ghost use Rattle.agreement.specs.Runs.MachineEnds.{told_by};

use world_core::World;

/// Over a modelled world, what a machine did with a typed module is how the module may end over a host of the table: with the same
/// output and the same fault, where the host shows the state at the start of a job. Where memory was wanting, its output is how that of another run
/// begins.
pub fn did<W: World>()
    ensures { W.is_modelled → (m : ModuleForm) → ModuleOk m → (a : MachineForm) → IsNew host_finds m a
        → (job : JobForm) (input : Source) (outside : Outside)
        → (f : HostForm) → Shown f (state_at_start job input outside)
        → (steps : ℕ) (e : MachineEnd) (c : Conf) (g : HostForm)
        → Did (form_meaning W.is_modelled) a.program steps a.conf (FormState.Told f) e c
        (FormState.Told g)
        → ToldRun m job input outside steps e g }
{}

/// Where a script and the module agree, the script does what was told.
pub fn does_so()
    ensures { (script : Setting → ℕ → Ending) (m : ModuleForm) → Agreement script m
        → (job : JobForm) (input : Source) (outside : Outside)
        → (steps : ℕ) (e : MachineEnd) (f : HostForm) → ToldRun m job input outside steps e f
        → DoesSo script job input outside (told_by f.fault e) f.shared.outside }
{}

/// Over any world, what a machine did with a typed module is how the module may end in an environment that others change too, over a host of the table: there
/// each opening, read and write finds the next of some list, with the same output. Where memory was wanting, another run begins with what was put out
/// before the step that wanted it.
pub fn found<W: World>()
    ensures { (m : ModuleForm) → ModuleOk m → (a : MachineForm) → IsNew host_finds m a
        → (job : JobForm) (input : Source) (outside : Outside)
        → (f : HostForm) → ShownFirst f job input outside
        → (steps : ℕ) (e : MachineEnd) (c : Conf) (g : HostForm)
        → (d : Did (form_meaning W.is_modelled) a.program steps a.conf (FormState.Told f) e c
        (FormState.Told g))
        → FoundRun m job steps e g (done_output (form_meaning W.is_modelled) a.program steps a.conf
        (FormState.Told f) d.0 d.1 c (FormState.Told g) d.3) }
{}

/// Where a script and the module agree, the script does so there, with the same output; and where the steps did not suffice, it is not over there within so many
/// turns as they suffice for, by the bound of the agreement.
pub fn does_so_there()
    ensures does { (script : Setting → ℕ → Ending) (m : ModuleForm) → Agreement script m
        → (job : JobForm) (steps : ℕ) (e : MachineEnd) (f : HostForm)
        (output : List Action) → (r : FoundRun m job steps e f output)
        → DoesSoThere script job r.finds (told_by f.fault e) output }
    ensures bounded { (script : Setting → ℕ → Ending) (m : ModuleForm)
        → (agree : Agreement script m) → (job : JobForm) (steps : ℕ) (f : HostForm)
        (output : List Action) → (r : FoundRun m job steps MachineEnd.OutOfSteps f output)
        → GoesOnThere script job r.finds agree.bound steps }
{}
