//! Laws of what is counted of a run: how often the script executes its statements.
ghost use Rattle.std.specs.Prelude.{◌≡◌, ℕ, List};
ghost use Rattle.awk_run.specs.Counted.{IsCountedIn};
ghost use Rattle.run_modules.specs.Executions.{Choice, ComesToEnd, Executes};
ghost use Rattle.awk_run.specs.Executions.{ExecutesSoFar, begun_in, end_of, passed_by, script_run};
ghost use Rattle.run_report.specs.declared.counts.RunCounts.{RunCounts};
ghost use Rattle.sem_primitives.specs.Jobs.{JobForm};
ghost use Rattle.sem_scripts.specs.ScriptRun.{setting_of};
ghost use Rattle.wasm_model.specs.declared.ends.MachineEnd.TheVariants.{OutOfSteps};
ghost use Rattle.world_core.specs.WorldState.{State};

use world_core::World;

/// In a modelled world the script executes what is chosen, whatever is chosen, before just as many steps of a counted run as the code that comes next begins it.
/// Of a run that is cut off: before at most so many.
pub fn steps_begin_executions<W: World>()
    ensures ended { W.is_modelled
        → (bytes : List ℕ) (job : JobForm) (steps : ℕ) (before : State) (counts : RunCounts)
        → (run : IsCountedIn W.is_modelled bytes job steps before counts) → ComesToEnd (end_of run)
        → (chosen : Choice)
        → Executes (script_run run) (setting_of job (before.readers 0) before.outside) chosen
        (begun_in run chosen) }
    ensures cut_off { W.is_modelled
        → (bytes : List ℕ) (job : JobForm) (steps : ℕ) (before : State) (counts : RunCounts)
        → (run : IsCountedIn W.is_modelled bytes job steps before counts) → end_of run ≡ OutOfSteps
        → (chosen : Choice) → ExecutesSoFar run chosen (begun_in run chosen) }
{}

/// In a modelled world a script executes what is chosen, whatever is chosen, just as often as its places were passed by what is counted. Of a run that is cut off it
/// does so at least so often.
pub fn counts_are_executions<W: World>()
    ensures ended { W.is_modelled
        → (bytes : List ℕ) (job : JobForm) (steps : ℕ) (before : State) (counts : RunCounts)
        → (run : IsCountedIn W.is_modelled bytes job steps before counts) → ComesToEnd (end_of run)
        → (chosen : Choice)
        → Executes (script_run run) (setting_of job (before.readers 0) before.outside) chosen
        (passed_by run chosen) }
    ensures cut_off { W.is_modelled
        → (bytes : List ℕ) (job : JobForm) (steps : ℕ) (before : State) (counts : RunCounts)
        → (run : IsCountedIn W.is_modelled bytes job steps before counts) → end_of run ≡ OutOfSteps
        → (chosen : Choice) → ExecutesSoFar run chosen (passed_by run chosen) }
{}
