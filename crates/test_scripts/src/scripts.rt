//! Scripts, compiled and run.
ghost use Rattle.std.specs.Prelude.{◌≡◌, ℕ, List, IfOk, IfErr};
ghost use Rattle.run_modules.specs.ModuleRun.{Answers, IsGiven};
ghost use Rattle.awk_run.specs.ScriptRuns.{ScriptAnswers};
ghost use Rattle.host_tables.specs.Starts.{empty_job, job_of};
ghost use Rattle.script_compiler.specs.Compiled.{IsCompiled};
ghost use Rattle.script_compiler.specs.Refusals.{IsNotCompiled};

use awk_run::{CompileFault, RunEnd, compile, run_module, run_script};
use host_calls::Job;
use std::alloc::Global;
use std::hash::RandomState;
use world_core::World;

/// How many steps a script has here.
const STEPS: u64 = 100_000_000;

/// Compiles a script, and runs its module over a world, which is given back with the output.
///
/// # Errors
///
/// Those of [`compile`]; the world is given back then too, and nothing was done to it.
pub fn run_once<W: World>(
    alloc: Global,
    script: &[u8],
    job: &Job,
    state: RandomState,
    world: W,
) -> Result<(RunEnd, W), (CompileFault, W)>
    ensures ran { IfOk result (λ r. (bytes : List ℕ) × IsCompiled script.now bytes
        × Answers W.is_modelled (IsGiven W.did world r.1) bytes (job_of job.now) 100000000
        (W.state world) r.0 (W.state r.1)) }
    ensures refused { IfErr result (λ e. IsNotCompiled script.now e.0 × (e.1 ≡ world)) }
{
    match compile(alloc, script) {
        Ok(module) => Ok(run_module(alloc, &module, job, state, world, STEPS)),
        Err(fault) => Err((fault, world)),
    }
}

/// Runs a script over a world in a job without operands, assignments and environment, and gives the world back with the output.
pub fn run_alone<W: World>(
    alloc: Global,
    script: &[u8],
    state: RandomState,
    world: W,
) -> (RunEnd, W)
    ensures { ScriptAnswers W.is_modelled (IsGiven W.did world result.1) script.now empty_job
        100000000 (W.state world) result.0 (W.state result.1) }
{
    let job = Job::empty(alloc);
    run_script(alloc, script, &job, state, world, STEPS)
}
