//! Scripts in the sandbox, with how often their lines were executed.
ghost use Rattle.std.specs.Prelude.{IfSome};
ghost use Rattle.awk_run.specs.Counted.{IsCountedIn};
ghost use Rattle.run_modules.specs.ModuleRun.{IsGiven};
ghost use Rattle.awk_run.specs.ScriptRuns.{ScriptAnswers};
ghost use Rattle.host_tables.specs.Starts.{job_of};

use host_calls::Job;
use run_modules::count_compiled;
use run_report::{Refusal, RunCounts, RunEnd};
use script_compiler::{CompileFault, compile};
use std::alloc::Global;
use std::hash::RandomState;
use world_core::World;

/// As `run_script`, and counts: how often each line's first statement was executed, and what the run took. It is slower, since the module is run a step at a
/// time. Nothing is counted of a script that is not run, or for want of memory.
#[tactic(auto, using(crate::proofs::ScriptRuns::script_answers, run_modules::proofs::Gave::none_given))]
pub fn count_script<W: World>(
    alloc: Global,
    script: &[u8],
    job: &Job,
    state: RandomState,
    world: W,
    steps: u64,
) -> (RunEnd, Option<RunCounts>, W)
    ensures answers { ScriptAnswers W.is_modelled (IsGiven W.did world result.2) script.now
        (job_of job.now) steps (W.state world) result.0 (W.state result.2) }
    ensures counted { IfSome result.1 (IsCountedIn W.is_modelled script.now (job_of job.now) steps
        (W.state world)) }
{
    match compile(alloc, script) {
        Ok(module) => count_compiled(alloc, script, &module, job, state, world, steps),
        Err(CompileFault::NoMemory) => (RunEnd::NoMemory, None, world),
        Err(fault) => (RunEnd::Refused(Refusal::Compile(fault)), None, world),
    }
}
