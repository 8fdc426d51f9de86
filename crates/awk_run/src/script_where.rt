//! Scripts in the sandbox, with where they were.
ghost use Rattle.std.specs.Prelude.{IfSome};
ghost use Rattle.run_modules.specs.ModuleRun.{IsGiven};
ghost use Rattle.awk_run.specs.ScriptRuns.{ScriptAnswers};
ghost use Rattle.awk_run.specs.Seen.{IsSeenIn};
ghost use Rattle.host_tables.specs.Starts.{job_of};

use host_calls::Job;
use run_modules::run_compiled_where;
use run_report::{Refusal, RunEnd, Whereabouts};
use script_compiler::{CompileFault, compile};
use std::alloc::Global;
use std::hash::RandomState;
use world_core::World;

/// As `run_script`, and tells where the script was: where its run kept the first fault, or else where it ended. None is told of a script that is not run or that
/// ends by itself, or for want of memory.
#[tactic(auto, using(crate::proofs::ScriptRuns::script_answers, run_modules::proofs::Gave::none_given))]
pub fn run_script_where<W: World>(
    alloc: Global,
    script: &[u8],
    job: &Job,
    state: RandomState,
    world: W,
    steps: u64,
) -> (RunEnd, Option<Whereabouts>, W)
    ensures answers { ScriptAnswers W.is_modelled (IsGiven W.did world result.2) script.now
        (job_of job.now) steps (W.state world) result.0 (W.state result.2) }
    ensures seen { IfSome result.1 (IsSeenIn W.is_modelled script.now (job_of job.now) steps
        (W.state world)) }
{
    match compile(alloc, script) {
        Ok(module) => run_compiled_where(alloc, script, &module, job, state, world, steps),
        Err(CompileFault::NoMemory) => (RunEnd::NoMemory, None, world),
        Err(fault) => (RunEnd::Refused(Refusal::Compile(fault)), None, world),
    }
}
