//! Scripts in the sandbox.
ghost use Rattle.run_modules.specs.ModuleRun.{IsGiven};
ghost use Rattle.awk_run.specs.ScriptRuns.{ScriptAnswers};
ghost use Rattle.host_tables.specs.Starts.{job_of};

use host_calls::Job;
use run_modules::run_module;
use run_report::{Refusal, RunEnd};
use script_compiler::{CompileFault, compile};
use std::alloc::Global;
use std::hash::RandomState;
use world_core::World;

/// Runs a script in a job over a world, for so many steps of its module at most, and gives the world back. `state` seeds the tables of its arrays,
/// and shows in no answer.
///
/// The answer is [`RunEnd::Refused`] with [`Refusal::Compile`] where the script is not compiled, and never otherwise; nothing is done to the world then.
/// [`RunEnd::NoMemory`] may come instead of any other answer, where memory was wanting; what went out by then is how the script's output begins.
/// [`RunEnd::OutOfSteps`] where the steps did not suffice, after a beginning of its output. Any other answer is how the script ends, with its output.
/// What the script does is said of every world, where each opening, read and write finds the next of some list, and the output is what was given to the world;
/// and over what the names hold, where the world tells it.
#[tactic(auto, using(crate::proofs::ScriptRuns::script_answers, run_modules::proofs::Gave::none_given))]
pub fn run_script<W: World>(
    alloc: Global,
    script: &[u8],
    job: &Job,
    state: RandomState,
    world: W,
    steps: u64,
) -> (RunEnd, W)
    ensures { ScriptAnswers W.is_modelled (IsGiven W.did world result.1) script.now
        (job_of job.now) steps (W.state world) result.0 (W.state result.1) }
{
    match compile(alloc, script) {
        Ok(module) => run_module(alloc, &module, job, state, world, steps),
        Err(CompileFault::NoMemory) => (RunEnd::NoMemory, world),
        Err(fault) => (RunEnd::Refused(Refusal::Compile(fault)), world),
    }
}
