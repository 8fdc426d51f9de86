//! What a run is started with.
ghost use Rattle.std.specs.List.{list_any};
ghost use Rattle.std.specs.Prelude.{◌≡◌, ◌||◌};
ghost use Rattle.sem_primitives.specs.Jobs.{fault_of_job, is_long};
ghost use Rattle.host_tables.specs.Starts.{empty_job, is_long_pair, job_of};

use awk_values::{Bytes, Fault};
use host_texts::NamedText;
use sem_primitives::MAX_TEXT;
use std::alloc::Global;

/// What a run is started with (POSIX.1-2017 awk, "Operands", "Options" and "Environment variables").
#[derive(Drop)]
pub struct Job {
    /// The operands, in order, without the name of the utility.
    pub operands: Vec<Bytes>,
    /// The assignments of the command line before the operands (`-v`), in order.
    pub assigns: Vec<NamedText>,
    /// The environment; a later pair of a name replaces an earlier one.
    pub environment: Vec<NamedText>,
}

impl Job {
    /// A job without operands, assignments or environment. It takes no memory.
    pub fn empty(alloc: Global) -> Job
        ensures { job_of result ≡ empty_job }
    {
        Job {
            operands: Vec::new(alloc),
            assigns: Vec::new(alloc),
            environment: Vec::new(alloc),
        }
    }
}

fn is_long(text: &Bytes) -> bool
    ensures { result ≡ is_long text.now }
{
    text.len() > MAX_TEXT
}

fn is_long_pair(pair: &NamedText) -> bool
    ensures { result ≡ is_long_pair pair.now }
{
    is_long(&pair.name) || is_long(&pair.text)
}

fn any_long(texts: &[Bytes]) -> bool
    ensures { result ≡ list_any is_long texts.now }
{
    texts.iter().any(is_long)
}

fn any_long_pair(pairs: &[NamedText]) -> bool
    ensures { result ≡ list_any is_long_pair pairs.now }
{
    pairs.iter().any(is_long_pair)
}

/// Whether a text of the job is past the limit.
fn has_long(job: &Job) -> bool
    ensures { result ≡ (list_any is_long job.now.operands.items || (list_any is_long_pair
        job.now.assigns.items || list_any is_long_pair job.now.environment.items)) }
{
    any_long(&job.operands) || any_long_pair(&job.assigns) || any_long_pair(&job.environment)
}

/// The fault that is kept from the start: `TextLimit`, where a text is past 67,108,864 bytes.
pub(crate) fn fault_of(job: &Job) -> Option<Fault>
    ensures { result ≡ fault_of_job (job_of job.now) }
{
    if has_long(job) {
        Some(Fault::TextLimit)
    } else {
        None
    }
}
