//! What the name of a fault, a refusal, a trap, an end or a status means, and what to do.
ghost use Rattle.std.specs.Prelude.{◌≡◌};
ghost use Rattle.run_report.specs.Explanations.{explanation, form_of};
ghost use Rattle.run_report.specs.Topics.{Shows};

mod ends;
mod faults;
mod files;
mod modules;
mod scripts;
mod statuses;
mod traps;

use crate::explained::ends::end_explanation;
use crate::explained::faults::fault_explanation;
use crate::explained::files::file_explanation;
use crate::explained::modules::module_explanation;
use crate::explained::scripts::script_explanation;
use crate::explained::statuses::status_explanation;
use crate::explained::traps::trap_explanation;
use crate::topic::Topic;

/// What is said of a name.
#[derive(Clone, Copy, Drop)]
pub struct Explanation {
    /// What it means.
    pub meaning: &'static str,
    /// A command that it comes of.
    pub command: &'static str,
    /// What that command says.
    pub shown: &'static str,
    /// What to do.
    pub advice: &'static str,
}

/// What is said of a topic. What its command shows is the line that tells the topic, with whatever that line goes on to say; of a status the number.
pub fn explain(topic: Topic) -> Explanation
    ensures said { form_of result ≡ explanation topic }
    ensures shown { Shows topic result.shown.now }
{
    match topic {
        Topic::Fault(fault) => fault_explanation(fault),
        Topic::Script(refusal) => script_explanation(refusal),
        Topic::Module(refusal) => module_explanation(refusal),
        Topic::Trap(kind) => trap_explanation(kind),
        Topic::End(end) => end_explanation(end),
        Topic::File(fault) => file_explanation(fault),
        Topic::Status(status) => status_explanation(status),
    }
}
