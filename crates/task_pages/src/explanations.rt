//! What `explain` prints.
ghost use Rattle.std.specs.Prelude.{◌≡◌, ◌++◌, Err, IfErr, IfOk, OnOk, string_bytes};
ghost use Rattle.run_report.specs.Topics.{all_topics};
ghost use Rattle.task_pages.specs.Outcomes.{IsExplained, IsNotExplained};
ghost use Rattle.task_pages.specs.Explained.{IsExplanation, PrintsExplanation, explanation_text, topic_text, topics_text};
ghost use Rattle.task_pages.specs.Printed.{line};

use crate::output::write_text;
use crate::task_error::TaskError;
use run_report::{Explanation, RunEnd, TOPICS, Topic, explain, topic_named};
use std::alloc::{AllocError, Global};
use std::io::Write;

/// Adds a line of two parts.
fn push_line(text: &mut String, lead: &str, part: &str) -> Result<(), AllocError>
    ensures { OnOk result (string_bytes text.new ≡ string_bytes text.old ++ line (lead.now ++ part.now)) }
{
    text.push_str(lead)?;
    text.push_str(part)?;
    text.push_str("\n")
}

/// The names of topics, a line each.
fn names_of(alloc: Global, topics: &[Topic]) -> Result<String, AllocError>
    ensures { IfOk result (λ text. string_bytes text ≡ topics_text topics.now) }
{
    let mut text = String::new(alloc);
    for topic in topics {
        push_line(&mut text, "", topic.name())?;
    }
    Ok(text)
}

/// The names that can be explained, a line each.
fn names_text(alloc: Global) -> Result<String, AllocError>
    ensures { IfOk result (λ text. string_bytes text ≡ topics_text all_topics) }
{
    names_of(alloc, &TOPICS)
}

/// What is said under a name.
fn told(alloc: Global, name: &str, explanation: Explanation) -> Result<String, AllocError>
    ensures { IfOk result (λ text. string_bytes text ≡ explanation_text name.now (record {
      meaning = explanation.meaning.now;
      command = explanation.command.now;
      shown = explanation.shown.now;
      advice = explanation.advice.now;
    })) }
{
    let mut text = String::new(alloc);
    text.push_str(name)?;
    push_line(&mut text, ": ", explanation.meaning)?;
    push_line(&mut text, "\n  $ ", explanation.command)?;
    push_line(&mut text, "  ", explanation.shown)?;
    push_line(&mut text, "\n", explanation.advice)?;
    Ok(text)
}

/// What a name means, a command that it comes of and what that command says, and what to do.
fn explanation_text(alloc: Global, topic: Topic) -> Result<String, AllocError>
    ensures { IfOk result (λ text. string_bytes text ≡ topic_text topic) }
{
    told(alloc, topic.name(), explain(topic))
}

/// What is asked of `explain`: what a name means, or which names there are.
fn explained(alloc: Global, name: Option<&str>) -> Result<String, TaskError>
    ensures text { IfOk result (λ text. IsExplanation name.entry (string_bytes text)) }
    ensures err { IfErr result (IsNotExplained name.entry) }
{
    let Some(name) = name else {
        return Ok(names_text(alloc)?);
    };
    match topic_named(name) {
        Some(topic) => Ok(explanation_text(alloc, topic)?),
        None => Err(TaskError::Unexplained),
    }
}

/// Writes what is asked of `explain`.
///
/// # Errors
///
/// If nothing has the name, or the text is not written.
#[tactic(auto, using(crate::proofs::Printing::unprinted))]
pub fn explain_to<W: Write>(
    alloc: Global,
    to: &mut W,
    name: Option<&str>,
) -> Result<RunEnd, TaskError>
    ensures text { OnOk result (PrintsExplanation name.entry (W.contents to.old) (W.contents to.new)) }
    ensures done { IsExplained name.entry result }
    ensures nothing { result ≡ Err TaskError.Unexplained → to.new ≡ to.old }
{
    let text = explained(alloc, name)?;
    write_text(to, text.as_bytes())?;
    Ok(RunEnd::Ended(0))
}
