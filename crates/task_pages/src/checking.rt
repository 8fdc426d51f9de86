//! What `check` prints of what is found in a script.
ghost use Rattle.std.specs.Io.KnownBytes.{Appends};
ghost use Rattle.std.specs.Prelude.{◌≡◌, IfErr, IfOk, OnOk, true};
ghost use Rattle.task_pages.specs.Checked.{end_name, has_error, is_error, whole_refusal, with_error};
ghost use Rattle.task_pages.specs.Outcomes.{IsUnwritten};
ghost use Rattle.script_check.specs.Page.{page_text};
ghost use Rattle.script_check.specs.Remarks.{view_finding, view_findings};

use crate::output::write_text;
use crate::task_error::TaskError;
use run_report::{RunEnd, topic_of};
use script_check::{Finding, Said, Severity, page_of};
use std::alloc::{AllocError, Global};
use std::io::Write;

/// The name in the line of an end; empty where there is no line.
fn name_of(end: &RunEnd) -> &'static str
    ensures { result.now ≡ end_name end.now }
{
    match topic_of(end) {
        Some(topic) => topic.name(),
        None => "",
    }
}

/// The finding that a script is refused as a whole.
fn whole_refusal<'a>(end: &RunEnd) -> Finding<'a>
    ensures said { view_finding result ≡ whole_refusal end.now }
    ensures grave { is_error result ≡ true }
{
    let said = Said {
        severity: Severity::Error,
        word: name_of(end),
        name: &[],
        text: "the whole script is refused",
        line: None,
    };
    Finding {
        start: 0,
        length: 0,
        said,
    }
}

/// Whether a finding is one that a script is refused for.
fn is_error(found: &Finding<'_>) -> bool
    ensures { result ≡ is_error found.now }
{
    matches!(found.said.severity, Severity::Error)
}

fn has_error(found: &[Finding<'_>]) -> bool
    ensures { result ≡ has_error found.now }
{
    found.iter().any(|one| is_error(one))
}

/// What is told of a script that is refused so: what is found in it and, if that has no error, one more.
///
/// # Errors
///
/// If memory runs out.
pub fn with_error<'a>(found: Vec<Finding<'a>>, end: &RunEnd) -> Result<Vec<Finding<'a>>, AllocError>
    ensures grave { IfOk result (λ told. has_error told.items ≡ true) }
    ensures told { IfOk result
        (λ told. view_findings told.items ≡ with_error found.entry.items end.now) }
{
    if has_error(&found) {
        return Ok(found);
    }
    let mut told = found;
    told.push(whole_refusal(end))?;
    Ok(told)
}

/// Writes findings of a script.
///
/// # Errors
///
/// If they are not written.
pub fn write_page<W: Write>(
    alloc: Global,
    to: &mut W,
    name: &str,
    script: &[u8],
    found: &[Finding<'_>],
) -> Result<(), TaskError>
    ensures ok { OnOk result (Appends (W.contents to.old) (W.contents to.new)
        (page_text name.now script.now (view_findings found.now))) }
    ensures err { IfErr result IsUnwritten }
{
    let page = page_of(alloc, name.as_bytes(), script, found)?;
    write_text(to, &page)
}
