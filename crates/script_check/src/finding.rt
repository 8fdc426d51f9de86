//! What is found in a script.

ghost use Rattle.std.specs.Prelude.{◌≡◌, ◌++◌, ◌+◌, ◌≤◌, OnOk, codes, option_map, option_to_list};
ghost use Rattle.script_check.specs.Remarks.{Gains, bounded, error, matter_remark, note, trouble_remark, view_finding, view_said, warning};

use crate::matter::{Matter, Trouble};
use std::alloc::AllocError;

/// How grave a finding is.
#[derive(Clone, Copy, Debug, PartialEq, Eq)]
pub enum Severity {
    /// The script is refused for it.
    Error,
    /// It looks like a slip.
    Warning,
    /// It belongs to the finding before it.
    Note,
}

/// What is said: the name of a refusal, if it is one, what of the script it is about, an explanation, and the line that the explanation ends in. Any of
/// them may be empty.
#[derive(Clone, Copy)]
pub struct Said<'a> {
    pub severity: Severity,
    pub word: &'static str,
    pub name: &'a [u8],
    pub text: &'static str,
    pub line: Option<usize>,
}

/// A finding, and the bytes of the script that it is about.
#[derive(Clone, Copy)]
pub struct Finding<'a> {
    pub start: usize,
    pub length: usize,
    pub said: Said<'a>,
}

impl<'a> Said<'a> {
    /// A refusal.
    pub(crate) fn error(word: &'static str, name: &'a [u8], text: &'static str) -> Said<'a>
        ensures { view_said result ≡ error word.now name.now text.now }
    {
        Said {
            severity: Severity::Error,
            word,
            name,
            text,
            line: None,
        }
    }

    /// A slip.
    pub(crate) fn warning(name: &'a [u8], text: &'static str) -> Said<'a>
        ensures { view_said result ≡ warning name.now text.now }
    {
        Said {
            severity: Severity::Warning,
            word: "",
            name,
            text,
            line: None,
        }
    }

    /// What belongs to the finding before.
    pub(crate) fn note(text: &'static str) -> Said<'a>
        ensures { view_said result ≡ note text.now }
    {
        Said {
            severity: Severity::Note,
            word: "",
            name: &[],
            text,
            line: None,
        }
    }
}

/// What is said of a use of this name.
pub(crate) fn said_of(matter: Matter, name: &[u8]) -> Said<'_>
    ensures { view_said result ≡ matter_remark matter name.now }
{
    match matter {
        Matter::UnknownFunction => {
            Said::error(
                "UnknownFunction",
                name,
                "the script has no function of this name",
            )
        }
        Matter::ArgCount => {
            Said::error(
                "ArgCount",
                name,
                "more arguments than the function has parameters",
            )
        }
        Matter::NeverCalled => Said::warning(name, "is never called"),
        Matter::NeverAssigned => Said::warning(name, "is never assigned"),
        Matter::NeverRead => Said::warning(name, "is never read"),
        Matter::OnlyJoins => Said::warning(name, "begins a statement that only joins texts"),
        Matter::AssignedCondition => {
            Said::warning(&[], "= assigns, and is the whole condition; == compares")
        }
        Matter::UnevenQuotient => Said::warning(&[], "the quotient of these numbers is not whole"),
    }
}

/// What is said of a use of this name where a script is refused for its names.
pub(crate) fn said_of_trouble(trouble: Trouble, name: &[u8]) -> Said<'_>
    ensures { view_said result ≡ trouble_remark trouble name.now }
{
    match trouble {
        Trouble::TooMany => {
            Said::error(
                "TooMany",
                name,
                "more than 1,000 functions, or more than 100 parameters",
            )
        }
        Trouble::DuplicateName => {
            Said::error("DuplicateName", name, "the name stands for two things")
        }
        Trouble::KindClash => Said::error("KindClash", name, "it is an array and a variable"),
        Trouble::AsArray => Said::note("an array here"),
        Trouble::AsScalar => Said::note("a variable here"),
    }
}

/// A finding about bytes of a script that has so many: as far as they are within it.
pub(crate) fn bounded(size: usize, start: usize, length: usize, said: Said<'_>) -> Finding<'_>
    ensures within { result.start + result.length ≤ size }
    ensures value { view_finding result ≡ bounded size start length (view_said said.entry) }
{
    let start = if start <= size { start } else { size };
    let length = if length <= size - start {
        length
    } else {
        size - start
    };
    Finding {
        start,
        length,
        said,
    }
}

/// Adds a finding, if there is one.
pub(crate) fn push_found<'a>(
    out: &mut Vec<Finding<'a>>,
    found: Option<Finding<'a>>,
) -> Result<(), AllocError>
    ensures { OnOk result (Gains out.old.items out.new.items
        (option_to_list (option_map view_finding found.entry))) }
{
    if let Some(found) = found {
        out.push(found)?;
    }
    Ok(())
}
