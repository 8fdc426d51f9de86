//! The line that tells where a module without lines was.
ghost use Rattle.std.specs.Prelude.{◌≡◌, ◌++◌, [], IfOk, OnOk, Some, decimal, if◌then◌else◌};
ghost use Rattle.run_report.specs.WhereTexts.{is_told};
ghost use Rattle.task_pages.specs.UnlinedTexts.{unlined_text};

use itoa::Buffer;
use run_report::RunEnd;
use std::alloc::{AllocError, Global};

/// Adds a number in digits.
fn push_number(text: &mut Vec<u8>, number: usize) -> Result<(), AllocError>
    ensures { OnOk result (text.new.items ≡ text.old.items ++ decimal number) }
{
    let mut digits = Buffer::new();
    text.extend_from_slice(digits.format(number).as_bytes())
}

/// Adds what is told of a module without lines in which a function of this number was at work.
fn push_function(text: &mut Vec<u8>, number: usize) -> Result<(), AllocError>
    ensures { OnOk result (text.new.items ≡ text.old.items ++ unlined_text (Some number)) }
{
    text.extend_from_slice("  in function ".as_bytes())?;
    push_number(text, number)?;
    text.extend_from_slice(
        " of the module, which has no lines: awkwasm compile --lines writes them\n".as_bytes(),
    )?;
    Ok(())
}

/// Adds what is told of a module without lines.
fn push_unlined(text: &mut Vec<u8>, function: Option<usize>) -> Result<(), AllocError>
    ensures { OnOk result (text.new.items ≡ text.old.items ++ unlined_text function) }
{
    match function {
        Some(number) => push_function(text, number),
        None => text.extend_from_slice(
            "  the module has no lines: awkwasm compile --lines writes them\n".as_bytes(),
        ),
    }
}

/// Whether of a run that ended so it is told where its script or module was: not where it ended by itself, and not where it did not begin.
pub fn is_told(end: &RunEnd) -> bool
    ensures { result ≡ is_told end.now }
{
    !matches!(end, RunEnd::Ended(_) | RunEnd::Refused(_))
}

/// What is told of a module without lines that ended so.
///
/// # Errors
///
/// For want of memory.
pub fn unlined_text(
    alloc: Global,
    end: &RunEnd,
    function: Option<usize>,
) -> Result<Vec<u8>, AllocError>
    ensures { IfOk result (λ text. text.items
        ≡ (if is_told end.now then unlined_text function else [])) }
{
    let mut text = Vec::new(alloc);
    if is_told(end) {
        push_unlined(&mut text, function)?;
    }
    Ok(text)
}
