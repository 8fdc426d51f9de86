//! What `check` prints.
ghost use Rattle.std.specs.Prelude.{◌⊎◌, ℕ, List, IfErr, IfOk};
ghost use Rattle.awkwasm.specs.Checked.{AreFoundIn, PrintsFindings};
ghost use Rattle.run_tasks.specs.Compiles.{Compiles};
ghost use Rattle.script_check.specs.Remarks.{view_findings};
ghost use Rattle.task_pages.specs.Outcomes.{IsUnread, IsUnwritten};

use run_report::RunEnd;
use run_tasks::{SCRIPT_LIMIT, compiled};
use script_check::{Finding, findings_of};
use script_code::MAX_SCRIPT_BYTES;
use std::alloc::{AllocError, Global};
use std::io::Write;
use task_pages::{TaskError, file_of, with_error, write_page};

/// What is found in a script: nothing in one that is too long, of which only the first bytes are there.
fn findings<'a>(alloc: Global, script: &'a [u8]) -> Result<Vec<Finding<'a>>, AllocError>
    ensures { IfOk result (λ found. AreFoundIn script.now (view_findings found.items)) }
{
    if script.len() > MAX_SCRIPT_BYTES {
        Ok(Vec::new(alloc))
    } else {
        findings_of(alloc, script)
    }
}

/// Writes what is to be said of a script. The answer is that of its compilation, without the module.
fn check_to<W: Write>(
    alloc: Global,
    to: &mut W,
    name: &str,
    script: &[u8],
) -> Result<RunEnd, TaskError>
    ensures ok { IfOk result (Compiles script.now) }
    ensures page { IfOk result (PrintsFindings name.now script.now (W.contents to.old)
        (W.contents to.new)) }
    ensures err { IfErr result IsUnwritten }
{
    let found = findings(alloc, script)?;
    match compiled(alloc, script) {
        Ok(_) => {
            write_page(alloc, to, name, script, &found)?;
            Ok(RunEnd::Ended(0))
        }
        Err(RunEnd::NoMemory) => Err(TaskError::NoMemory),
        Err(end) => {
            let told = with_error(found, &end)?;
            write_page(alloc, to, name, script, &told)?;
            Ok(end)
        }
    }
}

/// Prints what is to be said of a script's file.
///
/// # Errors
///
/// If the file is not read, or the text not written.
pub(crate) fn check_file(rt: &HostRuntime, script_file: &str) -> Result<RunEnd, TaskError>
    ensures ok { IfOk result (λ e. (bytes : List ℕ) × Compiles bytes e) }
    ensures err { IfErr result (λ undone. IsUnread undone ⊎ IsUnwritten undone) }
{
    let script = file_of(rt, script_file, SCRIPT_LIMIT)?;
    check_to(rt.alloc(), &mut rt.stdout(), script_file, &script)
}
