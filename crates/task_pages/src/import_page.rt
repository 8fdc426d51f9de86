//! What `imports` prints.
ghost use Rattle.std.specs.Io.KnownBytes.{Appends};
ghost use Rattle.std.specs.Prelude.{◌≡◌, ◌≢◌, ◌⊎◌, ◌++◌, ℕ, List, IfErr, IfOk, OnOk, string_bytes};
ghost use Rattle.task_pages.specs.Outcomes.{IsUnread, IsUnwritten, ListsSo};
ghost use Rattle.task_pages.specs.Printed.{PrintsImports, imports_text, line, names_text, reads_text, writes_text};
ghost use Rattle.run_report.specs.declared.end.RunEnd.TheVariants.{Ended};

use crate::files::{MODULE_LIMIT, file_of};
use crate::imports::listed;
use crate::output::write_text;
use crate::powers::{Reads, Writes, reads_of, writes_of};
use crate::task_error::TaskError;
use host_imports::Import;
use run_report::RunEnd;
use std::alloc::{AllocError, Global};
use std::io::Write;

fn reads_text(reads: Reads) -> &'static str
    ensures { result.now ≡ reads_text reads }
{
    match reads {
        Reads::Nothing => "reads nothing",
        Reads::Operands => "reads the operands and the standard input, and no other file",
        Reads::AnyName => "may read any file by its name",
    }
}

fn writes_text(writes: Writes) -> &'static str
    ensures { result.now ≡ writes_text writes }
{
    match writes {
        Writes::Nothing => "writes nothing",
        Writes::AnyName => "may write to the standard output, and to any file by its name",
    }
}

/// Adds a line.
fn push_line(text: &mut String, added: &str) -> Result<(), AllocError>
    ensures { OnOk result (string_bytes text.new ≡ string_bytes text.old ++ line added.now) }
{
    text.push_str(added)?;
    text.push_str("\n")
}

/// The names of the imports, a line each.
fn names_of(alloc: Global, imports: &[Import]) -> Result<String, AllocError>
    ensures { IfOk result (λ text. string_bytes text ≡ names_text imports.now) }
{
    let mut text = String::new(alloc);
    for import in imports {
        push_line(&mut text, import.name())?;
    }
    Ok(text)
}

/// The names of the imports, a line each, and what follows from them.
fn imports_text(alloc: Global, imports: &[Import]) -> Result<String, AllocError>
    ensures { IfOk result (λ text. string_bytes text ≡ imports_text imports.now) }
{
    let mut text = names_of(alloc, imports)?;
    push_line(&mut text, "")?;
    push_line(&mut text, reads_text(reads_of(imports)))?;
    push_line(&mut text, writes_text(writes_of(imports)))?;
    Ok(text)
}

/// Writes the names of the imports, and what follows from them.
fn write_imports<W: Write>(alloc: Global, to: &mut W, imports: &[Import]) -> Result<(), TaskError>
    ensures ok { OnOk result (Appends (W.contents to.old) (W.contents to.new)
        (imports_text imports.now)) }
    ensures err { IfErr result IsUnwritten }
{
    let text = imports_text(alloc, imports)?;
    write_text(to, text.as_bytes())
}

/// Writes what the module of these bytes imports, and what follows; nothing where that is not listed.
fn imports_to<W: Write>(alloc: Global, to: &mut W, bytes: &[u8]) -> Result<RunEnd, TaskError>
    ensures ok { IfOk result (ListsSo bytes.now) }
    ensures text { IfOk result (λ e. e ≡ Ended 0
        → PrintsImports bytes.now (W.contents to.old) (W.contents to.new)) }
    ensures nothing { IfOk result (λ e. e ≢ Ended 0 → to.new ≡ to.old) }
    ensures err { IfErr result IsUnwritten }
{
    match listed(alloc, bytes) {
        Ok(imports) => {
            write_imports(alloc, to, &imports)?;
            Ok(RunEnd::Ended(0))
        }
        Err(end) => Ok(end),
    }
}

/// Prints what the module in a file imports, and what follows.
///
/// # Errors
///
/// If the file is not read, or the text not written.
pub fn imports_task(rt: &HostRuntime, file: &str) -> Result<RunEnd, TaskError>
    ensures ok { IfOk result (λ e. (bytes : List ℕ) × ListsSo bytes e) }
    ensures err { IfErr result (λ undone. IsUnread undone ⊎ IsUnwritten undone) }
{
    let bytes = file_of(rt, file, MODULE_LIMIT)?;
    imports_to(rt.alloc(), &mut rt.stdout(), &bytes)
}
