//! The lines that tell where a module was.
ghost use Rattle.std.specs.Prelude.{◌≡◌, IfOk};
ghost use Rattle.run_tasks.specs.ModuleWhereTexts.{module_where_text};

use awk_run::{ModuleWhereabouts, RunEnd};
use run_report::where_text;
use std::alloc::{AllocError, Global};
use task_pages::unlined_text;

/// The lines for the standard error that tell where a module was, after the one that tells how its run ended. Each begins with two spaces. There are none where
/// the run ended by itself, or did not begin.
///
/// # Errors
///
/// For want of memory.
pub fn module_where_text(
    alloc: Global,
    end: &RunEnd,
    found: &ModuleWhereabouts,
) -> Result<Vec<u8>, AllocError>
    ensures { IfOk result (λ text. text.items ≡ module_where_text end.now found.now) }
{
    match found {
        ModuleWhereabouts::Lined(found) => where_text(alloc, end, found),
        ModuleWhereabouts::Unlined(function) => unlined_text(alloc, end, *function),
    }
}
