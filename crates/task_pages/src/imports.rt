//! What a module imports, as a task asks for it.
ghost use Rattle.std.specs.Prelude.{IfErr, IfOk};
ghost use Rattle.task_pages.specs.Tasks.{IsUnreadable};
ghost use Rattle.task_pages.specs.Calls.{AsksOnly, HasImports};

use crate::checks::{Unlisted, imports_of};
use host_imports::Import;
use run_report::{Refusal, RunEnd};
use std::alloc::Global;
use wasm_model::LinkFault;

/// The imports of a module, in order.
///
/// # Errors
///
/// What is told of it where it is run: the refusal of what is no module, of one that is not typed, or of an import that the host does not have;
/// `NoMemory` where memory is wanting.
pub fn listed(alloc: Global, bytes: &[u8]) -> Result<Vec<Import>, RunEnd>
    ensures ok { IfOk result
        (λ found. HasImports bytes.now found.items × AsksOnly bytes.now found.items) }
    ensures err { IfErr result (IsUnreadable bytes.now) }
{
    match imports_of(alloc, bytes) {
        Ok(imports) => Ok(imports),
        Err(Unlisted::Decode(fault)) => Err(RunEnd::Refused(Refusal::Decode(fault))),
        Err(Unlisted::Invalid(fault)) => Err(RunEnd::Refused(Refusal::Invalid(fault))),
        Err(Unlisted::BadImport(place)) => Err(RunEnd::Refused(Refusal::Link(LinkFault::BadImport(
            place,
        )))),
        Err(Unlisted::NoMemory) => Err(RunEnd::NoMemory),
    }
}
