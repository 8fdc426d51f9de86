//! Ends and refusals.

use crate::compile_fault::CompileFault;
use awk_values::Fault;
use module_decoder::DecodeFault;
use module_validator::InvalidFault;
use thiserror::Error;
use wasm_model::LinkFault;
use wasm_store::TrapKind;

/// Why something is not run.
#[derive(Debug, Drop, Error)]
pub enum Refusal {
    /// The script is not compiled.
    #[error("the script is not compiled: {0}")]
    Compile(CompileFault),
    /// The bytes are no module.
    #[error("the bytes are not a module: {0}")]
    Decode(DecodeFault),
    /// The typing rules do not allow the module.
    #[error("the module is not typed: {0}")]
    Invalid(InvalidFault),
    /// The module does not link with the host.
    #[error("the module does not link with the host: {0}")]
    Link(LinkFault),
}

/// How a run ends.
#[derive(Debug, Drop)]
pub enum RunEnd {
    /// It ended with this status.
    Ended(u8),
    /// A fault ended it.
    Faulted(Fault),
    /// All steps were taken.
    OutOfSteps,
    /// Calls were nested too deeply.
    Exhausted,
    /// Memory was wanting.
    NoMemory,
    /// It did not begin.
    Refused(Refusal),
    /// The module trapped.
    Trapped(TrapKind),
}
