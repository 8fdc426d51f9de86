//! Why a module does not run.

use thiserror::Error;

/// Why a module cannot run with a host.
#[derive(Clone, Copy, Debug, PartialEq, Eq, Error)]
pub enum LinkFault {
    /// It exports no function `main` without parameters and with a 32-bit result.
    #[error("the module exports no function `main` without parameters and with a 32-bit result")]
    NoMain,
    /// The host has no import of this name and type; imports are counted from 0.
    #[error("the host has no import of the name and type of import {0}")]
    BadImport(usize),
    /// A segment does not lie within the table or the memory.
    #[error("a segment does not lie within the table or the memory")]
    SegmentBounds,
    /// Memory was wanting.
    #[error("out of memory")]
    NoMemory,
}
