//! The beginnings of a module.
use crate::fence::world_of;
use crate::row::Row;
use awk_run::{RunEnd, run_module};
use std::alloc::{AllocError, Global};
use std::hash::RandomState;

/// Whether bytes are refused.
fn is_refused(
    alloc: Global,
    state: RandomState,
    row: &Row,
    module: &[u8],
) -> Result<bool, AllocError> {
    let world = world_of(alloc, row, &[])?;
    let (end, _) = run_module(alloc, module, &row.job, state, world, row.steps);
    match end {
        RunEnd::NoMemory => Err(AllocError),
        RunEnd::Refused(_) => Ok(true),
        _ => Ok(false),
    }
}

/// How many proper beginnings of a row's module are refused, before the first that is not.
pub(crate) fn refused_beginnings(
    alloc: Global,
    state: RandomState,
    row: &Row,
) -> Result<usize, AllocError> {
    for length in 0..row.code.len() {
        if !is_refused(alloc, state, row, &row.code[..length])? {
            return Ok(length);
        }
    }
    Ok(row.code.len())
}
