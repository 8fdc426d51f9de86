//! The run of a row.
use crate::fence::{operands_of, world_of};
use crate::row::Row;
use awk_run::{RunEnd, run_module, run_script};
use std::alloc::{AllocError, Global};
use std::hash::RandomState;
use world_core::{MemWorld, World};

/// A run that is over.
#[derive(Drop)]
pub(crate) struct Ran {
    /// How it ended.
    pub(crate) end: RunEnd,
    /// The world after it.
    pub(crate) world: MemWorld,
    /// Whether the call of the world that the row lets fail was made.
    pub(crate) met_failure: bool,
}

/// The run of a row's script or module, of so many steps at most.
pub(crate) fn run(
    alloc: Global,
    state: RandomState,
    row: &Row,
    steps: u64,
) -> Result<Ran, AllocError> {
    let operands = operands_of(alloc, row)?;
    let world = world_of(alloc, row, &operands)?;
    let (end, world) = if row.is_module {
        run_module(alloc, &row.code, &row.job, state, world, steps)
    } else {
        run_script(alloc, &row.code, &row.job, state, world, steps)
    };
    let faulty = world.into_inner();
    let failures = faulty.failures();
    let world = faulty.into_inner().into_inner();
    Ok(Ran {
        end,
        met_failure: failures != world.failures(),
        world,
    })
}
