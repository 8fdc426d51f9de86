//! What is alive in the host where a script has ended.
use crate::fence::{operands_of, world_of};
use crate::row::Row;
use awk_run::compile;
use host_calls::Host;
use module_decoder::decode;
use module_validator::{ValidModule, validate};
use std::alloc::{AllocError, Global};
use std::hash::RandomState;
use wasm_machine::Machine;

/// How many values, arrays and iterators there are.
#[derive(Drop)]
pub(crate) struct Alive {
    pub(crate) values: usize,
    pub(crate) arrays: usize,
    pub(crate) iterators: usize,
}

/// The module of a script.
fn module_of(alloc: Global, script: &[u8]) -> Result<ValidModule, AllocError> {
    let Ok(bytes) = compile(alloc, script) else {
        return Err(AllocError);
    };
    let Ok(module) = decode(alloc, &bytes) else {
        return Err(AllocError);
    };
    match validate(alloc, module) {
        Ok(valid) => Ok(valid),
        Err(_) => Err(AllocError),
    }
}

/// What is alive where a row's script, which compiles, has ended.
pub(crate) fn alive_after(
    alloc: Global,
    state: RandomState,
    row: &Row,
) -> Result<Alive, AllocError> {
    let valid = module_of(alloc, &row.code)?;
    let operands = operands_of(alloc, row)?;
    let world = world_of(alloc, row, &operands)?;
    let Ok(mut host) = Host::new(alloc, &row.job, state, world) else {
        return Err(AllocError);
    };
    let Ok(mut machine) = Machine::new(alloc, valid, &host) else {
        return Err(AllocError);
    };
    let _end = machine.run(&mut host, row.steps);
    Ok(Alive {
        values: host.live_values(),
        arrays: host.live_arrays(),
        iterators: host.live_iterators(),
    })
}
