//! The locals of a function.
ghost use Rattle.std.specs.Prelude.{◌≡◌, ◌++◌, map, max, IfOk, OnOk};
ghost use Rattle.lower_modules.specs.Counted.{counted};
ghost use Rattle.lower_modules.specs.Fits.{view_needs, IsFew, IsNeeds};
ghost use Rattle.mid_program.specs.View.{view_kind, view_mid};
ghost use Rattle.mid_program.specs.ViewCode.{view_steps};
ghost use Rattle.lower_model.specs.Functions.{main_bases};
ghost use Rattle.lower_model.specs.Places.{bases_for, handle_types, local_types, steps_arrays, steps_iterators, steps_room, temporary_types};

use crate::counts::{both, larger};
use crate::steps::steps_counts;
use mid_program::{Kind, Mid, Step};
use std::alloc::{AllocError, Global};
use wasm_types::{MAX_LOCALS, MAX_MODULE_BYTES, ValType};

/// The most parameters of a function: each takes a byte of the module.
const MOST_PARAMETERS: usize = MAX_MODULE_BYTES;

/// The most locals of a function, parameters aside.
const MOST_LOCALS: u64 = MAX_LOCALS as u64;

/// How many parameters a function has, and how many temporaries, iterators and arrays of calls its code needs at once.
#[derive(Clone, Copy, Drop)]
pub struct Needs {
    pub parameters: u32,
    pub temporaries: u32,
    pub iterators: u32,
    pub arrays: u32,
}

/// These needs, if there are few enough locals.
fn few(needs: Needs) -> Option<Needs>
    ensures { IsFew result needs }
{
    let locals = 1 + 2 * needs.temporaries as u64 + needs.iterators as u64 + needs.arrays as u64;
    if locals > MOST_LOCALS {
        return None;
    }
    Some(needs)
}

/// What a function needs, or nothing where it has too many locals.
pub fn routine_needs(kinds: &[Kind], body: &[Step]) -> Option<Needs>
    ensures { IsNeeds result (bases_for (map view_kind kinds.now) (view_steps body.now)) }
{
    let count = kinds.len();
    if count > MOST_PARAMETERS {
        return None;
    }
    let counts = steps_counts(body);
    few(Needs {
        parameters: count as u32,
        temporaries: counts.temporaries,
        iterators: counts.iterators,
        arrays: counts.arrays,
    })
}

/// What all the steps of `main` need.
fn parts_needs(begin: &[Step], items: &[Step], end: &[Step]) -> Needs
    ensures parameters { result.parameters ≡ 0 }
    ensures temporaries { result.temporaries ≡ counted
        (max 2 (max (steps_room (view_steps begin.now))
        (max (steps_room (view_steps items.now)) (steps_room (view_steps end.now))))) }
    ensures iterators { result.iterators ≡ counted
        (max (steps_iterators (view_steps begin.now))
        (max (steps_iterators (view_steps items.now)) (steps_iterators (view_steps end.now)))) }
    ensures arrays { result.arrays ≡ counted
        (max (steps_arrays (view_steps begin.now))
        (max (steps_arrays (view_steps items.now)) (steps_arrays (view_steps end.now)))) }
{
    let after = both(steps_counts(items), steps_counts(end));
    let counts = both(steps_counts(begin), after);
    Needs {
        parameters: 0,
        temporaries: larger(2, counts.temporaries),
        iterators: counts.iterators,
        arrays: counts.arrays,
    }
}

/// What `main` needs, or nothing where it has too many locals.
pub fn main_needs(mid: &Mid) -> Option<Needs>
    ensures { IsNeeds result (main_bases (view_mid mid.now)) }
{
    few(parts_needs(&mid.begin, &mid.items, &mid.end))
}

/// Locals of 32 bits.
fn put_handles(types: &mut Vec<ValType>, count: u32) -> Result<(), AllocError>
    ensures { OnOk result (types.new.items ≡ types.old.items ++ handle_types count) }
{
    for _done in 0..count {
        types.push(ValType::I32)?;
    }
    Ok(())
}

/// A local of 32 bits and one of 64 for each temporary.
fn put_temporaries(types: &mut Vec<ValType>, count: u32) -> Result<(), AllocError>
    ensures { OnOk result (types.new.items ≡ types.old.items ++ temporary_types count) }
{
    for _done in 0..count {
        types.push(ValType::I32)?;
        types.push(ValType::I64)?;
    }
    Ok(())
}

/// The types of a function's locals, parameters aside: its answer, temporaries, iterators and arrays of calls.
pub fn local_types(alloc: Global, needs: Needs) -> Result<Vec<ValType>, AllocError>
    ensures { IfOk result (λ types. types.items ≡ local_types (view_needs needs)) }
{
    let mut types = vec![in alloc; ValType::I64]?;
    put_temporaries(&mut types, needs.temporaries)?;
    put_handles(&mut types, needs.iterators)?;
    put_handles(&mut types, needs.arrays)?;
    Ok(types)
}
