//! The locals of a function, as runs of one type.
ghost use Rattle.std.specs.Prelude.{◌≡◌, ◌<◌, ◌≤◌, ◌++◌, ◌^◌, [], length, replicate, slice_get, get_or, IfOk, OnErr, OnOk};
ghost use Rattle.wasm_types.specs.Runs.{Rises, expanded_from, past_all, start_of};

use crate::types::ValType;
use std::alloc::{AllocError, Global};
use std::marker::Model;

/// Locals of one type that follow one another, from where the run before ends up to this one's end.
#[derive(Clone, Copy)]
pub struct Run {
    /// The number of the first local behind the run.
    pub end: u32,
    pub ty: ValType,
}

/// The types of a function's locals, its parameters aside. Clauses see the list of them; a run takes as much memory as one local.
#[derive(Drop)]
pub struct Locals {
    runs: Vec<Run>,
}

impl Model for Locals {
    ghost use Rattle.std.specs.Prelude.{List};
    ghost use Rattle.wasm_types.specs.declared.types.ValType.{ValType};
    ghost use Rattle.wasm_types.specs.Runs.{Rises, expanded_from};

    ghost Value = { List ValType };

    ghost view = { λ l. expanded_from 0 l.runs.items };

    ghost invariant = { λ l. Rises 0 l.runs.items };
}

/// Where the last run ends.
fn past_all(runs: &[Run]) -> u32
    ensures { result ≡ past_all 0 runs.now }
{
    match runs {
        [] => 0,
        [.., last] => last.end,
    }
}

/// How many runs end before the local of this number or at it.
fn runs_before(runs: &[Run], number: usize) -> usize
    ensures within { result ≤ length runs.now }
    ensures begun { start_of 0 runs.now result ≤ number }
    ensures left { (d : Run) → result < length runs.now → number < (get_or runs.now result d).end }
{
    let mut low = 0;
    let mut high = runs.len();
    while low < high {
        let middle = low + (high - low) / 2;
        if runs[middle].end as usize <= number {
            low = middle + 1;
        } else {
            high = middle;
        }
    }
    low
}

impl Locals {
    /// No locals.
    pub fn new(alloc: Global) -> Locals
        ensures { result ≡ [] }
    {
        Locals {
            runs: Vec::new(alloc),
        }
    }

    /// Locals of these types.
    pub fn of(alloc: Global, types: &[ValType]) -> Result<Locals, AllocError>
        ensures { IfOk result (λ locals. locals ≡ types.now) }
    {
        let mut locals = Locals::new(alloc);
        for ty in types {
            locals.push(1, *ty)?;
        }
        Ok(locals)
    }

    /// Adds so many locals of a type.
    ///
    /// # Errors
    ///
    /// `AllocError` where there is no memory, or there would be more than 4,294,967,295 locals. Then nothing changes.
    pub fn push(&mut self, count: u32, ty: ValType) -> Result<(), AllocError>
        ensures added { OnOk result (self.new ≡ self.old ++ replicate count ty) }
        ensures same { OnErr result (self.new ≡ self.old) }
    {
        if count == 0 {
            return Ok(());
        }
        let Some(end) = past_all(&self.runs).checked_add(count) else {
            return Err(AllocError);
        };
        self.runs.push(Run { end, ty })?;
        Ok(())
    }

    /// How many locals there are.
    pub fn len(&self) -> usize
        ensures count { result ≡ length self.now }
        ensures small { result < 2 ^ 32 }
    {
        past_all(&self.runs) as usize
    }

    /// The type of the local of a number, if there is one: the time goes by the logarithm of how many runs there are.
    pub fn get(&self, number: usize) -> Option<ValType>
        ensures { result ≡ slice_get self.now number }
    {
        let before = runs_before(&self.runs, number);
        if before < self.runs.len() {
            Some(self.runs[before].ty)
        } else {
            None
        }
    }

    /// The runs, none of which is empty.
    pub fn runs(&self) -> &[Run]
        ensures same { expanded_from 0 result.now ≡ self.now }
        ensures rises { Rises 0 result.now }
    {
        &self.runs
    }

    /// The types, one for each local.
    pub fn to_vec(&self, alloc: Global) -> Result<Vec<ValType>, AllocError>
        ensures { IfOk result (λ types. types.items ≡ self.now) }
    {
        let mut types = Vec::new(alloc);
        for run in &self.runs {
            types.resize(run.end as usize, run.ty)?;
        }
        Ok(types)
    }
}
