//! What the steps of a run are counted in.
ghost use Rattle.std.specs.Prelude.{◌≡◌, ◌+◌, ◌++◌, ◌∷◌, [], IfOk, OnOk, List, max, nat_eq, not};
ghost use Rattle.lower_model.specs.Boundaries.{is_nop};
ghost use Rattle.script_places.specs.Passes.{Moment, entry, nop_at, nops_in, nops_of, passes};
ghost use Rattle.script_places.specs.Tallies.{AreTallied, IsWalked, more_at, more_if, more_in, rows_of};
ghost use Rattle.wasm_loader.specs.Flat.{Plain, flat, flat_one};
ghost use Rattle.wasm_types.specs.View.{view, view_func, view_module, views};

use std::alloc::{AllocError, Global};
use wasm_machine::Place;
use wasm_types::{Func, Instr, Module, Simple};

/// Adds an item that owns memory.
fn push<T: Drop>(items: &mut Vec<T>, item: T) -> Result<(), AllocError>
    ensures { OnOk result (items.new.items ≡ items.old.items ++ item ∷ []) }
{
    items.push(item)?;
    Ok(())
}

/// The `nop`s of code that was walked: where they are in its flat code, and the place after it.
#[derive(Drop)]
struct Nops {
    places: Vec<usize>,
    at: usize,
}

fn is_nop(simple: Simple) -> bool
    ensures { result ≡ not (nat_eq (is_nop simple) 0) }
{
    matches!(simple, Simple::Nop)
}

impl Nops {
    /// Passes a place of flat code.
    fn pass(&mut self) -> Result<(), AllocError>
        ensures places { OnOk result (self.new.places.items ≡ self.old.places.items) }
        ensures at { OnOk result (self.new.at ≡ self.old.at + 1) }
    {
        match self.at.checked_add(1) {
            Some(next) => {
                self.at = next;
                Ok(())
            }
            None => Err(AllocError),
        }
    }

    /// Passes an instruction without a body.
    fn plain(&mut self, simple: Simple) -> Result<(), AllocError>
        ensures places { OnOk result (self.new.places.items
            ≡ self.old.places.items ++ nop_at self.old.at (Plain simple)) }
        ensures at { OnOk result (self.new.at ≡ self.old.at + 1) }
    {
        if is_nop(simple) {
            self.places.push(self.at)?;
        }
        self.pass()
    }

    /// Walks an instruction.
    #[cycle(walk)]
    fn instruction(&mut self, instruction: &Instr) -> Result<(), AllocError>
        ensures { OnOk result (IsWalked self.old.places.items self.old.at
            (flat_one self.old.at (view instruction.now)) self.new.places.items self.new.at) }
    {
        match instruction {
            Instr::Plain(simple) => self.plain(*simple),
            Instr::BrTable(_, _) => self.pass(),
            Instr::Block(_, body) => {
                self.pass()?;
                self.body(body)
            }
            Instr::Loop(_, body) => {
                self.pass()?;
                self.body(body)
            }
            Instr::If(_, yes, no) => {
                self.pass()?;
                self.body(yes)?;
                self.body(no)
            }
        }
    }

    /// Walks a body and its end.
    #[cycle(walk)]
    fn body(&mut self, body: &[Instr]) -> Result<(), AllocError>
        ensures { OnOk result (IsWalked self.old.places.items self.old.at
            (flat self.old.at (views body.now)) self.new.places.items self.new.at) }
    {
        for instruction in body {
            self.instruction(instruction)?;
        }
        self.pass()
    }
}

/// The `nop`s of a function.
fn nops_of(alloc: Global, func: &Func) -> Result<Nops, AllocError>
    ensures { IfOk result (λ nops. nops.places.items ≡ nops_of (view_func func.now)) }
{
    let mut nops = Nops {
        places: Vec::new(alloc),
        at: 0,
    };
    nops.body(&func.body)?;
    Ok(nops)
}

/// What the steps of a run are counted in.
#[derive(Drop)]
pub struct Tally {
    /// Where the `nop`s of each function are in its flat code.
    pub nops: Vec<Vec<usize>>,
    /// Before how many steps the frame at work stood at each place of each function's flat code.
    pub rows: Vec<Vec<u64>>,
    /// The greatest number of values that there were.
    pub values: usize,
}

/// One more in a row.
fn count_at(row: &mut Vec<u64>, at: usize)
    ensures { row.new.items ≡ more_at row.old.items at }
{
    if at < row.len() {
        row[at] = row[at].saturating_add(1);
    }
}

/// One more in a row of a table.
fn count_in(rows: &mut Vec<Vec<u64>>, function: usize, at: usize)
    ensures { rows_of rows.new.items ≡ more_in (rows_of rows.old.items) function at }
{
    if function < rows.len() {
        count_at(&mut rows[function], at);
    }
}

/// The greater of two numbers.
pub fn greater(one: usize, other: usize) -> usize
    ensures { result ≡ max one other }
{
    if one < other { other } else { one }
}

impl Tally {
    fn empty(alloc: Global) -> Tally
        ensures nops { rows_of result.nops.items ≡ [] }
        ensures rows { AreTallied [] (rows_of result.rows.items) }
        ensures values { result.values ≡ 0 }
    {
        Tally {
            nops: Vec::new(alloc),
            rows: Vec::new(alloc),
            values: 0,
        }
    }

    /// Makes room for a function.
    fn add(&mut self, alloc: Global, func: &Func) -> Result<(), AllocError>
        ensures nops { OnOk result (rows_of self.new.nops.items
            ≡ rows_of self.old.nops.items ++ nops_of (view_func func.now) ∷ []) }
        ensures rows { OnOk result (AreTallied [] (rows_of self.old.rows.items)
            → AreTallied [] (rows_of self.new.rows.items)) }
        ensures values { self.new.values ≡ self.old.values }
    {
        let nops = nops_of(alloc, func)?;
        let row = vec![in alloc; 0u64; nops.at]?;
        push(&mut self.nops, nops.places)?;
        push(&mut self.rows, row)?;
        Ok(())
    }

    /// The tally of a module, of no step yet.
    pub fn new(alloc: Global, whole: &Module) -> Result<Tally, AllocError>
        ensures nops { IfOk result (λ tally. rows_of tally.nops.items ≡ nops_in (view_module whole.now)) }
        ensures rows { IfOk result (λ tally. AreTallied [] (rows_of tally.rows.items)) }
        ensures values { IfOk result (λ tally. tally.values ≡ 0) }
    {
        let mut tally = Tally::empty(alloc);
        for func in &whole.funcs {
            tally.add(alloc, func)?;
        }
        Ok(tally)
    }

    /// Counts a step, before which the frame at work stands at a place, if there is one, and there are so many values.
    pub fn note(&mut self, place: Option<Place>, values: usize)
        ensures nops { self.new.nops ≡ self.old.nops }
        ensures rows { rows_of self.new.rows.items ≡ more_if (rows_of self.old.rows.items) place }
        ensures values { self.new.values ≡ max values self.old.values }
    {
        if let Some(place) = place {
            count_in(&mut self.rows, place.function, place.at);
        }
        self.values = greater(values, self.values);
    }

    /// Before how many steps the frame at work stood at a place of flat code. None is told of a place that the code has not.
    fn times(&self, function: usize, at: usize) -> Option<u64>
        ensures { result ≡ entry (rows_of self.now.rows.items) function at }
    {
        let row = self.rows.get(function)?;
        Some(*row.get(at)?)
    }

    /// Where the `nop` of a number is in a function's flat code.
    fn nop(&self, function: usize, number: usize) -> Option<usize>
        ensures { result ≡ entry (rows_of self.now.nops.items) function number }
    {
        let nops = self.nops.get(function)?;
        Some(*nops.get(number)?)
    }

    /// How often a place of a function was passed, by its number; a place that there is not was never passed.
    ///
    /// # Errors
    ///
    /// Where nothing was counted at the place.
    pub fn passed(&self, function: usize, number: usize) -> Result<u64, AllocError>
        ensures { (moments : List Moment) → AreTallied moments (rows_of self.now.rows.items)
            → IfOk result (λ count. count ≡ passes (rows_of self.now.nops.items) moments function
            number) }
    {
        let Some(at) = self.nop(function, number) else {
            return Ok(0);
        };
        match self.times(function, at) {
            Some(count) => Ok(count),
            None => Err(AllocError),
        }
    }
}
