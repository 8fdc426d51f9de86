//! The walk over code, which marks what is stored.

ghost use Rattle.std.specs.Prelude.{◌≡◌, ◌∷◌, [], map, option_map};
ghost use Rattle.mid_program.specs.View.{view_kind};
ghost use Rattle.mid_program.specs.ViewCode.{view_slot};
ghost use Rattle.value_kinds.specs.Lanes.{close_at, close_in, closed, copies_global, is_copy, is_passed};
ghost use Rattle.mid_program.specs.Stores.{Asked, Given, Into};
ghost use Rattle.value_kinds.specs.View.{view_form, view_kinds, view_lanes, view_walk};
ghost use Rattle.value_kinds.specs.Walks.{after};

use crate::form::Form;
use crate::lenders::lender_at;
use crate::names::{Lanes, is_unboxed};
use crate::program::parameters_at;
use crate::scan::Scan;
use mid_program::{Kind, Slot};

/// The walk over the code of a function.
#[derive(Drop)]
pub(crate) struct Walk {
    /// The names whose copies count as numbers, for a global, and the globals that lend their values.
    pub(crate) numbers: Lanes,
    /// The lanes as they are after what was visited.
    pub(crate) lanes: Lanes,
    /// The globals that may lend their values.
    pub(crate) scan: Scan,
    /// The function's number; the main parts have one that no function has.
    pub(crate) function: usize,
}

fn closed(kind: Kind) -> Kind
    ensures { view_kind result ≡ closed (view_kind kind) }
{
    match kind {
        Kind::Array => Kind::Array,
        Kind::Boxed | Kind::Unboxed => Kind::Boxed,
    }
}

/// Boxes a name, if it is a scalar.
pub(crate) fn close_at(kinds: &mut Vec<Kind>, place: usize)
    ensures { map view_kind kinds.new.items ≡ close_at (map view_kind kinds.old.items) place }
{
    if place < kinds.len() {
        kinds[place] = closed(kinds[place]);
    }
}

/// Boxes a parameter of a function, if it is a scalar.
fn close_in(functions: &mut Vec<Vec<Kind>>, function: usize, place: usize)
    ensures { map view_kinds functions.new.items
        ≡ close_in (map view_kinds functions.old.items) function place }
{
    if function < functions.len() {
        close_at(&mut functions[function], place);
    }
}

fn copies_global(global: usize, source: Option<Slot>) -> bool
    ensures { result ≡ copies_global global (option_map view_slot source) }
{
    match source {
        Some(Slot::Global(_, place)) => global == place,
        Some(Slot::Parameter(_, _)) | None => false,
    }
}

/// Whether an unboxed parameter may be given this, where this lends.
fn is_passed(lender: Option<usize>, source: Option<Slot>, form: Form) -> bool
    ensures { result ≡ is_passed lender (option_map view_slot source) (view_form form) }
{
    match lender {
        Some(global) => form.is_number() || copies_global(global, source),
        None => form.is_plain(),
    }
}

impl Walk {
    /// Whether this is a copy of a name whose copies count.
    fn is_copy(&self, source: Option<Slot>) -> bool
        ensures { result ≡ is_copy (view_lanes self.now.numbers) self.now.function
            (option_map view_slot source) }
    {
        match source {
            Some(Slot::Global(_, place)) => is_unboxed(&self.numbers.globals, place),
            Some(Slot::Parameter(_, place)) => {
                is_unboxed(parameters_at(&self.numbers, self.function), place)
            }
            None => false,
        }
    }

    /// Marks what is stored into a name: the value of a name, if there is a source.
    pub(crate) fn store(&mut self, slot: Slot, source: Option<Slot>, form: Form)
        ensures { view_walk self.new ≡ after (view_walk self.old)
            (Into (view_slot slot) (option_map view_slot source) (view_form form) ∷ []) }
    {
        self.scan.store(slot);
        match slot {
            Slot::Global(_, place) => {
                if !form.is_number() && !self.is_copy(source) {
                    close_at(&mut self.lanes.globals, place);
                }
            }
            Slot::Parameter(_, place) => {
                if lender_at(&self.numbers.lenders, place).is_some() || !form.is_number() {
                    close_in(&mut self.lanes.parameters, self.function, place);
                }
            }
        }
    }

    /// Marks what is given for a function's parameter: the value of a name, if there is a source.
    pub(crate) fn give(&mut self, function: usize, place: usize, source: Option<Slot>, form: Form)
        ensures { view_walk self.new ≡ after (view_walk self.old)
            (Given function place (option_map view_slot source) (view_form form) ∷ []) }
    {
        self.scan.give(place, source, form.is_number());
        if !is_passed(lender_at(&self.numbers.lenders, place), source, form) {
            close_in(&mut self.lanes.parameters, function, place);
        }
    }

    /// Marks that the main input is read.
    pub(crate) fn ask(&mut self)
        ensures { view_walk self.new ≡ after (view_walk self.old) (Asked ∷ []) }
    {
        self.scan.ask();
    }
}
