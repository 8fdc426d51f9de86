//! Where the things of a script stand.
ghost use Rattle.std.specs.Prelude.{[], ◌≡◌, ◌<◌, ◌≤◌, get_or, length, map};
ghost use Rattle.mid_program.specs.Sorted.{kinds_of, lender_at};
ghost use Rattle.mid_program.specs.View.{view_declared, view_mid};
ghost use Rattle.lower_model.specs.Functions.{texts_of};
ghost use Rattle.lower_model.specs.Places.{array_name, place_of};
ghost use Rattle.lower_layout.specs.Spans.{arrays_from, most_names, spans_from, IsSmall};

use crate::spans::Span;
use mid_program::{Declared, Mid, Routine};

/// A script, where its texts stand, and which of its names are arrays.
#[derive(Drop)]
pub struct Layout<'a> {
    pub program: &'a Mid,
    pub(crate) spans: Vec<Span>,
    pub(crate) arrays: Vec<usize>,
    ghost placed: { spans.items ≡ spans_from 0 (texts_of (view_mid program.now)) },
    ghost named: { arrays.items ≡ arrays_from 0 (kinds_of (map view_declared program.now.globals.items)) },
    ghost small: { IsSmall (view_mid program.now) },
}

impl<'a> Layout<'a> {
    /// Where a text stands.
    pub fn span(&self, text: usize) -> Span
        requires { text < length (texts_of (view_mid self.now.program.now)) }
        ensures place { result.place ≡ place_of (texts_of (view_mid self.now.program.now)) text }
        ensures size { result.size
            ≡ length (get_or (texts_of (view_mid self.now.program.now)) text []) }
    {
        self.spans[text]
    }

    /// The global names.
    pub fn names(&self) -> &[Declared]
        ensures names { result.now ≡ self.now.program.now.globals.items }
        ensures few { length result.now ≤ most_names }
    {
        &self.program.globals
    }

    /// The name of an array of the script.
    pub fn array_name(&self, array: usize) -> usize
        ensures name { result
            ≡ array_name (kinds_of (map view_declared self.now.program.now.globals.items)) array }
        ensures few { result ≤ length self.now.program.now.globals.items }
    {
        match self.arrays.get(array) {
            Some(name) => *name,
            None => self.program.globals.len(),
        }
    }

    /// The functions.
    pub fn routines(&self) -> &[Routine]
        ensures { result.now ≡ self.now.program.now.routines.items }
    {
        &self.program.routines
    }

    /// The global that lends its value at a place of parameters, if one does.
    pub fn lender(&self, place: usize) -> Option<usize>
        ensures { result ≡ lender_at self.now.program.now.lenders.items place }
    {
        match self.program.lenders.get(place) {
            Some(lender) => *lender,
            None => None,
        }
    }

    /// How many ranges there are.
    pub fn ranges(&self) -> u32
        ensures ranges { result ≡ self.now.program.now.ranges }
        ensures few { result ≤ most_names }
    {
        self.program.ranges as u32
    }
}
