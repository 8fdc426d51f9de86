//! The code of a script.

use crate::step::Step;
use indexmap::IndexSet;

/// What a name of the program is.
#[derive(Clone, Copy, Drop)]
pub enum Kind {
    /// A scalar whose value is boxed.
    Boxed,
    /// A scalar that is a number unless the command line gave it a text.
    Unboxed,
    /// An array.
    Array,
}

/// A global name.
#[derive(Drop)]
pub struct Declared {
    pub name: Vec<u8>,
    pub kind: Kind,
    /// Whether values that may be texts are copied to an unboxed one.
    pub mixed: bool,
}

/// A function.
#[derive(Drop)]
pub struct Routine {
    pub name: Vec<u8>,
    pub parameters: Vec<Kind>,
    pub body: Vec<Step>,
}

/// A script's code.
#[derive(Drop)]
pub struct Mid {
    /// The texts of the script's constants, which the code names by their places.
    pub texts: IndexSet<Vec<u8>>,
    /// By the places of parameters, the global that lends its value there, to unboxed parameters that have no number.
    pub lenders: Vec<Option<usize>>,
    /// The global names, which are announced in this order; the functions follow.
    pub globals: Vec<Declared>,
    /// The functions, which the code names by their places.
    pub routines: Vec<Routine>,
    /// How many ranges there are: patterns of two, which are numbered in their order.
    pub ranges: usize,
    pub begin: Vec<Step>,
    /// Whether records are read.
    pub reads: bool,
    /// What is done for each record.
    pub items: Vec<Step>,
    pub end: Vec<Step>,
}
