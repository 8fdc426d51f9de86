//! The table of rows that a search builds as it needs them, and where bytes lead.
ghost use Rattle.std.specs.Prelude.{◌≡◌, ◌<◌, ◌^◌, ℕ, Bool, IfOk, None, Some, [], length, false};
ghost use Rattle.std.proofs.Common.{get_or, set as set_at};
ghost use Rattle.ere_match.specs.Rows.{SpecMove, columns};

use std::alloc::{AllocError, Global};

/// At most so many rows are kept.
const MOST_ROWS: usize = 1_024;

/// At most so many ranks are kept in all rows, but for one row.
const MOST_RANKS: usize = 6_291_456;

/// At most so many places are kept in `sources`, but for one move.
const MOST_SOURCES: usize = 1_048_576;

/// The threads of a place: at each node none, or the number of its start, where starts are numbered by age.
#[derive(Drop)]
pub(crate) struct Row {
    /// For each node 0 where it has no thread, else one more than the number of its start.
    pub(crate) ranks: Vec<u32>,
    /// How many starts there are.
    pub(crate) count: usize,
    /// Whether the place is the first of its text.
    pub(crate) first: bool,
    /// The oldest start that is accepted where the text goes on.
    pub(crate) inside: Option<usize>,
    /// The oldest start that is accepted where the text ends.
    pub(crate) at_end: Option<usize>,
    /// Tells most rows apart.
    pub(crate) hash: u64,
}

/// Where a byte leads from a row: to the row `to`, whose start number k is that of the number at `start + k` of the sources;
/// the first `kept` of them stay what they are.
#[derive(Clone, Copy)]
pub(crate) struct Move {
    pub(crate) to: u32,
    pub(crate) kept: u32,
    pub(crate) start: u32,
}

/// Where each class of bytes leads from a row: while no match has been found, so that a thread begins at each place, and after.
#[derive(Clone, Copy)]
pub(crate) struct Moves {
    pub(crate) seeking: [Option<Move>; 256],
    pub(crate) found: [Option<Move>; 256],
}

/// The rows that were needed so far, and room to work in.
#[derive(Drop)]
pub(crate) struct Table {
    pub(crate) rows: Vec<Row>,
    pub(crate) moves: Vec<Moves>,
    pub(crate) sources: Vec<u32>,
    /// The row with which a search begins where the text begins.
    pub(crate) at_first: Option<Move>,
    /// The row with which a search begins elsewhere.
    pub(crate) elsewhere: Option<Move>,
    /// The starts of the threads of the place at which the search is.
    pub(crate) starts: Vec<usize>,
    pub(crate) set: Vec<Option<usize>>,
    pub(crate) next: Vec<Option<usize>>,
}

impl Moves {
    /// No move yet.
    pub(crate) fn none() -> Moves
        ensures { (found : Bool) (c : ℕ) → get_or (columns found result) c None ≡ None }
    {
        Moves {
            seeking: [None; 256],
            found: [None; 256],
        }
    }

    /// Where the class leads.
    pub(crate) fn at(&self, found: bool, class: u8) -> Option<Move>
        ensures { result ≡ get_or (columns found self.now) class None }
    {
        if found {
            self.found[usize::from(class)]
        } else {
            self.seeking[usize::from(class)]
        }
    }

    /// Keeps where the class leads.
    pub(crate) fn put(&mut self, found: bool, class: u8, to: Move)
        ensures here { columns found self.new ≡ set_at (columns found self.old) class (Some to) }
        ensures other { (b : Bool) → (b ≡ found → ⊥) → columns b self.new ≡ columns b self.old }
    {
        if found {
            self.found[usize::from(class)] = Some(to);
        } else {
            self.seeking[usize::from(class)] = Some(to);
        }
    }
}

impl Table {
    /// A table without rows, for an automaton of so many nodes.
    pub(crate) fn new(alloc: Global, nodes: usize) -> Result<Table, AllocError>
        ensures set { IfOk result (λ table. length table.set.items ≡ nodes) }
        ensures next { IfOk result (λ table. length table.next.items ≡ nodes) }
        ensures rows { IfOk result (λ table. table.rows.items ≡ []) }
        ensures moves { IfOk result (λ table. table.moves.items ≡ []) }
        ensures sources { IfOk result (λ table. table.sources.items ≡ []) }
        ensures at_first { IfOk result (λ table. table.at_first ≡ None) }
        ensures elsewhere { IfOk result (λ table. table.elsewhere ≡ None) }
    {
        let set = vec![in alloc; None; nodes]?;
        let next = vec![in alloc; None; nodes]?;
        Ok(Table {
            rows: Vec::new(alloc),
            moves: Vec::new(alloc),
            sources: Vec::new(alloc),
            at_first: None,
            elsewhere: None,
            starts: Vec::new(alloc),
            set,
            next,
        })
    }

    /// Whether there is no room for a further row.
    pub(crate) fn is_full(&self) -> bool
        ensures rows { result ≡ false → length self.now.rows.items < 2 ^ 31 }
        ensures sources { result ≡ false → length self.now.sources.items < 2 ^ 31 }
    {
        self.rows.len() >= MOST_ROWS
            || self.sources.len() >= MOST_SOURCES
            || self.rows.len().saturating_mul(self.set.len()) >= MOST_RANKS
    }

    /// Gives up all rows.
    pub(crate) fn empty(&mut self)
        ensures rows { self.new.rows.items ≡ [] }
        ensures moves { self.new.moves.items ≡ [] }
        ensures sources { self.new.sources.items ≡ [] }
        ensures at_first { self.new.at_first ≡ None }
        ensures elsewhere { self.new.elsewhere ≡ None }
        ensures starts { self.new.starts ≡ self.old.starts }
        ensures set { self.new.set ≡ self.old.set }
        ensures next { self.new.next ≡ self.old.next }
    {
        self.rows.clear();
        self.moves.clear();
        self.sources.clear();
        self.at_first = None;
        self.elsewhere = None;
    }
}
