//! How searches note from where no match ends.
ghost use Rattle.std.specs.Prelude.{◌≡◌, ◌+◌, ◌<◌, ◌≤◌, ◌⊎◌, ℕ, Bool, IfOk, List, None, OnOk, false, length, true};
ghost use Rattle.std.proofs.Common.{get_or};
ghost use Rattle.ere_match.specs.Ends.{AreAllMarked, AreDead, AreDeadEnds, AreTails, IsNoted, LeadsNowhere, MarksOnly, raised};
ghost use Rattle.ere_match.specs.Rows.{IsRow, SpecRow};
ghost use Rattle.ere_match.specs.Threads.{SpecNode};

use crate::automaton::Auto;
use crate::dead_ends::DeadEnds;
use crate::row::Row;
use std::alloc::{AllocError, Global};

/// Nodes are marked at some of the multiples of this.
const BLOCK: usize = 64;

/// Marks the nodes that have a rank, and tells whether all were marked before.
fn mark_all(ranks: &[u32], marks: &mut [bool]) -> bool
    requires { length ranks.now ≤ length marks.old }
    ensures all { result ≡ true → AreAllMarked ranks.now marks.old }
    ensures only { MarksOnly ranks.now marks.old marks.new }
{
    let mut all = true;
    for id in 0..ranks.len() {
        if ranks[id] != 0 && !marks[id] {
            marks[id] = true;
            all = false;
        }
    }
    all
}

/// Room for the marks of so many nodes.
fn widen_marks(marks: &mut Vec<bool>, count: usize) -> Result<(), AllocError>
    ensures same { (id : ℕ) → get_or marks.new.items id false ≡ get_or marks.old.items id false }
    ensures ok { OnOk result (count ≤ length marks.new.items) }
{
    while marks.len() < count {
        marks.push(false)?;
    }
    Ok(())
}

/// Marks the nodes that have a rank at a place, and tells whether all were marked before.
fn mark_row(ranks: &[u32], marks: &mut Vec<bool>) -> Result<bool, AllocError>
    ensures all { IfOk result (λ all. all ≡ true → AreAllMarked ranks.now marks.old.items) }
    ensures only { IfOk result (λ all. MarksOnly ranks.now marks.old.items marks.new.items) }
{
    widen_marks(marks, ranks.len())?;
    Ok(mark_all(ranks, marks))
}

/// Room for the marks of a place with this number.
fn widen_places(marks: &mut Vec<Vec<bool>>, number: usize) -> Result<(), AllocError>
    ensures none { (step q id : ℕ) → IsNoted step marks.new.items q id
        → IsNoted step marks.old.items q id }
    ensures ok { OnOk result (number < length marks.new.items) }
{
    let alloc = *marks.allocator();
    while marks.len() <= number {
        marks.push(Vec::new(alloc))?;
    }
    Ok(())
}

impl DeadEnds {
    /// What is known of a text before it is searched by this automaton: nothing. It takes no memory.
    pub fn new(alloc: Global, auto: &Auto) -> DeadEnds
        ensures { (text : List ℕ) → AreDeadEnds auto.now text result }
    {
        DeadEnds {
            step: (auto.nodes.len() / BLOCK + 1).saturating_mul(BLOCK),
            marks: Vec::new(alloc),
            floor: 0,
        }
    }

    /// For one search of a text: since all places are behind the floor, nothing is noted.
    pub(crate) fn none(alloc: Global) -> DeadEnds
        ensures { (all : List SpecNode) (text : List ℕ) → AreDead all text result }
    {
        DeadEnds {
            step: BLOCK,
            marks: Vec::new(alloc),
            floor: usize::MAX,
        }
    }

    /// Believes no mark up to a place any more.
    pub(crate) fn forget(&mut self, at: usize)
        ensures dead { (all : List SpecNode) (text : List ℕ) (i : ℕ) (on : Bool) (row : SpecRow)
            → AreTails all text i at on row self.old → AreDead all text self.new }
        ensures step { self.new.step ≡ self.old.step }
        ensures marks { self.new.marks ≡ self.old.marks }
        ensures higher { self.old.floor ≤ self.new.floor }
        ensures floor { at ≤ self.new.floor }
    {
        if self.floor < at {
            self.floor = at;
        }
    }

    /// Marks the nodes of the row's threads, if nodes are marked at the place, and tells whether all were marked before.
    #[inline(never)]
    fn note(&mut self, row: &Row, at: usize) -> Result<bool, AllocError>
        requires { self.old.floor < at }
        ensures tails { (all : List SpecNode) (text : List ℕ) (end : ℕ) → end < at
            → AreTails all text at at true row.now (raised end self.old) → IfOk result
            (λ over. AreTails all text at (at + 1) true row.now (raised end self.new)) }
        ensures over { (all : List SpecNode) (text : List ℕ) (end : ℕ) → end < at
            → AreTails all text at at true row.now (raised end self.old)
            → IfOk result (λ over. over ≡ true → LeadsNowhere all text at row.now) }
    {
        if at % self.step != 0 {
            return Ok(false);
        }
        let number = at / self.step;
        widen_places(&mut self.marks, number)?;
        mark_row(&row.ranks, &mut self.marks[number])
    }

    /// Whether a match that ended before is the answer, as no thread of the row comes to an end; else notes where they are.
    /// No mark up to the end of that match is believed, though the floor is raised only when the search is over.
    #[inline(always)]
    pub(crate) fn is_done(&mut self, row: &Row, at: usize) -> Result<bool, AllocError>
        ensures none { IfOk result (λ over. over ≡ true → row.now.inside ≡ None) }
        ensures tails { (all : List SpecNode) (text : List ℕ) (end : ℕ) → end < at
            → AreTails all text at at true row.now (raised end self.old) → IfOk result
            (λ over. AreTails all text at (at + 1) true row.now (raised end self.new)) }
        ensures over { (all : List SpecNode) (text : List ℕ) (end : ℕ) → end < at
            → IsRow all row.now → AreTails all text at at true row.now (raised end self.old)
            → IfOk result (λ over. over ≡ true → LeadsNowhere all text at row.now) }
    {
        if row.inside.is_some() {
            return Ok(false);
        }
        if row.count == 0 {
            return Ok(true);
        }
        if at % BLOCK != 0 || at <= self.floor {
            return Ok(false);
        }
        self.note(row, at)
    }
}
