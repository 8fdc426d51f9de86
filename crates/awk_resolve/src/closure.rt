//! The least set of numbers that has given members and follows given pairs, by a work list.

ghost use Rattle.std.specs.Prelude.{◌≡◌, ℕ, ◌<◌, [], ◌∷◌, All, length, IfOk};
ghost use Rattle.awk_grammar.specs.Least.{IsLeast};
ghost use Rattle.awk_resolve.specs.Marked.{is_marked};
ghost use Rattle.awk_resolve.specs.ViewFound.{Adds};
ghost use Rattle.awk_resolve.specs.Waiting.{given_for, numbers_at};

use latched::LatchedVec;
use std::alloc::{AllocError, Global};

/// So many lists of no numbers.
fn no_numbers(alloc: Global, count: usize) -> Result<Vec<Vec<usize>>, AllocError>
    ensures length { IfOk result (λ lists. length lists.items ≡ count) }
    ensures empty { IfOk result (λ lists. (n : ℕ) → numbers_at lists.items n ≡ []) }
{
    let mut lists = LatchedVec::new(alloc);
    for _done in 0..count {
        lists.push(Vec::new(alloc));
    }
    lists.into_vec()
}

/// For each number below `count` the firsts of the pairs that have it as their second.
fn givers_of(
    alloc: Global,
    count: usize,
    pairs: &[(usize, usize)],
) -> Result<Vec<Vec<usize>>, AllocError>
    requires { All (λ p. (p.0 < count) × (p.1 < count)) pairs.now }
    ensures length { IfOk result (λ givers. length givers.items ≡ count) }
    ensures givers { IfOk result
        (λ givers. (n : ℕ) → numbers_at givers.items n ≡ given_for pairs.now n) }
{
    let mut givers = no_numbers(alloc, count)?;
    for (given, parameter) in pairs {
        givers[*parameter].push(*given)?;
    }
    Ok(givers)
}

/// The numbers that are found, and those of them whose pairs wait to be followed; all of those, unless memory was wanting for one.
#[derive(Drop)]
struct Found {
    marked: Vec<bool>,
    waiting: Vec<usize>,
    is_refused: bool,
}

impl Found {
    /// Marks a number, which waits from then on if it is new.
    fn mark(&mut self, n: usize)
        requires { n < length self.old.marked.items }
        ensures { Adds (n ∷ []) self.old self.new }
    {
        if self.marked[n] {
            return;
        }
        self.marked[n] = true;
        let is_put = self.waiting.push(n).is_ok();
        self.is_refused = self.is_refused || !is_put;
    }

    /// Marks each of some numbers.
    fn mark_all(&mut self, numbers: &[usize])
        requires { All (λ n. n < length self.old.marked.items) numbers.now }
        ensures { Adds numbers.now self.old self.new }
    {
        for n in numbers {
            self.mark(*n);
        }
    }
}

/// The least set of numbers below `count` that has the members and, where it has the second of a pair, the first. Each pair is followed once at most.
pub(crate) fn closure(
    alloc: Global,
    count: usize,
    members: &[usize],
    pairs: &[(usize, usize)],
) -> Result<Vec<bool>, AllocError>
    requires members { All (λ n. n < count) members.now }
    requires pairs { All (λ p. (p.0 < count) × (p.1 < count)) pairs.now }
    ensures length { IfOk result (λ marked. length marked.items ≡ count) }
    ensures least { IfOk result (λ marked. IsLeast (is_marked marked.items) members.now pairs.now) }
{
    let givers = givers_of(alloc, count, pairs)?;
    let mut found = Found {
        marked: vec![in alloc; false; count]?,
        waiting: Vec::new(alloc),
        is_refused: false,
    };
    found.mark_all(members);
    while let Some(n) = found.waiting.pop() {
        found.mark_all(&givers[n]);
    }
    if found.is_refused {
        return Err(AllocError);
    }
    Ok(found.marked)
}
