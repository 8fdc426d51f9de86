//! Threads whose starts are numbered by age: how a row is read, and how the numbers in use are ranked anew.
ghost use Rattle.std.specs.Prelude.{◌≡◌, ◌+◌, ◌<◌, ◌≤◌, ◌^◌, ℕ, IfOk, Some, length};
ghost use Rattle.std.proofs.Common.{get_or};
ghost use Rattle.ere_match.specs.Rows.{AreRanked, IsNumbered, IsRanked, IsSame, cut, numbered, numbers, rank_of, spread, start_of_rank};
ghost use Rattle.ere_match.specs.Threads.{Holds};

use std::alloc::{AllocError, Global};

/// The number of a thread that has this rank, if it is not behind the limit.
fn number(rank: u32, limit: usize) -> Option<usize>
    ensures { result ≡ numbered limit rank }
{
    if rank == 0 {
        return None;
    }
    let number = rank as usize - 1;
    if number <= limit { Some(number) } else { None }
}

/// The threads of a row up to a number.
pub(crate) fn load(ranks: &[u32], limit: usize, set: &mut [Option<usize>])
    requires { length set.old ≡ length ranks.now }
    ensures { set.new ≡ cut limit (numbers ranks.now) }
{
    for id in 0..ranks.len() {
        set[id] = number(ranks[id], limit);
    }
}

/// The start of a thread that has this rank.
fn start_at(rank: u32, starts: &[usize]) -> Option<usize>
    requires { rank ≤ length starts.now }
    ensures { result ≡ start_of_rank starts.now rank }
{
    if rank == 0 {
        None
    } else {
        Some(starts[rank as usize - 1])
    }
}

/// The threads of a row, with their starts.
pub(crate) fn unload(ranks: &[u32], starts: &[usize], set: &mut [Option<usize>])
    requires len { length set.old ≡ length ranks.now }
    requires few { (id s : ℕ) → Holds (numbers ranks.now) id s → s < length starts.now }
    ensures { set.new ≡ spread (λ k. get_or starts.now k 0) (numbers ranks.now) }
{
    for id in 0..ranks.len() {
        set[id] = start_at(ranks[id], starts);
    }
}

/// Marks the numbers that threads have.
fn mark_numbers(set: &[Option<usize>], used: &mut [u32])
    requires { (id s : ℕ) → Holds set.now id s → s < length used.old }
    ensures len { length used.new ≡ length used.old }
    ensures marked { (id s : ℕ) → Holds set.now id s → get_or used.new s 0 ≡ 1 }
{
    for thread in set {
        match thread {
            Some(number) => used[*number] = 1,
            None => {}
        }
    }
}

/// Ranks the numbers in use, which it puts behind the sources, and tells how many there are.
fn rank_numbers(used: &mut [u32], sources: &mut Vec<u32>) -> Result<usize, AllocError>
    requires { length used.old < 2 ^ 31 }
    ensures same { IsSame sources.old.items sources.new.items }
    ensures ranked { IfOk result
        (λ count. IsRanked (length sources.old.items) used.old used.new sources.new.items count) }
{
    let mut count = 0;
    for number in 0..used.len() {
        if used[number] == 1 {
            sources.push(number as u32)?;
            count += 1;
            used[number] = count as u32;
        } else {
            used[number] = 0;
        }
    }
    Ok(count)
}

/// The rank of a thread's number.
fn rank(thread: Option<usize>, used: &[u32]) -> u32
    requires { (s : ℕ) → thread ≡ Some s → s < length used.now }
    ensures { result ≡ rank_of used.now thread }
{
    match thread {
        Some(number) => used[number],
        None => 0,
    }
}

/// The ranks of the threads.
fn rank_all(set: &[Option<usize>], used: &[u32], ranks: &mut [u32])
    requires len { length ranks.old ≡ length set.now }
    requires few { (id s : ℕ) → Holds set.now id s → s < length used.now }
    ensures { AreRanked used.now set.now ranks.new }
{
    for id in 0..set.len() {
        ranks[id] = rank(set[id], used);
    }
}

/// The ranks of the threads, and how many there are; the numbers in use go behind the sources.
pub(crate) fn rank_threads(
    alloc: Global,
    set: &[Option<usize>],
    used: &mut [u32],
    sources: &mut Vec<u32>,
) -> Result<(Vec<u32>, usize), AllocError>
    requires bound { length used.old < 2 ^ 31 }
    requires numbers { (id s : ℕ) → Holds set.now id s → s < length used.old }
    ensures same { IsSame sources.old.items sources.new.items }
    ensures numbered { IfOk result (λ x. IsNumbered (length sources.old.items) (length used.old)
        set.now sources.new.items x.0.items x.1) }
{
    mark_numbers(set, used);
    let count = rank_numbers(used, sources)?;
    let mut ranks = vec![in alloc; 0; set.len()]?;
    rank_all(set, used, &mut ranks);
    Ok((ranks, count))
}

/// How many of the first numbers stay what they are.
pub(crate) fn kept(sources: &[u32], start: usize, count: usize) -> usize
    requires { start + count ≤ length sources.now }
    ensures most { result ≤ count }
    ensures same { (k : ℕ) → k < result → get_or sources.now (start + k) 0 ≡ k }
{
    for number in 0..count {
        if sources[start + number] as usize != number {
            return number;
        }
    }
    count
}
