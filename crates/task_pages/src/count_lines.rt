//! What `count` and `run --stats` print.
ghost use Rattle.std.specs.Prelude.{◌≡◌, [], true, IfOk};
ghost use Rattle.run_report.specs.CountTexts.{count_text, stats_text};
ghost use Rattle.task_pages.specs.ToldLines.{AreLines, is_uncounted};

use crate::telling::Lines;
use run_report::{RunCounts, RunEnd, count_text, stats_text};
use std::alloc::{AllocError, Global};

/// The lines of a run of which nothing is counted: none where its script is refused, else memory ran out.
fn uncounted(alloc: Global, end: &RunEnd) -> Lines
    ensures { IfOk result (λ made. (made.items ≡ []) × (is_uncounted end.now ≡ true)) }
{
    match end {
        RunEnd::Refused(_) => Ok(Vec::new(alloc)),
        _ => Err(AllocError),
    }
}

/// The listing of a script that was run so.
///
/// # Errors
///
/// For want of memory.
pub fn listing_of(alloc: Global, script: &[u8], end: &RunEnd, counts: &Option<RunCounts>) -> Lines
    ensures { AreLines (is_uncounted end.now) (count_text script.now) counts.now result }
{
    match counts {
        Some(counts) => count_text(alloc, script, counts),
        None => uncounted(alloc, end),
    }
}

/// What is told of what a run took.
///
/// # Errors
///
/// For want of memory.
pub fn stats_of(alloc: Global, end: &RunEnd, counts: &Option<RunCounts>) -> Lines
    ensures { AreLines (is_uncounted end.now) stats_text counts.now result }
{
    match counts {
        Some(counts) => stats_text(alloc, counts),
        None => uncounted(alloc, end),
    }
}
