//! Counts of what may have no bound.
ghost use Rattle.std.specs.Prelude.{◌≡◌, ◌+◌, max, suc, ℕ};
ghost use Rattle.lower_modules.specs.Counted.{counted};
ghost use Rattle.lower_modules.specs.Labels.{more_if, one_if};

/// The larger of two.
pub(crate) fn larger(one: u32, other: u32) -> u32
    ensures { result ≡ max one other }
{
    if one < other { other } else { one }
}

/// One more.
fn next(count: u32) -> u32
    ensures { result ≡ counted (suc count) }
{
    count.saturating_add(1)
}

/// How many temporaries, arrays of calls and iterators code needs at once, and how many labels stand around its parts.
#[derive(Clone, Copy)]
pub(crate) struct Counts {
    pub temporaries: u32,
    pub arrays: u32,
    pub iterators: u32,
    pub labels: u32,
}

/// Temporaries alone.
pub(crate) fn only(temporaries: u32) -> Counts
    ensures { result ≡ record { temporaries = temporaries; arrays = 0; iterators = 0; labels = 0 } }
{
    Counts {
        temporaries,
        arrays: 0,
        iterators: 0,
        labels: 0,
    }
}

/// The larger ones.
pub(crate) fn both(one: Counts, other: Counts) -> Counts
    ensures temporaries { result.temporaries ≡ max one.temporaries other.temporaries }
    ensures arrays { result.arrays ≡ max one.arrays other.arrays }
    ensures iterators { result.iterators ≡ max one.iterators other.iterators }
    ensures labels { result.labels ≡ max one.labels other.labels }
{
    Counts {
        temporaries: larger(one.temporaries, other.temporaries),
        arrays: larger(one.arrays, other.arrays),
        iterators: larger(one.iterators, other.iterators),
        labels: larger(one.labels, other.labels),
    }
}

/// The same, and so many temporaries at least.
pub(crate) fn at_least(temporaries: u32, counts: Counts) -> Counts
    ensures temporaries { result.temporaries ≡ max temporaries counts.temporaries }
    ensures arrays { result.arrays ≡ counts.arrays }
    ensures iterators { result.iterators ≡ counts.iterators }
    ensures labels { result.labels ≡ counts.labels }
{
    Counts {
        temporaries: larger(temporaries, counts.temporaries),
        arrays: counts.arrays,
        iterators: counts.iterators,
        labels: counts.labels,
    }
}

/// One temporary further.
pub(crate) fn later(counts: Counts) -> Counts
    ensures temporaries { result.temporaries ≡ counted (suc counts.temporaries) }
    ensures arrays { result.arrays ≡ counts.arrays }
    ensures iterators { result.iterators ≡ counts.iterators }
    ensures labels { result.labels ≡ counts.labels }
{
    Counts {
        temporaries: next(counts.temporaries),
        arrays: counts.arrays,
        iterators: counts.iterators,
        labels: counts.labels,
    }
}

/// With one array of a call more.
pub(crate) fn made(counts: Counts) -> Counts
    ensures temporaries { result.temporaries ≡ counts.temporaries }
    ensures arrays { result.arrays ≡ counted (suc counts.arrays) }
    ensures iterators { result.iterators ≡ counts.iterators }
    ensures labels { result.labels ≡ counts.labels }
{
    Counts {
        temporaries: counts.temporaries,
        arrays: next(counts.arrays),
        iterators: counts.iterators,
        labels: counts.labels,
    }
}

/// With one iterator more.
pub(crate) fn walking(counts: Counts) -> Counts
    ensures temporaries { result.temporaries ≡ counts.temporaries }
    ensures arrays { result.arrays ≡ counts.arrays }
    ensures iterators { result.iterators ≡ counted (suc counts.iterators) }
    ensures labels { result.labels ≡ counts.labels }
{
    Counts {
        temporaries: counts.temporaries,
        arrays: counts.arrays,
        iterators: next(counts.iterators),
        labels: counts.labels,
    }
}

/// Within so many labels more.
pub(crate) fn inside(counts: Counts, labels: u32) -> Counts
    ensures temporaries { result.temporaries ≡ counts.temporaries }
    ensures arrays { result.arrays ≡ counts.arrays }
    ensures iterators { result.iterators ≡ counts.iterators }
    ensures labels { result.labels ≡ counted (counts.labels + labels) }
{
    Counts {
        temporaries: counts.temporaries,
        arrays: counts.arrays,
        iterators: counts.iterators,
        labels: counts.labels.saturating_add(labels),
    }
}

/// One label more where this is so.
pub(crate) fn more_if(more: bool, counts: Counts) -> Counts
    ensures temporaries { result.temporaries ≡ counts.temporaries }
    ensures arrays { result.arrays ≡ counts.arrays }
    ensures iterators { result.iterators ≡ counts.iterators }
    ensures labels { (labels : ℕ) → counts.labels ≡ counted labels → result.labels
        ≡ counted (more_if more labels) }
{
    if more { inside(counts, 1) } else { counts }
}

/// One label at least where this is so.
pub(crate) fn one_if(some: bool, counts: Counts) -> Counts
    ensures temporaries { result.temporaries ≡ counts.temporaries }
    ensures arrays { result.arrays ≡ counts.arrays }
    ensures iterators { result.iterators ≡ counts.iterators }
    ensures labels { (labels : ℕ) → counts.labels ≡ counted labels → result.labels
        ≡ counted (one_if some labels) }
{
    if some {
        both(counts, inside(only(0), 1))
    } else {
        counts
    }
}
