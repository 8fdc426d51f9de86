//! The names of sums, of remainders and of comparisons, each once.
ghost use Rattle.std.specs.Prelude.{[], ◌≡◌, IfOk, map, OnOk};
ghost use Rattle.lower_quick.specs.View.{view_addition, view_holder, view_pair, view_remainder, view_source, view_sum};
ghost use Rattle.lower_model.specs.Quick.{addition_names, and_name, and_source, is_among, same_holder, pair_names, remainder_names, sum_names};

use crate::addition::Addition;
use crate::pair::Pair;
use crate::remainder::Remainder;
use crate::source::{Holder, Source};
use crate::sum::Sum;
use std::alloc::{AllocError, Global};

/// Whether two holders are one.
fn same_holder(holder: Holder, other: Holder) -> bool
    ensures { result ≡ same_holder (view_holder holder) (view_holder other) }
{
    match (holder, other) {
        (Holder::Name(name), Holder::Name(number)) => name == number,
        (Holder::Parameter(place), Holder::Parameter(number)) => place == number,
        _ => false,
    }
}

fn is_among(name: Holder, names: &[Holder]) -> bool
    ensures { result ≡ is_among (view_holder name) (map view_holder names.now) }
{
    for it in names {
        if same_holder(name, *it) {
            return true;
        }
    }
    false
}

/// Puts a name before others, unless it is among them.
fn and_name(names: &mut Vec<Holder>, name: Holder) -> Result<(), AllocError>
    ensures { OnOk result (map view_holder names.new.items
        ≡ and_name (view_holder name) (map view_holder names.old.items)) }
{
    if !is_among(name, names) {
        names.insert(0, name)?;
    }
    Ok(())
}

fn and_source(names: &mut Vec<Holder>, source: Source) -> Result<(), AllocError>
    ensures { OnOk result (map view_holder names.new.items
        ≡ and_source (view_source source) (map view_holder names.old.items)) }
{
    match source {
        Source::Held(name) => and_name(names, name),
        Source::Constant(_) => Ok(()),
    }
}

/// The names of two sources.
fn source_names(alloc: Global, left: Source, right: Source) -> Result<Vec<Holder>, AllocError>
    ensures { IfOk result (λ names. map view_holder names.items
        ≡ and_source (view_source left) (and_source (view_source right) [])) }
{
    let mut names = Vec::new(alloc);
    and_source(&mut names, right)?;
    and_source(&mut names, left)?;
    Ok(names)
}

/// The names of a sum of two sources.
pub fn addition_names(alloc: Global, addition: Addition) -> Result<Vec<Holder>, AllocError>
    ensures { IfOk result
        (λ names. map view_holder names.items ≡ addition_names (view_addition addition)) }
{
    source_names(alloc, addition.left, addition.right)
}

/// The names of a sum, the one that it goes to among them.
pub fn sum_names(alloc: Global, sum: Sum) -> Result<Vec<Holder>, AllocError>
    ensures { IfOk result (λ names. map view_holder names.items ≡ sum_names (view_sum sum)) }
{
    let mut names = source_names(alloc, sum.left, sum.right)?;
    and_name(&mut names, sum.target)?;
    Ok(names)
}

/// The names of a comparison.
pub fn pair_names(alloc: Global, pair: Pair) -> Result<Vec<Holder>, AllocError>
    ensures { IfOk result (λ names. map view_holder names.items ≡ pair_names (view_pair pair)) }
{
    source_names(alloc, pair.left, pair.right)
}

/// The names of a remainder, the one that it goes to among them.
pub fn remainder_names(alloc: Global, remainder: Remainder) -> Result<Vec<Holder>, AllocError>
    ensures { IfOk result (λ names. map view_holder names.items ≡ remainder_names (view_remainder remainder)) }
{
    let mut names = Vec::new(alloc);
    and_name(&mut names, remainder.multiple.name)?;
    and_name(&mut names, remainder.target)?;
    Ok(names)
}
