//! Boxes and lists of what owns much: what finds no room is let go here, for every type at once.

ghost use Rattle.std.specs.Prelude.{◌≡◌, [], ◌∷◌, ◌++◌, Ok, IfOk, IsOkAnd, OnOk};

use std::alloc::{AllocError, Global};

/// A value in a box.
pub(crate) fn boxed<T: Drop>(alloc: Global, value: T) -> Result<Box<T>, AllocError>
    ensures { IfOk result (λ boxed. boxed.value ≡ value) }
{
    Ok(Box::new(alloc, value)?)
}

/// Adds an item to others.
pub(crate) fn push<T: Drop>(items: &mut Vec<T>, item: T) -> Result<(), AllocError>
    ensures items { OnOk result (items.new.items ≡ items.old.items ++ item ∷ []) }
{
    items.push(item)?;
    Ok(())
}

/// Adds an item that was made, if it was.
pub(crate) fn push_made<T: Drop>(
    items: &mut Vec<T>,
    item: Result<T, AllocError>,
) -> Result<(), AllocError>
    ensures items { OnOk result (IsOkAnd item (λ made. items.new.items
        ≡ items.old.items ++ made ∷ [])) }
{
    push(items, item?)
}

/// A value that was made, in a box.
pub(crate) fn in_box<T: Drop>(
    alloc: Global,
    value: Result<T, AllocError>,
) -> Result<Box<T>, AllocError>
    ensures { IfOk result (λ boxed. value ≡ Ok boxed.value) }
{
    boxed(alloc, value?)
}

/// Two values, if both were made.
pub(crate) fn both<T: Drop, U: Drop>(
    first: Result<T, AllocError>,
    second: Result<U, AllocError>,
) -> Result<(T, U), AllocError>
    ensures { IfOk result (λ both. (first ≡ Ok both.0) × (second ≡ Ok both.1)) }
{
    let first = first?;
    Ok((first, second?))
}

/// Three values, if all were made.
pub(crate) fn all_three<T: Drop, U: Drop, V: Drop>(
    first: Result<T, AllocError>,
    second: Result<U, AllocError>,
    third: Result<V, AllocError>,
) -> Result<(T, U, V), AllocError>
    ensures { IfOk result (λ all. (first ≡ Ok all.0) × (second ≡ Ok all.1)
        × (third ≡ Ok all.2)) }
{
    let (first, second) = both(first, second)?;
    Ok((first, second, third?))
}

/// A list of one item.
pub(crate) fn single<T: Drop>(alloc: Global, item: T) -> Result<Vec<T>, AllocError>
    ensures { IfOk result (λ list. list.items ≡ item ∷ []) }
{
    let mut list = Vec::with_capacity(alloc, 1)?;
    push(&mut list, item)?;
    Ok(list)
}

/// A list of two items.
pub(crate) fn pair<T: Drop>(alloc: Global, first: T, second: T) -> Result<Vec<T>, AllocError>
    ensures { IfOk result (λ list. list.items ≡ first ∷ second ∷ []) }
{
    let mut list = Vec::with_capacity(alloc, 2)?;
    push(&mut list, first)?;
    push(&mut list, second)?;
    Ok(list)
}

/// A list of three items.
pub(crate) fn triple<T: Drop>(
    alloc: Global,
    first: T,
    second: T,
    third: T,
) -> Result<Vec<T>, AllocError>
    ensures { IfOk result (λ list. list.items ≡ first ∷ second ∷ third ∷ []) }
{
    let mut list = Vec::with_capacity(alloc, 3)?;
    push(&mut list, first)?;
    push(&mut list, second)?;
    push(&mut list, third)?;
    Ok(list)
}
