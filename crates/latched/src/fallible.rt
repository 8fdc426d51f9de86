//! Boxes and lists of any type. Where memory runs out the value that came is let go.

ghost use Rattle.std.specs.Prelude.{◌≡◌, ◌<◌, [], ◌∷◌, ◌++◌, IfOk, OnErr, OnOk, length, slice_set};

use std::alloc::{AllocError, Global};
use std::rc::Rc;

/// A value in a box.
///
/// # Errors
///
/// Where there is no memory for the box.
pub fn boxed<T: Drop>(alloc: Global, value: T) -> Result<Box<T>, AllocError>
    ensures ok { IfOk result (λ boxed. boxed.value ≡ value) }
{
    Ok(Box::new(alloc, value)?)
}

/// A value that is shared.
///
/// # Errors
///
/// Where there is no memory for it.
pub fn shared<T: Drop>(alloc: Global, value: T) -> Result<Rc<T>, AllocError>
    ensures ok { IfOk result (λ shared. shared.value ≡ value) }
{
    Ok(Rc::new(alloc, value)?)
}

/// Adds an item to others.
///
/// # Errors
///
/// Where there is no memory for it. The list is then as before.
pub fn push<T: Drop>(items: &mut Vec<T>, item: T) -> Result<(), AllocError>
    ensures items { OnOk result (items.new.items ≡ items.old.items ++ item ∷ []) }
    ensures unchanged { OnErr result (items.new.items ≡ items.old.items) }
{
    items.push(item)?;
    Ok(())
}

/// Puts an item in the place of another.
pub fn set<T: Drop>(items: &mut Vec<T>, at: usize, item: T)
    requires { at < length items.old.items }
    ensures { items.new.items ≡ slice_set items.old.items at item }
{
    items[at] = item;
}

/// A list of one item.
///
/// # Errors
///
/// Where there is no memory for it.
pub fn single<T: Drop>(alloc: Global, item: T) -> Result<Vec<T>, AllocError>
    ensures { IfOk result (λ list. list.items ≡ item ∷ []) }
{
    let mut list = Vec::with_capacity(alloc, 1)?;
    push(&mut list, item)?;
    Ok(list)
}

/// A list of two items.
///
/// # Errors
///
/// Where there is no memory for it.
pub fn pair<T: Drop>(alloc: Global, first: T, second: T) -> Result<Vec<T>, AllocError>
    ensures { IfOk result (λ list. list.items ≡ first ∷ second ∷ []) }
{
    let mut list = Vec::with_capacity(alloc, 2)?;
    push(&mut list, first)?;
    push(&mut list, second)?;
    Ok(list)
}

/// A list of three items.
///
/// # Errors
///
/// Where there is no memory for it.
pub fn triple<T: Drop>(alloc: Global, first: T, second: T, third: T) -> Result<Vec<T>, AllocError>
    ensures { IfOk result (λ list. list.items ≡ first ∷ second ∷ third ∷ []) }
{
    let mut list = Vec::with_capacity(alloc, 3)?;
    push(&mut list, first)?;
    push(&mut list, second)?;
    push(&mut list, third)?;
    Ok(list)
}
