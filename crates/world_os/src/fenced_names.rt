//! Names, among which a name is found fast.
ghost use Rattle.std.specs.Prelude.{◌≡◌, ℕ, List, IfOk};
ghost use Rattle.world_os.specs.Named.{IsInOrder, is_one_borrowed};
ghost use Rattle.std.specs.Ordering.{nat_cmp};
ghost use Rattle.std.specs.Cmp.Lexicographic.{slice_cmp};

use std::alloc::{AllocError, Global};
use std::cmp::Ordering;

/// Some names: as they are listed, and in the order of their bytes, so that a look compares few of them.
#[derive(Drop)]
pub struct Names<'a> {
    listed: &'a [&'a str],
    in_order: Vec<&'a str>,
    ghost sorted: { IsInOrder in_order.items },
    ghost same: { (name : List ℕ) → is_one_borrowed in_order.items name
        ≡ is_one_borrowed listed.now name },
}

/// The names in the order of their bytes.
fn in_order<'a>(alloc: Global, names: &[&'a str]) -> Result<Vec<&'a str>, AllocError>
    ensures sorted { IfOk result (λ sorted. IsInOrder sorted.items) }
    ensures same { IfOk result (λ sorted. (name : List ℕ) → is_one_borrowed sorted.items name
        ≡ is_one_borrowed names.now name) }
{
    let mut sorted = Vec::new(alloc);
    sorted.extend_from_slice(names)?;
    sorted.sort_unstable();
    Ok(sorted)
}

/// How two names stand in the order of their bytes.
fn order(a: &str, b: &[u8]) -> Ordering
    ensures { result ≡ slice_cmp nat_cmp a.now b.now }
{
    a.as_bytes().cmp(&b)
}

/// Whether a name is one of these, which are in order.
fn is_in(sorted: &[&str], name: &[u8]) -> bool
    requires { IsInOrder sorted.now }
    ensures { result ≡ is_one_borrowed sorted.now name.now }
{
    sorted.binary_search_by(|n| order(n, name)).is_ok()
}

impl<'a> Names<'a> {
    ghost use Rattle.std.specs.Prelude.{IfOk};
    ghost use Rattle.world_os.specs.Fences.{is_empty, list_of};
    ghost use Rattle.world_os.specs.Named.{is_one_of};
    ghost use Rattle.std.specs.Prelude.{[], map};

    /// No name. It takes no memory.
    pub fn none(alloc: Global) -> Names<'a>
        ensures { list_of result ≡ [] }
    {
        Names {
            listed: &[],
            in_order: Vec::new(alloc),
        }
    }

    /// These names.
    ///
    /// # Errors
    ///
    /// If memory runs out.
    pub fn new(alloc: Global, names: &'a [&'a str]) -> Result<Names<'a>, AllocError>
        ensures { IfOk result (λ them. list_of them ≡ map (λ n. n.now) names.now) }
    {
        Ok(Names {
            listed: names,
            in_order: in_order(alloc, names)?,
        })
    }

    /// Whether there are none.
    pub fn is_empty(&self) -> bool
        ensures { result ≡ is_empty (list_of self.now) }
    {
        self.listed.is_empty()
    }

    /// Whether a name is one of them, byte by byte.
    pub fn contains(&self, name: &[u8]) -> bool
        ensures { result ≡ is_one_of (list_of self.now) name.now }
    {
        is_in(&self.in_order, name)
    }
}
