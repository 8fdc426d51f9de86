//! Classes of bytes that no part of an expression tells apart.
ghost use Rattle.std.specs.Prelude.{◌≡◌, ◌+◌, ◌<◌, ℕ, length};
ghost use Rattle.ere_match.specs.Rows.{AreClasses, IsRefined, key_of};
ghost use Rattle.ere_match.specs.Runs.{filter_set};

use crate::node::{Filter, Node};

/// A number for a class and whether the filter takes a byte of it.
fn key(class: u8, taken: bool) -> usize
    ensures { result ≡ key_of class taken }
{
    let twice = usize::from(class) * 2;
    if taken { twice + 1 } else { twice }
}

/// The classes, each cut in two where the filter takes some of its bytes alone.
fn refined(classes: &[u8; 256], filter: &Filter) -> [u8; 256]
    ensures { IsRefined (filter_set filter.now) classes.now result }
{
    let mut cut = [0; 256];
    let mut seen: [Option<u8>; 512] = [None; 512];
    let mut count: usize = 0;
    for place in 0..256usize {
        let key = key(classes[place], filter.takes(place as u8));
        match seen[key] {
            Some(class) => cut[place] = class,
            None => {
                cut[place] = count as u8;
                seen[key] = Some(count as u8);
                count += 1;
            }
        }
    }
    cut
}

/// The class of each byte.
pub(crate) fn classes_of(nodes: &[Node]) -> [u8; 256]
    ensures { AreClasses nodes.now result }
{
    let mut classes = [0; 256];
    for node in nodes {
        match node {
            Node::Take(filter, _) => classes = refined(&classes, filter),
            _ => {}
        }
    }
    classes
}
