//! The tables of the host, apart from the world.
ghost use Rattle.std.specs.Prelude.{◌≡◌, None};
ghost use Rattle.std.specs.FinMap as map;
ghost use Rattle.host_values.specs.Calls.{reserved_handle};

use crate::byte_texts::ByteTexts;
use awk_values::{Fault, Value};
use host_arrays::Arrays;
use host_handles::Handles;
use host_texts::Texts;
use host_values::{Iterators, Literals};
use smallvec::SmallVec;
use std::alloc::Global;

/// Values, arrays and iterators by their numbers; special variables, record and what else belongs to texts; the argument list; the fault that is kept.
/// The number 2^31 - 1 stays free in each table.
#[derive(Drop)]
pub struct Tables {
    pub alloc: Global,
    pub handles: Handles,
    pub arrays: Arrays,
    pub iterators: Iterators,
    pub texts: Texts,
    /// The argument list.
    pub arguments: SmallVec<Value, 8>,
    /// The texts of literals that were asked for last.
    pub literals: Literals,
    /// The texts of single bytes.
    pub byte_texts: ByteTexts,
    /// The fault that is kept.
    pub fault: Option<Fault>,
    ghost free_handle: { map.get handles reserved_handle ≡ None },
    ghost free_array: { map.get arrays reserved_handle ≡ None },
    ghost free_iterator: { map.get iterators reserved_handle ≡ None },
}
