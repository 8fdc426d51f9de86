//! The tables that a job begins with.
ghost use Rattle.std.specs.Prelude.{◌≡◌, None};
ghost use Rattle.std.specs.FinMap as map;
ghost use Rattle.host_values.specs.Forms.{HostForm};
ghost use Rattle.host_tables.specs.Starts.{form_of};
ghost use Rattle.host_values.specs.Calls.{reserved_handle};
ghost use Rattle.host_tables.specs.Forms.{of_tables_and_names};

use crate::byte_texts::ByteTexts;
use crate::start::FirstTables;
use crate::tables::Tables;
use host_texts::Names;
use host_values::Literals;
use std::alloc::Global;

impl Tables {
    /// The tables that a job begins with, and the names that stand beside them.
    pub fn new(alloc: Global, first: FirstTables) -> (Tables, Names)
        requires values { map.get first.handles reserved_handle ≡ None }
        requires arrays { map.get first.arrays reserved_handle ≡ None }
        requires iterators { map.get first.iterators reserved_handle ≡ None }
        ensures form { (f : HostForm) → of_tables_and_names result.0 result.1 f
            ≡ form_of first f.shared f.coming }
        ensures names { result.1 ≡ first.names }
        ensures fault { result.0.fault ≡ first.fault }
    {
        let tables = Tables {
            alloc,
            handles: first.handles,
            arrays: first.arrays,
            iterators: first.iterators,
            texts: first.texts,
            arguments: first.arguments,
            literals: Literals::new(alloc),
            byte_texts: ByteTexts::new(alloc),
            fault: first.fault,
        };
        (tables, first.names)
    }
}
