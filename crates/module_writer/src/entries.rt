//! What sections hold one after the other.

ghost use Rattle.std.specs.Prelude.{◌≡◌, map};
ghost use Rattle.module_writer.specs.Outputs.{Adds};
ghost use Rattle.module_writer.specs.Writers.{vec_to};

use crate::basics::val_code;
use crate::output::Output;
use wasm_types::ValType;

/// A kind of what a section, or another part of a module, holds one after the other.
pub(crate) trait Kind {
    ghost use Rattle.std.specs.Prelude.{ℕ, List};
    ghost use Rattle.module_writer.specs.Outputs.{Adds};
    ghost use Rattle.module_writer.specs.Writers.{Written};

    /// One of them.
    type Entry;

    /// Its plain data.
    ghost Form: { Type 0 };

    ghost form: { Self.Entry → Form };

    /// How it is written behind bytes.
    ghost writes: { Form → List ℕ → Written };

    /// Writes one.
    fn write(out: &mut Output, one: &Self::Entry)
        ensures { Adds out.old out.new (writes (form one.now) out.old.bytes.items) };
}

/// Entries with their number before them.
pub(crate) fn entries<K: Kind>(out: &mut Output, all: &[K::Entry])
    ensures { Adds out.old out.new
        (vec_to K.writes (map K.form all.now) out.old.bytes.items) }
{
    out.count(all.len());
    for one in all {
        K::write(out, one);
    }
}

/// Integers.
pub(crate) enum Indices {}

impl Kind for Indices {
    ghost use Rattle.std.specs.Prelude.{ℕ};
    ghost use Rattle.module_writer.specs.Writers.{index_to};

    type Entry = u32;

    ghost Form = { ℕ };

    ghost form = { λ n. n };

    ghost writes = { index_to };

    fn write(out: &mut Output, one: &u32) {
        out.index(*one);
    }
}

/// Types of values.
pub(crate) enum ValTypes {}

impl Kind for ValTypes {
    ghost use Rattle.wasm_types.specs.declared.types.ValType.{ValType};
    ghost use Rattle.module_writer.specs.Writing.{val_type_to};

    type Entry = ValType;

    ghost Form = { ValType };

    ghost form = { λ t. t };

    ghost writes = { val_type_to };

    fn write(out: &mut Output, one: &ValType) {
        out.byte(val_code(*one));
    }
}
