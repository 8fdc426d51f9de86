//! What sections hold one after the other.

ghost use Rattle.std.specs.Prelude.{Ok, map};
ghost use Rattle.module_decoder.specs.Readers.{vec_at, whole};
ghost use Rattle.module_decoder.specs.Readings.{Reads};

use crate::reader::Reader;
use wasm_types::ValType;

/// A kind of what a section, or another part of a module, holds one after the other.
pub(crate) trait Kind {
    ghost use Rattle.std.specs.Prelude.{ℕ, List, Ok};
    ghost use Rattle.module_decoder.specs.declared.basics.Span.{Span};
    ghost use Rattle.module_decoder.specs.Readers.{Read};
    ghost use Rattle.module_decoder.specs.Readings.{Reads};

    /// One of them.
    type Entry: Drop;

    /// Its plain data.
    ghost Form: { Type 0 };

    ghost form: { Self.Entry → Form };

    /// How it is read from the front of bytes.
    ghost reads: { Span → List ℕ → Read Form };

    /// Reads one.
    fn read(reader: &mut Reader) -> Self::Entry
        ensures { Reads reader.old reader.new (Ok (form result, reader.new.rest.now))
            (reads reader.old.span reader.old.rest.now) };
}

/// Entries with their number before them.
pub(crate) fn entries<K: Kind>(reader: &mut Reader) -> Vec<K::Entry>
    ensures { Reads reader.old reader.new (Ok (map K.form result.items, reader.new.rest.now))
        (vec_at reader.old.span (K.reads reader.old.span) reader.old.rest.now) }
{
    let count = reader.index();
    let mut all = Vec::new(reader.alloc);
    for _ in 0..count {
        if reader.has_failed() {
            return all;
        }
        let one = K::read(reader);
        reader.push(&mut all, one);
    }
    all
}

/// Takes the entries that fill a section.
pub(crate) fn fill<K: Kind>(all: &mut Vec<K::Entry>, reader: &mut Reader)
    ensures { Reads reader.old reader.new (Ok (map K.form all.new.items))
        (whole reader.old.span (vec_at reader.old.span (K.reads reader.old.span)) reader.old.rest.now) }
{
    *all = entries::<K>(reader);
    reader.ended();
}

/// Integers.
pub(crate) enum Indices {}

impl Kind for Indices {
    ghost use Rattle.std.specs.Prelude.{ℕ};
    ghost use Rattle.module_decoder.specs.Readers.{index_at};

    type Entry = u32;

    ghost Form = { ℕ };

    ghost form = { λ n. n };

    ghost reads = { index_at };

    fn read(reader: &mut Reader) -> u32 {
        reader.index()
    }
}

/// Types of values.
pub(crate) enum ValTypes {}

impl Kind for ValTypes {
    ghost use Rattle.wasm_types.specs.declared.types.ValType.{ValType};
    ghost use Rattle.module_decoder.specs.Reading.{val_type_at};

    type Entry = ValType;

    ghost Form = { ValType };

    ghost form = { λ t. t };

    ghost reads = { val_type_at };

    fn read(reader: &mut Reader) -> ValType {
        reader.val_type()
    }
}
