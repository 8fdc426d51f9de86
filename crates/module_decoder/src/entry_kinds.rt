//! The parts of modules.

ghost use Rattle.std.specs.Prelude.{◌≡◌, Ok};
ghost use Rattle.module_decoder.specs.Readers.{Gives, option_at};
ghost use Rattle.module_decoder.specs.Readings.{Reads};
ghost use Rattle.module_decoder.specs.Reading.{val_type_at, limits_at, min_at, export_desc_at, locals_at};

use crate::basics::{Span, index};
use crate::body::expr;
use crate::entries::{Indices, Kind, ValTypes, entries};
use crate::fault::DecodeFault;
use crate::reader::Reader;
use wasm_types::{
    Data, Elem, Export, ExportDesc, FuncType, Global, GlobalType, Import, Instr, Limits, Locals,
    MAX_ELEMENTS, MAX_LOCALS, MAX_PAGES, ValType,
};

/// The locals and the body of a function.
#[derive(Drop)]
pub struct Code {
    pub locals: Locals,
    pub body: Vec<Instr>,
}

/// At most one type of a value, with the number before it.
fn result_type(reader: &mut Reader) -> Option<ValType>
    ensures { Reads reader.old reader.new (Ok (result, reader.new.rest.now))
        (option_at reader.old.span (val_type_at reader.old.span) reader.old.rest.now) }
{
    match reader.index() {
        0 => None,
        1 => Some(reader.val_type()),
        _ => {
            reader.fail(reader.span.malformed());
            None
        }
    }
}

/// Types of functions.
pub(crate) enum FuncTypes {}

impl Kind for FuncTypes {
    ghost use Rattle.wasm_types.specs.Syntax.{Signature};
    ghost use Rattle.module_decoder.specs.Reading.{func_type_at};
    ghost use Rattle.wasm_types.specs.View.{signature_of};

    type Entry = FuncType;

    ghost Form = { Signature };

    ghost form = { signature_of };

    ghost reads = { func_type_at };

    fn read(reader: &mut Reader) -> FuncType {
        reader.tag(0x60);
        let params = entries::<ValTypes>(reader);
        let result = result_type(reader);
        FuncType { params, result }
    }
}

/// Imports.
pub(crate) enum Imports {}

impl Kind for Imports {
    ghost use Rattle.wasm_types.specs.Syntax.{ImportForm};
    ghost use Rattle.module_decoder.specs.Reading.{import_at};
    ghost use Rattle.wasm_types.specs.View.{view_import};

    type Entry = Import;

    ghost Form = { ImportForm };

    ghost form = { view_import };

    ghost reads = { import_at };

    fn read(reader: &mut Reader) -> Import {
        let module = reader.name();
        let name = reader.name();
        reader.tag(0);
        let ty = reader.index();
        Import { module, name, ty }
    }
}

/// The least size, which is at most this.
fn min_size(reader: &mut Reader, most: u32) -> u32
    ensures { Reads reader.old reader.new (Ok (result, reader.new.rest.now))
        (min_at reader.old.span most reader.old.rest.now) }
{
    let min = reader.index();
    if min > most {
        reader.fail(DecodeFault::TooLarge);
    }
    min
}

fn limits(reader: &mut Reader, most: u32) -> Limits
    ensures { Reads reader.old reader.new (Ok (result, reader.new.rest.now))
        (limits_at reader.old.span most reader.old.rest.now) }
{
    let has_max = reader.flag();
    let min = min_size(reader, most);
    if !has_max {
        return Limits { min, max: None };
    }
    let max = Some(reader.index());
    Limits { min, max }
}

/// Types of tables.
pub(crate) enum Tables {}

impl Kind for Tables {
    ghost use Rattle.wasm_types.specs.declared.types.Limits.{Limits};
    ghost use Rattle.module_decoder.specs.Reading.{table_type_at};

    type Entry = Limits;

    ghost Form = { Limits };

    ghost form = { λ l. l };

    ghost reads = { table_type_at };

    fn read(reader: &mut Reader) -> Limits {
        reader.tag(0x70);
        limits(reader, MAX_ELEMENTS)
    }
}

/// Types of memories.
pub(crate) enum Memories {}

impl Kind for Memories {
    ghost use Rattle.wasm_types.specs.declared.types.Limits.{Limits};
    ghost use Rattle.module_decoder.specs.Reading.{limits_at};
    ghost use Rattle.wasm_types.specs.Profile.{most_pages};

    type Entry = Limits;

    ghost Form = { Limits };

    ghost form = { λ l. l };

    ghost reads = { λ c. limits_at c most_pages };

    fn read(reader: &mut Reader) -> Limits {
        limits(reader, MAX_PAGES)
    }
}

/// Globals.
pub(crate) enum Globals {}

impl Kind for Globals {
    ghost use Rattle.wasm_types.specs.Syntax.{GlobalForm};
    ghost use Rattle.module_decoder.specs.Reading.{global_at};
    ghost use Rattle.wasm_types.specs.View.{view_global};

    type Entry = Global;

    ghost Form = { GlobalForm };

    ghost form = { view_global };

    ghost reads = { global_at };

    fn read(reader: &mut Reader) -> Global {
        let value = reader.val_type();
        let mutable = reader.flag();
        let init = expr(reader);
        Global {
            ty: GlobalType { value, mutable },
            init,
        }
    }
}

fn export_desc(c: Span, bytes: &[u8]) -> Result<(ExportDesc, &[u8]), DecodeFault>
    ensures { Gives (λ x. (x.0, x.1.now)) result (export_desc_at c bytes.now) }
{
    match bytes {
        [] => Err(c.malformed()),
        [b, rest @ ..] => {
            let b = *b;
            if b > 3 {
                return Err(c.malformed());
            }
            let (n, rest) = index(c, rest)?;
            match b {
                0 => Ok((ExportDesc::Func(n), rest)),
                1 => Ok((ExportDesc::Table(n), rest)),
                2 => Ok((ExportDesc::Memory(n), rest)),
                _ => Ok((ExportDesc::Global(n), rest)),
            }
        }
    }
}

/// Exports.
pub(crate) enum Exports {}

impl Kind for Exports {
    ghost use Rattle.wasm_types.specs.Syntax.{ExportForm};
    ghost use Rattle.module_decoder.specs.Reading.{export_at};
    ghost use Rattle.wasm_types.specs.View.{view_export};

    type Entry = Export;

    ghost Form = { ExportForm };

    ghost form = { view_export };

    ghost reads = { export_at };

    fn read(reader: &mut Reader) -> Export {
        let name = reader.name();
        let desc = reader.take(export_desc(reader.span, reader.rest), ExportDesc::Func(0));
        Export { name, desc }
    }
}

/// Elements of tables.
pub(crate) enum Elems {}

impl Kind for Elems {
    ghost use Rattle.wasm_types.specs.Syntax.{ElemForm};
    ghost use Rattle.module_decoder.specs.Reading.{elem_at};
    ghost use Rattle.wasm_types.specs.View.{view_elem};

    type Entry = Elem;

    ghost Form = { ElemForm };

    ghost form = { view_elem };

    ghost reads = { elem_at };

    fn read(reader: &mut Reader) -> Elem {
        let table = reader.index();
        let offset = expr(reader);
        let init = entries::<Indices>(reader);
        Elem {
            table,
            offset,
            init,
        }
    }
}

/// Bytes of memories.
pub(crate) enum DataSegments {}

impl Kind for DataSegments {
    ghost use Rattle.wasm_types.specs.Syntax.{DataForm};
    ghost use Rattle.module_decoder.specs.Reading.{data_at};
    ghost use Rattle.wasm_types.specs.View.{view_data};

    type Entry = Data;

    ghost Form = { DataForm };

    ghost form = { view_data };

    ghost reads = { data_at };

    fn read(reader: &mut Reader) -> Data {
        let memory = reader.index();
        let offset = expr(reader);
        let bytes = reader.counted();
        let init = reader.made(Vec::from_slice(reader.alloc, bytes), Vec::new(reader.alloc));
        Data {
            memory,
            offset,
            init,
        }
    }
}

fn locals(reader: &mut Reader) -> Locals
    ensures { Reads reader.old reader.new (Ok (result, reader.new.rest.now))
        (locals_at reader.old.span reader.old.rest.now) }
{
    let count = reader.index();
    let mut all = Locals::new(reader.alloc);
    let mut left = MAX_LOCALS;
    for _ in 0..count {
        if reader.has_failed() {
            return all;
        }
        let n = reader.index();
        if n > left {
            reader.fail(DecodeFault::TooLarge);
            return all;
        }
        let t = reader.val_type();
        reader.made(all.push(n, t), ());
        left -= n;
    }
    all
}

/// Locals and bodies of functions.
pub(crate) enum Codes {}

impl Kind for Codes {
    ghost use Rattle.wasm_types.specs.ModuleGrammar.{CodeForm};
    ghost use Rattle.module_decoder.specs.Reading.{code_at};
    ghost use Rattle.module_decoder.specs.View.{view_code};

    type Entry = Code;

    ghost Form = { CodeForm };

    ghost form = { view_code };

    ghost reads = { code_at };

    fn read(reader: &mut Reader) -> Code {
        let content = reader.counted();
        let within = Span {
            section: reader.span.section,
            end: reader.span.end.saturating_sub(reader.rest.len()),
        };
        let mut inner = Reader::new(reader.alloc, within, content);
        let locals = locals(&mut inner);
        let body = expr(&mut inner);
        inner.ended();
        reader.check(inner.sound());
        Code { locals, body }
    }
}
