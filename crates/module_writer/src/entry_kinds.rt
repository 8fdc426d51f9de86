//! The parts of modules.

ghost use Rattle.std.specs.Prelude.{◌≡◌, ◌≤◌, length, IfOk};
ghost use Rattle.wasm_types.specs.Profile.{most_locals};
ghost use Rattle.module_writer.specs.Outputs.{Adds};
ghost use Rattle.module_writer.specs.Writing.{limits_to, runs_of, locals_to};

use crate::basics::{mut_code, name, val_code};
use crate::body::expr;
use crate::entries::{Indices, Kind, ValTypes, entries};
use crate::fault::WriteFault;
use crate::output::Output;
use std::alloc::{self, AllocError};
use wasm_types::{
    Data, Elem, Export, ExportDesc, Func, FuncType, Global, Import, Limits, Locals, MAX_ELEMENTS,
    MAX_LOCALS, MAX_PAGES, ValType,
};

/// Function types.
pub(crate) enum FuncTypes {}

impl Kind for FuncTypes {
    ghost use Rattle.wasm_types.specs.Syntax.{Signature};
    ghost use Rattle.wasm_types.specs.View.{signature_of};
    ghost use Rattle.module_writer.specs.Writing.{func_type_to};

    type Entry = FuncType;

    ghost Form = { Signature };

    ghost form = { signature_of };

    ghost writes = { func_type_to };

    fn write(out: &mut Output, one: &FuncType) {
        out.byte(0x60);
        entries::<ValTypes>(out, &one.params);
        match one.result {
            None => out.index(0),
            Some(t) => {
                out.index(1);
                out.byte(val_code(t));
            }
        }
    }
}

/// Imports.
pub(crate) enum Imports {}

impl Kind for Imports {
    ghost use Rattle.wasm_types.specs.Syntax.{ImportForm};
    ghost use Rattle.wasm_types.specs.View.{view_import};
    ghost use Rattle.module_writer.specs.Writing.{import_to};

    type Entry = Import;

    ghost Form = { ImportForm };

    ghost form = { view_import };

    ghost writes = { import_to };

    fn write(out: &mut Output, one: &Import) {
        name(out, &one.module);
        name(out, &one.name);
        out.byte(0x00);
        out.index(one.ty);
    }
}

/// Functions, of which a function section has the types.
pub(crate) enum TypeIndices {}

impl Kind for TypeIndices {
    ghost use Rattle.wasm_types.specs.Syntax.{FuncForm};
    ghost use Rattle.wasm_types.specs.View.{view_func};
    ghost use Rattle.module_writer.specs.Writing.{type_index_to};

    type Entry = Func;

    ghost Form = { FuncForm };

    ghost form = { view_func };

    ghost writes = { type_index_to };

    fn write(out: &mut Output, one: &Func) {
        out.index(one.ty);
    }
}

// Limits, of which the first is itself limited.
fn limits(out: &mut Output, most: u32, l: Limits)
    ensures { Adds out.old out.new (limits_to most l out.old.bytes.items) }
{
    if l.min > most {
        out.refuse(WriteFault::TooLarge);
        return;
    }
    match l.max {
        None => {
            out.byte(0x00);
            out.index(l.min);
        }
        Some(max) => {
            out.byte(0x01);
            out.index(l.min);
            out.index(max);
        }
    }
}

/// Tables, whose sizes at first are limited.
pub(crate) enum Tables {}

impl Kind for Tables {
    ghost use Rattle.wasm_types.specs.declared.types.Limits.{Limits};
    ghost use Rattle.module_writer.specs.Writing.{table_type_to};

    type Entry = Limits;

    ghost Form = { Limits };

    ghost form = { λ l. l };

    ghost writes = { table_type_to };

    fn write(out: &mut Output, one: &Limits) {
        out.byte(0x70);
        limits(out, MAX_ELEMENTS, *one);
    }
}

/// Memories, whose sizes at first are limited.
pub(crate) enum Memories {}

impl Kind for Memories {
    ghost use Rattle.wasm_types.specs.declared.types.Limits.{Limits};
    ghost use Rattle.wasm_types.specs.Profile.{most_pages};
    ghost use Rattle.module_writer.specs.Writing.{limits_to};

    type Entry = Limits;

    ghost Form = { Limits };

    ghost form = { λ l. l };

    ghost writes = { limits_to most_pages };

    fn write(out: &mut Output, one: &Limits) {
        limits(out, MAX_PAGES, *one);
    }
}

/// Globals.
pub(crate) enum Globals {}

impl Kind for Globals {
    ghost use Rattle.wasm_types.specs.Syntax.{GlobalForm};
    ghost use Rattle.wasm_types.specs.View.{view_global};
    ghost use Rattle.module_writer.specs.Writing.{global_to};

    type Entry = Global;

    ghost Form = { GlobalForm };

    ghost form = { view_global };

    ghost writes = { global_to };

    fn write(out: &mut Output, one: &Global) {
        out.byte(val_code(one.ty.value));
        out.byte(mut_code(one.ty.mutable));
        expr(out, &one.init);
    }
}

/// Exports.
pub(crate) enum Exports {}

impl Kind for Exports {
    ghost use Rattle.wasm_types.specs.Syntax.{ExportForm};
    ghost use Rattle.wasm_types.specs.View.{view_export};
    ghost use Rattle.module_writer.specs.Writing.{export_to};

    type Entry = Export;

    ghost Form = { ExportForm };

    ghost form = { view_export };

    ghost writes = { export_to };

    fn write(out: &mut Output, one: &Export) {
        let (code, n) = match one.desc {
            ExportDesc::Func(n) => (0x00, n),
            ExportDesc::Table(n) => (0x01, n),
            ExportDesc::Memory(n) => (0x02, n),
            ExportDesc::Global(n) => (0x03, n),
        };
        name(out, &one.name);
        out.byte(code);
        out.index(n);
    }
}

/// Element segments.
pub(crate) enum Elems {}

impl Kind for Elems {
    ghost use Rattle.wasm_types.specs.Syntax.{ElemForm};
    ghost use Rattle.wasm_types.specs.View.{view_elem};
    ghost use Rattle.module_writer.specs.Writing.{elem_to};

    type Entry = Elem;

    ghost Form = { ElemForm };

    ghost form = { view_elem };

    ghost writes = { elem_to };

    fn write(out: &mut Output, one: &Elem) {
        out.index(one.table);
        expr(out, &one.offset);
        entries::<Indices>(out, &one.init);
    }
}

/// Data segments.
pub(crate) enum DataSegments {}

impl Kind for DataSegments {
    ghost use Rattle.wasm_types.specs.Syntax.{DataForm};
    ghost use Rattle.wasm_types.specs.View.{view_data};
    ghost use Rattle.module_writer.specs.Writing.{data_to};

    type Entry = Data;

    ghost Form = { DataForm };

    ghost form = { view_data };

    ghost writes = { data_to };

    fn write(out: &mut Output, one: &Data) {
        out.index(one.memory);
        expr(out, &one.offset);
        out.counted(&one.init);
    }
}

// The locals as runs of one type, as long as can be.
fn runs(alloc: alloc::Global, locals: &[ValType]) -> Result<Vec<(u32, ValType)>, AllocError>
    requires { length locals.now ≤ most_locals }
    ensures { IfOk result (λ v. v.items ≡ runs_of locals.now) }
{
    let mut all = Vec::new(alloc);
    match locals {
        [] => {}
        [first, rest @ ..] => {
            let mut n = 1;
            let mut kind = *first;
            for t in rest {
                if *t == kind {
                    n += 1;
                } else {
                    all.push((n, kind))?;
                    n = 1;
                    kind = *t;
                }
            }
            all.push((n, kind))?;
        }
    }
    Ok(all)
}

// Runs: how many, and of which type.
enum LocalRuns {}

impl Kind for LocalRuns {
    ghost use Rattle.std.specs.Prelude.{ℕ};
    ghost use Rattle.wasm_types.specs.declared.types.ValType.{ValType};
    ghost use Rattle.module_writer.specs.Writers.{both_to, index_to};
    ghost use Rattle.module_writer.specs.Writing.{val_type_to};

    type Entry = (u32, ValType);

    ghost Form = { ℕ × ValType };

    ghost form = { λ r. r };

    ghost writes = { both_to index_to val_type_to };

    fn write(out: &mut Output, one: &(u32, ValType)) {
        out.index(one.0);
        out.byte(val_code(one.1));
    }
}

fn all_runs(alloc: alloc::Global, all: &Locals) -> Result<Vec<(u32, ValType)>, AllocError>
    requires { length all.now ≤ most_locals }
    ensures { IfOk result (λ v. v.items ≡ runs_of all.now) }
{
    let types = all.to_vec(alloc)?;
    runs(alloc, &types)
}

fn locals(out: &mut Output, all: &Locals)
    ensures { Adds out.old out.new (locals_to all.now out.old.bytes.items) }
{
    if all.len() > MAX_LOCALS as usize {
        out.refuse(WriteFault::TooLarge);
        return;
    }
    match all_runs(out.alloc(), all) {
        Ok(runs) => entries::<LocalRuns>(out, &runs),
        Err(_) => out.refuse(WriteFault::NoMemory),
    }
}

/// Functions, of which a code section has the code.
pub(crate) enum Codes {}

impl Kind for Codes {
    ghost use Rattle.wasm_types.specs.Syntax.{FuncForm};
    ghost use Rattle.wasm_types.specs.View.{view_func};
    ghost use Rattle.module_writer.specs.Writing.{code_to};

    type Entry = Func;

    ghost Form = { FuncForm };

    ghost form = { view_func };

    ghost writes = { code_to };

    // It is written on its own first, since its size stands before it.
    fn write(out: &mut Output, one: &Func) {
        let mut code = Output::new(out.alloc());
        locals(&mut code, &one.locals);
        expr(&mut code, &one.body);
        match code.all() {
            Ok(bytes) => out.counted(&bytes),
            Err(fault) => out.refuse(fault),
        }
    }
}
