//! The parts of a module.
ghost use Rattle.std.specs.Prelude.{◌≡◌, ◌+◌, ◌*◌, ◌≤◌, ◌++◌, ◌∷◌, [], length, map, replicate, true, IfOk, OnOk};
ghost use Rattle.mid_program.specs.Sorted.{announced_names, kinds_of};
ghost use Rattle.mid_program.specs.View.{view_declared, view_mid, view_routine, view_texts};
ghost use Rattle.latched.specs.Latched.{Adds};
ghost use Rattle.lower_modules.specs.Limits.{most_bytes};
ghost use Rattle.lower_modules.specs.Parts.{text_form};
ghost use Rattle.lower_modules.specs.View.{view_function, view_functions};
ghost use Rattle.lower_model.specs.Functions.{texts_of};
ghost use Rattle.host_imports.specs.Imports.{imports, module_name};
ghost use Rattle.host_imports.specs.Names.{import_name};
ghost use Rattle.lower_model.specs.Modules.{exports_of, functions_from, globals_of, imported_from, long_global, memory_for, name_globals, renumbered, word_global};
ghost use Rattle.lower_model.specs.Places.{memory_of};
ghost use Rattle.lower_model.specs.Small.{emit, minus_one};
ghost use Rattle.wasm_types.specs.Syntax.{Done};
ghost use Rattle.wasm_types.specs.View.{view_data, view_export, view_func, view_global, view_import, views};

use crate::called_imports::{Numbers, renumbered};
use crate::function::Function;
use host_imports::Import;
use latched::{LatchedVec, single};
use mid_program::{Declared, Kind, Mid, Routine};
use std::alloc::{AllocError, Global};
use wasm_types::{
    Data, Export, ExportDesc, Func, GlobalType, Instr, Limits, Locals, Simple, ValType,
};

fn import_form(alloc: Global, import: Import, ty: u32) -> Result<wasm_types::Import, AllocError>
    ensures { IfOk result
        (λ made. view_import made
        ≡ record { from = module_name; name = import_name import; ty = ty }) }
{
    Ok(wasm_types::Import {
        module: String::from_str(alloc, "awk2")?,
        name: String::from_str(alloc, import.name())?,
        ty,
    })
}

/// Imports, each of the type of its place.
pub(crate) fn import_forms(
    alloc: Global,
    used: &[Import],
) -> Result<Vec<wasm_types::Import>, AllocError>
    requires { length used.now ≤ length imports }
    ensures { IfOk result (λ all. map view_import all.items ≡ imported_from 0 used.now) }
{
    let mut all = LatchedVec::new(alloc);
    let mut ty = 0;
    for import in used {
        all.push_made(import_form(alloc, *import, ty));
        ty += 1;
    }
    all.into_vec()
}

fn function_form(
    alloc: Global,
    numbers: &Numbers<'_>,
    ty: u32,
    function: &Function,
) -> Result<Func, AllocError>
    ensures { IfOk result (λ made. view_func made ≡ record {
      ty = ty;
      locals = function.now.locals.items;
      body =
          renumbered numbers.now.called.now (views function.now.body.items);
    }) }
{
    Ok(Func {
        ty,
        locals: Locals::of(alloc, &function.locals)?,
        body: renumbered(alloc, numbers, &function.body)?,
    })
}

/// Functions, each of a type of its own; the first has this number.
pub(crate) fn function_forms(
    alloc: Global,
    numbers: &Numbers<'_>,
    first: u32,
    functions: &[Function],
) -> Result<Vec<Func>, AllocError>
    requires { first + length functions.now ≤ 2 * most_bytes }
    ensures { IfOk result
        (λ all. map view_func all.items
        ≡ functions_from numbers.now.called.now first (view_functions functions.now)) }
{
    let mut all = LatchedVec::new(alloc);
    let mut ty = first;
    for function in functions {
        all.push_made(function_form(alloc, numbers, ty, function));
        ty += 1;
    }
    all.into_vec()
}

/// A global that begins with a constant.
fn global(alloc: Global, value: ValType, constant: Simple) -> Result<wasm_types::Global, AllocError>
    ensures { IfOk result (λ made. view_global made
        ≡ record { ty = record { value = value; mutable = true }; init = emit constant Done }) }
{
    Ok(wasm_types::Global {
        ty: GlobalType {
            value,
            mutable: true,
        },
        init: single(alloc, Instr::Plain(constant))?,
    })
}

/// A global of 32 bits.
fn word(alloc: Global, number: u32) -> Result<wasm_types::Global, AllocError>
    ensures { IfOk result (λ made. view_global made ≡ word_global number) }
{
    global(alloc, ValType::I32, Simple::I32Const(number))
}

/// A global of 64 bits.
fn long(alloc: Global, number: u64) -> Result<wasm_types::Global, AllocError>
    ensures { IfOk result (λ made. view_global made ≡ long_global number) }
{
    global(alloc, ValType::I64, Simple::I64Const(number))
}

/// The module's own globals, and one for each range.
fn put_first_globals(alloc: Global, all: &mut LatchedVec<wasm_types::Global>, ranges: usize)
    ensures { Adds view_global all.old all.new (word_global 0 ∷ (long_global 0
        ∷ (word_global minus_one ∷ replicate ranges (word_global 0)))) }
{
    all.push_made(word(alloc, 0));
    all.push_made(long(alloc, 0));
    all.push_made(word(alloc, u32::MAX));
    for _done in 0..ranges {
        all.push_made(word(alloc, 0));
    }
}

/// The globals of a module: for each name two, which have nothing yet.
pub(crate) fn globals(alloc: Global, mid: &Mid) -> Result<Vec<wasm_types::Global>, AllocError>
    ensures { IfOk result (λ all. map view_global all.items ≡ globals_of (view_mid mid.now)) }
{
    let mut all = LatchedVec::new(alloc);
    put_first_globals(alloc, &mut all, mid.ranges);
    for _name in &mid.globals {
        all.push_made(word(alloc, u32::MAX));
        all.push_made(long(alloc, 1 << 63));
    }
    all.into_vec()
}

fn text_bytes(alloc: Global, texts: &[Vec<u8>]) -> Result<Vec<u8>, AllocError>
    ensures { IfOk result (λ bytes. bytes.items ≡ memory_of (view_texts texts.now)) }
{
    let mut bytes = Vec::new(alloc);
    for text in texts {
        bytes.extend_from_slice(text)?;
    }
    Ok(bytes)
}

fn put_names(bytes: &mut Vec<u8>, globals: &[Declared]) -> Result<(), AllocError>
    ensures { OnOk result
        (bytes.new.items ≡ bytes.old.items
        ++ memory_of (map (λ declared. declared.name.items) globals.now)) }
{
    for declared in globals {
        bytes.extend_from_slice(&declared.name)?;
    }
    Ok(())
}

fn put_routine_names(bytes: &mut Vec<u8>, routines: &[Routine]) -> Result<(), AllocError>
    ensures { OnOk result
        (bytes.new.items ≡ bytes.old.items
        ++ memory_of (map (λ routine. routine.name.items) routines.now)) }
{
    for routine in routines {
        bytes.extend_from_slice(&routine.name)?;
    }
    Ok(())
}

/// The texts of a script, and the names that it announces, one after the other.
pub(crate) fn memory(alloc: Global, mid: &Mid) -> Result<Vec<u8>, AllocError>
    ensures { IfOk result (λ bytes. bytes.items ≡ memory_of (texts_of (view_mid mid.now))) }
{
    let mut bytes = text_bytes(alloc, mid.texts.as_slice())?;
    put_names(&mut bytes, &mid.globals)?;
    put_routine_names(&mut bytes, &mid.routines)?;
    Ok(bytes)
}

/// A memory of as many pages as the bytes take, which does not grow.
pub(crate) fn memory_for(bytes: u32) -> Limits
    requires { bytes ≤ most_bytes }
    ensures { result ≡ memory_for bytes }
{
    let pages = (bytes + 65535) / 65536;
    Limits {
        min: pages,
        max: Some(pages),
    }
}

/// The texts at address 0: the one segment.
pub(crate) fn segments(alloc: Global, memory: Vec<u8>) -> Result<Vec<Data>, AllocError>
    ensures { IfOk result (λ all. map view_data all.items ≡ text_form memory.items ∷ []) }
{
    let offset = single(alloc, Instr::Plain(Simple::I32Const(0)))?;
    single(
        alloc,
        Data {
            memory: 0,
            offset,
            init: memory,
        },
    )
}

/// An export of this name.
fn export(alloc: Global, name: &str, desc: ExportDesc) -> Result<Export, AllocError>
    ensures { IfOk result (λ made. view_export made ≡ record { name = name.now; desc = desc }) }
{
    Ok(Export {
        name: String::from_str(alloc, name)?,
        desc,
    })
}

/// The exports: `main`, which has this number, and the memory.
pub(crate) fn exports(alloc: Global, main: u32) -> Result<Vec<Export>, AllocError>
    ensures { IfOk result (λ all. map view_export all.items ≡ exports_of main) }
{
    let mut all = LatchedVec::new(alloc);
    all.push_made(export(alloc, "main", ExportDesc::Func(main)));
    all.push_made(export(alloc, "memory", ExportDesc::Memory(0)));
    all.into_vec()
}
