//! The module of a script.
ghost use Rattle.std.specs.Prelude.{◌≡◌, ◌+◌, ◌≤◌, ◌++◌, length, map, IfErr, IfOk};
ghost use Rattle.mid_program.specs.View.{view_mid};
ghost use Rattle.lower_modules.specs.Limits.{most_bytes, IsTooLarge};
ghost use Rattle.lower_modules.specs.Parts.{AreCodeParts, AreDataParts};
ghost use Rattle.lower_modules.specs.View.{view_functions};
ghost use Rattle.lower_model.specs.Functions.{texts_of};
ghost use Rattle.host_imports.specs.Imports.{import_type, imports};
ghost use Rattle.lower_model.specs.Modules.{all_callees, called_from, callee_type, chosen, module_of};
ghost use Rattle.lower_model.specs.Places.{memory_of};
ghost use Rattle.wasm_types.specs.View.{signature_of, view_module};

use crate::called_imports::{Numbers, called_imports, chosen};
use crate::function::Function;
use crate::lengths::least_among;
use crate::sections::{
    exports, function_forms, globals, import_forms, memory, memory_for, segments,
};
use crate::types::{put_function_types, put_import_types};
use host_imports::Import;
use latched::LatchedVec;
use lower_layout::LowerFault;
use mid_program::Mid;
use std::alloc::{AllocError, Global};
use wasm_types::{Data, Export, Func, FuncType, Limits, MAX_MODULE_BYTES, Module};

/// The types of imports, and those of functions.
fn types(
    alloc: Global,
    used: &[Import],
    functions: &[Function],
) -> Result<Vec<FuncType>, AllocError>
    ensures { IfOk result
        (λ all. map signature_of all.items
        ≡ map import_type used.now ++ map callee_type (view_functions functions.now)) }
{
    let mut all = LatchedVec::new(alloc);
    put_import_types(alloc, &mut all, used);
    put_function_types(alloc, &mut all, functions);
    all.into_vec()
}

/// The parts of a module that have to do with functions.
#[derive(Drop)]
struct CodeParts {
    /// The number of the first function that is no import.
    first: u32,
    types: Vec<FuncType>,
    imports: Vec<wasm_types::Import>,
    funcs: Vec<Func>,
}

/// Types, imports and functions.
fn code_parts(alloc: Global, functions: &[Function]) -> Result<CodeParts, AllocError>
    requires { length functions.now ≤ most_bytes + 1 }
    ensures few { IfOk result (λ parts. parts.first ≤ most_bytes) }
    ensures parts { IfOk result (AreCodeParts (called_from 0 imports (view_functions functions.now))
        (chosen (called_from 0 imports (view_functions functions.now)) imports)
        (view_functions functions.now)) }
{
    let called = called_imports(functions);
    let used = chosen(alloc, &called)?;
    let first = used.len() as u32;
    let numbers = Numbers::of(&called);
    Ok(CodeParts {
        first,
        types: types(alloc, &used, functions)?,
        imports: import_forms(alloc, &used)?,
        funcs: function_forms(alloc, &numbers, first, functions)?,
    })
}

/// The other parts of a module.
#[derive(Drop)]
struct DataParts {
    memories: Vec<Limits>,
    globals: Vec<wasm_types::Global>,
    exports: Vec<Export>,
    segments: Vec<Data>,
}

/// The memory with its bytes, the globals, and the exports: `main`, which has this number, and the memory.
fn data_parts(alloc: Global, mid: &Mid, bytes: Vec<u8>, main: u32) -> Result<DataParts, AllocError>
    requires { length bytes.items ≤ most_bytes }
    ensures { IfOk result (AreDataParts (view_mid mid.now) bytes.items main) }
{
    let size = bytes.len() as u32;
    Ok(DataParts {
        segments: segments(alloc, bytes)?,
        memories: vec![in alloc; memory_for(size)]?,
        globals: globals(alloc, mid)?,
        exports: exports(alloc, main)?,
    })
}

/// The texts in memory, if the script is small enough.
fn small_memory(alloc: Global, mid: &Mid) -> Result<Vec<u8>, LowerFault>
    ensures bytes { IfOk result (λ bytes. bytes.items ≡ memory_of (texts_of (view_mid mid.now))) }
    ensures few { IfOk result (λ bytes. length bytes.items ≤ most_bytes) }
    ensures functions { IfOk result (λ bytes. length (view_mid mid.now).routines ≤ most_bytes) }
    ensures too_large { IfErr result
        (λ fault. fault ≡ LowerFault.TooLarge → IsTooLarge (view_mid mid.now)) }
{
    if mid.routines.len() > MAX_MODULE_BYTES {
        return Err(LowerFault::TooLarge);
    }
    let bytes = memory(alloc, mid)?;
    if bytes.len() > MAX_MODULE_BYTES {
        return Err(LowerFault::TooLarge);
    }
    Ok(bytes)
}

/// The module of a script, from its functions, `main` last.
///
/// # Errors
///
/// [`LowerFault::TooLarge`] where texts and names take more than 16,777,216 bytes, or there are more functions than that, or the code takes more at least,
/// which is told before any more is made of it; and [`LowerFault::NoMemory`].
pub fn module_for(alloc: Global, mid: &Mid, functions: &[Function]) -> Result<Module, LowerFault>
    requires { view_functions functions.now ≡ all_callees (view_mid mid.now) }
    ensures module { IfOk result (λ made. view_module made ≡ module_of (view_mid mid.now)) }
    ensures small { IfOk result
        (λ made. (length (memory_of (texts_of (view_mid mid.now))) ≤ most_bytes)
        × (length (view_mid mid.now).routines ≤ most_bytes)) }
    ensures too_large { IfErr result
        (λ fault. fault ≡ LowerFault.TooLarge → IsTooLarge (view_mid mid.now)) }
{
    if least_among(functions) > MAX_MODULE_BYTES as u64 {
        return Err(LowerFault::TooLarge);
    }
    let bytes = small_memory(alloc, mid)?;
    let code = code_parts(alloc, functions)?;
    let main = code.first + mid.routines.len() as u32;
    let others = data_parts(alloc, mid, bytes, main)?;
    Ok(Module {
        types: code.types,
        imports: code.imports,
        funcs: code.funcs,
        tables: Vec::new(alloc),
        memories: others.memories,
        globals: others.globals,
        exports: others.exports,
        start: None,
        elems: Vec::new(alloc),
        data: others.segments,
    })
}
