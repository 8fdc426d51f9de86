//! The types of functions, those that are imported and those of the module.
ghost use Rattle.std.specs.Prelude.{◌≡◌, map, IfOk};
ghost use Rattle.mid_program.specs.View.{view_kind};
ghost use Rattle.latched.specs.Latched.{Adds};
ghost use Rattle.lower_modules.specs.View.{view_function};
ghost use Rattle.host_imports.specs.Imports.{import_type};
ghost use Rattle.lower_model.specs.Modules.{callee_type};
ghost use Rattle.lower_model.specs.Places.{kind_type};
ghost use Rattle.wasm_types.specs.View.{signature_of};

use crate::function::Function;
use host_imports::{Import, type_of};
use latched::LatchedVec;
use mid_program::Kind;
use std::alloc::{AllocError, Global};
use wasm_types::{FuncType, ValType};

/// The word of a parameter.
fn kind_type(kind: Kind) -> ValType
    ensures { result ≡ kind_type (view_kind kind) }
{
    match kind {
        Kind::Boxed | Kind::Array => ValType::I32,
        Kind::Unboxed => ValType::I64,
    }
}

fn kind_types(alloc: Global, kinds: &[Kind]) -> Result<Vec<ValType>, AllocError>
    ensures { IfOk result (λ types. types.items ≡ map kind_type (map view_kind kinds.now)) }
{
    let mut types = Vec::new(alloc);
    for kind in kinds {
        types.push(kind_type(*kind))?;
    }
    Ok(types)
}

/// The type of a function: its parameters and its answer.
fn function_type(alloc: Global, function: &Function) -> Result<FuncType, AllocError>
    ensures { IfOk result (λ made. signature_of made ≡ callee_type (view_function function.now)) }
{
    Ok(FuncType {
        params: kind_types(alloc, &function.kinds)?,
        result: Some(function.answer),
    })
}

/// Adds the types of imports.
pub(crate) fn put_import_types(alloc: Global, all: &mut LatchedVec<FuncType>, used: &[Import])
    ensures { Adds signature_of all.old all.new (map import_type used.now) }
{
    for import in used {
        all.push_made(type_of(alloc, *import));
    }
}

/// Adds the types of functions.
pub(crate) fn put_function_types(
    alloc: Global,
    all: &mut LatchedVec<FuncType>,
    functions: &[Function],
)
    ensures { Adds signature_of all.old all.new (map callee_type (map view_function functions.now)) }
{
    for function in functions {
        all.push_made(function_type(alloc, function));
    }
}
