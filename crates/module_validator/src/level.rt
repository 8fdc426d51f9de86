//! The module level: everything but the bodies of functions.
ghost use Rattle.std.specs.Prelude.{◌≡◌, ◌↔◌, ◌<◌, ◌≤◌, ◌+◌, ◌^◌, ℕ, length, map, IsTrue, IfOk, Some, string_bytes};
ghost use Rattle.std.specs.List.{All};
ghost use Rattle.wasm_types.specs.Typing.{AreDistinct, DataOk, DescOk, ElemOk, ImportOk, IsConstant, IsFunction, IsMemory, IsTable, LevelOk, LimitsOk, StartOk, constant_of, constant_type, function_types};
ghost use Rattle.wasm_types.specs.View.{view, view_data, view_elem, view_module, views};

use crate::checker::callee;
use std::alloc;
use std::alloc::AllocError;
use std::collections::HashSet;
use wasm_types::{
    Data, Elem, Export, ExportDesc, FuncType, Global, Import, Instr, Limits, Module, Simple,
    ValType,
};

/// The type of a constant instruction.
fn constant_of(i: &Instr) -> Option<ValType>
    ensures { result ≡ constant_of (view i.now) }
{
    match i {
        Instr::Plain(Simple::I32Const(_)) => Some(ValType::I32),
        Instr::Plain(Simple::I64Const(_)) => Some(ValType::I64),
        _ => None,
    }
}

/// The type of a constant expression.
fn constant_type(code: &[Instr]) -> Option<ValType>
    ensures { result ≡ constant_type (views code.now) }
{
    match code {
        [only] => constant_of(only),
        _ => None,
    }
}

fn is_constant(code: &[Instr], kind: ValType) -> bool
    ensures { IsTrue result ↔ IsConstant (views code.now) kind }
{
    constant_type(code) == Some(kind)
}

fn limits_ok(bound: u64, limits: Limits) -> bool
    ensures { IsTrue result ↔ LimitsOk bound limits }
{
    match limits.max {
        None => u64::from(limits.min) <= bound,
        Some(max) => limits.min <= max && u64::from(max) <= bound,
    }
}

/// Whether there is at most one, within the bound.
fn one_ok(bound: u64, all: &[Limits]) -> bool
    ensures { IsTrue result ↔ (All (LimitsOk bound) all.now × (length all.now ≤ 1)) }
{
    match all {
        [] => true,
        [only] => limits_ok(bound, *only),
        _ => false,
    }
}

fn imports_within(imports: &[Import], types: &[FuncType]) -> bool
    ensures { IsTrue result ↔ All (λ i. i.ty < length types.now) imports.now }
{
    imports.iter().all(|i| (i.ty as usize) < types.len())
}

fn globals_ok(globals: &[Global]) -> bool
    ensures { IsTrue result ↔ All (λ g. IsConstant (views g.init.items) g.ty.value) globals.now }
{
    globals.iter().all(|g| is_constant(&g.init, g.ty.value))
}

fn function_count(m: &Module) -> usize
    ensures { result ≡ length (function_types (view_module m.now)) }
{
    m.imports.len() + m.funcs.len()
}

fn desc_ok(m: &Module, desc: ExportDesc) -> bool
    ensures { IsTrue result ↔ DescOk (view_module m.now) desc }
{
    match desc {
        ExportDesc::Func(n) => (n as usize) < function_count(m),
        ExportDesc::Table(n) => (n as usize) < m.tables.len(),
        ExportDesc::Memory(n) => (n as usize) < m.memories.len(),
        ExportDesc::Global(n) => (n as usize) < m.globals.len(),
    }
}

fn exports_ok(m: &Module, exports: &[Export]) -> bool
    ensures { IsTrue result ↔ All (λ e. DescOk (view_module m.now) e.desc) exports.now }
{
    exports.iter().all(|e| desc_ok(m, e.desc))
}

/// Whether no two exports have one name.
fn names_differ(alloc: alloc::Global, exports: &[Export]) -> Result<bool, AllocError>
    ensures { IfOk result
        (λ b. IsTrue b ↔ AreDistinct (map (λ e. string_bytes e.name) exports.now)) }
{
    let mut seen: HashSet<&str> = HashSet::new(alloc);
    for export in exports {
        if !seen.insert(export.name.as_str())? {
            return Ok(false);
        }
    }
    Ok(true)
}

fn elem_ok(m: &Module, elem: &Elem) -> bool
    ensures { IsTrue result ↔ ElemOk (view_module m.now) (view_elem elem.now) }
{
    let functions = function_count(m);
    (elem.table as usize) < m.tables.len()
        && is_constant(&elem.offset, ValType::I32)
        && elem.init.iter().all(|n| (*n as usize) < functions)
}

fn data_ok(m: &Module, segment: &Data) -> bool
    ensures { IsTrue result ↔ DataOk (view_module m.now) (view_data segment.now) }
{
    (segment.memory as usize) < m.memories.len() && is_constant(&segment.offset, ValType::I32)
}

fn elems_ok(m: &Module, elems: &[Elem]) -> bool
    ensures { IsTrue result ↔ All (λ e. ElemOk (view_module m.now) (view_elem e)) elems.now }
{
    elems.iter().all(|e| elem_ok(m, e))
}

fn data_all_ok(m: &Module, segments: &[Data]) -> bool
    ensures { IsTrue result ↔ All (λ d. DataOk (view_module m.now) (view_data d)) segments.now }
{
    segments.iter().all(|d| data_ok(m, d))
}

fn start_ok(m: &Module) -> bool
    ensures { IsTrue result ↔ StartOk (view_module m.now) m.now.start }
{
    let Some(n) = m.start else {
        return true;
    };
    match callee(m, n) {
        None => false,
        Some(ty) => ty.params.is_empty() && ty.result.is_none(),
    }
}

/// Whether everything but the bodies of functions is typed.
pub(crate) fn level_ok(alloc: alloc::Global, m: &Module) -> Result<bool, AllocError>
    ensures { IfOk result (λ b. IsTrue b ↔ LevelOk (view_module m.now)) }
{
    let imports = imports_within(&m.imports, &m.types);
    let tables = one_ok(1 << 32, &m.tables);
    let memories = one_ok(65536, &m.memories);
    let globals = globals_ok(&m.globals);
    let exports = exports_ok(m, &m.exports);
    let names = names_differ(alloc, &m.exports)?;
    let start = start_ok(m);
    let elems = elems_ok(m, &m.elems);
    let data = data_all_ok(m, &m.data);
    Ok(imports & tables & memories & globals & exports & names & start & elems & data)
}
