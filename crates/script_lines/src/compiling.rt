//! From a script to the bytes of a module, with its names and lines.
ghost use Rattle.std.specs.Prelude.{◌≡◌, ◌+◌, ◌<◌, ◌≤◌, ◌^◌, ◌⊎◌, IfErr, IfOk, MatchOption, Some, length, map};
ghost use Rattle.script_places.specs.Lines.{form_of};
ghost use Rattle.script_places.specs.Reading.{table_in};
ghost use Rattle.script_compiler.specs.Compiled.{IsCompiled};
ghost use Rattle.script_lines.specs.Lined.{IsLined, IsNotLined, IsUnlined, lined, refused};
ghost use Rattle.wasm_types.specs.ModuleGrammar.{IsModule};
ghost use Rattle.wasm_types.specs.Syntax.{ModuleForm};
ghost use Rattle.wasm_types.specs.Profile.{most_module_bytes};

use crate::table::table_of;
use module_decoder::decode;
use module_writer::{WriteFault, with_names};
use script_compiler::{CompileFault, compile};
use script_places::{FunctionLines, with_lines};
use std::alloc::{AllocError, Global};

/// More than a module has of anything.
const MANY: usize = 1 << 31;

/// How many imports a module has.
fn import_count(alloc: Global, compiled: &[u8]) -> Result<usize, AllocError>
    ensures { IfOk result (λ count. (m : ModuleForm) × IsModule compiled.now m
        × (count ≡ length m.imports)) }
{
    match decode(alloc, compiled) {
        Ok(module) => Ok(module.imports.len()),
        Err(_) => Err(AllocError),
    }
}

/// The number of the first function after so many imports, where all functions have numbers.
fn first_after(imports: usize, functions: usize) -> Option<u32>
    ensures { MatchOption result ((2 ^ 31 ≤ imports) ⊎ (2 ^ 31 ≤ functions))
        (λ first. (first ≡ imports) × (first + functions < 2 ^ 32)) }
{
    if imports >= MANY || functions >= MANY {
        return None;
    }
    Some(imports as u32)
}

/// The names of functions.
fn names_of(alloc: Global, table: &[FunctionLines]) -> Result<Vec<Vec<u8>>, AllocError>
    ensures { IfOk result (λ names. map (λ name. name.items) names.items
        ≡ map (λ f. f.name) (map form_of table.now)) }
{
    let mut names = Vec::new(alloc);
    for function in table {
        names.push(function.name.to_vec(alloc)?)?;
    }
    Ok(names)
}

/// Why a module has no more sections.
fn refused(fault: WriteFault) -> CompileFault
    ensures { result ≡ refused fault }
{
    match fault {
        WriteFault::TooLarge => CompileFault::TooLarge,
        WriteFault::NoMemory => CompileFault::NoMemory,
    }
}

/// The bytes of a module, and the sections of its names and lines behind them.
fn with_sections(
    alloc: Global,
    compiled: &[u8],
    first: u32,
    table: &[FunctionLines],
) -> Result<Vec<u8>, WriteFault>
    requires { first + length table.now < 2 ^ 32 }
    ensures text { IfOk result
        (λ all. all.items ≡ lined compiled.now first (map form_of table.now)) }
    ensures same { IfOk result
        (λ all. (m : ModuleForm) → IsModule compiled.now m → IsModule all.items m) }
    ensures found { IfOk result (λ all. (m : ModuleForm) → IsModule compiled.now m
        → table_in all.items ≡ Some (map form_of table.now)) }
    ensures too_large { IfErr result (λ fault. fault ≡ WriteFault.TooLarge → most_module_bytes
        < length (lined compiled.now first (map form_of table.now))) }
{
    let names = names_of(alloc, table)?;
    let named = with_names(alloc, compiled, first, &names)?;
    with_lines(alloc, &named, table)
}

/// The bytes of a module with its names and lines.
fn told(alloc: Global, compiled: &[u8], table: &[FunctionLines]) -> Result<Vec<u8>, CompileFault>
    ensures text { IfOk result (λ all. (m : ModuleForm) × IsModule compiled.now m
        × (all.items ≡ lined compiled.now (length m.imports) (map form_of table.now))) }
    ensures same { IfOk result
        (λ all. (m : ModuleForm) → IsModule compiled.now m → IsModule all.items m) }
    ensures found { IfOk result (λ all. (m : ModuleForm) → IsModule compiled.now m
        → table_in all.items ≡ Some (map form_of table.now)) }
    ensures err { IfErr result (IsUnlined compiled.now (map form_of table.now)) }
{
    let Ok(imports) = import_count(alloc, compiled) else {
        return Err(CompileFault::NoMemory);
    };
    let Some(first) = first_after(imports, table.len()) else {
        return Err(CompileFault::TooLarge);
    };
    match with_sections(alloc, compiled, first, table) {
        Ok(all) => Ok(all),
        Err(fault) => Err(refused(fault)),
    }
}

/// The bytes of the module of a script, as [`compile`] gives them, and behind them two custom sections: `name`, with the names of its functions, and
/// `awk.lines`, with the lines of its statements. They are of the same module.
///
/// # Errors
///
/// Those of [`compile`], and [`CompileFault::TooLarge`] where the bytes with the sections are more than 16 MiB.
pub fn compile_with_lines(alloc: Global, script: &[u8]) -> Result<Vec<u8>, CompileFault>
    ensures same { IfOk result (λ all. IsCompiled script.now all.items) }
    ensures lines { IfOk result (λ all. IsLined script.now all.items) }
    ensures refused { IfErr result (IsNotLined script.now) }
{
    let compiled = compile(alloc, script)?;
    let Ok(table) = table_of(alloc, script) else {
        return Err(CompileFault::NoMemory);
    };
    told(alloc, &compiled, &table)
}
