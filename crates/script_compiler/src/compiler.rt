//! From a script to a module's bytes.
ghost use Rattle.std.specs.Prelude.{◌≡◌, IfOk, IfErr};
ghost use Rattle.mid_program.specs.Sorted.{IsSorted};
ghost use Rattle.mid_program.specs.View.{view_mid};
ghost use Rattle.lower_model.specs.Modules.{module_of};
ghost use Rattle.wasm_types.specs.ModuleGrammar.{IsModule};
ghost use Rattle.wasm_types.specs.View.{view_module};
ghost use Rattle.script_compiler.specs.Compiled.{IsCompiled};
ghost use Rattle.script_compiler.specs.Counts.{HasNoBytes, IsPastCounts};
ghost use Rattle.script_compiler.specs.Refusals.{IsNotCompiled};

use agreement::job_words::scripts_are_quiet_by_the_job;
use agreement::modules::modules_agree;
use agreement::places::{few_parameters, modules_run, nothing_kept, statements_have_places};
use agreement::quiet::statements_of_scripts_are_quiet;
use agreement::sizes::code_has_bytes;
use agreement::spots::statements_are_passed;
use agreement::typed::{links, typed};
use lower_layout::{LowerFault, layout};
use lowering::lower;
use mid_program::Mid;
use module_writer::{WriteFault, write};
use script_code::{CompileFault, code_of};
use std::alloc::Global;
use value_kinds::number_names::names_of_numbers_are_unboxed;
use wasm_types::Module;

/// The module of some code.
fn lowered(alloc: Global, mid: &Mid) -> Result<Module, LowerFault>
    requires { IsSorted (view_mid mid.now) }
    ensures module { IfOk result (λ m. view_module m ≡ module_of (view_mid mid.now)) }
    ensures too_large { IfErr result
        (λ fault. fault ≡ LowerFault.TooLarge → IsPastCounts (view_mid mid.now)) }
{
    let layout = layout(alloc, mid)?;
    lower(alloc, &layout)
}

/// The bytes of the module of some code.
fn bytes_of(alloc: Global, mid: &Mid) -> Result<Vec<u8>, CompileFault>
    requires { IsSorted (view_mid mid.now) }
    ensures ok { IfOk result (λ v. IsModule v.items (module_of (view_mid mid.now))) }
    ensures err { IfErr result (HasNoBytes (view_mid mid.now)) }
{
    let module = match lowered(alloc, mid) {
        Ok(module) => module,
        Err(LowerFault::TooLarge) => return Err(CompileFault::TooLarge),
        Err(LowerFault::NoMemory) => return Err(CompileFault::NoMemory),
    };
    match write(alloc, &module) {
        Ok(bytes) => Ok(bytes),
        Err(WriteFault::TooLarge) => Err(CompileFault::TooLarge),
        Err(WriteFault::NoMemory) => Err(CompileFault::NoMemory),
    }
}

/// The bytes of a module that does what a script does (POSIX.1-2017 awk, in the profile of this project), in every job, and in every world that tells
/// what it holds, over a host of the table of imports. It keeps nothing from one statement to the next but what names, calls and loops over keys hold, and a
/// statement on unboxed names that take no copies calls no import, unless a word of the job assigns to one of them, or the script names ARGV. A run passes the
/// place of a statement as often as the script executes the statement, and in the same order, and each step of the script's code has a place of its own. A
/// scalar into which the script stores numbers alone is unboxed, and so is a global into which it stores copies of such scalars besides.
///
/// # Errors
///
/// The first of these that there is: those of [`code_of`]; then [`CompileFault::TooLarge`] where the module passes 16 MiB, 50,000 locals of a function, or
/// 4,000 blocks in one another, and nowhere else. [`CompileFault::NoMemory`] where memory was wanting, in place of any answer.
pub fn compile(alloc: Global, script: &[u8]) -> Result<Vec<u8>, CompileFault>
    ensures compiled { IfOk result (λ v. IsCompiled script.now v.items) }
    ensures refused { IfErr result (IsNotCompiled script.now) }
{
    modules_agree();
    typed();
    links();
    modules_run();
    few_parameters();
    statements_have_places();
    nothing_kept();
    statements_of_scripts_are_quiet();
    scripts_are_quiet_by_the_job();
    statements_are_passed();
    names_of_numbers_are_unboxed();
    code_has_bytes();
    let mid = code_of(alloc, script)?;
    let bytes = bytes_of(alloc, &mid)?;
    Ok(bytes)
}
