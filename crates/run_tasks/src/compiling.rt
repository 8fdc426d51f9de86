//! A script's file, compiled to a module's.
ghost use Rattle.std.specs.Prelude.{◌⊎◌, ℕ, List, IfErr, IfOk};
ghost use Rattle.script_compiler.specs.Compiled.{IsCompiled};
ghost use Rattle.task_pages.specs.Outcomes.{IsUnread, IsUnwritten};
ghost use Rattle.run_tasks.specs.Compiles.{CompilesSo, CompilesTo, IsUncompiledSo};
ghost use Rattle.run_tasks.specs.Uncompiled.{IsUncompiled};

use crate::lined::compiled_with_lines;
use run_report::{CompileFault, Refusal, RunEnd};
use script_code::MAX_SCRIPT_BYTES;
use script_compiler::compile;
use std::alloc::Global;
use task_pages::{TaskError, file_of, write_module};

/// How many bytes of a script's file are read at most: one past the greatest length of a script.
pub const SCRIPT_LIMIT: u64 = MAX_SCRIPT_BYTES as u64 + 1;

/// The module of a script.
///
/// # Errors
///
/// How a run of the script would end: with the refusal of `script_compiler::compile`, or for want of memory.
pub fn compiled(alloc: Global, script: &[u8]) -> Result<Vec<u8>, RunEnd>
    ensures ok { IfOk result (λ bytes. IsCompiled script.now bytes.items) }
    ensures err { IfErr result (IsUncompiled script.now) }
{
    match compile(alloc, script) {
        Ok(module) => Ok(module),
        Err(CompileFault::NoMemory) => Err(RunEnd::NoMemory),
        Err(fault) => Err(RunEnd::Refused(Refusal::Compile(fault))),
    }
}

/// The module of a script, with its lines if they are asked for.
fn module_of(alloc: Global, script: &[u8], has_lines: bool) -> Result<Vec<u8>, RunEnd>
    ensures ok { IfOk result (λ made. CompilesTo has_lines script.now made.items) }
    ensures err { IfErr result (IsUncompiledSo has_lines script.now) }
{
    if has_lines {
        compiled_with_lines(alloc, script)
    } else {
        compiled(alloc, script)
    }
}

/// Compiles a script to a module's file. Nothing is written unless the script is accepted.
fn compile_bytes(
    rt: &HostRuntime,
    script: &[u8],
    script_file: &str,
    out: &str,
    has_lines: bool,
) -> Result<RunEnd, TaskError>
    ensures ok { IfOk result (CompilesSo has_lines script.now) }
    ensures err { IfErr result IsUnwritten }
{
    let module = match module_of(rt.alloc(), script, has_lines) {
        Ok(module) => module,
        Err(end) => return Ok(end),
    };
    write_module(rt, script_file, out, &module)?;
    Ok(RunEnd::Ended(0))
}

/// Compiles a script's file to a module's.
///
/// # Errors
///
/// If the script's file is not read, or the module's not written.
pub fn compile_file(
    rt: &HostRuntime,
    script_file: &str,
    out: &str,
    has_lines: bool,
) -> Result<RunEnd, TaskError>
    ensures ok { IfOk result (λ e. (bytes : List ℕ) × CompilesSo has_lines bytes e) }
    ensures err { IfErr result (λ undone. IsUnread undone ⊎ IsUnwritten undone) }
{
    let script = file_of(rt, script_file, SCRIPT_LIMIT)?;
    compile_bytes(rt, &script, script_file, out, has_lines)
}
