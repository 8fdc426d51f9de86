//! The module of a script, with the lines of its statements.
ghost use Rattle.std.specs.Prelude.{IfErr, IfOk};
ghost use Rattle.run_tasks.specs.Uncompiled.{IsUnlined};
ghost use Rattle.script_compiler.specs.Compiled.{IsCompiled};
ghost use Rattle.script_lines.specs.Lined.{IsLined};

use run_report::{CompileFault, Refusal, RunEnd};
use script_lines::compile_with_lines;
use std::alloc::Global;

/// The module of a script, with the names of its functions and the lines of its statements behind it.
///
/// # Errors
///
/// How a run of the script would end: with the refusal of `script_compiler::compile`, or for want of memory; or `TooLarge` where the module has no room for them.
pub fn compiled_with_lines(alloc: Global, script: &[u8]) -> Result<Vec<u8>, RunEnd>
    ensures ok { IfOk result (λ bytes. IsCompiled script.now bytes.items) }
    ensures lined { IfOk result (λ bytes. IsLined script.now bytes.items) }
    ensures err { IfErr result (IsUnlined script.now) }
{
    match compile_with_lines(alloc, script) {
        Ok(module) => Ok(module),
        Err(CompileFault::NoMemory) => Err(RunEnd::NoMemory),
        Err(fault) => Err(RunEnd::Refused(Refusal::Compile(fault))),
    }
}
