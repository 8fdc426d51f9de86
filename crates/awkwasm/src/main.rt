//! awkwasm: compiles AWK scripts to WebAssembly modules, and runs scripts and modules.
#![tactic(auto)]

ghost use Rattle.std.specs.Prelude.{◌≡◌, ◌≢◌, ◌⊎◌, List, map, string_bytes, true, IfErr, IfOk};
ghost use Rattle.clap.specs.Words.{Text, kind_of, takes};
ghost use Rattle.command_line.specs.Line.{line_app, status_of_kind};
ghost use Rattle.command_line.specs.Spelling.{spelled_line};
ghost use Rattle.command_line.specs.Request.{texts};
ghost use Rattle.task_pages.specs.declared.task_error.TaskError.TheVariants.{NoMemory};
ghost use Rattle.task_pages.specs.Outcomes.{IsUnwritten};
ghost use Rattle.awkwasm.specs.Lines.{Carries, IsStatusOf, IsToldApart, IsToldFor, IsWordless, Refuses};

mod checking;
mod counting;
mod module_sight;
mod tasks;

use crate::tasks::carry_out;
use clap::Error;
use command_line::{
    exit_status, is_no_memory, is_script_file, is_text_apart, request_of, spelled_line,
};
use run_report::shown;
use std::alloc::{AllocError, Global};
use std::io;
use std::process::ExitCode;
use task_pages::{TaskError, take_closed, tell, tell_task, write_text};

/// The arguments, the program's name first.
fn arguments(rt: &HostRuntime) -> Result<Vec<String>, TaskError>
    ensures { IfErr result IsWordless }
{
    match std::env::args(rt) {
        Ok(words) => Ok(words.collect(rt.alloc())?),
        Err(error) if error.kind() == io::ErrorKind::OutOfMemory => Err(TaskError::NoMemory),
        Err(_) => Err(TaskError::Arguments),
    }
}

/// The words of the arguments.
fn words_of(alloc: Global, arguments: &[String]) -> Result<Vec<&str>, AllocError>
    ensures { IfOk result (λ words. texts words.items ≡ map string_bytes arguments.now) }
{
    let mut words = Vec::new(alloc);
    for argument in arguments {
        words.push(argument.as_str())?;
    }
    Ok(words)
}

/// Prints the text of a line that asks for nothing: help and the version to the standard output, else what is wrong to the standard error.
fn tell_refused(rt: &HostRuntime, error: &Error) -> Result<u8, TaskError>
    ensures ok { IfOk result (λ code. code ≡ status_of_kind (kind_of error.now)) }
    ensures err { IfErr result IsUnwritten }
    ensures output { IfErr result
        (λ undone. undone ≢ NoMemory → status_of_kind (kind_of error.now) ≡ 0) }
{
    let status = exit_status(error);
    let text = format!(in rt.alloc(); "{error}")?;
    if status == 0 {
        write_text(&mut rt.stdout(), text.as_bytes())?;
    } else {
        tell(rt, shown(rt.alloc(), text.as_bytes())?.as_slice());
    }
    Ok(status)
}

/// Tells why words are refused, with lines of the program's own for two mistakes.
fn refuse(rt: &HostRuntime, words: &[&str], error: &Error) -> Result<u8, TaskError>
    ensures ok { IfOk result (IsStatusOf (kind_of error.now) (texts words.now)) }
    ensures err { IfErr result (IsToldFor (kind_of error.now) (texts words.now)) }
{
    if is_script_file(error, words) {
        return Err(TaskError::ScriptFile);
    }
    if is_text_apart(error, words) {
        return Err(TaskError::TextApart);
    }
    tell_refused(rt, error)
}

/// Does what the words ask for; the answer is the exit status.
fn answer(rt: &HostRuntime, words: &[&str]) -> Result<u8, TaskError>
    ensures ok { IfOk result
        (λ code. Carries (texts words.now) code ⊎ Refuses (texts words.now) code) }
    ensures err { IfErr result (λ undone. takes line_app (spelled_line (texts words.now)) ≡ true
        → undone ≡ NoMemory) }
    ensures cause { IfErr result (IsToldApart (texts words.now)) }
{
    let line = spelled_line(rt.alloc(), words)?;
    match request_of(rt.alloc(), &line) {
        Err(error) if is_no_memory(&error) => Err(TaskError::NoMemory),
        Err(error) => refuse(rt, words, &error),
        Ok(request) => Ok(carry_out(rt, &request)),
    }
}

/// Does what the arguments ask for; the answer is the exit status.
fn answer_arguments(rt: &HostRuntime, arguments: &[String]) -> Result<u8, TaskError>
    ensures ok { IfOk result (λ code. Carries (map string_bytes arguments.now) code
        ⊎ Refuses (map string_bytes arguments.now) code) }
    ensures err { IfErr result (λ undone.
        takes line_app (spelled_line (map string_bytes arguments.now)) ≡ true
        → undone ≡ NoMemory) }
    ensures cause { IfErr result (IsToldApart (map string_bytes arguments.now)) }
{
    let words = words_of(rt.alloc(), arguments)?;
    answer(rt, &words)
}

/// Does what the process's arguments ask for; the answer is the exit status.
fn status(rt: &HostRuntime) -> Result<u8, TaskError>
    ensures ok { IfOk result (λ code. (words : List Text) × (Carries words code
        ⊎ Refuses words code)) }
    ensures err { IfErr result (λ undone. IsWordless undone
        ⊎ ((words : List Text) × IsToldApart words undone)) }
{
    let arguments = arguments(rt)?;
    answer_arguments(rt, &arguments)
}

fn main(rt: HostRuntime) -> ExitCode {
    // Kept to the end of the run, before any other file is opened.
    let _taken = take_closed(&rt);
    let status = match status(&rt) {
        Ok(status) => status,
        Err(undone) => tell_task(&rt, Err(undone)),
    };
    ExitCode::from(status)
}
