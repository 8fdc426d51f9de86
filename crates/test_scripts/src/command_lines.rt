//! Command lines, and what they ask for.
use command_line::{FenceOptions, Limits, Request, Task, exit_status, request_of, spelled_line};
use std::alloc::{AllocError, Global};

/// The options that keep files out, each after a space.
fn fences_text(alloc: Global, fences: FenceOptions) -> Result<String, AllocError> {
    let mut text = String::new(alloc);
    if fences.no_files {
        text.push_str(" no-files")?;
    }
    if fences.read_only {
        text.push_str(" read-only")?;
    }
    if fences.only_operands {
        text.push_str(" only-operands")?;
    }
    Ok(text)
}

/// The limits, each after a space, where they are set.
fn limits_text(alloc: Global, limits: Limits) -> Result<String, AllocError> {
    let mut text = String::new(alloc);
    if limits.most_input < u64::MAX {
        write!(text, " most-input {}", limits.most_input)?;
    }
    if limits.most_output < u64::MAX {
        write!(text, " most-output {}", limits.most_output)?;
    }
    Ok(text)
}

/// The names that are listed, each list after a space, where there are some, and the last options.
fn lists_text(alloc: Global, task: &Task<'_>) -> Result<String, AllocError> {
    let mut text = String::new(alloc);
    if !task.may_read.is_empty() {
        write!(text, " may-read {:?}", task.may_read)?;
    }
    if !task.may_write.is_empty() {
        write!(text, " may-write {:?}", task.may_write)?;
    }
    if task.streams {
        text.push_str(" streams")?;
    }
    if task.tells_where {
        text.push_str(" where")?;
    }
    if task.tells_stats {
        text.push_str(" stats")?;
    }
    Ok(text)
}

/// What a task is, as text.
fn described(alloc: Global, what: &str, task: &Task<'_>) -> Result<String, AllocError> {
    let fences = fences_text(alloc, task.fences)?;
    let lists = lists_text(alloc, task)?;
    let limits = limits_text(alloc, task.limits)?;
    format!(in alloc;
        "{what} {:?} {:?} {} {:?} {:?}{fences}{lists}{limits}\n",
        task.separators, task.assigns, task.steps, task.subject, task.words
    )
}

/// What words ask for, as text, or the status of a line that asks for nothing.
fn asked(alloc: Global, words: &[&str]) -> Result<String, AllocError> {
    match request_of(alloc, words) {
        Ok(
            Request::Compile {
                script_file,
                out,
                has_lines,
            },
        ) => format!(in alloc; "compile {script_file:?} {out:?} {has_lines}\n"),
        Ok(Request::Check(script_file)) => format!(in alloc; "check {script_file:?}\n"),
        Ok(Request::Run(task)) => described(alloc, "run", &task),
        Ok(Request::Count(task)) => described(alloc, "count", &task),
        Ok(Request::Exec(task)) => described(alloc, "exec", &task),
        Ok(Request::Imports(file)) => format!(in alloc; "imports {file:?}\n"),
        Ok(Request::Explain(Some(name))) => format!(in alloc; "explain {name:?}\n"),
        Ok(Request::Explain(None)) => String::from_str(alloc, "explain\n"),
        Err(error) => match exit_status(&error) {
            5 => Err(AllocError),
            status => format!(in alloc; "status {status}\n"),
        },
    }
}

/// What a command line asks for; tabs part its words.
pub(crate) fn answer_to_words(alloc: Global, line: &str) -> Result<String, AllocError> {
    let mut words = Vec::new(alloc);
    for word in line.split('\t') {
        words.push(word)?;
    }
    let spelled = spelled_line(alloc, &words)?;
    asked(alloc, &spelled)
}
