//! What is answered to a row.
use crate::alive::alive_after;
use crate::beginnings::refused_beginnings;
use crate::field::push_escaped;
use crate::row::{Row, row_of};
use crate::run::{Ran, run};
use awk_run::RunEnd;
use run_report::{fault_text, status_of};
use std::alloc::{AllocError, Global};
use std::hash::RandomState;
use world_core::MemWorld;

/// What comes before the words of a line for the standard error.
const NAME: &[u8] = b"awkwasm: ";

/// The words of a line for the standard error; all of what is no such line.
fn words_of(line: &[u8]) -> &[u8] {
    match line.strip_prefix(NAME) {
        Some(words) => words.strip_suffix(b"\n").unwrap_or(line),
        None => line,
    }
}

/// Adds the exit status of an end, and what is told of it.
fn push_end(text: &mut String, alloc: Global, end: &RunEnd) -> Result<(), AllocError> {
    let line = fault_text(alloc, end)?;
    text.push_str(format!(in alloc; "{}\t", status_of(end))?.as_str())?;
    push_escaped(text, words_of(&line))?;
    text.push('\t')
}

/// Whether bytes are this text, once or more.
fn is_again(bytes: &[u8], text: &[u8]) -> bool {
    !bytes.is_empty() && bytes.chunks(text.len().max(1)).all(|part| part == text)
}

/// Adds the output, or that it is a text again and again.
fn push_output(text: &mut String, row: &Row, output: &[u8]) -> Result<(), AllocError> {
    match &row.again {
        Some(part) if is_again(output, part) => text.push_str("again and again")?,
        _ => push_escaped(text, output)?,
    }
    text.push('\n')
}

/// Adds a file's name, and what it holds if it is there.
fn push_file(text: &mut String, world: &MemWorld, name: &[u8]) -> Result<(), AllocError> {
    push_escaped(text, name)?;
    if let Some(bytes) = world.bytes(name) {
        text.push('\t')?;
        push_escaped(text, bytes)?;
    }
    text.push('\n')
}

/// Adds how many beginnings of the module are refused.
fn push_beginnings(
    text: &mut String,
    alloc: Global,
    state: RandomState,
    row: &Row,
) -> Result<(), AllocError> {
    let refused = refused_beginnings(alloc, state, row)?;
    let line = format!(in alloc; "beginnings refused: {refused}\n")?;
    text.push_str(&line)
}

/// Adds how many values, arrays and iterators are alive where the script has ended.
fn push_alive(
    text: &mut String,
    alloc: Global,
    state: RandomState,
    row: &Row,
) -> Result<(), AllocError> {
    let alive = alive_after(alloc, state, row)?;
    let (values, arrays, iterators) = (alive.values, alive.arrays, alive.iterators);
    let line = format!(in alloc;
        "alive: values {values}, arrays {arrays}, iterators {iterators}\n"
    )?;
    text.push_str(&line)
}

/// Adds the row's name, if it has one.
fn push_name(text: &mut String, row: &Row) -> Result<(), AllocError> {
    if row.name.is_empty() {
        return Ok(());
    }
    push_escaped(text, &row.name)?;
    text.push('\t')
}

/// Adds what is told of a row's run.
fn push_told(
    text: &mut String,
    alloc: Global,
    state: RandomState,
    row: &Row,
    ran: &Ran,
) -> Result<(), AllocError> {
    push_name(text, row)?;
    push_end(text, alloc, &ran.end)?;
    push_output(text, row, ran.world.output())?;
    for name in &row.shown {
        push_file(text, &ran.world, name)?;
    }
    if row.shows_beginnings {
        push_beginnings(text, alloc, state, row)?;
    }
    if row.shows_alive {
        push_alive(text, alloc, state, row)?;
    }
    Ok(())
}

/// How many calls of a world fail in turn at most.
const MOST_CALLS: u64 = 1000;

/// Adds the answers of the runs in which the first call of the world fails, the second, and so on up to the last.
fn push_failures(
    text: &mut String,
    alloc: Global,
    state: RandomState,
    row: &mut Row,
) -> Result<(), AllocError> {
    for call in 1..=MOST_CALLS {
        row.outside.let_fail(call);
        let ran = run(alloc, state, row, row.steps)?;
        if !ran.met_failure {
            return Ok(());
        }
        push_told(text, alloc, state, row, &ran)?;
    }
    Ok(())
}

/// The answer to a row of a script or a module.
pub(crate) fn answer_to_row(
    alloc: Global,
    state: RandomState,
    line: &str,
) -> Result<String, AllocError> {
    let mut row = row_of(alloc, line)?;
    let mut text = String::new(alloc);
    if row.fails_in_turn {
        push_failures(&mut text, alloc, state, &mut row)?;
    } else {
        let ran = run(alloc, state, &row, row.steps)?;
        push_told(&mut text, alloc, state, &row, &ran)?;
    }
    Ok(text)
}
