//! Says of each script on standard input which tokens it has, whether it has a tree, which kinds its names have, or what is found in it; of each expression
//! what its tree is and what it matches (`eres`); and of each module how it runs, or what decoder and validator answer.
//!
//! A line is a script, in which a byte 1 stands for a newline. A line `# tokens`, `# words`, `# trees`, `# parentheses`, `# names`, `# findings` or
//! `# expressions` says what is asked of the lines behind it: the tokens (there a backslash begins an escape, as in awk's strings); which reserved word it is;
//! whether there is a tree, of a script or of one with so many parentheses; the kinds of names; what is found in a script; what a call on an expression gives.
//!
//! Behind `# run` or `# read`, and before any of these lines, a line is a description, a colon and a module in hexadecimal: how it runs, at once and in two parts
//! (`running`); what decoder and validator answer (`reading`).
//!
//! Beside it stand scripts whose runs are computed from the definition of the language and from their mid code, from their bytes to what they put out, and
//! programs whose modules are run on the machine over values: definitions and examples, and two laws. Then callers of the crates that other projects would use,
//! each proved from its callee's contract; and tests of modules as bytes: integers, limits, and what is read; of worlds, in memory and real files; and of tables
//! before a script runs.
#![tactic(auto)]

#[cfg(test)]
mod beginnings;
#[cfg(test)]
mod blocks;
#[cfg(test)]
mod decoding;
mod eres;
mod found;
mod hexadecimal;
#[cfg(test)]
mod integers;
mod kinds;
pub mod matching;
#[cfg(test)]
mod module_limits;
#[cfg(test)]
mod module_names;
pub mod modules;
mod names;
mod reading;
#[cfg(test)]
mod real_files;
mod round_trip;
pub mod row_laws;
mod running;
mod show;
mod small_host;
mod token_lists;
mod trees;
#[cfg(test)]
mod world_limits;
#[cfg(test)]
mod worlds;

use awk_text::unescape;
use eres::answer_of;
use found::found_page;
use hexadecimal::bytes_of;
use kinds::reserved_text;
use names::names_or_refusal;
use std::alloc::{AllocError, Global};
use std::io;
use token_lists::token_list;
use trees::{enclosed, tree_or_fault};

/// What is asked of a line.
#[derive(Clone, Copy)]
enum Question {
    Tokens,
    Words,
    Trees,
    Parentheses,
    Names,
    Findings,
    Expressions,
    Run,
    Read,
}

/// The question that a line names.
fn question_of(line: &str) -> Option<Question> {
    match line {
        "# tokens" => Some(Question::Tokens),
        "# words" => Some(Question::Words),
        "# trees" => Some(Question::Trees),
        "# parentheses" => Some(Question::Parentheses),
        "# names" => Some(Question::Names),
        "# findings" => Some(Question::Findings),
        "# expressions" => Some(Question::Expressions),
        "# run" => Some(Question::Run),
        "# read" => Some(Question::Read),
        _ => None,
    }
}

/// The script that a line writes.
fn script_of(alloc: Global, line: &str) -> Result<Vec<u8>, AllocError> {
    let mut script = Vec::new(alloc);
    for byte in line.as_bytes() {
        script.push(if *byte == 1 { b'\n' } else { *byte })?;
    }
    Ok(script)
}

/// What is said of a script with so many parentheses.
fn of_parentheses(alloc: Global, line: &str) -> Result<String, AllocError> {
    let depth = line.parse::<usize>().unwrap_or(0);
    tree_or_fault(alloc, &enclosed(alloc, depth)?)
}

/// How a module runs, behind its description.
fn of_run(alloc: Global, line: &str) -> Result<String, AllocError> {
    let (what, text) = line.split_once(": ").unwrap_or(("", line));
    format!(in alloc; "{what}: {}", running::said(alloc, text)?)
}

/// What decoder and validator answer to a module, behind its description.
fn of_bytes(alloc: Global, line: &str) -> Result<String, AllocError> {
    let (what, text) = line.split_once(": ").unwrap_or(("", line));
    let bytes = bytes_of(alloc, text.as_bytes())?;
    format!(in alloc; "{what}: {}", reading::answer(alloc, &bytes)?)
}

/// What is said of a line.
fn answer(alloc: Global, question: Question, line: &str) -> Result<String, AllocError> {
    match question {
        Question::Tokens => token_list(alloc, &unescape(alloc, line.as_bytes())?),
        Question::Words => reserved_text(alloc, line.as_bytes()),
        Question::Trees => tree_or_fault(alloc, &script_of(alloc, line)?),
        Question::Parentheses => of_parentheses(alloc, line),
        Question::Names => names_or_refusal(alloc, &script_of(alloc, line)?),
        Question::Findings => found_page(alloc, &script_of(alloc, line)?),
        Question::Expressions => answer_of(alloc, line),
        Question::Run => of_run(alloc, line),
        Question::Read => of_bytes(alloc, line),
    }
}

fn main(rt: HostRuntime) -> io::Result<()> {
    let mut question = Question::Run;
    for line in rt.lines(rt.alloc()) {
        let line = line?;
        match question_of(line.as_str()) {
            Some(named) => question = named,
            None => {
                let answer = answer(rt.alloc(), question, line.as_str())?;
                println!(rt; "{answer}")?;
            }
        }
    }
    Ok(())
}
