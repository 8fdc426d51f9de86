//! Runs scripts and modules over worlds in memory, and asks what command lines ask for: a row of standard input each time.
//!
//! A row is a line of fields, parted by tabs; in a field an escape of awk stands for a byte. The fields are a script and its standard input, and then
//! any number of these:
//!
//! - `o:TEXT`: an operand; `v:NAME=TEXT`: an assignment of the command line before the operands; `e:NAME=TEXT`: a pair of the environment;
//! - `f:NAME=TEXT`: a file that is there before the run; `l:NAME`: a file that is shown after it;
//! - `p:N=TEXT`: the script goes on with so many times this text; `i:N=TEXT`: so does the standard input;
//! - `x:`: reading the standard input fails at its end; `g:NAME=TEXT`: so does reading this file; `n:NAME`: a name that does not open;
//! - `r:N`: the standard output has room for so many bytes; `c:N`: this call of the world fails, from 1 on; `y:N`: a read gives so many bytes at most;
//! - `k:OPTION`: an option of the command line keeps files out, as `k:no-files`;
//! - `t:NAME`: the row's name, which comes before its answer, with a tab; `a:` is read by `bench/refused_rows` alone, which refuses each allocation of the row;
//! - `d:`: each call of the world fails, in one run after another, from the first call to the last: there is an answer for each;
//! - `s:N`: so many steps at most; `u:TEXT`: where the output is this text, once or more, `again and again` is shown for it;
//! - `b:`: a line says how many proper beginnings of the module are refused;
//! - `h:`: a line says how many values, arrays and iterators are alive in the host where the script has ended.
//!
//! In the place of a script `module:` with hexadecimal digits is a module. The answer is a line: the exit status, what is told of the end, and the
//! output. A line for each file that is shown follows: its name, and what it holds if it is there.
//!
//! After `words:` and a tab a line has the words of a command line, without escapes. The answer is what they ask for, or an exit status.
#![tactic(auto)]

mod alive;
mod answer;
mod beginnings;
mod command_lines;
mod fence;
mod field;
mod outside;
mod row;
mod run;
pub mod scripts;
mod slow;

use answer::answer_to_row;
use command_lines::answer_to_words;
use std::alloc::{AllocError, Global};
use std::hash::RandomState;
use std::io;

/// The lines that answer a line.
fn answer_to(alloc: Global, state: RandomState, line: &str) -> Result<String, AllocError> {
    match line.strip_prefix("words:\t") {
        Some(words) => answer_to_words(alloc, words),
        None => answer_to_row(alloc, state, line),
    }
}

fn main(rt: HostRuntime) -> io::Result<()> {
    let state = RandomState::new(&rt)?;
    for line in rt.lines(rt.alloc()) {
        let line = line?;
        let text = answer_to(rt.alloc(), state, line.as_str())?;
        print!(rt; "{text}")?;
    }
    Ok(())
}
