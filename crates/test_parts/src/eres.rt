//! Reads expressions and matches them, as a line asks: the name of a call and its words, between tabs. In a word a backslash begins an escape, as in awk's
//! strings.
//!
//! - `tree ERE`: the tree;
//! - `set ERE BYTES`: how many bytes a bracket expression takes, and whether it takes these;
//! - `first ERE TEXT FROM`: where the first match from a place on begins and ends;
//! - `match ERE TEXT`: whether there is a match, asked twice;
//! - `threads ERE TEXT`: whether threads find the same first matches, from each place of the text on;
//! - `all ERE PART COUNT ..`: how many matches the text has, which is the parts, each so many times, and whether each is found if it is looked for alone;
//! - `read PART COUNT ..`: whether the parts, each so many times, have a tree; `found TEXT PART COUNT ..`: their first match in a text;
//! - `long KIND LENGTH ERE`: how many matches of a long text are found, and where the first begins and ends;
//! - `reversed`: the first match of an expression that is repeated at least three times and at most twice.
//!
//! Where there is no tree, the answer is the fault.
mod call;
mod line_words;
mod matches;
mod texts;
mod trees;

use crate::eres::call::{Call, call_of};
use crate::eres::texts::{expression_of, from_of, text_of};
use crate::eres::trees::of_expression;
use ere_syntax::EreFault;
use std::alloc::{AllocError, Global};

/// What a call gives.
fn answer(alloc: Global, call: Call, line: &str) -> Result<String, EreFault> {
    let expression = expression_of(alloc, call, line)?;
    let text = text_of(alloc, call, line)?;
    of_expression(alloc, call, &expression, &text, from_of(call, line))
}

/// What a call gives; where there is no tree, the fault.
fn answer_or_fault(alloc: Global, call: Call, line: &str) -> Result<String, AllocError> {
    match answer(alloc, call, line) {
        Ok(text) => Ok(text),
        Err(fault) => format!(in alloc; "{fault}"),
    }
}

/// What is said of a line.
pub(crate) fn answer_of(alloc: Global, line: &str) -> Result<String, AllocError> {
    match call_of(line) {
        Some(call) => answer_or_fault(alloc, call, line),
        None => String::from_str(alloc, "no such call"),
    }
}
