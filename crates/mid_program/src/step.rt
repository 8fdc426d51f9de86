//! The code of a statement.

use crate::code::{ArrayName, Code};

/// Code that is run.
#[derive(Drop)]
pub enum Step {
    /// Code whose answer is dropped.
    Eval(Code),
    Block(Vec<Step>),
    /// The first or the second, by the truth of a test.
    If(Code, Box<Step>, Box<Step>),
    /// Whether the first round begins with the test; the test, the body, and what stands between the body and the next test.
    Loop(bool, Code, Box<Step>, Box<Step>),
    /// For each key of an array, kept while the code stores it, the body.
    Each(ArrayName, Code, Box<Step>),
    Break,
    Continue,
    Next,
    Exit,
    /// `exit` with a status.
    ExitWith(Code),
    Return(Code),
    /// A range opens, or closes.
    Mark(usize, bool),
}
