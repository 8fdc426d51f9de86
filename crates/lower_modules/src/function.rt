//! A function whose code is emitted.

use mid_program::Kind;
use wasm_types::{Instr, ValType};

/// A function whose code is emitted: the kinds of its parameters, its locals beside these, the type of its answer, and its code, which calls imports by their numbers in
/// the table and functions by numbers after those.
#[derive(Drop)]
pub struct Function {
    pub kinds: Vec<Kind>,
    pub locals: Vec<ValType>,
    pub answer: ValType,
    pub body: Vec<Instr>,
}
