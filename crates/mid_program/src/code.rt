//! The code of an expression.

use crate::mid::Operation;
use awk_values::CompareOp;
use sem_primitives::{Listed, Sort};

/// Where a scalar is kept: a global by its number, or a parameter by its place; and whether it is unboxed, which is kept as a number.
#[derive(Clone, Copy, Drop)]
pub enum Slot {
    Global(bool, usize),
    Parameter(bool, usize),
}

/// An array: by its number, or by the parameter that it is given for.
#[derive(Clone, Copy, Drop)]
pub enum ArrayName {
    Numbered(usize),
    Given(usize),
}

/// Code that gives an answer. Operands are evaluated from left to right, and then converted to the sorts that are wanted.
#[cycle(code)]
#[derive(Drop)]
pub enum Code {
    Do(Operation, Vec<Operand>),
    /// The key of subscripts: the first, others, and the last. All are evaluated before any are joined, with SUBSEP between; the last two are joined first.
    Joined(Box<Code>, Vec<Code>, Box<Code>),
    /// What takes a list of values.
    Over(Listed, Vec<Operand>),
    /// A comparison, of numbers where both are.
    Compare(CompareOp, Box<Code>, Box<Code>),
    /// A call of a function, by its number.
    Call(usize, Vec<Operand>),
    /// A record of the main input, after the assignments of the command line that come first.
    Ask,
    /// The same into a variable: a text that was read is kept while the code stores it.
    AskLine(Box<Code>),
    /// A record of the file that the first names; the second stores it.
    FileLine(Box<Code>, Box<Code>),
    /// Whether all matches are replaced; expression, replacement and target; and the code that stores the new text, which is kept.
    Replace(bool, Vec<Operand>, Box<Code>),
    /// A number from -2^53 to 2^53.
    Number(i64),
    /// A text of the script, by its place in the list of texts.
    Text(usize),
    /// What a parameter is without an argument.
    Unset,
    Get(Slot),
    /// A scalar takes what is answered.
    Set(Slot, Box<Code>),
    Array(ArrayName),
    /// Whether a range is open.
    IsOpen(usize),
    /// The second or the third, as this sort, by the truth of the first.
    Choose(Sort, Box<Code>, Box<Code>, Box<Code>),
    /// The first, whose answer is dropped, and then the second.
    Seq(Box<Code>, Box<Code>),
    /// The first, whose answer is kept while the second is evaluated.
    Let(Box<Code>, Box<Code>),
    /// What was kept with so many others after it: moved, which is its last use, or copied.
    Bound(bool, usize),
}

/// An operand.
#[cycle(code)]
#[derive(Drop)]
pub enum Operand {
    Code(Code),
    /// A constant argument.
    Constant(u32),
    /// An array made for a call, where an argument is missing.
    Fresh,
}
