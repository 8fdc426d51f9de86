//! The grammar of scripts: their trees, the tokens of each, and which are well formed.
//!
//! What the names of a script are, from its tree: definitions alone, no function.
#![tactic(auto)]

mod grammar_laws;
mod printed;
mod shape;
mod tree;

pub use grammar_laws::{
    one_script, read_scripts_are_well_formed, syntax_means_no_script, well_formed_scripts_are_read,
};
pub use printed::Printed;
pub use shape::{
    Next, behind_left, binary_level, fits_right, has_edge, head, is_allowed, is_field, left_floor,
    level, may_begin, suits, takes,
};
pub use tree::{
    AssignOp, BinaryOp, Builtin, Expr, Item, Jump, Leaving, MAX_DEPTH, Pattern, PrintArgs,
    PrintTarget, PrintWord, Script, SimpleStmt, StepOp, Stmt, UnaryOp,
};
