//! The tokens and the conditions of the tree of a script.
//!
//! The tokens of expressions and statements.
//!
//! The grammar of scripts as productions.
//!
//! The lines of the places of a script.
#![tactic(auto)]

mod check;
mod check_stmt;
pub mod derivation_laws;
mod lines;
mod printer;
mod printer_stmt;
mod writing;

pub use awk_grammar::{
    AssignOp, BinaryOp, Builtin, Expr, Item, Jump, Leaving, Next, Pattern, PrintArgs, PrintTarget,
    PrintWord, Printed, Script, SimpleStmt, StepOp, Stmt, UnaryOp, binary_level, has_edge,
    is_field, left_floor, level, one_script, read_scripts_are_well_formed, suits,
    syntax_means_no_script, takes, well_formed_scripts_are_read,
};
pub use check_stmt::is_well_formed;
pub use lines::{function_named, line_of, places_of};
pub use printer::print_tokens;
