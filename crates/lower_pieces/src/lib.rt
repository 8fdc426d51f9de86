//! The code of modules for mid code, emitted as it is defined.
#![tactic(auto)]

mod arithmetic;
mod bases;
mod boxing;
mod comparing;
mod converting;
mod emission;
mod emitted;
mod faults;
mod form;
mod handles;
mod keeping;
mod letting;
mod numbers;
mod telling;

pub use arithmetic::{calculated, field_checked};
pub use bases::Bases;
pub use boxing::{boxed_number, boxed_perhaps};
pub use comparing::{compared, comparison_number, is_value, relation};
pub use converting::to_value;
pub use emission::{
    again, ask, ask_row, block, code_of, emit, emit_all, emit_if, emit_if_all, import_call,
    row_call, when, when_all,
};
pub use emitted::Emitted;
pub use faults::{fail_if, number_is};
pub use form::Form;
pub use handles::{MINUS_ONE, copied_by, copied_if_any, emptied, going, let_go, moved_out};
pub use keeping::{
    LEAST, TEXT_BESIDE, TEXT_GLOBAL, WAS_LEFT, answer_kept, kept, kept_code, kept_number,
    kept_value,
};
pub use letting::{bound_from, moved_from, released, unused};
pub use numbers::{code_number, converted, to_number, zeroed};
pub use telling::truth;
