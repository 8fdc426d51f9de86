//! The code of expressions, emitted as it is defined.
#![tactic(auto)]

mod at;
mod entry;
mod expressions;
mod fields;
mod function_calls;
mod function_layout;
mod immediates;
mod kept;
mod leaves;
mod lists;
mod operands;
mod pending;
mod places;
mod slots;
mod sources;
mod storing;
mod walks;

pub use at::At;
pub use expressions::expression;
pub use fields::field_at;
pub use function_layout::FunctionLayout;
pub use kept::Kept;
pub use pending::{asked, pending_assigned, pending_code};
pub use places::{array_pushed, global_handle, global_number, text_pushed};
pub use slots::text_dropped;
pub use sources::{all_unsure, name_read, source_read, sum_op};
pub use storing::left_over;
