//! The imports on texts, special variables, the record and its fields, the formatted text of the argument list, names and assignments of the command line: each
//! takes words, spends handles, and gives an answer, a fault or a trap.
#![tactic(auto)]

mod announced_words;
mod change;
mod evaluate;
mod expressions;
mod join;
mod listed;
mod making;
mod name;
mod name_calls;
mod names;
mod number_key;
mod numbers;
mod record;
mod specials;
mod text_words;
mod texts;

pub use change::{match_at, sub, sub_result};
pub use evaluate::{index, length, lower_case, substr_from, substr_of, upper_case};
pub use expressions::matches;
pub use join::join_texts;
pub use listed::sprintf;
pub use making::assign;
pub use name_calls::{declare, pending_name, pending_value, start_assign};
pub use names::{NamedText, Names};
pub use numbers::counted;
pub use record::{field, get_special, put_record, put_special, set_field, set_special};
pub use specials::Specials;
pub use text_words::flag_front;
pub use texts::Texts;
