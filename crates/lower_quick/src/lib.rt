//! Which statements and tests have a quick way, found in their code as `lower_model` defines it.
#![tactic(auto)]

mod addition;
mod append;
mod counted;
mod jumps;
mod names;
mod operands;
mod pair;
mod remainder;
mod source;
mod sum;
mod tally;
mod update;
mod within;

pub use addition::{Addition, addition_in};
pub use append::{Append, append_in, concat_in};
pub use counted::{Counted, counted_in};
pub use jumps::{is_nothing, step_jumps};
pub use names::{addition_names, pair_names, remainder_names, sum_names};
pub use pair::{Pair, contrary, pair_in};
pub use remainder::{Multiple, Remainder, remainder_in};
pub use source::{Holder, Source};
pub use sum::{Sum, sum_in};
pub use tally::{Tally, tally_in};
pub use update::{Update, update_in};
pub use within::{Within, test_within};
