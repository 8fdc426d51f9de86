//! The imports on values alone: each takes words, spends handles, and gives an answer, a fault or a trap.
//!
//! The imports on arrays and their keys, and on iterators.
//!
//! What the calls of a host mean that is told by its tables.
#![tactic(auto)]

mod argument_words;
mod arrays;
pub mod call_laws;
mod element_keys;
mod element_words;
mod evaluate;
mod iterators;
mod keys;
mod literals;
mod reply;
mod single;
mod spent;
mod text;
mod value_calls;

pub use argument_words::{expect_end, number_front, place_front, value_after, value_front};
pub use arrays::{clear, delete, elem, free_array, has, new_array, set_elem};
pub use element_keys::{KeyText, key_text};
pub use element_words::array_front;
pub use evaluate::{
    comparison, concat, dup, fail, int_of, lit, num, power, push_text, text_len, to_num, truth_of,
    uninit,
};
pub use host_step::Refusal;
pub use iterators::Iterators;
pub use keys::{iter, iter_free, iter_next};
pub use literals::Literals;
pub use reply::{Evaluated, Reply};
pub use single::{append, only_handle, release};
pub use spent::Spent;
pub use text::{ValueText, shared_text, value_text};
pub use value_calls::{carry_out, give};
