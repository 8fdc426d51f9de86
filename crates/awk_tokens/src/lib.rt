//! The tokens of a script.
#![tactic(auto)]

mod before;
mod cut;
mod endings;
mod front;
mod number;
mod reserved_words;
mod token;
mod token_laws;

pub use cut::tokens;
pub use reserved_words::{Builtin, Keyword, LeftOut, ReservedWord, reserved_word};
pub use token::{Punctuator, Token, TokenFault, TokenKind};
pub use token_laws::{kinds_before_decide, one_token_list, some_token_list};
