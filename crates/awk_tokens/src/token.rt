//! Tokens, and why a script has none.

use crate::reserved_words::{Builtin, Keyword, LeftOut};
use thiserror::Error;

/// A punctuator. Each is named by its commonest meaning.
#[derive(Clone, Copy, Debug, PartialEq, Eq)]
pub enum Punctuator {
    OpenBrace,
    CloseBrace,
    OpenParen,
    CloseParen,
    OpenBracket,
    CloseBracket,
    Semicolon,
    Comma,
    Plus,
    Minus,
    Star,
    Slash,
    Percent,
    Caret,
    Bang,
    Greater,
    Less,
    Pipe,
    Question,
    Colon,
    Tilde,
    Dollar,
    Assign,
    PlusAssign,
    MinusAssign,
    StarAssign,
    SlashAssign,
    PercentAssign,
    CaretAssign,
    Equal,
    LessEqual,
    GreaterEqual,
    NotEqual,
    NotTilde,
    Increment,
    Decrement,
    And,
    Or,
    Append,
}

/// What a token is. A name directly before `(` is a `FuncName`.
#[derive(Clone, Copy, Debug, PartialEq, Eq)]
pub enum TokenKind {
    Name,
    FuncName,
    Number,
    Str,
    Ere,
    Keyword(Keyword),
    Builtin(Builtin),
    LeftOut(LeftOut),
    Punctuator(Punctuator),
}

/// A token: its kind, the line of its first byte (lines count from 1), and its bytes, a slice of the script.
///
/// A `;` that the script does not have, put before `}` or at the end, has the line of the token before it, or 1
/// if there is none, and no bytes. A `;` that a newline stands for has the newline as its text.
#[derive(Clone, Copy, Debug)]
pub struct Token<'a> {
    pub kind: TokenKind,
    pub line: usize,
    pub text: &'a [u8],
}

/// Why a script has no tokens. Each but the last carries the line of the first byte of what stopped the reading.
#[derive(Clone, Copy, Debug, PartialEq, Eq, Error)]
pub enum TokenFault {
    /// No token, blank, comment or newline begins with this byte.
    #[error("line {0}: no token begins with this byte")]
    BadByte(usize),
    /// A string is not closed before a newline or the end.
    #[error("line {0}: the string is not closed")]
    OpenString(usize),
    /// An ERE is not closed before a newline or the end.
    #[error("line {0}: the regular expression is not closed")]
    OpenEre(usize),
    /// Memory was refused.
    #[error("out of memory")]
    NoMemory,
}

/// A piece of a script.
#[derive(Clone, Copy)]
pub enum Piece {
    Blank,
    Newline,
    Token(TokenKind),
}

/// What a parenthesis was opened for: the condition of `if`, `while` or `for`, the parameters of a function, or anything else.
#[derive(Clone, Copy)]
pub enum Role {
    Control,
    Params,
    Plain,
}
