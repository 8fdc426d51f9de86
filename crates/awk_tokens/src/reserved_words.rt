//! The reserved words of the language.

ghost use Rattle.std.specs.Prelude.{◌≡◌, map, option_map};
ghost use Rattle.awk_tokens.specs.Words.{entry, keywords, builtins, left_out_words, reserved_word_of};

use std::fmt;

/// A word of the grammar.
#[derive(Clone, Copy, Debug, PartialEq, Eq)]
pub enum Keyword {
    Begin,
    End,
    Function,
    If,
    Else,
    While,
    For,
    Do,
    Break,
    Continue,
    Next,
    NextFile,
    Exit,
    Return,
    Delete,
    In,
    Getline,
    Print,
    Printf,
}

/// A built-in function.
#[derive(Clone, Copy, Debug, PartialEq, Eq)]
pub enum Builtin {
    Length,
    Substr,
    Index,
    Split,
    Sub,
    Gsub,
    Match,
    Sprintf,
    ToLower,
    ToUpper,
    Int,
    Close,
    Fflush,
}

/// A word of awk, or of a common extension, that this language leaves out.
#[derive(Clone, Copy, Debug, PartialEq, Eq)]
pub enum LeftOut {
    Atan2,
    Cos,
    Sin,
    Exp,
    Log,
    Sqrt,
    Rand,
    Srand,
    System,
    Func,
}

impl fmt::Display for LeftOut {
    fn fmt<W: fmt::Write>(&self, f: &mut fmt::Formatter<W>) -> fmt::Result {
        f.write_str(match self {
            LeftOut::Atan2 => "atan2",
            LeftOut::Cos => "cos",
            LeftOut::Sin => "sin",
            LeftOut::Exp => "exp",
            LeftOut::Log => "log",
            LeftOut::Sqrt => "sqrt",
            LeftOut::Rand => "rand",
            LeftOut::Srand => "srand",
            LeftOut::System => "system",
            LeftOut::Func => "func",
        })
    }
}

/// A word that is no name.
#[derive(Clone, Copy)]
pub enum ReservedWord {
    Keyword(Keyword),
    Builtin(Builtin),
    LeftOut(LeftOut),
}

/// What the first row with this text says.
pub(crate) fn entry<T: Copy>(text: &[u8], table: &[(&[u8], T)]) -> Option<T>
    ensures { result ≡ entry text.now (map (λ row. (row.0.now, row.1)) table.now) }
{
    let mut rest = table;
    while let [(word, meaning), after @ ..] = rest {
        if text.len() == word.len() && text == *word {
            return Some(*meaning);
        }
        rest = after;
    }
    None
}

const KEYWORDS: [(&[u8], Keyword); 19] = [
    (b"BEGIN", Keyword::Begin),
    (b"END", Keyword::End),
    (b"function", Keyword::Function),
    (b"if", Keyword::If),
    (b"else", Keyword::Else),
    (b"while", Keyword::While),
    (b"for", Keyword::For),
    (b"do", Keyword::Do),
    (b"break", Keyword::Break),
    (b"continue", Keyword::Continue),
    (b"next", Keyword::Next),
    (b"nextfile", Keyword::NextFile),
    (b"exit", Keyword::Exit),
    (b"return", Keyword::Return),
    (b"delete", Keyword::Delete),
    (b"in", Keyword::In),
    (b"getline", Keyword::Getline),
    (b"print", Keyword::Print),
    (b"printf", Keyword::Printf),
];

const BUILTINS: [(&[u8], Builtin); 13] = [
    (b"length", Builtin::Length),
    (b"substr", Builtin::Substr),
    (b"index", Builtin::Index),
    (b"split", Builtin::Split),
    (b"sub", Builtin::Sub),
    (b"gsub", Builtin::Gsub),
    (b"match", Builtin::Match),
    (b"sprintf", Builtin::Sprintf),
    (b"tolower", Builtin::ToLower),
    (b"toupper", Builtin::ToUpper),
    (b"int", Builtin::Int),
    (b"close", Builtin::Close),
    (b"fflush", Builtin::Fflush),
];

const LEFT_OUT: [(&[u8], LeftOut); 10] = [
    (b"atan2", LeftOut::Atan2),
    (b"cos", LeftOut::Cos),
    (b"sin", LeftOut::Sin),
    (b"exp", LeftOut::Exp),
    (b"log", LeftOut::Log),
    (b"sqrt", LeftOut::Sqrt),
    (b"rand", LeftOut::Rand),
    (b"srand", LeftOut::Srand),
    (b"system", LeftOut::System),
    (b"func", LeftOut::Func),
];

#[tactic(auto, unfolding(crate::specs::Words::keywords))]
fn keyword_of(text: &[u8]) -> Option<Keyword>
    ensures { result ≡ entry text.now keywords }
{
    entry(text, &KEYWORDS)
}

#[tactic(auto, unfolding(crate::specs::Words::builtins))]
fn builtin_of(text: &[u8]) -> Option<Builtin>
    ensures { result ≡ entry text.now builtins }
{
    entry(text, &BUILTINS)
}

#[tactic(auto, unfolding(crate::specs::Words::left_out_words))]
fn left_out_of(text: &[u8]) -> Option<LeftOut>
    ensures { result ≡ entry text.now left_out_words }
{
    entry(text, &LEFT_OUT)
}

/// The reserved word of this text, if it is one: a word of the grammar, a built-in function, or a word that is left out.
pub fn reserved_word(text: &[u8]) -> Option<ReservedWord>
    ensures { result ≡ reserved_word_of text.now }
{
    if let Some(word) = keyword_of(text) {
        return Some(ReservedWord::Keyword(word));
    }
    if let Some(function) = builtin_of(text) {
        return Some(ReservedWord::Builtin(function));
    }
    if let Some(word) = left_out_of(text) {
        return Some(ReservedWord::LeftOut(word));
    }
    None
}
