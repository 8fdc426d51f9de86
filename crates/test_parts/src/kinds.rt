//! Kinds of tokens, as answers name them.
use awk_tokens::{Builtin, Keyword, LeftOut, Punctuator, ReservedWord, TokenKind, reserved_word};
use std::alloc::{AllocError, Global};

fn keyword_text(x: Keyword) -> &'static str {
    match x {
        Keyword::Begin => "BEGIN",
        Keyword::End => "END",
        Keyword::Function => "function",
        Keyword::If => "if",
        Keyword::Else => "else",
        Keyword::While => "while",
        Keyword::For => "for",
        Keyword::Do => "do",
        Keyword::Break => "break",
        Keyword::Continue => "continue",
        Keyword::Next => "next",
        Keyword::NextFile => "nextfile",
        Keyword::Exit => "exit",
        Keyword::Return => "return",
        Keyword::Delete => "delete",
        Keyword::In => "in",
        Keyword::Getline => "getline",
        Keyword::Print => "print",
        Keyword::Printf => "printf",
    }
}

fn builtin_text(x: Builtin) -> &'static str {
    match x {
        Builtin::Length => "length",
        Builtin::Substr => "substr",
        Builtin::Index => "index",
        Builtin::Split => "split",
        Builtin::Sub => "sub",
        Builtin::Gsub => "gsub",
        Builtin::Match => "match",
        Builtin::Sprintf => "sprintf",
        Builtin::ToLower => "tolower",
        Builtin::ToUpper => "toupper",
        Builtin::Int => "int",
        Builtin::Close => "close",
        Builtin::Fflush => "fflush",
    }
}

/// A left-out word as scripts write it.
pub(crate) fn left_out_text(x: LeftOut) -> &'static str {
    match x {
        LeftOut::Atan2 => "atan2",
        LeftOut::Cos => "cos",
        LeftOut::Sin => "sin",
        LeftOut::Exp => "exp",
        LeftOut::Log => "log",
        LeftOut::Sqrt => "sqrt",
        LeftOut::Rand => "rand",
        LeftOut::Srand => "srand",
        LeftOut::System => "system",
        LeftOut::Func => "func",
    }
}

fn punctuator_text(x: Punctuator) -> &'static str {
    match x {
        Punctuator::OpenBrace => "{",
        Punctuator::CloseBrace => "}",
        Punctuator::OpenParen => "(",
        Punctuator::CloseParen => ")",
        Punctuator::OpenBracket => "[",
        Punctuator::CloseBracket => "]",
        Punctuator::Semicolon => ";",
        Punctuator::Comma => ",",
        Punctuator::Plus => "+",
        Punctuator::Minus => "-",
        Punctuator::Star => "*",
        Punctuator::Slash => "/",
        Punctuator::Percent => "%",
        Punctuator::Caret => "^",
        Punctuator::Bang => "!",
        Punctuator::Greater => ">",
        Punctuator::Less => "<",
        Punctuator::Pipe => "|",
        Punctuator::Question => "?",
        Punctuator::Colon => ":",
        Punctuator::Tilde => "~",
        Punctuator::Dollar => "$",
        Punctuator::Assign => "=",
        Punctuator::PlusAssign => "+=",
        Punctuator::MinusAssign => "-=",
        Punctuator::StarAssign => "*=",
        Punctuator::SlashAssign => "/=",
        Punctuator::PercentAssign => "%=",
        Punctuator::CaretAssign => "^=",
        Punctuator::Equal => "==",
        Punctuator::LessEqual => "<=",
        Punctuator::GreaterEqual => ">=",
        Punctuator::NotEqual => "!=",
        Punctuator::NotTilde => "!~",
        Punctuator::Increment => "++",
        Punctuator::Decrement => "--",
        Punctuator::And => "&&",
        Punctuator::Or => "||",
        Punctuator::Append => ">>",
    }
}

/// Which reserved word a text is.
pub(crate) fn reserved_text(alloc: Global, text: &[u8]) -> Result<String, AllocError> {
    match reserved_word(text) {
        Some(ReservedWord::Keyword(word)) => format!(in alloc; "keyword {}", keyword_text(word)),
        Some(ReservedWord::Builtin(function)) => {
            format!(in alloc; "builtin {}", builtin_text(function))
        }
        Some(ReservedWord::LeftOut(word)) => format!(in alloc; "left out {}", left_out_text(word)),
        None => String::from_str(alloc, "none"),
    }
}

/// What a kind is called: the word or punctuator itself.
pub(crate) fn kind_text(kind: TokenKind) -> &'static str {
    match kind {
        TokenKind::Name => "name",
        TokenKind::FuncName => "funcname",
        TokenKind::Number => "number",
        TokenKind::Str => "string",
        TokenKind::Ere => "ere",
        TokenKind::Keyword(word) => keyword_text(word),
        TokenKind::Builtin(function) => builtin_text(function),
        TokenKind::LeftOut(word) => left_out_text(word),
        TokenKind::Punctuator(mark) => punctuator_text(mark),
    }
}
