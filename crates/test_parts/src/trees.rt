//! Whether scripts have a tree, or why they have none.
//!
//! The answer is `tree`, or the fault with the script's line and what it names. The tree itself is not printed: the tokens of a script have no second one. It
//! is looked at: it must be well formed and have the tokens of the script.
use crate::kinds::left_out_text;
use crate::token_lists::no_tokens;
use awk_parse::{Feature, ParseFault, parse};
use awk_tokens::{Token, TokenKind, tokens};
use awk_tree::{Printed, Script, is_well_formed, print_tokens};
use std::alloc::{AllocError, Global};

/// The name of a left-out feature.
fn feature_name(feature: Feature) -> &'static str {
    match feature {
        Feature::Word(left_out) => left_out_text(left_out),
        Feature::Pipe => "pipe",
    }
}

/// What is said of tokens without a tree.
fn no_tree(alloc: Global, fault: ParseFault) -> Result<String, AllocError> {
    match fault {
        ParseFault::LeftOut(line, feature) => {
            let name = feature_name(feature);
            format!(in alloc; "LeftOut {line} {name}")
        }
        ParseFault::NotWhole(line) => format!(in alloc; "NotWhole {line}"),
        ParseFault::ConstantRange(line) => format!(in alloc; "ConstantRange {line}"),
        ParseFault::Syntax(line) => format!(in alloc; "Syntax {line}"),
        ParseFault::TooDeep(line) => format!(in alloc; "TooDeep {line}"),
        ParseFault::Misplaced(line) => format!(in alloc; "Misplaced {line}"),
        ParseFault::NoMemory => format!(in alloc; "NoMemory"),
    }
}

/// Whether a token is the printed one. The name after `function` is printed as a name, also where a parenthesis follows at once.
fn is_same(printed: &Printed, token: &Token) -> bool {
    match (printed, token.kind) {
        (Printed::Name(name), TokenKind::Name | TokenKind::FuncName) => *name == token.text,
        (Printed::FuncName(name), TokenKind::FuncName) => *name == token.text,
        (Printed::Number(digits), TokenKind::Number) => *digits == token.text,
        (Printed::Str(text), TokenKind::Str) => *text == token.text,
        (Printed::Ere(text), TokenKind::Ere) => *text == token.text,
        (Printed::Keyword(word), TokenKind::Keyword(other)) => *word == other,
        (Printed::Builtin(function), TokenKind::Builtin(other)) => *function == other,
        (Printed::Punctuator(mark), TokenKind::Punctuator(other)) => *mark == other,
        _ => false,
    }
}

/// Whether these are the tokens of the script, lines and the texts of punctuators and words aside.
fn are_same(printed: &[Printed], found: &[Token]) -> bool {
    printed.len() == found.len() && printed.iter().zip(found).all(|(p, t)| is_same(p, t))
}

/// What is said of a tree that these tokens have.
fn tree(alloc: Global, script: &Script, found: &[Token<'_>]) -> Result<String, AllocError> {
    let printed = print_tokens(alloc, script)?;
    if is_well_formed(script) && are_same(&printed, found) {
        return format!(in alloc; "tree");
    }
    format!(in alloc; "another tree")
}

/// What is said of a script.
pub(crate) fn tree_or_fault(alloc: Global, script: &[u8]) -> Result<String, AllocError> {
    let tokens = match tokens(alloc, script) {
        Ok(tokens) => tokens,
        Err(fault) => return no_tokens(alloc, fault),
    };
    match parse(alloc, &tokens) {
        Ok(script) => tree(alloc, &script, &tokens),
        Err(fault) => no_tree(alloc, fault),
    }
}

/// `BEGIN { print 1 }` with this many parentheses around the 1.
pub(crate) fn enclosed(alloc: Global, depth: usize) -> Result<Vec<u8>, AllocError> {
    let mut script = b"BEGIN { print ".to_vec(alloc)?;
    for _ in 0..depth {
        script.push(b'(')?;
    }
    script.push(b'1')?;
    for _ in 0..depth {
        script.push(b')')?;
    }
    script.extend_from_slice(b" }")?;
    Ok(script)
}
