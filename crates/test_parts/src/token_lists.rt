//! The tokens of scripts.
use crate::kinds::kind_text;
use crate::show::show;
use awk_tokens::{Token, TokenFault, tokens};
use std::alloc::{AllocError, Global};

/// Adds a token, as `KIND@LINE`. A text that is not the kind's own follows `=`; it is `+` where there is none, and `-` where it is a newline.
fn push_token(alloc: Global, out: &mut String, token: &Token) -> Result<(), AllocError> {
    let kind = kind_text(token.kind);
    out.push_str(format!(in alloc; "{kind}@{}", token.line)?.as_str())?;
    match token.text {
        [] => out.push('+'),
        b"\n" => out.push('-'),
        text => {
            if text == kind.as_bytes() {
                return Ok(());
            }
            out.push('=')?;
            show(out, text)
        }
    }
}

/// What is said of a script without tokens.
pub(crate) fn no_tokens(alloc: Global, fault: TokenFault) -> Result<String, AllocError> {
    match fault {
        TokenFault::BadByte(line) => format!(in alloc; "BadByte {line}"),
        TokenFault::OpenString(line) => format!(in alloc; "OpenString {line}"),
        TokenFault::OpenEre(line) => format!(in alloc; "OpenEre {line}"),
        TokenFault::NoMemory => format!(in alloc; "NoMemory"),
    }
}

/// The tokens of a script.
pub(crate) fn token_list(alloc: Global, script: &[u8]) -> Result<String, AllocError> {
    let found = match tokens(alloc, script) {
        Ok(found) => found,
        Err(fault) => return no_tokens(alloc, fault),
    };
    let mut out = String::new(alloc);
    for (i, token) in found.iter().enumerate() {
        if i > 0 {
            out.push(' ')?;
        }
        push_token(alloc, &mut out, token)?;
    }
    Ok(out)
}
