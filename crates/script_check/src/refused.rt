//! What is found in a script that is refused for a token, for its tokens, or for a regular expression.

ghost use Rattle.std.specs.Prelude.{◌≡◌, ◌≢◌, ◌<◌, IfOk, OnOk, length, option_map};
ghost use Rattle.script_check.specs.Layout.{collected, found_at, view_text};
ghost use Rattle.script_check.specs.Refused.{AreEres, IsEreFault, IsKindFault, IsTokenFault, alone_found, alone_remark, ere_found, ere_remark, inner, refused_found, stopped_found, token_remark};
ghost use Rattle.script_check.specs.Remarks.{Gains, view_finding, view_findings, view_said};

use crate::finding::{Finding, Said, push_found};
use crate::stopped::syntax_at;
use crate::text::{Text, found_at, kind_at, text_at};
use awk_parse::{Feature, ParseFault, parse};
use awk_tokens::{Token, TokenKind};
use ere_syntax::{EreFault, read_ere};
use std::alloc::{AllocError, Global};

/// What is said of a token of this text that is refused by itself for this.
fn alone_remark<'a>(fault: ParseFault, text: &'a [u8]) -> Option<Said<'a>>
    ensures { option_map view_said result ≡ alone_remark fault text.now }
{
    match fault {
        ParseFault::LeftOut(_, Feature::Pipe) => {
            Some(Said::error("LeftOut", "pipe".as_bytes(), "pipes are left out"))
        }
        ParseFault::LeftOut(_, Feature::Word(_)) => {
            Some(Said::error("LeftOut", text, "it is left out"))
        }
        ParseFault::NotWhole(_) => Some(Said::error("NotWhole", &[], "the number is not whole")),
        ParseFault::ConstantRange(_) => {
            Some(Said::error("ConstantRange", &[], "the number is above 9007199254740992"))
        }
        ParseFault::Syntax(_)
        | ParseFault::TooDeep(_)
        | ParseFault::Misplaced(_)
        | ParseFault::NoMemory => None,
    }
}

/// What is said of a token that is refused by itself.
fn token_remark<'a>(alloc: Global, token: &Token<'a>) -> Result<Option<Said<'a>>, AllocError>
    ensures { IfOk result (λ said. option_map view_said said ≡ token_remark (Some token.now)) }
{
    let alone = [Token {
        kind: token.kind,
        line: 0,
        text: token.text,
    }];
    match parse(alloc, &alone) {
        Ok(_) => Ok(None),
        Err(ParseFault::NoMemory) => Err(AllocError),
        Err(fault) => Ok(alone_remark(fault, token.text)),
    }
}

/// What is found at a token that is refused by itself.
fn alone_found<'a>(
    alloc: Global,
    text: &Text<'_, 'a>,
    number: usize,
) -> Result<Option<Finding<'a>>, AllocError>
    requires { number < length text.now.tokens.now }
    ensures { IfOk result
        (λ found. option_map view_finding found ≡ alone_found (view_text text.now) number) }
{
    match token_remark(alloc, &text.tokens[number]) {
        Ok(Some(said)) => Ok(Some(found_at(text, number, said))),
        Ok(None) => Ok(None),
        Err(_) => Err(AllocError),
    }
}

/// Adds what is found at each token that is refused by itself.
fn push_alone<'a>(
    out: &mut Vec<Finding<'a>>,
    alloc: Global,
    text: &Text<'_, 'a>,
) -> Result<(), AllocError>
    ensures { OnOk result (Gains out.old.items out.new.items
        (collected (alone_found (view_text text.now)) (length text.now.tokens.now))) }
{
    for number in 0..text.tokens.len() {
        push_found(out, alone_found(alloc, text, number)?)?;
    }
    Ok(())
}

/// What is found where reading stopped.
fn stopped_found<'a>(text: &Text<'_, 'a>, fault: ParseFault) -> Option<Finding<'a>>
    ensures { option_map view_finding result ≡ stopped_found (view_text text.now) fault }
{
    match fault {
        ParseFault::Syntax(number) => {
            Some(found_at(text, number, syntax_at(text.tokens, number)))
        }
        ParseFault::TooDeep(number) => {
            let said = Said::error("TooDeep", &[], "nested more than 1,000 deep");
            Some(found_at(text, number, said))
        }
        ParseFault::Misplaced(number) => {
            let name = text_at(text.tokens, number);
            let said = Said::error("Misplaced", name, "it means nothing here");
            Some(found_at(text, number, said))
        }
        _ => None,
    }
}

/// Adds what is found in a script that is refused for this fault of its tokens, which carry their numbers.
pub(crate) fn push_refused<'a>(
    out: &mut Vec<Finding<'a>>,
    alloc: Global,
    text: &Text<'_, 'a>,
    fault: ParseFault,
) -> Result<(), AllocError>
    ensures refused { OnOk result (Gains out.old.items out.new.items
        (refused_found (view_text text.now) fault)) }
    ensures memory { OnOk result (fault ≢ ParseFault.NoMemory) }
{
    match fault {
        ParseFault::NoMemory => Err(AllocError),
        ParseFault::LeftOut(_, _) | ParseFault::NotWhole(_) | ParseFault::ConstantRange(_) => {
            push_alone(out, alloc, text)
        }
        _ => push_found(out, stopped_found(text, fault)),
    }
}

/// What is between the slashes.
fn inner(ere: &[u8]) -> &[u8]
    ensures { result.now ≡ inner ere.now }
{
    if ere.len() >= 2 {
        &ere[1..ere.len() - 1]
    } else {
        &[]
    }
}

/// Why a regular expression is refused, if it is.
fn ere_fault(alloc: Global, ere: &[u8]) -> Result<Option<EreFault>, AllocError>
    ensures { IfOk result (λ fault. IsEreFault ere.now fault) }
{
    match read_ere(alloc, ere) {
        Ok(_) => Ok(None),
        Err(EreFault::NoMemory) => Err(AllocError),
        Err(fault) => Ok(Some(fault)),
    }
}

/// Why a token of this kind is refused as a regular expression, if it is.
fn kind_fault(alloc: Global, kind: TokenKind, text: &[u8]) -> Result<Option<EreFault>, AllocError>
    ensures { IfOk result (λ fault. IsKindFault kind text.now fault) }
{
    match kind {
        TokenKind::Ere => ere_fault(alloc, inner(text)),
        _ => Ok(None),
    }
}

/// The same of a token that may not be there.
fn token_fault(
    alloc: Global,
    kind: Option<TokenKind>,
    text: &[u8],
) -> Result<Option<EreFault>, AllocError>
    ensures { IfOk result (λ fault. IsTokenFault kind text.now fault) }
{
    match kind {
        None => Ok(None),
        Some(kind) => kind_fault(alloc, kind, text),
    }
}

/// What is said of a regular expression that is refused for this.
fn ere_remark<'a>(fault: EreFault) -> Option<Said<'a>>
    ensures { option_map view_said result ≡ ere_remark fault }
{
    match fault {
        EreFault::BadEre(_) => Some(Said::error("BadEre", &[], "it is no regular expression")),
        EreFault::EreTooLarge => Some(Said::error("EreTooLarge", &[], "it is past the limits")),
        EreFault::NoMemory => None,
    }
}

/// What is found at a regular expression that is refused for this, if it is.
fn ere_found<'a>(text: &Text<'_, 'a>, number: usize, fault: Option<EreFault>) -> Option<Finding<'a>>
    ensures { option_map view_finding result ≡ ere_found (view_text text.now) number fault }
{
    let said = ere_remark(fault?)?;
    Some(found_at(text, number, said))
}

/// What is found at each regular expression that is refused.
pub(crate) fn eres_of<'a>(
    alloc: Global,
    text: &Text<'_, 'a>,
) -> Result<Vec<Finding<'a>>, AllocError>
    ensures { IfOk result (λ found.
        AreEres (view_text text.now) (length text.now.tokens.now) (view_findings found.items)) }
{
    let mut out = Vec::new(alloc);
    for number in 0..text.tokens.len() {
        let kind = kind_at(text.tokens, number);
        let fault = token_fault(alloc, kind, text_at(text.tokens, number))?;
        push_found(&mut out, ere_found(text, number, fault))?;
    }
    Ok(out)
}
