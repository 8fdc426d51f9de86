//! The constant expressions of a script.
ghost use Rattle.std.specs.Prelude.{◌≡◌, List, map, OnOk, IfErr};
ghost use Rattle.awk_text.specs.Escapes.{between};
ghost use Rattle.awk_tokens.specs.Views.{spelled};
ghost use Rattle.script_code.specs.Expressions.{AreFine, HasBad, IsBadAs, IsFine, expression_fault, is_ere};

use awk_tokens::{Token, TokenKind};
use ere_syntax::{EreFault, read_ere};
use run_report::CompileFault;
use std::alloc::Global;

/// What is between the slashes.
fn between(ere: &[u8]) -> &[u8]
    ensures { result.now ≡ between ere.now }
{
    match ere {
        [_, inner @ .., _] => inner,
        _ => &[],
    }
}

fn is_ere(kind: TokenKind) -> bool
    ensures { result ≡ is_ere kind }
{
    matches!(kind, TokenKind::Ere)
}

/// A fault of the expression on this line, as one of its script.
fn expression_fault(line: usize, fault: EreFault) -> CompileFault
    ensures { result ≡ expression_fault line fault }
{
    match fault {
        EreFault::NoMemory => CompileFault::NoMemory,
        fault => CompileFault::Ere(line, fault),
    }
}

/// Refuses an ERE that has no tree, or one past the limits.
fn check_expression(alloc: Global, token: &Token<'_>) -> Result<(), CompileFault>
    ensures fine { OnOk result (IsFine (spelled token.now)) }
    ensures bad { IfErr result (IsBadAs (spelled token.now)) }
{
    if !is_ere(token.kind) {
        return Ok(());
    }
    if let Err(fault) = read_ere(alloc, between(token.text)) {
        return Err(expression_fault(token.line, fault));
    }
    Ok(())
}

/// Refuses the first ERE of a script that has no tree, or one past the limits.
#[tactic(auto, using(crate::proofs::FirstBad::fine_next, crate::proofs::FirstBad::bad_next))]
pub(crate) fn check_expressions(alloc: Global, tokens: &[Token<'_>]) -> Result<(), CompileFault>
    ensures fine { OnOk result (AreFine (map spelled tokens.now)) }
    ensures bad { IfErr result (HasBad (map spelled tokens.now)) }
{
    for token in tokens {
        check_expression(alloc, token)?;
    }
    Ok(())
}
