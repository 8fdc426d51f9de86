//! All that is found in a script.

ghost use Rattle.std.specs.Prelude.{◌≡◌, ◌<◌, IfOk, OnOk, length, map, option_map, slice_get};
ghost use Rattle.awk_grammar.specs.ViewStmt.{view_script};
ghost use Rattle.awk_resolve.specs.ViewKinds.{view_name_kinds};
ghost use Rattle.awk_tokens.specs.Cutting.{IsTokens};
ghost use Rattle.awk_tokens.specs.Views.{spelled};
ghost use Rattle.script_check.specs.Findings.{AreFound, AreOfTree, is_refusal, is_stream, is_stream_text, is_text, is_wanted, is_write, matter_found, matter_in, matters_found, names_found, stream_found, streams_found, uses_found};
ghost use Rattle.script_check.specs.Layout.{use_found, view_text};
ghost use Rattle.script_check.specs.Remarks.{Gains, matter_remark, view_finding, view_findings};

use crate::finding::{Finding, Said, push_found, said_of};
use crate::judged::matters;
use crate::matter::Matter;
use crate::places::{renumbered, starts, told};
use crate::refused::{eres_of, push_refused};
use crate::text::{Text, found_at, kind_at, text_at, use_place};
use crate::troubles::push_refusal;
use crate::uncut::uncut_found;
use crate::uses::Use;
use crate::walk_stmt::uses_of;
use awk_grammar::Script;
use awk_parse::parse;
use awk_resolve::{NameKind, ResolveFault, resolve};
use awk_tokens::{Punctuator, Token, TokenFault, TokenKind, tokens};
use std::alloc::{AllocError, Global};

/// Whether what is said of a use is a refusal.
fn is_refusal(matter: Matter) -> bool
    ensures { result ≡ is_refusal matter }
{
    matches!(matter, Matter::UnknownFunction | Matter::ArgCount)
}

/// Whether it is a refusal, where those are wanted, or else a slip.
fn is_wanted(refusals: bool, matter: Matter) -> bool
    ensures { result ≡ is_wanted refusals matter }
{
    if refusals {
        is_refusal(matter)
    } else {
        !is_refusal(matter)
    }
}

/// What is found at a use, by its number.
fn matter_at<'a>(text: &Text<'_, 'a>, at: usize, matter: Matter) -> Option<Finding<'a>>
    ensures { option_map view_finding result
        ≡ use_found (view_text text.now) at (matter_remark matter) }
{
    let place = use_place(text, at)?;
    Some(found_at(text, place.number, said_of(matter, place.name)))
}

/// What is found at a use, if it is wanted.
fn matter_found<'a>(
    text: &Text<'_, 'a>,
    refusals: bool,
    at: usize,
    matter: Option<Matter>,
) -> Option<Finding<'a>>
    ensures { option_map view_finding result
        ≡ matter_found (view_text text.now) refusals at matter }
{
    let matter = matter?;
    if is_wanted(refusals, matter) {
        matter_at(text, at, matter)
    } else {
        None
    }
}

/// What is to be said of the use of this number.
fn matter_in(found: &[Option<Matter>], at: usize) -> Option<Matter>
    ensures { result ≡ matter_in (slice_get found.now at) }
{
    if at < found.len() { found[at] } else { None }
}

/// Adds what is found at the uses: the refusals, or the slips.
fn push_matters<'a>(
    out: &mut Vec<Finding<'a>>,
    text: &Text<'_, 'a>,
    refusals: bool,
    found: &[Option<Matter>],
) -> Result<(), AllocError>
    ensures { OnOk result (Gains out.old.items out.new.items
        (matters_found (view_text text.now) refusals found.now)) }
{
    for at in 0..found.len() {
        push_found(out, matter_found(text, refusals, at, matter_in(found, at)))?;
    }
    Ok(())
}

/// Adds what is found at the uses, first the refusals.
fn push_uses<'a>(
    out: &mut Vec<Finding<'a>>,
    alloc: Global,
    text: &Text<'_, 'a>,
    script: &Script,
    uses: &[Use<'_>],
    globals: &[NameKind<'_>],
) -> Result<(), AllocError>
    ensures { OnOk result (Gains out.old.items out.new.items (uses_found (view_text text.now)
        (view_script script.now) uses.now (view_name_kinds globals.now))) }
{
    let found = matters(alloc, script, globals, uses)?;
    push_matters(out, text, true, &found)?;
    push_matters(out, text, false, &found)
}

/// Adds what is found at names.
fn push_names<'a>(
    out: &mut Vec<Finding<'a>>,
    alloc: Global,
    text: &Text<'_, 'a>,
    script: &Script,
    uses: &[Use<'_>],
) -> Result<(), AllocError>
    ensures { OnOk result (Gains out.old.items out.new.items
        (names_found (view_text text.now) (view_script script.now) uses.now)) }
{
    match resolve(alloc, script) {
        Ok(names) => push_uses(out, alloc, text, script, uses, &names.globals),
        Err(ResolveFault::NoMemory) => Err(AllocError),
        Err(fault) => {
            push_refusal(out, text, script, uses, &fault)?;
            push_uses(out, alloc, text, script, uses, &[])
        }
    }
}

fn is_write(kind: Option<TokenKind>) -> bool
    ensures { result ≡ is_write kind }
{
    matches!(kind, Some(TokenKind::Punctuator(Punctuator::Greater)))
}

fn is_text(kind: Option<TokenKind>) -> bool
    ensures { result ≡ is_text kind }
{
    matches!(kind, Some(TokenKind::Str))
}

/// Whether a text names a stream.
fn is_stream_text(text: &[u8]) -> bool
    ensures { result ≡ is_stream_text text.now }
{
    text == "\"/dev/stderr\"".as_bytes() || text == "\"/dev/stdout\"".as_bytes()
}

/// Whether the name of a stream stands behind a `>`, which is the token of this number.
fn is_stream(tokens: &[Token<'_>], number: usize) -> bool
    requires { number < length tokens.now }
    ensures { result ≡ is_stream tokens.now number }
{
    is_write(kind_at(tokens, number))
        && is_text(kind_at(tokens, number + 1))
        && is_stream_text(text_at(tokens, number + 1))
}

/// What is found at the name of a stream behind a `>`.
fn stream_found<'a>(text: &Text<'_, 'a>, number: usize) -> Option<Finding<'a>>
    requires { number < length text.now.tokens.now }
    ensures { option_map view_finding result ≡ stream_found (view_text text.now) number }
{
    if !is_stream(text.tokens, number) {
        return None;
    }
    let said = Said::warning(
        text_at(text.tokens, number + 1),
        "names a file without --streams, and > empties it",
    );
    Some(found_at(text, number + 1, said))
}

/// Adds what is found at each name of a stream behind a `>`.
fn push_streams<'a>(out: &mut Vec<Finding<'a>>, text: &Text<'_, 'a>) -> Result<(), AllocError>
    ensures { OnOk result (Gains out.old.items out.new.items (streams_found (view_text text.now))) }
{
    for number in 0..text.tokens.len() {
        push_found(out, stream_found(text, number))?;
    }
    Ok(())
}

/// All that is found in a script that has a tree.
fn of_tree<'a>(
    alloc: Global,
    text: &Text<'_, 'a>,
    script: &Script,
) -> Result<Vec<Finding<'a>>, AllocError>
    ensures { IfOk result (λ found.
        AreOfTree (view_text text.now) (view_script script.now) (view_findings found.items)) }
{
    let mut out = eres_of(alloc, text)?;
    let uses = uses_of(alloc, script)?;
    push_names(&mut out, alloc, text, script, &uses)?;
    push_streams(&mut out, text)?;
    Ok(out)
}

/// All that is found in a script that is cut into tokens.
fn of_tokens<'a>(
    alloc: Global,
    script: &[u8],
    tokens: &[Token<'a>],
) -> Result<Vec<Finding<'a>>, AllocError>
    ensures { IsTokens script.now (Ok (map spelled tokens.now))
        → IfOk result (λ found. AreFound script.now (view_findings found.items)) }
{
    let starts = starts(alloc, script, tokens)?;
    let told = told(alloc, tokens)?;
    let numbered = renumbered(alloc, tokens)?;
    let text = Text {
        size: script.len(),
        tokens,
        starts: &starts,
        told: &told,
    };
    match parse(alloc, &numbered) {
        Ok(script) => of_tree(alloc, &text, &script),
        Err(fault) => {
            let mut out = Vec::new(alloc);
            push_refused(&mut out, alloc, &text, fault)?;
            Ok(out)
        }
    }
}

/// All that is found in a script that is not cut into tokens.
fn of_uncut<'a>(
    alloc: Global,
    script: &[u8],
    fault: TokenFault,
) -> Result<Vec<Finding<'a>>, AllocError>
    ensures { IsTokens script.now (Err fault)
        → IfOk result (λ found. AreFound script.now (view_findings found.items)) }
{
    let found = uncut_found(alloc, script, fault)?;
    let mut out = Vec::new(alloc);
    out.push(found)?;
    Ok(out)
}

/// All that is found in a script, with the place of each: of a script that has a tree, first each regular expression that is refused; then what a refusal for a
/// name means, each call that is refused, and what looks like a slip, in the order of uses; then each `>` to a stream's name. Of tokens that have no tree, where
/// reading stopped, or each token that is refused by itself. Of a script that has no tokens, where the cutting stops.
///
/// # Errors
///
/// Where memory is wanting.
pub fn findings_of<'a>(alloc: Global, script: &'a [u8]) -> Result<Vec<Finding<'a>>, AllocError>
    ensures { IfOk result (λ found. AreFound script.now (view_findings found.items)) }
{
    match tokens(alloc, script) {
        Ok(tokens) => of_tokens(alloc, script, &tokens),
        Err(TokenFault::NoMemory) => Err(AllocError),
        Err(fault) => of_uncut(alloc, script, fault),
    }
}
