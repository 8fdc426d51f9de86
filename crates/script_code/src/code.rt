//! From a script's tree to its code, and from its bytes.
ghost use Rattle.std.specs.Prelude.{◌≡◌, List, map, IfOk, IfErr};
ghost use Rattle.script_code.specs.Coded.{HasTokens, IsCodeOf, IsFineScript, IsPlainCodeOf, IsUnboxed};
ghost use Rattle.script_code.specs.Refusals.{HasNoCode, IsNotCoded};
ghost use Rattle.run_report.specs.declared.compile_fault.CompileFault.TheVariants.{NoMemory};
ghost use Rattle.awk_tokens.specs.Views.{spelled};
ghost use Rattle.awk_grammar.specs.ViewStmt.{view_script};
ghost use Rattle.mid_program.specs.View.{view_mid};

use crate::translation_laws::parsed_scripts_are_placed;
use crate::tree::tree_of;
use awk_grammar::Script;
use awk_resolve::resolve;
use awk_tokens::{Token, tokens};
use folding::fold;
use mid_code::to_mid;
use mid_program::Mid;
use run_report::CompileFault;
use std::alloc::Global;
use value_kinds::lane_laws::found_lanes_leave_sorted;
use value_kinds::{apply, infer};

/// How many bytes a script has at most.
pub const MAX_SCRIPT_BYTES: usize = 1 << 20;

/// The code of a script as it is written.
fn plain_code(alloc: Global, tokens: &[Token<'_>], script: &Script) -> Result<Mid, CompileFault>
    requires { IsFineScript (map spelled tokens.now) (view_script script.now) }
    ensures ok { IfOk result (λ mid. IsPlainCodeOf (map spelled tokens.now) (view_mid mid)) }
    ensures err { IfErr result (HasNoCode (map spelled tokens.now)) }
{
    let resolved = resolve(alloc, script)?;
    match to_mid(alloc, &resolved) {
        Ok(mid) => Ok(mid),
        Err(_) => Err(CompileFault::NoMemory),
    }
}

/// The code with constant parts computed and names of numbers unboxed.
fn unboxed(alloc: Global, mid: Mid) -> Result<Mid, CompileFault>
    ensures ok { IfOk result (λ new. IsUnboxed (view_mid mid) (view_mid new)) }
    ensures err { IfErr result (λ fault. fault ≡ NoMemory) }
{
    found_lanes_leave_sorted();
    let mid = match fold(mid) {
        Ok(mid) => mid,
        Err(_) => return Err(CompileFault::NoMemory),
    };
    let lanes = match infer(alloc, &mid) {
        Ok(lanes) => lanes,
        Err(_) => return Err(CompileFault::NoMemory),
    };
    match apply(mid, &lanes) {
        Ok(mid) => Ok(mid),
        Err(_) => Err(CompileFault::NoMemory),
    }
}

/// The code of the script that these tokens are.
fn code_of_tokens(alloc: Global, tokens: &[Token<'_>]) -> Result<Mid, CompileFault>
    ensures ok { IfOk result (λ mid. IsCodeOf (map spelled tokens.now) (view_mid mid)) }
    ensures err { IfErr result (HasNoCode (map spelled tokens.now)) }
{
    parsed_scripts_are_placed();
    let script = tree_of(alloc, tokens)?;
    let mid = plain_code(alloc, tokens, &script)?;
    unboxed(alloc, mid)
}

/// The code of a script (POSIX.1-2017 awk, in the profile of this project), from its bytes: mid code that ends as the script does, in which constant parts
/// are computed and names that hold numbers, or copies of such names, are unboxed.
///
/// # Errors
///
/// The first of these that there is. [`CompileFault::TooLarge`] of a script past 1,048,576 bytes. [`CompileFault::Token`] of bytes that are not cut
/// into tokens. [`CompileFault::Parse`] of tokens without a script, or with one in which something is left out or misplaced. [`CompileFault::Ere`]
/// where a constant regular expression has no tree, or one past the limits: the first by its place. [`CompileFault::Resolve`] where a name is refused.
/// [`CompileFault::NoMemory`] where memory was wanting, in place of any answer.
#[tactic(auto, using(crate::proofs::Codes::no_tokens, crate::proofs::Codes::no_code))]
pub fn code_of(alloc: Global, script: &[u8]) -> Result<Mid, CompileFault>
    ensures coded { IfOk result
        (λ mid. HasTokens script.now (λ tokens. IsCodeOf tokens (view_mid mid))) }
    ensures refused { IfErr result (IsNotCoded script.now) }
{
    if script.len() > MAX_SCRIPT_BYTES {
        return Err(CompileFault::TooLarge);
    }
    let tokens = tokens(alloc, script)?;
    code_of_tokens(alloc, &tokens)
}
