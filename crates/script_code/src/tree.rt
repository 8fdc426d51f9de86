//! From a script's tokens to its tree.
ghost use Rattle.std.specs.Prelude.{List, map, IfOk, IfErr};
ghost use Rattle.script_code.specs.Coded.{IsFineScript};
ghost use Rattle.script_code.specs.Refusals.{HasNoCode};
ghost use Rattle.awk_tokens.specs.Views.{spelled};
ghost use Rattle.awk_grammar.specs.ViewStmt.{view_script};

use crate::expressions::check_expressions;
use awk_grammar::Script;
use awk_parse::parse;
use awk_tokens::Token;
use run_report::CompileFault;
use std::alloc::Global;

/// The script that these tokens are, whose constant expressions have trees.
#[tactic(auto, using(crate::proofs::Scripts::no_script, crate::proofs::Scripts::bad_expression))]
pub(crate) fn tree_of(alloc: Global, tokens: &[Token<'_>]) -> Result<Script, CompileFault>
    ensures ok { IfOk result (λ s. IsFineScript (map spelled tokens.now) (view_script s)) }
    ensures err { IfErr result (HasNoCode (map spelled tokens.now)) }
{
    let script = parse(alloc, tokens)?;
    check_expressions(alloc, tokens)?;
    Ok(script)
}
