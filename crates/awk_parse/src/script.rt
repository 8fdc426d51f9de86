//! Scripts from tokens.

ghost use Rattle.std.specs.Prelude.{◌≡◌, IfOk, IfErr, IfSome, MatchResult, List, map};
ghost use Rattle.awk_tokens.specs.Views.{spelled};
ghost use Rattle.awk_grammar.specs.Trees.{Item, most_depth};
ghost use Rattle.awk_grammar.specs.ReadItem.{script_at};
ghost use Rattle.awk_grammar.specs.ViewStmt.{view_script};
ghost use Rattle.awk_parse.specs.Seen.{seen, Gives};
ghost use Rattle.awk_parse.specs.Parsing.{IsParsed, IsRefused};
ghost use Rattle.awk_parse.specs.declared.fault.ParseFault.TheVariants.{NoMemory};

use crate::fault::ParseFault;
use crate::item::items;
use crate::placed::misplaced;
use crate::refusal::Refusal;
use crate::scan::scan;
use awk_grammar::Script;
use awk_tokens::Token;
use std::alloc::Global;

/// The tree of a script, jumps aside.
fn tree(alloc: Global, tokens: &[Token<'_>]) -> Result<Script, Refusal>
    ensures { Gives view_script result (script_at most_depth (seen tokens.now)) }
{
    Ok(Script {
        items: items(alloc, tokens)?,
    })
}

/// The line of a place among the tokens; behind them it is that of the last, or 1 where there is none.
fn line_at(place: Option<usize>, tokens: &[Token<'_>]) -> usize
    ensures { IfSome place (λ line. result ≡ line) }
{
    match (place, tokens.last()) {
        (Some(line), _) => line,
        (None, Some(last)) => last.line,
        (None, None) => 1,
    }
}

/// The one well-formed script, of depth at most 1,000, that has these tokens (POSIX.1-2017 awk, "Grammar", in the profile of this project).
///
/// # Errors
///
/// In this order: the first token, by its place, that begins something left out ([`ParseFault::LeftOut`]) or is a number that is not whole
/// (`NotWhole`) or outside -2^53 to 2^53 (`ConstantRange`); `Syntax` where the tokens have no script at all, `TooDeep` where they have none
/// within the depth, each with the line of the token at which reading stopped, or of the last; `Misplaced`, with the line of the first `next` or
/// `nextfile` in `BEGIN` or `END`, `break` or `continue` outside a loop, or `return` outside a function; `NoMemory` at any point, and only where memory was
/// refused.
#[tactic(auto, using(crate::proofs::Parsing::refused_by_scan, crate::proofs::Parsing::parsed_of, crate::proofs::Parsing::same_script, crate::proofs::Parsing::no_tree, crate::proofs::Parsing::no_small_tree, crate::proofs::Parsing::is_misplaced, crate::proofs::Parsing::not_parsed, crate::proofs::Parsing::not_scanned, crate::proofs::Parsing::not_placed))]
pub fn parse(alloc: Global, tokens: &[Token<'_>]) -> Result<Script, ParseFault>
    ensures parsed { IfOk result (λ s. IsParsed (map spelled tokens.now) (view_script s)) }
    ensures refused { IfErr result (λ e. IsRefused (map spelled tokens.now) e) }
    ensures found { (script : List Item) → IsParsed (map spelled tokens.now) script
        → MatchResult result (λ s. view_script s ≡ script) (λ e. e ≡ NoMemory) }
{
    if let Some(fault) = scan(tokens) {
        return Err(fault);
    }
    let script = match tree(alloc, tokens) {
        Ok(script) => script,
        Err(Refusal::Syntax(place)) => return Err(ParseFault::Syntax(line_at(place, tokens))),
        Err(Refusal::TooDeep(place)) => return Err(ParseFault::TooDeep(line_at(place, tokens))),
        Err(Refusal::NoMemory) => return Err(ParseFault::NoMemory),
    };
    match misplaced(alloc, &script, tokens) {
        Ok(None) => Ok(script),
        Ok(Some(line)) => Err(ParseFault::Misplaced(line)),
        Err(_) => Err(ParseFault::NoMemory),
    }
}
