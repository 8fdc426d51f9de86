//! The code of statements.

ghost use Rattle.std.specs.Prelude.{◌≡◌, ℕ, List, None, true};
ghost use Rattle.awk_grammar.specs.View.{view as tree, views as trees};
ghost use Rattle.awk_grammar.specs.ViewStmt.{view_args, view_jump, view_leaving, view_maybe, view_maybe_simple, view_simple, view_stmt as tree_stmt, view_stmts as tree_stmts, view_target as tree_target, view_word};
ghost use Rattle.awk_grammar.specs.Trees.{Jumping, Leave};
ghost use Rattle.sem_primitives.specs.declared.table.Primitive.TheVariants as row;
ghost use Rattle.mid_program.specs.Mid as plain;
ghost use Rattle.sem_scripts.specs.Names as names;
ghost use Rattle.sem_scripts.specs.Names.{array_of, variable_of};
ghost use Rattle.sem_scripts.specs.Statements.{destination_of, listed_of, operands_of, with_target};
ghost use Rattle.mid_program.specs.Translation.{code_of, codes_of, maybe_step, moved, plain_step, step_code, steps_code, store_variable_code, test_code};
ghost use Rattle.mid_program.specs.ViewCode.{followed, view, view_step, view_steps, views};
ghost use Rattle.mid_code.specs.Leaving.{left_with};
ghost use Rattle.mid_code.specs.Made.{Makes, MakesOperands, MakesStep, MakesSteps};
ghost use Rattle.mid_code.specs.ViewScope.{scope_of, texts_of};

use crate::build::{applied, over, record, store_variable};
use crate::compound::{host_array, host_whole};
use crate::expression::{code, key, push_operands};
use crate::fallible::{all_three, both, in_box, pair, push, push_made, single};
use crate::scope::Scope;
use awk_grammar::{Expr, Jump, Leaving, PrintArgs, PrintTarget, PrintWord, SimpleStmt, Stmt};
use mid_program::{Code, Operand, Operation, Step};
use sem_primitives::{Destination, Listed, Primitive};
use std::alloc::{AllocError, Global};

/// Where a print statement writes to.
fn destination_of(target: &PrintTarget) -> Destination
    ensures { result ≡ destination_of (tree_target target.now) }
{
    match target {
        PrintTarget::Output => Destination::Standard,
        PrintTarget::File(_) => Destination::Emptied,
        PrintTarget::FileEnd(_) => Destination::Appended,
    }
}

/// What the host does with the values of a print statement.
fn listed_of(word: PrintWord, destination: Destination) -> Listed
    ensures { result ≡ listed_of (view_word word) destination }
{
    match word {
        PrintWord::Print => Listed::Print(destination),
        PrintWord::Printf => Listed::Printf(destination),
    }
}

/// One operand.
fn one_operand(alloc: Global, code: Result<Code, AllocError>) -> Result<Vec<Operand>, AllocError>
    ensures { (e : plain.Code) → Makes code e → MakesOperands result (plain.At e plain.End) }
{
    single(alloc, Operand::Code(code?))
}

/// Operands and one more.
#[tactic(auto, using(crate::proofs::Views::views_push))]
fn with_last(
    operands: Result<Vec<Operand>, AllocError>,
    code: Result<Code, AllocError>,
) -> Result<Vec<Operand>, AllocError>
    ensures { (es : plain.Codes) (e : plain.Code) → MakesOperands operands es → Makes code e
        → MakesOperands result (followed es (plain.At e plain.End)) }
{
    let (mut operands, code) = both(operands, code)?;
    push(&mut operands, Operand::Code(code))?;
    Ok(operands)
}

/// Operands, and the code of others after them.
fn followed_by(
    scope: &Scope<'_>,
    first: Result<Vec<Operand>, AllocError>,
    others: &[Expr],
) -> Result<Vec<Operand>, AllocError>
    ensures { (es : plain.Codes) → MakesOperands first es → MakesOperands result (followed es
        (codes_of (texts_of scope.now) (scope_of scope.now) (trees others.now))) }
{
    let mut codes = first?;
    push_operands(scope, others, &mut codes)?;
    Ok(codes)
}

/// The values of a print statement; without any it is the record.
fn values(scope: &Scope<'_>, args: &PrintArgs) -> Result<Vec<Operand>, AllocError>
    ensures { MakesOperands result (codes_of (texts_of scope.now) (scope_of scope.now)
        (operands_of (view_args args.now))) }
{
    match args {
        PrintArgs::Bare => one_operand(scope.alloc, record(scope.alloc)),
        PrintArgs::Listed(es) => followed_by(scope, Ok(Vec::new(scope.alloc)), es),
        PrintArgs::Enclosed(first, others) => {
            let first = one_operand(scope.alloc, code(scope, first));
            followed_by(scope, first, others)
        }
    }
}

/// The same, with the target as the last one.
fn printed(
    scope: &Scope<'_>,
    args: &PrintArgs,
    target: &PrintTarget,
) -> Result<Vec<Operand>, AllocError>
    ensures { MakesOperands result (codes_of (texts_of scope.now) (scope_of scope.now)
        (with_target (operands_of (view_args args.now)) (tree_target target.now))) }
{
    let codes = values(scope, args);
    match target {
        PrintTarget::Output => codes,
        PrintTarget::File(file) | PrintTarget::FileEnd(file) => {
            with_last(codes, code(scope, file))
        }
    }
}

/// The code of what is printed.
pub(crate) fn listed(
    listed: Listed,
    operands: Result<Vec<Operand>, AllocError>,
) -> Result<Code, AllocError>
    ensures { (es : plain.Codes) → MakesOperands operands es → Makes result (plain.Over listed es) }
{
    Ok(over(listed, operands?))
}

/// Code whose answer is let go.
pub(crate) fn evaluated(code: Result<Code, AllocError>) -> Result<Step, AllocError>
    ensures { (e : plain.Code) → Makes code e → MakesStep result (plain.Eval e) }
{
    Ok(Step::Eval(code?))
}

/// The code of a simple statement.
fn simple(scope: &Scope<'_>, s: &SimpleStmt) -> Result<Step, AllocError>
    ensures { MakesStep result (plain_step (texts_of scope.now) (scope_of scope.now) (view_simple
        s.now)) }
{
    match s {
        SimpleStmt::Eval(e) => evaluated(code(scope, e)),
        SimpleStmt::Print(word, args, target) => {
            let word = listed_of(*word, destination_of(target));
            evaluated(listed(word, printed(scope, args, target)))
        }
        SimpleStmt::Delete(name, subscripts) => {
            let key = key(scope, subscripts);
            evaluated(host_array(scope, Primitive::Delete, name, key))
        }
        SimpleStmt::Clear(name) => evaluated(host_whole(scope, Primitive::Clear, name)),
    }
}

/// Steps one after the other.
pub(crate) fn block(steps: Result<Vec<Step>, AllocError>) -> Result<Step, AllocError>
    ensures { (ss : plain.Steps) → MakesSteps steps ss → MakesStep result (plain.Block ss) }
{
    Ok(Step::Block(steps?))
}

/// One step after the other.
pub(crate) fn in_turn(
    alloc: Global,
    first: Result<Step, AllocError>,
    second: Result<Step, AllocError>,
) -> Result<Step, AllocError>
    ensures { (s t : plain.Step) → MakesStep first s → MakesStep second t
        → MakesStep result (plain.Block (plain.Then s (plain.Then t plain.NoStep))) }
{
    let (first, second) = both(first, second)?;
    block(pair(alloc, first, second))
}

/// What does nothing.
#[tactic(auto, using(crate::proofs::Views::view_block))]
pub(crate) fn nothing(alloc: Global) -> Step
    ensures { view_step result ≡ plain.Block plain.NoStep }
{
    Step::Block(Vec::new(alloc))
}

/// The code of a simple statement, if there is one.
fn optional_simple(scope: &Scope<'_>, s: &Option<SimpleStmt>) -> Result<Step, AllocError>
    ensures { MakesStep result (maybe_step (texts_of scope.now) (scope_of scope.now)
        (view_maybe_simple s.now)) }
{
    match s {
        None => Ok(nothing(scope.alloc)),
        Some(s) => simple(scope, s),
    }
}

/// The code of a test, which holds where it is left out.
fn test(scope: &Scope<'_>, e: &Option<Expr>) -> Result<Code, AllocError>
    ensures { Makes result (test_code (texts_of scope.now) (scope_of scope.now) (view_maybe
        e.now)) }
{
    match e {
        None => Ok(Code::Number(1)),
        Some(e) => code(scope, e),
    }
}

/// One of two steps, by the truth of a test.
pub(crate) fn branches(
    alloc: Global,
    test: Result<Code, AllocError>,
    yes: Result<Step, AllocError>,
    no: Result<Step, AllocError>,
) -> Result<Step, AllocError>
    ensures { (e : plain.Code) (s t : plain.Step) → Makes test e → MakesStep yes s
        → MakesStep no t → MakesStep result (plain.If e s t) }
{
    let (yes, no) = (in_box(alloc, yes), in_box(alloc, no));
    let (test, yes, no) = all_three(test, yes, no)?;
    Ok(Step::If(test, yes, no))
}

/// What is done where a test holds.
pub(crate) fn done_where(
    alloc: Global,
    test: Result<Code, AllocError>,
    done: Result<Step, AllocError>,
) -> Result<Step, AllocError>
    ensures { (e : plain.Code) (s : plain.Step) → Makes test e → MakesStep done s
        → MakesStep result (plain.If e s (plain.Block plain.NoStep)) }
{
    branches(alloc, test, done, Ok(nothing(alloc)))
}

/// The rounds of a loop, whose test comes first or after its body.
fn rounds(
    alloc: Global,
    first: bool,
    test: Result<Code, AllocError>,
    body: Result<Step, AllocError>,
    next: Result<Step, AllocError>,
) -> Result<Step, AllocError>
    ensures { (e : plain.Code) (s t : plain.Step) → Makes test e → MakesStep body s
        → MakesStep next t → MakesStep result (plain.Loop first e s t) }
{
    let (body, next) = (in_box(alloc, body), in_box(alloc, next));
    let (test, body, next) = all_three(test, body, next)?;
    Ok(Step::Loop(first, test, body, next))
}

/// The rest of what is being read is given up, and then the record is left.
#[tactic(auto, using(crate::proofs::Views::view_block))]
fn next_file(alloc: Global) -> Result<Step, AllocError>
    ensures { MakesStep result (plain.Block (plain.Then (plain.Eval (plain.Do (Operation.Host
        row.NextFile) plain.End)) (plain.Then plain.Next plain.NoStep))) }
{
    let rest = applied(Operation::Host(Primitive::NextFile), Vec::new(alloc));
    Ok(Step::Block(pair(alloc, Step::Eval(rest), Step::Next)?))
}

#[tactic(auto, unfolding(mid_program::specs::Translation::step_code))]
fn jump(alloc: Global, jump: Jump) -> Result<Step, AllocError>
    ensures { (texts : List (List ℕ)) (scope : names.Scope)
        → MakesStep result (step_code texts scope (Jumping (view_jump jump))) }
{
    match jump {
        Jump::Break => Ok(Step::Break),
        Jump::Continue => Ok(Step::Continue),
        Jump::Next => Ok(Step::Next),
        Jump::NextFile => next_file(alloc),
    }
}

/// The code of `exit` and `return` with a value.
fn leave_with(leaving: Leaving, code: Result<Code, AllocError>) -> Result<Step, AllocError>
    ensures { (e : plain.Code) → Makes code e → MakesStep result (left_with leaving e) }
{
    let code = code?;
    match leaving {
        Leaving::Exit => Ok(Step::ExitWith(code)),
        Leaving::Return => Ok(Step::Return(code)),
    }
}

/// The code of `exit` and `return` without a value.
#[tactic(auto, unfolding(mid_program::specs::Translation::step_code))]
fn leave_bare(leaving: Leaving) -> Step
    ensures { (texts : List (List ℕ)) (scope : names.Scope)
        → view_step result ≡ step_code texts scope (Leave (view_leaving leaving) None) }
{
    match leaving {
        Leaving::Exit => Step::Exit,
        Leaving::Return => Step::Return(Code::Unset),
    }
}

/// The code of `exit` and `return`.
fn leave(scope: &Scope<'_>, leaving: Leaving, e: &Option<Expr>) -> Result<Step, AllocError>
    ensures { MakesStep result (step_code (texts_of scope.now) (scope_of scope.now) (Leave
        (view_leaving leaving) (view_maybe e.now))) }
{
    match e {
        None => Ok(leave_bare(leaving)),
        Some(e) => leave_with(leaving, code(scope, e)),
    }
}

/// The code of `for`, where its body has its code.
fn counted(
    scope: &Scope<'_>,
    first: &Option<SimpleStmt>,
    condition: &Option<Expr>,
    next: &Option<SimpleStmt>,
    body: Result<Step, AllocError>,
) -> Result<Step, AllocError>
    ensures { (s : plain.Step) → MakesStep body s → MakesStep result (plain.Block (plain.Then
        (maybe_step (texts_of scope.now) (scope_of scope.now) (view_maybe_simple first.now))
        (plain.Then (plain.Loop true (test_code (texts_of scope.now) (scope_of scope.now)
        (view_maybe condition.now)) s (maybe_step (texts_of scope.now) (scope_of scope.now)
        (view_maybe_simple next.now))) plain.NoStep))) }
{
    let test = test(scope, condition);
    let next = optional_simple(scope, next);
    let rounds = rounds(scope.alloc, true, test, body, next);
    in_turn(scope.alloc, optional_simple(scope, first), rounds)
}

/// The code of `for (key in array)`, where its body has its code.
fn walked(
    scope: &Scope<'_>,
    name: &[u8],
    array: &[u8],
    body: Result<Step, AllocError>,
) -> Result<Step, AllocError>
    ensures { (s : plain.Step) → MakesStep body s → MakesStep result (plain.Each (array_of (scope_of
        scope.now) array.now) (store_variable_code (variable_of (scope_of scope.now) name.now)
        (moved 0)) s) }
{
    let array = scope.array(array);
    let store = store_variable(scope.alloc, scope.variable(name), Code::Bound(true, 0));
    let (store, body) = both(store, in_box(scope.alloc, body))?;
    Ok(Step::Each(array, store, body))
}

/// The code of a statement.
#[cycle(statements)]
#[tactic(auto, unfolding(mid_program::specs::Translation::step_code))]
fn step(scope: &Scope<'_>, s: &Stmt) -> Result<Step, AllocError>
    ensures { MakesStep result (step_code (texts_of scope.now) (scope_of scope.now) (tree_stmt
        s.now)) }
{
    let alloc = scope.alloc;
    match s {
        Stmt::Block(body) => block(steps(scope, body)),
        Stmt::Empty => Ok(nothing(alloc)),
        Stmt::Simple(s) => simple(scope, s),
        Stmt::If(test, yes) => done_where(alloc, code(scope, test), step(scope, yes)),
        Stmt::IfElse(test, yes, no) => {
            let yes = step(scope, yes);
            branches(alloc, code(scope, test), yes, step(scope, no))
        }
        Stmt::While(test, body) => {
            let body = step(scope, body);
            rounds(alloc, true, code(scope, test), body, Ok(nothing(alloc)))
        }
        Stmt::Do(body, test) => {
            let body = step(scope, body);
            rounds(alloc, false, code(scope, test), body, Ok(nothing(alloc)))
        }
        Stmt::For(first, condition, next, body) => {
            counted(scope, first, condition, next, step(scope, body))
        }
        Stmt::ForIn(key, array, body) => walked(scope, key, array, step(scope, body)),
        Stmt::Jump(jumping) => jump(alloc, *jumping),
        Stmt::Leave(leaving, e) => leave(scope, *leaving, e),
    }
}

/// The code of statements.
#[cycle(statements)]
#[tactic(auto, unfolding(mid_program::specs::Translation::steps_code))]
pub(crate) fn steps(scope: &Scope<'_>, body: &[Stmt]) -> Result<Vec<Step>, AllocError>
    ensures { MakesSteps result (steps_code (texts_of scope.now) (scope_of scope.now) (tree_stmts
        body.now)) }
{
    let mut found = Vec::new(scope.alloc);
    for s in body {
        push_made(&mut found, step(scope, s))?;
    }
    Ok(found)
}
