//! The texts of a script's constants.

ghost use Rattle.std.specs.Prelude.{◌≡◌, false, [], ◌∷◌, IfOk};
ghost use Rattle.awk_text.specs.Escapes.{between, string_text};
ghost use Rattle.awk_grammar.specs.View.{view as tree, views as trees};
ghost use Rattle.awk_grammar.specs.ViewStmt.{view_args, view_item, view_items, view_maybe, view_maybe_simple, view_pattern, view_script, view_simple, view_stmt, view_stmts, view_target};
ghost use Rattle.awk_resolve.specs.ViewFunctions.{view_functions};
ghost use Rattle.sem_scripts.specs.Kinds.{bodies as bodies_of, with_bodies};
ghost use Rattle.mid_program.specs.Texts.{all_texts, args_texts, functions_texts, item_texts, items_texts, maybe_plain_texts, maybe_texts, pattern_texts, plain_texts, stmt_texts, stmts_texts, target_texts, texts_in, texts_of_script};
ghost use Rattle.mid_program.specs.View.{view_texts};
ghost use Rattle.mid_code.specs.ViewNames.{script_of, view_bodies};
ghost use Rattle.mid_code.specs.ViewTexts.{AddsTexts};

use crate::bodies::body_at;
use crate::peek::ere_text;
use awk_grammar::{Expr, Item, Pattern, PrintArgs, PrintTarget, SimpleStmt, Stmt};
use awk_resolve::{FunctionNames, Resolved};
use awk_text::string_text;
use indexmap::IndexSet;
use std::alloc::{AllocError, Global};

/// The texts that were found, each once, in the order of their first places. Once memory is wanting for one no more are taken: only who asks for all of them
/// learns it.
#[derive(Drop)]
struct Texts {
    alloc: Global,
    found: IndexSet<Vec<u8>>,
    is_refused: bool,
}

impl Texts {
    /// None yet.
    fn new(alloc: Global) -> Self
        ensures { view_texts result.found.keys ≡ [] }
    {
        Texts {
            alloc,
            found: IndexSet::new(alloc),
            is_refused: false,
        }
    }

    /// Adds a text.
    fn put(&mut self, text: Vec<u8>)
        ensures { AddsTexts self.old self.new (text.items ∷ []) }
    {
        if !self.is_refused {
            self.is_refused = self.found.insert(text).is_err();
        }
    }

    /// Adds the text of a string.
    fn put_string(&mut self, quoted: &[u8])
        ensures { AddsTexts self.old self.new (string_text quoted.now ∷ []) }
    {
        match string_text(self.alloc, quoted) {
            Ok(text) => self.put(text),
            Err(_) => self.is_refused = true,
        }
    }

    /// Adds the text of an ERE token.
    fn put_ere(&mut self, token: &[u8])
        ensures { AddsTexts self.old self.new (between token.now ∷ []) }
    {
        match ere_text(token).to_vec(self.alloc) {
            Ok(text) => self.put(text),
            Err(_) => self.is_refused = true,
        }
    }

    /// All of them, unless memory was wanting for one.
    fn all(self) -> Result<IndexSet<Vec<u8>>, AllocError>
        ensures { IfOk result
            (λ found. (self.is_refused ≡ false) × (found.keys ≡ self.found.keys)) }
    {
        if self.is_refused {
            return Err(AllocError);
        }
        Ok(self.found)
    }
}

/// Adds the texts of an expression.
#[cycle(texts)]
#[tactic(auto, using(crate::proofs::TextTables::once_append), unfolding(mid_program::specs::Texts::texts_in))]
fn put_expr(texts: &mut Texts, e: &Expr)
    ensures { AddsTexts texts.old texts.new (texts_in (tree e.now)) }
{
    match e {
        Expr::Str(quoted) => texts.put_string(quoted),
        Expr::Ere(token) => texts.put_ere(token),
        Expr::Number(_) | Expr::Length | Expr::Var(_) | Expr::Getline => {}
        Expr::Element(_, es) => put_all(texts, es),
        Expr::Call(_, es) => put_all(texts, es),
        Expr::Apply(_, es) => put_all(texts, es),
        Expr::Field(e)
        | Expr::Group(e)
        | Expr::Unary(_, e)
        | Expr::PreStep(_, e)
        | Expr::PostStep(_, e)
        | Expr::In(e, _)
        | Expr::GetlineInto(e)
        | Expr::GetlineFrom(e) => put_expr(texts, e),
        Expr::Binary(_, a, b) | Expr::Assign(_, a, b) | Expr::GetlineIntoFrom(a, b) => {
            put_expr(texts, a);
            put_expr(texts, b);
        }
        Expr::InList(e, es, _) => {
            put_expr(texts, e);
            put_all(texts, es);
        }
        Expr::Conditional(a, b, c) => {
            put_expr(texts, a);
            put_expr(texts, b);
            put_expr(texts, c);
        }
    }
}

/// Adds the texts of expressions.
#[cycle(texts)]
#[tactic(auto, using(crate::proofs::TextTables::once_append), unfolding(mid_program::specs::Texts::all_texts))]
fn put_all(texts: &mut Texts, es: &[Expr])
    ensures { AddsTexts texts.old texts.new (all_texts (trees es.now)) }
{
    for e in es {
        put_expr(texts, e);
    }
}

#[tactic(auto, using(crate::proofs::TextTables::once_append))]
fn put_args(texts: &mut Texts, args: &PrintArgs)
    ensures { AddsTexts texts.old texts.new (args_texts (view_args args.now)) }
{
    match args {
        PrintArgs::Bare => {}
        PrintArgs::Listed(es) => put_all(texts, es),
        PrintArgs::Enclosed(first, others) => {
            put_expr(texts, first);
            put_all(texts, others);
        }
    }
}

fn put_target(texts: &mut Texts, target: &PrintTarget)
    ensures { AddsTexts texts.old texts.new (target_texts (view_target target.now)) }
{
    match target {
        PrintTarget::Output => {}
        PrintTarget::File(e) | PrintTarget::FileEnd(e) => put_expr(texts, e),
    }
}

#[tactic(auto, using(crate::proofs::TextTables::once_append))]
fn put_simple(texts: &mut Texts, simple: &SimpleStmt)
    ensures { AddsTexts texts.old texts.new (plain_texts (view_simple simple.now)) }
{
    match simple {
        SimpleStmt::Eval(e) => put_expr(texts, e),
        SimpleStmt::Print(_, args, target) => {
            put_args(texts, args);
            put_target(texts, target);
        }
        SimpleStmt::Delete(_, subscripts) => put_all(texts, subscripts),
        SimpleStmt::Clear(_) => {}
    }
}

fn put_optional(texts: &mut Texts, e: &Option<Expr>)
    ensures { AddsTexts texts.old texts.new (maybe_texts (view_maybe e.now)) }
{
    match e {
        None => {}
        Some(e) => put_expr(texts, e),
    }
}

fn put_optional_simple(texts: &mut Texts, simple: &Option<SimpleStmt>)
    ensures { AddsTexts texts.old texts.new (maybe_plain_texts (view_maybe_simple simple.now)) }
{
    match simple {
        None => {}
        Some(simple) => put_simple(texts, simple),
    }
}

/// Adds the texts of a statement.
#[cycle(stmt_texts)]
#[tactic(auto, using(crate::proofs::TextTables::once_append), unfolding(mid_program::specs::Texts::stmt_texts))]
fn put_stmt(texts: &mut Texts, s: &Stmt)
    ensures { AddsTexts texts.old texts.new (stmt_texts (view_stmt s.now)) }
{
    match s {
        Stmt::Block(body) => put_stmts(texts, body),
        Stmt::Empty | Stmt::Jump(_) => {}
        Stmt::Simple(simple) => put_simple(texts, simple),
        Stmt::If(c, s) | Stmt::While(c, s) => {
            put_expr(texts, c);
            put_stmt(texts, s);
        }
        Stmt::IfElse(c, s, t) => {
            put_expr(texts, c);
            put_stmt(texts, s);
            put_stmt(texts, t);
        }
        Stmt::Do(s, c) => {
            put_stmt(texts, s);
            put_expr(texts, c);
        }
        Stmt::For(first, c, next, s) => {
            put_optional_simple(texts, first);
            put_optional(texts, c);
            put_optional_simple(texts, next);
            put_stmt(texts, s);
        }
        Stmt::ForIn(_, _, s) => put_stmt(texts, s),
        Stmt::Leave(_, e) => put_optional(texts, e),
    }
}

/// Adds the texts of statements.
#[cycle(stmt_texts)]
#[tactic(auto, using(crate::proofs::TextTables::once_append), unfolding(mid_program::specs::Texts::stmts_texts))]
fn put_stmts(texts: &mut Texts, body: &[Stmt])
    ensures { AddsTexts texts.old texts.new (stmts_texts (view_stmts body.now)) }
{
    for s in body {
        put_stmt(texts, s);
    }
}

#[tactic(auto, using(crate::proofs::TextTables::once_append))]
fn put_pattern(texts: &mut Texts, pattern: &Pattern)
    ensures { AddsTexts texts.old texts.new (pattern_texts (view_pattern pattern.now)) }
{
    match pattern {
        Pattern::One(e) => put_expr(texts, e),
        Pattern::Range(first, last) => {
            put_expr(texts, first);
            put_expr(texts, last);
        }
    }
}

/// Adds the texts of an item; those of functions come after all items.
#[tactic(auto, using(crate::proofs::TextTables::once_append))]
fn put_item(texts: &mut Texts, item: &Item)
    ensures { AddsTexts texts.old texts.new (item_texts (view_item item.now)) }
{
    match item {
        Item::Function(_, _, _) | Item::Empty => {}
        Item::Begin(body) | Item::End(body) | Item::Action(body) => put_stmts(texts, body),
        Item::Rule(pattern, body) => {
            put_pattern(texts, pattern);
            put_stmts(texts, body);
        }
        Item::PatternOnly(pattern) => put_pattern(texts, pattern),
    }
}

/// Adds the texts of items.
fn put_items(texts: &mut Texts, items: &[Item])
    ensures { AddsTexts texts.old texts.new (items_texts (view_items items.now)) }
{
    for item in items {
        put_item(texts, item);
    }
}

/// Adds the texts of the functions' bodies.
fn put_bodies(texts: &mut Texts, functions: &[FunctionNames<'_>], bodies: &[&[Stmt]])
    ensures { AddsTexts texts.old texts.new (functions_texts (with_bodies (view_functions
        functions.now) (view_bodies bodies.now))) }
{
    for i in 0..functions.len() {
        put_stmts(texts, body_at(bodies, i));
    }
}

/// The texts of a script's constants, each once, in the order of their first places: those of the items, then those of the functions.
#[tactic(auto, using(crate::proofs::TextTables::once_append))]
pub(crate) fn texts_of(
    alloc: Global,
    resolved: &Resolved<'_>,
    bodies: &[&[Stmt]],
) -> Result<IndexSet<Vec<u8>>, AllocError>
    requires { view_bodies bodies.now ≡ bodies_of (view_script resolved.now.script.now) }
    ensures { IfOk result (λ texts. view_texts texts.keys
        ≡ texts_of_script (script_of resolved.now)) }
{
    let mut texts = Texts::new(alloc);
    put_items(&mut texts, &resolved.script.items);
    put_bodies(&mut texts, &resolved.functions, bodies);
    texts.all()
}
