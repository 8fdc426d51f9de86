//! Instructions and their bodies.

ghost use Rattle.std.specs.Prelude.{◌≡◌, ◌+◌, ◌-◌, ℕ, List, [], Some, None, Ok, MatchOption, IfOk, length};
ghost use Rattle.wasm_types.specs.Syntax.{Block, BrTable, Loop, If, Instructions};
ghost use Rattle.wasm_types.specs.View.{view, views};
ghost use Rattle.module_decoder.specs.Readings.{Reads, opener_by};
ghost use Rattle.module_decoder.specs.Reading.{ReadBody, step_by, step_at, made_body, by_end, same, nested_at, instr_by, body_at, expr_at, table_at};

use crate::basics::{Span, bits32, bits64, block_type};
use crate::entries::{Indices, entries};
use crate::fault::DecodeFault;
use crate::reader::Reader;
use latched::{boxed, shared};
use std::alloc::{AllocError, Global};
use std::rc::Rc;
use wasm_types::{BlockType, Instr, Lead, MAX_NESTING, Simple, lead_of};

/// Where an instruction has the instructions that it holds.
pub(crate) type Body = Rc<Vec<Instr>>;

/// What stands for an instruction that is not read.
const NOTHING: Instr = Instr::Plain(Simple::Nop);

/// What ends instructions.
#[derive(Clone, Copy)]
pub enum Ending {
    End,
    Else,
}

/// What opens instructions of its own.
#[derive(Clone, Copy)]
pub enum Opener {
    Block,
    Loop,
    If,
}

/// What comes next.
#[derive(Clone, Copy)]
pub enum Step {
    Ends(Ending),
    Opens(Lead),
}

/// Instructions, and what ended them.
#[derive(Drop)]
pub struct Sequence {
    pub instrs: Vec<Instr>,
    pub ending: Ending,
}

fn step_of(lead: Lead) -> Step
    ensures { result ≡ step_by lead }
{
    match lead {
        Lead::Else => Step::Ends(Ending::Else),
        Lead::End => Step::Ends(Ending::End),
        Lead::Bare(p) => Step::Opens(Lead::Bare(p)),
        Lead::Index(i) => Step::Opens(Lead::Index(i)),
        Lead::Load(op) => Step::Opens(Lead::Load(op)),
        Lead::Store(op) => Step::Opens(Lead::Store(op)),
        Lead::I32Const => Step::Opens(Lead::I32Const),
        Lead::I64Const => Step::Opens(Lead::I64Const),
        Lead::CallIndirect => Step::Opens(Lead::CallIndirect),
        Lead::MemorySize => Step::Opens(Lead::MemorySize),
        Lead::MemoryGrow => Step::Opens(Lead::MemoryGrow),
        Lead::BrTable => Step::Opens(Lead::BrTable),
        Lead::Block => Step::Opens(Lead::Block),
        Lead::Loop => Step::Opens(Lead::Loop),
        Lead::If => Step::Opens(Lead::If),
        Lead::Float => Step::Opens(Lead::Float),
        Lead::Unknown => Step::Opens(Lead::Unknown),
    }
}

fn next_of(bytes: &[u8]) -> Option<(Step, &[u8])>
    ensures { MatchOption result (step_at bytes.now ≡ None)
        (λ o. step_at bytes.now ≡ Some (o.0, o.1.now)) }
{
    match bytes {
        [] => None,
        [b, rest @ ..] => Some((step_of(lead_of(*b)), rest)),
    }
}

// The byte before these.
fn behind(c: Span, bytes: &[u8]) -> usize
    ensures { result ≡ c.end - (length bytes.now + 1) }
{
    c.end.saturating_sub(bytes.len() + 1)
}

/// Only an end may stand here.
fn end(reader: &mut Reader, ending: Ending)
    ensures { (instrs : Instructions) → Reads reader.old reader.new (Ok (instrs, reader.new.rest.now))
        (by_end reader.old.span same (made_body instrs ending reader.old.rest.now)) }
{
    match ending {
        Ending::End => {}
        Ending::Else => reader.fail(DecodeFault::BadOpcode(behind(reader.span, reader.rest))),
    }
}

/// A body in the place that an instruction has for it. All that are empty share one.
pub(crate) fn held(alloc: Global, none: &Body, body: Vec<Instr>) -> Result<Body, AllocError>
    requires { none.now.value.items ≡ [] }
    ensures { IfOk result (λ held. held.value.items ≡ body.items) }
{
    if body.is_empty() {
        Ok(none.clone()?)
    } else {
        shared(alloc, body)
    }
}

fn block(
    alloc: Global,
    none: &Body,
    kind: BlockType,
    inner: Vec<Instr>,
) -> Result<Instr, AllocError>
    requires { none.now.value.items ≡ [] }
    ensures { IfOk result (λ instr. view instr ≡ Block kind (views inner.items)) }
{
    Ok(Instr::Block(kind, held(alloc, none, inner)?))
}

fn repeated(
    alloc: Global,
    none: &Body,
    kind: BlockType,
    inner: Vec<Instr>,
) -> Result<Instr, AllocError>
    requires { none.now.value.items ≡ [] }
    ensures { IfOk result (λ instr. view instr ≡ Loop kind (views inner.items)) }
{
    Ok(Instr::Loop(kind, held(alloc, none, inner)?))
}

fn choice(
    alloc: Global,
    none: &Body,
    kind: BlockType,
    yes: Vec<Instr>,
    no: Vec<Instr>,
) -> Result<Instr, AllocError>
    requires { none.now.value.items ≡ [] }
    ensures { IfOk result (λ instr. view instr ≡ If kind (views yes.items) (views no.items)) }
{
    let yes = held(alloc, none, yes)?;
    Ok(Instr::If(kind, yes, held(alloc, none, no)?))
}

fn branches(alloc: Global, labels: Vec<u32>, other: u32) -> Result<Instr, AllocError>
    ensures { IfOk result (λ instr. view instr ≡ BrTable labels.items other) }
{
    Ok(Instr::BrTable(boxed(alloc, labels)?, other))
}

/// Instructions that nothing ends, since a fault does.
fn cut(instrs: Vec<Instr>) -> Sequence
    ensures { result.instrs ≡ instrs }
{
    Sequence {
        instrs,
        ending: Ending::End,
    }
}

/// What a byte begins that holds instructions of its own.
fn opener_of(lead: Lead) -> Option<Opener>
    ensures { result ≡ opener_by lead }
{
    match lead {
        Lead::Block => Some(Opener::Block),
        Lead::Loop => Some(Opener::Loop),
        Lead::If => Some(Opener::If),
        _ => None,
    }
}

/// A branch by a table of labels, from what follows its opcode.
fn table(reader: &mut Reader) -> Instr
    ensures { Reads reader.old reader.new (Ok (view result, reader.new.rest.now))
        (table_at reader.old.span reader.old.rest.now) }
{
    let alloc = reader.alloc;
    let labels = entries::<Indices>(reader);
    let other = reader.index();
    reader.made(branches(alloc, labels, other), NOTHING)
}

/// An instruction that holds no others, from what follows its opcode.
fn plain(reader: &mut Reader, lead: Lead) -> Instr
    requires { opener_by lead ≡ None }
    ensures { (body : List ℕ → ReadBody) → Reads reader.old reader.new
        (Ok (view result, reader.new.rest.now))
        (instr_by reader.old.span body lead reader.old.rest.now) }
{
    match lead {
        Lead::Bare(simple) => Instr::Plain(simple),
        Lead::Index(op) => Instr::Plain(op.with(reader.index())),
        Lead::Load(op) => Instr::Plain(Simple::Load(op, reader.mem_arg())),
        Lead::Store(op) => Instr::Plain(Simple::Store(op, reader.mem_arg())),
        Lead::I32Const => {
            let n = reader.take(bits32(reader.span, reader.rest), 0);
            Instr::Plain(Simple::I32Const(n))
        }
        Lead::I64Const => {
            let n = reader.take(bits64(reader.span, reader.rest), 0);
            Instr::Plain(Simple::I64Const(n))
        }
        Lead::CallIndirect => {
            let n = reader.index();
            reader.reserved();
            Instr::Plain(Simple::CallIndirect(n))
        }
        Lead::MemorySize => {
            reader.reserved();
            Instr::Plain(Simple::MemorySize)
        }
        Lead::MemoryGrow => {
            reader.reserved();
            Instr::Plain(Simple::MemoryGrow)
        }
        Lead::BrTable => table(reader),
        Lead::Float => {
            reader.fail(DecodeFault::Float(behind(reader.span, reader.rest)));
            NOTHING
        }
        _ => {
            reader.fail(DecodeFault::BadOpcode(behind(reader.span, reader.rest)));
            NOTHING
        }
    }
}

/// An instruction that holds others, from what follows its opcode.
#[cycle(body)]
fn nested(reader: &mut Reader, none: &Body, limit: u32, opener: Opener) -> Instr
    requires { none.now.value.items ≡ [] }
    ensures { Reads reader.old reader.new (Ok (view result, reader.new.rest.now))
        (nested_at reader.old.span (body_at reader.old.span limit) opener reader.old.rest.now) }
{
    let alloc = reader.alloc;
    let kind = reader.take(block_type(reader.span, reader.rest), None);
    let first = body_of(reader, none, limit);
    match opener {
        Opener::Block => {
            end(reader, first.ending);
            reader.made(block(alloc, none, kind, first.instrs), NOTHING)
        }
        Opener::Loop => {
            end(reader, first.ending);
            reader.made(repeated(alloc, none, kind, first.instrs), NOTHING)
        }
        Opener::If => match first.ending {
            Ending::End => {
                let empty = Vec::new(alloc);
                reader.made(choice(alloc, none, kind, first.instrs, empty), NOTHING)
            }
            Ending::Else => {
                let second = body_of(reader, none, limit);
                end(reader, second.ending);
                let both = choice(alloc, none, kind, first.instrs, second.instrs);
                reader.made(both, NOTHING)
            }
        },
    }
}

#[cycle(body)]
fn instr(reader: &mut Reader, none: &Body, limit: u32, lead: Lead) -> Instr
    requires { none.now.value.items ≡ [] }
    ensures { Reads reader.old reader.new (Ok (view result, reader.new.rest.now))
        (instr_by reader.old.span (body_at reader.old.span limit) lead reader.old.rest.now) }
{
    match opener_of(lead) {
        Some(opener) => nested(reader, none, limit, opener),
        None => plain(reader, lead),
    }
}

/// Instructions up to what ends them.
#[cycle(body)]
fn body_of(reader: &mut Reader, none: &Body, limit: u32) -> Sequence
    requires { none.now.value.items ≡ [] }
    ensures { Reads reader.old reader.new
        (Ok (made_body (views result.instrs.items) result.ending reader.new.rest.now))
        (body_at reader.old.span limit reader.old.rest.now) }
{
    let mut instrs = Vec::new(reader.alloc);
    if limit == 0 {
        reader.fail(DecodeFault::TooLarge);
        return cut(instrs);
    }
    let turns = reader.rest.len();
    for _ in 0..turns {
        if reader.has_failed() {
            return cut(instrs);
        }
        match next_of(reader.rest) {
            None => {
                reader.fail(reader.span.malformed());
                return cut(instrs);
            }
            Some((Step::Ends(ending), after)) => {
                reader.rest = after;
                // Most bodies are short, and each is kept.
                instrs.shrink_to_fit();
                return Sequence { instrs, ending };
            }
            Some((Step::Opens(lead), after)) => {
                reader.rest = after;
                let next = instr(reader, none, limit - 1, lead);
                reader.push(&mut instrs, next);
            }
        }
    }
    reader.fail(reader.span.malformed());
    cut(instrs)
}

/// Instructions and their end.
pub(crate) fn expr(reader: &mut Reader) -> Vec<Instr>
    ensures { Reads reader.old reader.new (Ok (views result.items, reader.new.rest.now))
        (expr_at reader.old.span reader.old.rest.now) }
{
    let alloc = reader.alloc;
    let Ok(none) = shared(alloc, Vec::new(alloc)) else {
        reader.fail(DecodeFault::NoMemory);
        return Vec::new(alloc);
    };
    let body = body_of(reader, &none, MAX_NESTING + 1);
    end(reader, body.ending);
    body.instrs
}
