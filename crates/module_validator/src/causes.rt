//! What is told of a function that the rules do not allow.
ghost use Rattle.std.specs.Prelude.{◌≡◌, ◌+◌, ◌≤◌, nat_le};
ghost use Rattle.std.specs.List.{list_any};
ghost use Rattle.module_validator.specs.Checks.{context_of};
ghost use Rattle.module_validator.specs.Faults.{any_in, any_of, faulty, lacks, named, overaligned};
ghost use Rattle.wasm_types.specs.Instructions.{depth, depths};
ghost use Rattle.wasm_types.specs.Profile.{most_nesting};
ghost use Rattle.wasm_types.specs.Syntax.{BrTable, Plain};
ghost use Rattle.wasm_types.specs.View.{view, views};

use crate::checker::{Scope, callee, is_aligned, loaded, stored, typed};
use crate::valid::InvalidFault;
use wasm_types::{Instr, Simple};

/// What is looked for in code.
#[derive(Clone, Copy)]
pub enum Cause {
    /// An index that is not there.
    Index,
    /// An alignment that is too large.
    Align,
}

/// Whether one of these numbers is past the labels.
fn any_past(ns: &[u32], labels: u32) -> bool
    ensures { result ≡ list_any (nat_le labels) ns.now }
{
    ns.iter().any(|n| labels <= *n)
}

/// Whether an access has an alignment larger than what it moves.
fn is_overaligned(p: Simple) -> bool
    ensures { result ≡ overaligned (Plain p) }
{
    match p {
        Simple::Load(op, at) => !is_aligned(at.align, loaded(op).1),
        Simple::Store(op, at) => !is_aligned(at.align, stored(op).1),
        _ => false,
    }
}

impl<'a> Scope<'a> {
    #[tactic(auto, using(crate::proofs::LocalTypes::none_past))]
    fn lacks(&self, labels: u32, p: Simple) -> bool
        ensures { result ≡ lacks (context_of self.now) labels (Plain p) }
    {
        match p {
            Simple::Br(n) | Simple::BrIf(n) => labels <= n,
            Simple::Call(n) => callee(self.whole, n).is_none(),
            Simple::CallIndirect(n) => { !self.has_table() || typed(self.whole, n).is_none() }
            Simple::LocalGet(x) | Simple::LocalSet(x) | Simple::LocalTee(x) => {
                self.local(x).is_none()
            }
            Simple::GlobalGet(x) | Simple::GlobalSet(x) => self.whole.globals.len() <= x as usize,
            Simple::Load(..) | Simple::Store(..) | Simple::MemorySize | Simple::MemoryGrow => {
                !self.has_memory()
            }
            _ => false,
        }
    }

    fn is_faulty(&self, sought: Cause, labels: u32, p: Simple) -> bool
        ensures { result ≡ faulty (context_of self.now) sought labels (Plain p) }
    {
        match sought {
            Cause::Index => self.lacks(labels, p),
            Cause::Align => is_overaligned(p),
        }
    }

    fn is_faulty_table(&self, sought: Cause, labels: u32, ns: &[u32], n: u32) -> bool
        ensures { result ≡ faulty (context_of self.now) sought labels (BrTable ns.now n) }
    {
        match sought {
            Cause::Index => any_past(ns, labels) || labels <= n,
            Cause::Align => false,
        }
    }

    // Whether an instruction is faulty so, or one in its bodies.
    #[cycle(search)]
    fn is_at_fault(&self, sought: Cause, labels: u32, i: &Instr) -> bool
        requires { labels + depth (view i.now) ≤ most_nesting + 1 }
        ensures { result ≡ any_of (faulty (context_of self.now) sought) labels (view i.now) }
    {
        match i {
            Instr::Plain(p) => self.is_faulty(sought, labels, *p),
            Instr::BrTable(ns, n) => self.is_faulty_table(sought, labels, ns, *n),
            Instr::Block(_, inner) => self.has(sought, labels + 1, inner),
            Instr::Loop(_, inner) => self.has(sought, labels + 1, inner),
            Instr::If(_, inner, other) => {
                self.has(sought, labels + 1, inner) || self.has(sought, labels + 1, other)
            }
        }
    }

    #[cycle(search)]
    fn has(&self, sought: Cause, labels: u32, code: &[Instr]) -> bool
        requires { labels + depths (views code.now) ≤ most_nesting + 1 }
        ensures { result ≡ any_in (faulty (context_of self.now) sought) labels (views code.now) }
    {
        for i in code {
            if self.is_at_fault(sought, labels, i) {
                return true;
            }
        }
        false
    }

    /// What is told of the function with this body.
    pub(crate) fn name(&self, function: usize, code: &[Instr]) -> InvalidFault
        requires { depths (views code.now) ≤ most_nesting }
        ensures { result
            ≡ named (any_in (faulty (context_of self.now) Cause.Index) 1 (views code.now))
            (any_in (faulty (context_of self.now) Cause.Align) 1 (views code.now)) function }
    {
        if self.has(Cause::Index, 1, code) {
            InvalidFault::BadIndex(function)
        } else if self.has(Cause::Align, 1, code) {
            InvalidFault::BadAlign(function)
        } else {
            InvalidFault::BadType(function)
        }
    }
}
