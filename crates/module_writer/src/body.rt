//! Instructions and their bodies.

ghost use Rattle.std.specs.Prelude.{◌≡◌};
ghost use Rattle.wasm_types.specs.Immediates.{immediates};
ghost use Rattle.wasm_types.specs.Leb128Texts.{and_then};
ghost use Rattle.wasm_types.specs.View.{view, views};
ghost use Rattle.module_writer.specs.Outputs.{Adds};
ghost use Rattle.module_writer.specs.Writing.{immediates_to, simple_to, table_to, opened_to, within_to, else_to, instr_to, instrs_to, expr_to};

use crate::basics::block_code;
use crate::entries::{Indices, entries};
use crate::fault::WriteFault;
use crate::output::Output;
use wasm_types::{BlockType, Instr, MAX_NESTING, Simple, opcode};

// What stands behind an opcode.
fn immediates(out: &mut Output, instr: Simple)
    ensures { Adds out.old out.new (immediates_to (immediates instr) out.old.bytes.items) }
{
    match instr {
        Simple::Br(n)
        | Simple::BrIf(n)
        | Simple::Call(n)
        | Simple::LocalGet(n)
        | Simple::LocalSet(n)
        | Simple::LocalTee(n)
        | Simple::GlobalGet(n)
        | Simple::GlobalSet(n) => out.index(n),
        Simple::CallIndirect(n) => {
            out.index(n);
            out.byte(0);
        }
        Simple::Load(_, arg) | Simple::Store(_, arg) => {
            out.index(arg.align);
            out.index(arg.offset);
        }
        Simple::MemorySize | Simple::MemoryGrow => out.byte(0),
        Simple::I32Const(n) => out.bits32(n),
        Simple::I64Const(n) => out.bits64(n),
        Simple::Unreachable
        | Simple::Nop
        | Simple::Return
        | Simple::Drop
        | Simple::Select
        | Simple::Test(_, _)
        | Simple::Compare(_, _)
        | Simple::Unary(_, _)
        | Simple::Binary(_, _)
        | Simple::Convert(_) => {}
    }
}

fn simple(out: &mut Output, instr: Simple)
    ensures { Adds out.old out.new (simple_to instr out.old.bytes.items) }
{
    out.byte(opcode(instr));
    immediates(out, instr);
}

fn table(out: &mut Output, labels: &[u32], last: u32)
    ensures { Adds out.old out.new (table_to labels.now last out.old.bytes.items) }
{
    out.byte(0x0e);
    entries::<Indices>(out, labels);
    out.index(last);
}

// A block, a loop or a choice, by its opcode: only a choice has others.
#[cycle(body)]
fn block(
    out: &mut Output,
    limit: u32,
    opcode: u8,
    kind: BlockType,
    inner: &[Instr],
    other: &[Instr],
)
    ensures { Adds out.old out.new
        (within_to limit (λ e. opened_to opcode kind (λ o. and_then (instrs_to e (views inner.now) o)
        (else_to (views other.now) (instrs_to e (views other.now))))) out.old.bytes.items) }
{
    // Bodies may be shared: what is left of a refused module may take for ever.
    if out.is_refused() {
        return;
    }
    if limit == 0 {
        out.refuse(WriteFault::TooLarge);
        return;
    }
    out.byte(opcode);
    out.byte(block_code(kind));
    instrs(out, limit - 1, inner);
    match other {
        [] => {}
        [_, ..] => {
            out.byte(0x05);
            instrs(out, limit - 1, other);
        }
    }
    out.byte(0x0b);
}

#[cycle(body)]
fn instr(out: &mut Output, limit: u32, instr: &Instr)
    ensures { Adds out.old out.new (instr_to limit (view instr.now) out.old.bytes.items) }
{
    match instr {
        Instr::Plain(p) => simple(out, *p),
        Instr::BrTable(labels, last) => table(out, labels, *last),
        Instr::Block(kind, inner) => block(out, limit, 0x02, *kind, inner, &[]),
        Instr::Loop(kind, inner) => block(out, limit, 0x03, *kind, inner, &[]),
        Instr::If(kind, then, other) => block(out, limit, 0x04, *kind, then, other),
    }
}

#[cycle(body)]
fn instrs(out: &mut Output, limit: u32, all: &[Instr])
    ensures { Adds out.old out.new (instrs_to limit (views all.now) out.old.bytes.items) }
{
    for i in all {
        instr(out, limit, i);
    }
}

/// Instructions and their end.
pub(crate) fn expr(out: &mut Output, all: &[Instr])
    ensures { Adds out.old out.new (expr_to (views all.now) out.old.bytes.items) }
{
    instrs(out, MAX_NESTING, all);
    out.byte(0x0b);
}
