//! How many bytes code takes at least.
ghost use Rattle.std.specs.Prelude.{◌≡◌, ◌≤◌};
ghost use Rattle.lower_modules.specs.Lengths.{least_among, least_in, least_of, least_with};
ghost use Rattle.lower_modules.specs.View.{view_functions};
ghost use Rattle.wasm_types.specs.Immediates.{immediates};
ghost use Rattle.wasm_types.specs.View.{view, views};

use crate::function::Function;
use wasm_types::{Instr, Simple};

/// An opcode alone, or a byte at least behind it.
fn least_of_simple(simple: Simple) -> u64
    ensures { result ≡ least_with (immediates simple) }
{
    match simple {
        Simple::Unreachable
        | Simple::Nop
        | Simple::Return
        | Simple::Drop
        | Simple::Select
        | Simple::Test(_, _)
        | Simple::Compare(_, _)
        | Simple::Unary(_, _)
        | Simple::Binary(_, _)
        | Simple::Convert(_) => 1,
        Simple::Br(_)
        | Simple::BrIf(_)
        | Simple::Call(_)
        | Simple::CallIndirect(_)
        | Simple::LocalGet(_)
        | Simple::LocalSet(_)
        | Simple::LocalTee(_)
        | Simple::GlobalGet(_)
        | Simple::GlobalSet(_)
        | Simple::Load(_, _)
        | Simple::Store(_, _)
        | Simple::MemorySize
        | Simple::MemoryGrow
        | Simple::I32Const(_)
        | Simple::I64Const(_) => 2,
    }
}

/// What an instruction takes at least.
#[cycle(lengths)]
fn least_of(instr: &Instr) -> u64
    ensures { result ≤ least_of (view instr.now) }
{
    match instr {
        Instr::Plain(simple) => least_of_simple(*simple),
        Instr::BrTable(_, _) => 1,
        Instr::Block(_, inner) => least_in(inner).saturating_add(3),
        Instr::Loop(_, inner) => least_in(inner).saturating_add(3),
        Instr::If(_, inner, other) => {
            let both = least_in(inner).saturating_add(least_in(other));
            both.saturating_add(3)
        }
    }
}

/// How many bytes code takes at least.
#[cycle(lengths)]
pub fn least_in(code: &[Instr]) -> u64
    ensures { result ≤ least_in (views code.now) }
{
    let mut bytes: u64 = 0;
    for instr in code {
        bytes = bytes.saturating_add(least_of(instr));
    }
    bytes
}

/// What the code of functions takes at least.
pub(crate) fn least_among(functions: &[Function]) -> u64
    ensures { result ≤ least_among (view_functions functions.now) }
{
    let mut bytes: u64 = 0;
    for function in functions {
        bytes = bytes.saturating_add(least_in(&function.body));
    }
    bytes
}
