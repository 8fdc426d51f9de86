//! Answers that are kept in temporaries. Where one may stand for a fault, and does, the function is left.
ghost use Rattle.std.specs.Prelude.{◌≤◌};
ghost use Rattle.lower_model.specs.Places.{Bases as PlainBases};
ghost use Rattle.lower_model.specs.Small.{answer_kept, kept, kept_code, kept_done, kept_number, kept_value, text_or_left};
ghost use Rattle.lower_pieces.specs.Bounds.{most_labels, most_places};
ghost use Rattle.lower_pieces.specs.Emits.{Emits, Holds};

use crate::bases::Bases;
use crate::emission::{emit, emit_all, emit_if_all, when};
use crate::emitted::Emitted;
use crate::faults::number_is;
use crate::handles::MINUS_ONE;
use sem_primitives::{Answer, Sort};
use std::alloc::Global;
use wasm_types::{CvtOp, IRelOp, Simple, ValType};

/// The least number of 64 bits, which stands for a fault where an answer is a number, and in an unboxed name for none.
pub const LEAST: u64 = 1 << 63;

/// In an unboxed name: that a text stands beside it; as an answer, that one waits.
pub const TEXT_BESIDE: u64 = LEAST + 1;

/// What a function answers that was left.
pub const WAS_LEFT: u64 = LEAST + 2;

/// Where the handle of a text waits that a function returns.
pub const TEXT_GLOBAL: u32 = 2;

/// Keeps a code, as a number.
pub fn kept_code(bases: &Bases, out: &mut Emitted, faults: bool, temporary: u32, exit: u32)
    requires { temporary ≤ most_places }
    ensures { Emits out.old out.new (kept_code bases.now faults temporary exit) }
{
    let local = bases.number(temporary);
    if faults {
        let all = [
            Simple::Convert(CvtOp::I64ExtendI32S),
            Simple::LocalTee(local),
            Simple::I64Const(u64::MAX),
            Simple::Compare(ValType::I64, IRelOp::Eq),
            Simple::BrIf(exit),
        ];
        emit_all(out, &all);
    } else {
        let all = [
            Simple::Convert(CvtOp::I64ExtendI32U),
            Simple::LocalSet(local),
        ];
        emit_all(out, &all);
    }
}

/// Keeps a value's handle.
pub fn kept_value(bases: &Bases, out: &mut Emitted, faults: bool, temporary: u32, exit: u32)
    requires { temporary ≤ most_places }
    ensures { Emits out.old out.new (kept_value bases.now faults temporary exit) }
{
    let local = bases.handle(temporary);
    if faults {
        let all = [
            Simple::LocalTee(local),
            Simple::I32Const(MINUS_ONE),
            Simple::Compare(ValType::I32, IRelOp::Eq),
            Simple::BrIf(exit),
        ];
        emit_all(out, &all);
    } else {
        emit(out, Simple::LocalSet(local));
    }
}

/// Keeps a number.
pub fn kept_number(bases: &Bases, out: &mut Emitted, faults: bool, temporary: u32, exit: u32)
    requires { temporary ≤ most_places }
    ensures { Emits out.old out.new (kept_number bases.now faults temporary exit) }
{
    let local = bases.number(temporary);
    if faults {
        let all = [
            Simple::LocalTee(local),
            Simple::I64Const(LEAST),
            Simple::Compare(ValType::I64, IRelOp::Eq),
            Simple::BrIf(exit),
        ];
        emit_all(out, &all);
    } else {
        emit(out, Simple::LocalSet(local));
    }
}

/// What is done with an answer of a function that is no number: a text is taken. Where the function was left, this one is left too, from within two labels
/// more.
fn text_or_left(alloc: Global, bases: &Bases, temporary: u32, exit: u32) -> Emitted
    requires places { temporary ≤ most_places }
    requires labels { exit ≤ most_labels }
    ensures { Holds result (text_or_left bases.now temporary exit) }
{
    let mut code = Emitted::new(alloc);
    let local = bases.number(temporary);
    number_is(&mut code, local, TEXT_BESIDE);
    let taken = [
        Simple::GlobalGet(TEXT_GLOBAL),
        Simple::LocalSet(bases.handle(temporary)),
    ];
    let left_too = [
        Simple::LocalGet(local),
        Simple::I64Const(WAS_LEFT),
        Simple::Compare(ValType::I64, IRelOp::Eq),
        Simple::BrIf(exit + 2),
    ];
    emit_if_all(alloc, &mut code, &taken, &left_too);
    code
}

/// Keeps the answer of a function.
pub fn answer_kept(alloc: Global, bases: &Bases, out: &mut Emitted, temporary: u32, exit: u32)
    requires places { temporary ≤ most_places }
    requires labels { exit ≤ most_labels }
    ensures { Emits out.old out.new (answer_kept bases.now temporary exit) }
{
    let all = [
        Simple::LocalTee(bases.number(temporary)),
        Simple::I64Const(WAS_LEFT),
        Simple::Compare(ValType::I64, IRelOp::LeS),
    ];
    emit_all(out, &all);
    when(alloc, out, text_or_left(alloc, bases, temporary, exit));
}

/// Takes the answer that something is done.
fn kept_done(out: &mut Emitted, faults: bool, exit: u32)
    ensures { (bases : PlainBases)
        → Emits out.old out.new (kept_done bases faults exit) }
{
    if faults {
        let all = [
            Simple::I32Const(MINUS_ONE),
            Simple::Compare(ValType::I32, IRelOp::Eq),
            Simple::BrIf(exit),
        ];
        emit_all(out, &all);
    } else {
        emit(out, Simple::Drop);
    }
}

/// Keeps an answer.
pub fn kept(
    bases: &Bases,
    out: &mut Emitted,
    faults: bool,
    answer: Answer,
    temporary: u32,
    exit: u32,
)
    requires { temporary ≤ most_places }
    ensures { Emits out.old out.new (kept bases.now faults answer temporary exit) }
{
    match answer {
        Answer::Of(Sort::Value) => kept_value(bases, out, faults, temporary, exit),
        Answer::Of(Sort::Number) => kept_number(bases, out, faults, temporary, exit),
        Answer::Truth | Answer::Input | Answer::Assign | Answer::Stream => {
            kept_code(bases, out, faults, temporary, exit);
        }
        Answer::Done => kept_done(out, faults, exit),
        Answer::Of(Sort::Array | Sort::Iterator)
        | Answer::Nothing
        | Answer::ValueOrEnd
        | Answer::Name => {}
    }
}
