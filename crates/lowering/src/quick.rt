//! Quick ways of statements on numbers: names whose numbers are within bounds, and what is done with them on the stack.
ghost use Rattle.std.specs.Prelude.{◌≡◌, ◌≤◌, List, map, pos, suc, IfOk};
ghost use Rattle.awk_text.specs.Number.{largest};
ghost use Rattle.lower_model.specs.Quick.{Holder as PlainHolder, all_unsure, most_multiplied, unsure};
ghost use Rattle.lower_model.specs.Statements.{counted_left, name_put, pair_left, remainder_taken, summed};
ghost use Rattle.lower_model.specs.Emission.{name_read};
ghost use Rattle.lower_pieces.specs.Bounds.{most_labels};
ghost use Rattle.lower_pieces.specs.Emits.{Emits, Holds};
ghost use Rattle.lower_expressions.specs.Sources.{HolderFits, NamesFit};
ghost use Rattle.lower_expressions.specs.View.{view_layout};
ghost use Rattle.lower_quick.specs.View.{view_counted, view_holder, view_pair, view_remainder, view_sum};
ghost use Rattle.lowering.specs.Parts.{unnumbered};
ghost use Rattle.lowering.specs.QuickFits.{FactorFits, PairFits, RemainderFits, SumFits};

use awk_text::MAX_NUMBER;
use lower_expressions::{
    FunctionLayout, all_unsure, global_number, name_read, source_read, sum_op,
};
use lower_pieces::{Emitted, TEXT_BESIDE, code_of, emit_all, relation, row_call};
use lower_quick::{Counted, Holder, Pair, Remainder, Sum, Within, contrary};
use sem_primitives::{Primitive, Special};
use std::alloc::AllocError;
use wasm_types::{IBinOp, IRelOp, Simple, ValType};

/// What writes the number of an unboxed name or parameter.
pub(crate) fn name_put(layout: &FunctionLayout<'_>, name: Holder) -> Simple
    requires { HolderFits (view_holder name) }
    ensures { result ≡ name_put (view_layout layout.now) (view_holder name) }
{
    match name {
        Holder::Name(name) => Simple::GlobalSet(global_number(layout, name)),
        Holder::Parameter(place) => Simple::LocalSet(place as u32),
    }
}

/// Adds the test whether a name has none of these numbers.
pub(crate) fn unsure(layout: &FunctionLayout<'_>, out: &mut Emitted, within: Within)
    requires { HolderFits (view_holder within.name) }
    ensures { Emits out.old out.new
        (unsure (name_read (view_layout layout.now) (view_holder within.name)) (pos largest)
        within.width) }
{
    let all = [
        name_read(layout, within.name),
        Simple::I64Const(MAX_NUMBER),
        Simple::Binary(ValType::I64, IBinOp::Add),
        Simple::I64Const(within.width),
        Simple::Compare(ValType::I64, IRelOp::GtU),
    ];
    emit_all(out, &all);
}

/// Adds the test whether one of several names has no number, or one out of bounds; of names for which memory may have run out.
pub(crate) fn names_unsure(
    layout: &FunctionLayout<'_>,
    out: &mut Emitted,
    names: Result<Vec<Holder>, AllocError>,
    shift: u64,
    width: u64,
)
    requires { IfOk names (λ names. NamesFit (map view_holder names.items)) }
    ensures { (all : List PlainHolder) → IfOk names (λ names. map view_holder names.items ≡ all)
        → Emits out.old out.new
        (all_unsure (name_read (view_layout layout.now)) all (pos shift) width) }
{
    match names {
        Ok(names) => all_unsure(layout, out, &names, shift, width),
        Err(_) => out.refuse(),
    }
}

/// A sum in range, which its name takes.
pub(crate) fn sum_code(layout: &FunctionLayout<'_>, sum: Sum) -> Emitted
    requires { SumFits (view_sum sum) }
    ensures { Holds result (summed (view_layout layout.now) (view_sum sum)) }
{
    let all = [
        source_read(layout, sum.left),
        source_read(layout, sum.right),
        Simple::Binary(ValType::I64, sum_op(sum.op)),
        name_put(layout, sum.target),
    ];
    code_of(layout.alloc, &all)
}

/// The greatest number whose product with a factor is in range.
pub(crate) fn most_multiplied(factor: Option<i64>) -> u64
    requires { FactorFits factor }
    ensures value { result ≡ most_multiplied factor }
    ensures few { result ≤ largest }
{
    match factor {
        Some(factor) => MAX_NUMBER / factor.unsigned_abs(),
        None => MAX_NUMBER,
    }
}

/// A remainder of a number in range, which its name takes.
pub(crate) fn remainder_code(layout: &FunctionLayout<'_>, remainder: Remainder) -> Emitted
    requires { RemainderFits (view_remainder remainder) }
    ensures { Holds result
        (remainder_taken (view_layout layout.now) (view_remainder remainder)) }
{
    let read = name_read(layout, remainder.multiple.name);
    let divisor = Simple::I64Const(remainder.divisor.cast_unsigned());
    let taken = Simple::Binary(ValType::I64, IBinOp::RemS);
    let stored = name_put(layout, remainder.target);
    match remainder.multiple.factor {
        Some(factor) => {
            let factor = Simple::I64Const(factor.cast_unsigned());
            let times = Simple::Binary(ValType::I64, IBinOp::Mul);
            code_of(layout.alloc, &[read, factor, times, divisor, taken, stored])
        }
        None => code_of(layout.alloc, &[read, divisor, taken, stored]),
    }
}

/// A comparison of numbers, which leaves to a label where it does not hold, from within one label more.
pub(crate) fn pair_code(layout: &FunctionLayout<'_>, pair: Pair, label: u32) -> Emitted
    requires label { label ≤ most_labels }
    requires pair { PairFits (view_pair pair) }
    ensures { Holds result
        (pair_left (view_layout layout.now) (view_pair pair) (suc label)) }
{
    let all = [
        source_read(layout, pair.left),
        source_read(layout, pair.right),
        Simple::Compare(ValType::I64, relation(contrary(pair.op))),
        Simple::BrIf(label + 1),
    ];
    code_of(layout.alloc, &all)
}

/// A comparison of a name's number with how many fields there are, which leaves to a label where it does not hold, from within one label more.
pub(crate) fn counted_code(layout: &FunctionLayout<'_>, counted: Counted, label: u32) -> Emitted
    requires label { label ≤ most_labels }
    requires name { HolderFits (view_holder counted.name) }
    ensures { Holds result
        (counted_left (view_layout layout.now) (view_counted counted) (suc label)) }
{
    let all = [
        name_read(layout, counted.name),
        Simple::I32Const(u32::from(Special::Nf.number())),
        row_call(Primitive::GetSpecial),
        row_call(Primitive::ToNum),
        Simple::Compare(ValType::I64, relation(contrary(counted.op))),
        Simple::BrIf(label + 1),
    ];
    code_of(layout.alloc, &all)
}

/// Adds the test whether a name has no number.
pub(crate) fn unnumbered(layout: &FunctionLayout<'_>, out: &mut Emitted, name: Holder)
    requires { HolderFits (view_holder name) }
    ensures { Emits out.old out.new
        (unnumbered (view_layout layout.now) (view_holder name)) }
{
    let all = [
        name_read(layout, name),
        Simple::I64Const(TEXT_BESIDE),
        Simple::Compare(ValType::I64, IRelOp::LeS),
    ];
    emit_all(out, &all);
}
