//! Unboxed names and parameters, and constants: how their numbers are read, and tested together.
ghost use Rattle.std.specs.Prelude.{◌≡◌, ◌^◌, ◌≤◌, map, pos};
ghost use Rattle.lower_model.specs.Emission.{added, name_read};
ghost use Rattle.lower_model.specs.Quick.{addition_names, all_unsure, joined, sum_op};
ghost use Rattle.lower_pieces.specs.Bounds.{most_places};
ghost use Rattle.lower_pieces.specs.Emits.{Emits, Holds};
ghost use Rattle.lower_expressions.specs.Sources.{AdditionFits, HolderFits, NamesFit, SourceFits, source_read};
ghost use Rattle.lower_expressions.specs.View.{view_layout};
ghost use Rattle.lower_quick.specs.View.{view_addition, view_holder, view_source};

use crate::function_layout::FunctionLayout;
use crate::places::global_number;
use lower_pieces::{Emitted, code_of, emit, emit_all};
use lower_quick::{Addition, Holder, Source, addition_names};
use mid_program::Arithmetic;
use wasm_types::{IBinOp, IRelOp, Simple, ValType};

/// Two numbers of at most this magnitude have a sum in range.
const MOST: u64 = 1 << 52;

/// What reads the number of an unboxed name or parameter.
pub fn name_read(layout: &FunctionLayout<'_>, name: Holder) -> Simple
    requires { HolderFits (view_holder name) }
    ensures { result ≡ name_read (view_layout layout.now) (view_holder name) }
{
    match name {
        Holder::Name(name) => Simple::GlobalGet(global_number(layout, name)),
        Holder::Parameter(place) => Simple::LocalGet(place as u32),
    }
}

/// What puts a source on the stack.
pub fn source_read(layout: &FunctionLayout<'_>, source: Source) -> Simple
    requires { SourceFits (view_source source) }
    ensures { result ≡ source_read (view_layout layout.now) (view_source source) }
{
    match source {
        Source::Held(name) => name_read(layout, name),
        Source::Constant(number) => Simple::I64Const(number.cast_unsigned()),
    }
}

/// Joins the words of names, each with what is added to it, to the one on the stack.
fn joined(layout: &FunctionLayout<'_>, out: &mut Emitted, names: &[Holder], shift: u64)
    requires { NamesFit (map view_holder names.now) }
    ensures { Emits out.old out.new
        (joined (name_read (view_layout layout.now)) (map view_holder names.now) (pos shift)) }
{
    for name in names {
        let all = [
            name_read(layout, *name),
            Simple::I64Const(shift),
            Simple::Binary(ValType::I64, IBinOp::Add),
            Simple::Binary(ValType::I64, IBinOp::Or),
        ];
        emit_all(out, &all);
    }
}

/// Adds the test whether one of several names has no number, or one that is not from 0 to a width
/// once it is shifted.
pub fn all_unsure(
    layout: &FunctionLayout<'_>,
    out: &mut Emitted,
    names: &[Holder],
    shift: u64,
    width: u64,
)
    requires { NamesFit (map view_holder names.now) }
    ensures { Emits out.old out.new
        (all_unsure (name_read (view_layout layout.now)) (map view_holder names.now)
        (pos shift) width) }
{
    let [first, others @ ..] = names else {
        return emit(out, Simple::I32Const(0));
    };
    let word = [
        name_read(layout, *first),
        Simple::I64Const(shift),
        Simple::Binary(ValType::I64, IBinOp::Add),
    ];
    emit_all(out, &word);
    joined(layout, out, others, shift);
    let past = [
        Simple::I64Const(width),
        Simple::Compare(ValType::I64, IRelOp::GtU),
    ];
    emit_all(out, &past);
}

/// Adds the test whether a name of a sum has no number, or one that is not near 0.
pub(crate) fn addition_unsure(layout: &FunctionLayout<'_>, out: &mut Emitted, addition: Addition)
    requires { AdditionFits (view_addition addition) }
    ensures { Emits out.old out.new (all_unsure (name_read (view_layout layout.now))
        (addition_names (view_addition addition)) (pos (2 ^ 52)) (2 ^ 53)) }
{
    match addition_names(layout.alloc, addition) {
        Ok(names) => all_unsure(layout, out, &names, MOST, MOST + MOST),
        Err(_) => out.refuse(),
    }
}

/// The instruction of a sum or a difference.
pub fn sum_op(op: Arithmetic) -> IBinOp
    ensures { result ≡ sum_op op }
{
    match op {
        Arithmetic::Minus => IBinOp::Sub,
        Arithmetic::Plus
        | Arithmetic::Times
        | Arithmetic::Over
        | Arithmetic::Modulo
        | Arithmetic::Truncated => IBinOp::Add,
    }
}

/// A sum in range, which goes to a temporary.
pub(crate) fn added(layout: &FunctionLayout<'_>, addition: Addition, temporary: u32) -> Emitted
    requires sources { AdditionFits (view_addition addition) }
    requires place { temporary ≤ most_places }
    ensures { Holds result
        (added (view_layout layout.now) (view_addition addition) temporary) }
{
    let all = [
        source_read(layout, addition.left),
        source_read(layout, addition.right),
        Simple::Binary(ValType::I64, sum_op(addition.op)),
        Simple::LocalSet(layout.bases.number(temporary)),
    ];
    code_of(layout.alloc, &all)
}
