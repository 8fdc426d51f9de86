//! Code of expressions in statements.
ghost use Rattle.std.specs.Prelude.{[], ◌≡◌, ◌≤◌, false, suc};
ghost use Rattle.wasm_types.specs.Syntax.{Instructions};
ghost use Rattle.mid_program.specs.Mid as plain;
ghost use Rattle.mid_program.specs.Mid.{form_of};
ghost use Rattle.mid_program.specs.ViewCode.{view};
ghost use Rattle.lower_model.specs.Appends.{append_in};
ghost use Rattle.lower_model.specs.Emission.{dropped, emitted, tested};
ghost use Rattle.lower_model.specs.Quick.{sum_in};
ghost use Rattle.lower_model.specs.Statements.{appended_dropped, quickly_dropped};
ghost use Rattle.lower_pieces.specs.Bounds.{most_labels, most_places};
ghost use Rattle.lower_pieces.specs.Emits.{Emits, Reads};
ghost use Rattle.lower_pieces.specs.Forms.{view_form};
ghost use Rattle.lower_expressions.specs.Fits.{Fits};
ghost use Rattle.lower_expressions.specs.Keeping.{Keeping, kept_more, kept_none};
ghost use Rattle.lower_expressions.specs.View.{view_layout};
ghost use Rattle.lower_quick.specs.View.{view_remainder, view_sum};
ghost use Rattle.lowering.specs.Parts.{remainder_done, status_left, sum_done};
ghost use Rattle.lowering.specs.QuickFits.{RemainderFits, SumFits};

use crate::appending::chain_appended;
use crate::leaving::WAY_EXIT;
use crate::quick::{most_multiplied, names_unsure, remainder_code, sum_code};
use crate::summing::{summed_anyway, updated};
use crate::tallying::tallied;
use lower_expressions::{At, FunctionLayout, Kept, expression, left_over};
use lower_pieces::{Emitted, Form, emit_all, emit_if, to_number, truth};
use lower_quick::{
    Remainder, Sum, append_in, remainder_in, remainder_names, sum_in, sum_names, tally_in,
    update_in,
};
use mid_program::Code;
use std::alloc::Global;
use wasm_types::Simple;

/// Adds code, and gives the form of its answer, on which what comes next may depend. Where memory runs out for it nothing more is taken.
pub(crate) fn evaluated(
    layout: &FunctionLayout<'_>,
    kept: &mut Kept,
    out: &mut Emitted,
    only: bool,
    code: &Code,
    at: At,
) -> Form
    requires { Fits (view_layout layout.now) (view code.now) at.temporary at.arrays at.exit }
    ensures { (next : plain.Form → Instructions) (whole : Instructions)
        → Reads out.old (emitted (view_layout layout.now) only kept.old.forms kept.old.temporaries
        (view code.now) at.temporary at.arrays at.exit
        (next (form_of kept.old.forms (view code.now)))) whole
        → Reads out.new (next (view_form result)) whole }
{
    match expression(layout, kept, out, only, code, at) {
        Ok(form) => form,
        Err(_) => {
            out.refuse();
            Form::OptionalNumber
        }
    }
}

/// What is kept in the first temporary. Where memory runs out for it nothing more is taken.
pub(crate) fn kept_first(alloc: Global, out: &mut Emitted, form: Form) -> Kept
    ensures { (next : Keeping → Instructions) (whole : Instructions)
        → Reads out.old (next (kept_more (view_form form) 0 kept_none)) whole
        → Reads out.new (next result) whole }
{
    let mut kept = Kept::none(alloc);
    match kept.push(form, 0) {
        Ok(()) => kept,
        Err(_) => {
            out.refuse();
            kept
        }
    }
}

/// Adds code that is evaluated for what it does alone.
pub(crate) fn dropped(
    layout: &FunctionLayout<'_>,
    kept: &mut Kept,
    out: &mut Emitted,
    code: &Code,
    at: At,
)
    requires fit { Fits (view_layout layout.now) (view code.now) at.temporary at.arrays at.exit }
    requires few { at.temporary ≤ most_places }
    ensures { Emits out.old out.new (dropped (view_layout layout.now)
        kept.old.forms kept.old.temporaries (view code.now) at.temporary at.arrays at.exit) }
{
    let form = evaluated(layout, kept, out, true, code, at);
    left_over(layout, out, code, form, at.temporary);
}

/// Where a statement's code is evaluated.
pub(crate) fn at_first(exit: u32) -> At
    ensures { result ≡ record { temporary = 0; arrays = 0; exit = exit } }
{
    At {
        temporary: 0,
        arrays: 0,
        exit,
    }
}

/// Adds code for what it does alone, in all cases, where nothing is kept.
fn done_alone(layout: &FunctionLayout<'_>, out: &mut Emitted, code: &Code, exit: u32)
    requires { Fits (view_layout layout.now) (view code.now) 0 0 exit }
    ensures { Emits out.old out.new
        (dropped (view_layout layout.now) [] [] (view code.now) 0 0 exit) }
{
    let mut kept = Kept::none(layout.alloc);
    dropped(layout, &mut kept, out, code, at_first(exit));
}

/// Adds a remainder that a name takes: by the module itself where no product leaves the range.
fn remainder_done(
    layout: &FunctionLayout<'_>,
    out: &mut Emitted,
    remainder: Remainder,
    code: &Code,
    exit: u32,
)
    requires labels { suc (suc (suc exit)) ≤ most_labels }
    requires remainder { RemainderFits (view_remainder remainder) }
    requires fit { Fits (view_layout layout.now) (view code.now) 0 0 (suc exit) }
    ensures { Emits out.old out.new
        (remainder_done (view_layout layout.now) (view_remainder remainder) (view code.now) exit) }
{
    let most = most_multiplied(remainder.multiple.factor);
    names_unsure(
        layout,
        out,
        remainder_names(layout.alloc, remainder),
        most,
        most + most,
    );
    let mut all_cases = Emitted::new(layout.alloc);
    done_alone(layout, &mut all_cases, code, exit + 1);
    let quick = remainder_code(layout, remainder);
    emit_if(layout.alloc, out, all_cases, quick);
}

/// Adds a sum that a name takes: by the module itself where all numbers are near.
fn sum_done(layout: &FunctionLayout<'_>, out: &mut Emitted, sum: Sum, exit: u32)
    requires labels { suc (suc (suc (suc exit))) ≤ most_labels }
    requires sum { SumFits (view_sum sum) }
    ensures { Emits out.old out.new
        (sum_done (view_layout layout.now) (view_sum sum) exit) }
{
    names_unsure(layout, out, sum_names(layout.alloc, sum), 1 << 52, 1 << 53);
    let mut all_cases = Emitted::new(layout.alloc);
    summed_anyway(layout, &mut all_cases, sum, exit + 1);
    let quick = sum_code(layout, sum);
    emit_if(layout.alloc, out, all_cases, quick);
}

/// Adds texts that are put behind a name's own, or what code does alone in all cases.
fn appended_done(layout: &FunctionLayout<'_>, out: &mut Emitted, code: &Code, exit: u32)
    requires labels { suc (suc (suc exit)) ≤ most_labels }
    requires fit { Fits (view_layout layout.now) (view code.now) 0 0 exit }
    ensures { Emits out.old out.new
        (appended_dropped (view_layout layout.now) (append_in (view code.now)) (view code.now) exit) }
{
    match append_in(code) {
        Some(append) => chain_appended(layout, out, append.target, append.chain, exit),
        None => done_alone(layout, out, code, exit),
    }
}

/// Adds code for what it does alone, where nothing is kept.
pub(crate) fn done(layout: &FunctionLayout<'_>, out: &mut Emitted, code: &Code, exit: u32)
    requires labels { suc (suc (suc (suc exit))) ≤ most_labels }
    requires fit { Fits (view_layout layout.now) (view code.now) 0 0 exit }
    ensures { Emits out.old out.new
        (quickly_dropped (view_layout layout.now) (sum_in (view code.now)) (view code.now) exit) }
{
    if let Some(sum) = sum_in(code) {
        return sum_done(layout, out, sum, exit);
    }
    if let Some(update) = update_in(code) {
        return updated(layout, out, update, exit);
    }
    if let Some(tally) = tally_in(code) {
        return tallied(layout, out, tally, exit);
    }
    match remainder_in(code) {
        Some(remainder) => remainder_done(layout, out, remainder, code, exit),
        None => appended_done(layout, out, code, exit),
    }
}

/// Adds code whose answer goes to the first temporary, where nothing is kept, and gives the form of the answer, on which what comes next may depend.
pub(crate) fn answered(
    layout: &FunctionLayout<'_>,
    out: &mut Emitted,
    code: &Code,
    exit: u32,
) -> Form
    requires { Fits (view_layout layout.now) (view code.now) 0 0 exit }
    ensures { (next : plain.Form → Instructions) (whole : Instructions)
        → Reads out.old (emitted (view_layout layout.now) false [] [] (view code.now) 0 0 exit
        (next (form_of [] (view code.now)))) whole
        → Reads out.new (next (view_form result)) whole }
{
    let mut kept = Kept::none(layout.alloc);
    evaluated(layout, &mut kept, out, false, code, at_first(exit))
}

/// Adds a test, whose truth is put on the stack.
pub(crate) fn tested(layout: &FunctionLayout<'_>, out: &mut Emitted, test: &Code, exit: u32)
    requires { Fits (view_layout layout.now) (view test.now) 0 0 exit }
    ensures { Emits out.old out.new
        (tested (view_layout layout.now) [] [] (view test.now) 0 0 exit) }
{
    let form = answered(layout, out, test, exit);
    truth(layout.alloc, layout.bases, out, form, 0);
}

/// Adds `exit` with a status: sets the status, and leaves the function by `exit`.
pub(crate) fn exit_with(layout: &FunctionLayout<'_>, out: &mut Emitted, code: &Code, exit: u32)
    requires fit { Fits (view_layout layout.now) (view code.now) 0 0 exit }
    requires labels { exit ≤ most_labels }
    ensures { Emits out.old out.new
        (λ after. emitted (view_layout layout.now) false [] [] (view code.now) 0 0 exit
        (status_left layout.now.bases.now (form_of [] (view code.now)) exit after)) }
{
    let form = answered(layout, out, code, exit);
    to_number(layout.alloc, layout.bases, out, form, 0, exit);
    let all = [
        Simple::LocalGet(layout.bases.number(0)),
        Simple::GlobalSet(1),
        Simple::I32Const(WAY_EXIT),
        Simple::GlobalSet(0),
        Simple::Br(exit),
    ];
    emit_all(out, &all);
}
