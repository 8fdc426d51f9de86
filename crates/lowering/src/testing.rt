//! Tests of loops and of choices: where one does not hold, code is left to a label.
ghost use Rattle.std.specs.Prelude.{◌≤◌, suc};
ghost use Rattle.mid_program.specs.ViewCode.{view};
ghost use Rattle.lower_model.specs.Quick.{pair_in, test_within};
ghost use Rattle.lower_model.specs.Statements.{left_unless, left_unless_pair};
ghost use Rattle.lower_pieces.specs.Bounds.{most_labels};
ghost use Rattle.lower_pieces.specs.Emits.{Emits, Holds};
ghost use Rattle.lower_expressions.specs.Fits.{Fits};
ghost use Rattle.lower_expressions.specs.Sources.{HolderFits};
ghost use Rattle.lower_expressions.specs.View.{view_layout};
ghost use Rattle.lower_quick.specs.View.{view_counted, view_holder, view_pair, view_within};
ghost use Rattle.lowering.specs.Parts.{counted_tested, pair_tested, test_left, within_tested};
ghost use Rattle.lowering.specs.QuickFits.{PairFits};
ghost use Rattle.lowering.specs.StepFits.{TestFits};

use crate::evaluating::tested;
use crate::quick::{counted_code, names_unsure, pair_code, unnumbered, unsure};
use awk_text::MAX_NUMBER;
use lower_expressions::FunctionLayout;
use lower_pieces::{Emitted, emit_all, emit_if, when};
use lower_quick::{Counted, Pair, Within, counted_in, pair_in, pair_names, test_within};
use mid_program::Code;
use wasm_types::{ITestOp, Simple, ValType};

/// Adds a test in all cases, and leaves to a label where it does not hold.
fn test_left(layout: &FunctionLayout<'_>, out: &mut Emitted, test: &Code, exit: u32, label: u32)
    requires { Fits (view_layout layout.now) (view test.now) 0 0 exit }
    ensures { Emits out.old out.new
        (test_left (view_layout layout.now) (view test.now) exit label) }
{
    tested(layout, out, test, exit);
    let all = [
        Simple::Test(ValType::I32, ITestOp::Eqz),
        Simple::BrIf(label),
    ];
    emit_all(out, &all);
}

/// The same in a list of its own, from within one label more.
fn test_code(layout: &FunctionLayout<'_>, test: &Code, exit: u32, label: u32) -> Emitted
    requires labels { suc exit ≤ most_labels }
    requires label { label ≤ exit }
    requires fit { Fits (view_layout layout.now) (view test.now) 0 0 (suc exit) }
    ensures { Holds result
        (test_left (view_layout layout.now) (view test.now) (suc exit) (suc label)) }
{
    let mut code = Emitted::new(layout.alloc);
    test_left(layout, &mut code, test, exit + 1, label + 1);
    code
}

/// Adds a comparison of sources: by the module itself where their numbers are in range.
fn pair_tested(
    layout: &FunctionLayout<'_>,
    out: &mut Emitted,
    pair: Pair,
    test: &Code,
    exit: u32,
    label: u32,
)
    requires labels { suc exit ≤ most_labels }
    requires label { label ≤ exit }
    requires pair { PairFits (view_pair pair) }
    requires fit { Fits (view_layout layout.now) (view test.now) 0 0 (suc exit) }
    ensures { Emits out.old out.new
        (pair_tested (view_layout layout.now) (view_pair pair) (view test.now) exit label) }
{
    names_unsure(
        layout,
        out,
        pair_names(layout.alloc, pair),
        MAX_NUMBER,
        1 << 54,
    );
    let all_cases = test_code(layout, test, exit, label);
    let quick = pair_code(layout, pair, label);
    emit_if(layout.alloc, out, all_cases, quick);
}

/// Adds a comparison of a name with how many fields there are: of two numbers where the name has one.
fn counted_tested(
    layout: &FunctionLayout<'_>,
    out: &mut Emitted,
    counted: Counted,
    test: &Code,
    exit: u32,
    label: u32,
)
    requires labels { suc exit ≤ most_labels }
    requires label { label ≤ exit }
    requires name { HolderFits (view_holder counted.name) }
    requires fit { Fits (view_layout layout.now) (view test.now) 0 0 (suc exit) }
    ensures { Emits out.old out.new (counted_tested
        (view_layout layout.now) (view_counted counted) (view test.now) exit label) }
{
    unnumbered(layout, out, counted.name);
    let all_cases = test_code(layout, test, exit, label);
    let quick = counted_code(layout, counted, label);
    emit_if(layout.alloc, out, all_cases, quick);
}

/// Adds a test that may compare sources, or a name with how many fields there are, and leaves to a label where it does not hold.
pub(crate) fn left_unless_pair(
    layout: &FunctionLayout<'_>,
    out: &mut Emitted,
    test: &Code,
    exit: u32,
    label: u32,
)
    requires labels { suc exit ≤ most_labels }
    requires label { label ≤ exit }
    requires fit { TestFits (view_layout layout.now) (view test.now) exit }
    ensures { Emits out.old out.new (left_unless_pair
        (view_layout layout.now) (pair_in (view test.now)) (view test.now) exit label) }
{
    if let Some(pair) = pair_in(test) {
        return pair_tested(layout, out, pair, test, exit, label);
    }
    match counted_in(test) {
        Some(counted) => counted_tested(layout, out, counted, test, exit, label),
        None => test_left(layout, out, test, exit, label),
    }
}

/// Adds a test that holds of some numbers of a name.
fn within_tested(
    layout: &FunctionLayout<'_>,
    out: &mut Emitted,
    within: Within,
    test: &Code,
    exit: u32,
    label: u32,
)
    requires labels { suc exit ≤ most_labels }
    requires label { label ≤ exit }
    requires name { HolderFits (view_holder within.name) }
    requires fit { Fits (view_layout layout.now) (view test.now) 0 0 (suc exit) }
    ensures { Emits out.old out.new
        (within_tested (view_layout layout.now) (view_within within) (view test.now) exit label) }
{
    unsure(layout, out, within);
    let all_cases = test_code(layout, test, exit, label);
    when(layout.alloc, out, all_cases);
}

/// Adds a test, and leaves to a label where it does not hold.
pub(crate) fn left_unless(
    layout: &FunctionLayout<'_>,
    out: &mut Emitted,
    test: &Code,
    exit: u32,
    label: u32,
)
    requires labels { suc exit ≤ most_labels }
    requires label { label ≤ exit }
    requires fit { TestFits (view_layout layout.now) (view test.now) exit }
    ensures { Emits out.old out.new (left_unless (view_layout layout.now)
        (test_within (view test.now)) (view test.now) exit label) }
{
    match test_within(test) {
        Some(within) => within_tested(layout, out, within, test, exit, label),
        None => left_unless_pair(layout, out, test, exit, label),
    }
}
