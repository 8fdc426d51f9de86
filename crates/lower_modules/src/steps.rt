//! What the code of statements needs.
ghost use Rattle.std.specs.Prelude.{◌≡◌, is_some, ℕ, max};
ghost use Rattle.lower_modules.specs.Counted.{counted};
ghost use Rattle.lower_modules.specs.Labels.{choice_labels, chosen_labels, labels_in, loop_labels, more_if, return_labels, step_labels, steps_labels};
ghost use Rattle.mid_program.specs.ViewCode.{view, view_step, view_steps};
ghost use Rattle.lower_model.specs.Quick.{pair_in};
ghost use Rattle.lower_model.specs.Places.{arrays_in, room, step_arrays, step_iterators, step_room, steps_arrays, steps_iterators, steps_room};

use crate::code::counts_in;
use crate::counts::{Counts, both, inside, later, more_if, one_if, only, walking};
use lower_quick::{pair_in, step_jumps, sum_in};
use mid_program::{Code, Step};
use sem_primitives::Sort;

/// What a test needs: where it has a quick way, the code of all cases stands beside that.
fn test_counts(test: &Code) -> Counts
    ensures temporaries { result.temporaries ≡ counted (room (view test.now)) }
    ensures arrays { result.arrays ≡ counted (arrays_in (view test.now)) }
    ensures iterators { result.iterators ≡ 0 }
    ensures labels { result.labels
        ≡ counted (more_if (is_some (pair_in (view test.now))) (labels_in (view test.now))) }
{
    more_if(pair_in(test).is_some(), counts_in(test))
}

/// What a choice needs, by whether its test has a quick way.
fn choice_counts(quick: bool, test: Counts, yes: Counts, no: Counts) -> Counts
    ensures temporaries { result.temporaries
        ≡ max test.temporaries (max yes.temporaries no.temporaries) }
    ensures arrays { result.arrays ≡ max test.arrays (max yes.arrays no.arrays) }
    ensures iterators { result.iterators ≡ max test.iterators (max yes.iterators no.iterators) }
    ensures labels { (tested taken other : ℕ) → test.labels ≡ counted tested
        → yes.labels ≡ counted taken → no.labels ≡ counted other
        → result.labels ≡ counted (choice_labels quick tested taken other) }
{
    if quick {
        both(inside(test, 3), inside(both(inside(yes, 1), no), 1))
    } else {
        both(test, inside(both(yes, no), 1))
    }
}

/// What is chosen for `return` needs, by whether its test has a quick way.
fn chosen_counts(quick: bool, test: Counts, yes: Counts, no: Counts) -> Counts
    ensures temporaries { result.temporaries
        ≡ max test.temporaries (max yes.temporaries no.temporaries) }
    ensures arrays { result.arrays ≡ max test.arrays (max yes.arrays no.arrays) }
    ensures iterators { result.iterators ≡ max test.iterators (max yes.iterators no.iterators) }
    ensures labels { (tested taken other : ℕ) → test.labels ≡ counted tested
        → yes.labels ≡ counted taken → no.labels ≡ counted other
        → result.labels ≡ counted (chosen_labels quick tested taken other) }
{
    if quick {
        both(inside(test, 2), both(inside(yes, 1), no))
    } else {
        both(test, inside(both(yes, no), 1))
    }
}

/// What `return` needs.
fn return_counts(code: &Code) -> Counts
    ensures temporaries { result.temporaries ≡ counted (room (view code.now)) }
    ensures arrays { result.arrays ≡ counted (arrays_in (view code.now)) }
    ensures iterators { result.iterators ≡ 0 }
    ensures labels { result.labels ≡ counted (return_labels (view code.now)) }
{
    match code {
        Code::Choose(sort, test, yes, no) => match *sort {
            Sort::Value => {
                let quick = pair_in(test).is_some();
                chosen_counts(
                    quick,
                    counts_in(test),
                    return_counts(yes),
                    return_counts(no),
                )
            }
            Sort::Number | Sort::Array | Sort::Iterator => counts_in(code),
        },
        _ => counts_in(code),
    }
}

/// What a loop needs: what its test, its body and its last part need stands in two labels.
fn loop_counts(test: Counts, body: Counts, last: Counts) -> Counts
    ensures temporaries { result.temporaries
        ≡ max test.temporaries (max body.temporaries last.temporaries) }
    ensures arrays { result.arrays ≡ max test.arrays (max body.arrays last.arrays) }
    ensures iterators { result.iterators ≡ max test.iterators (max body.iterators last.iterators) }
    ensures labels { (tested within behind : ℕ) → test.labels ≡ counted tested
        → body.labels ≡ counted within → last.labels ≡ counted behind
        → result.labels ≡ counted (loop_labels tested within behind) }
{
    both(inside(test, 2), both(inside(body, 2), inside(last, 2)))
}

/// What a statement needs.
#[cycle(step_counts)]
fn step_counts(step: &Step) -> Counts
    ensures temporaries { result.temporaries ≡ counted (step_room (view_step step.now)) }
    ensures arrays { result.arrays ≡ counted (step_arrays (view_step step.now)) }
    ensures iterators { result.iterators ≡ counted (step_iterators (view_step step.now)) }
    ensures labels { result.labels ≡ counted (step_labels (view_step step.now)) }
{
    match step {
        Step::Eval(code) => one_if(sum_in(code).is_some(), counts_in(code)),
        Step::Block(steps) => steps_counts(steps),
        Step::If(test, yes, no) => {
            let quick = pair_in(test).is_some();
            choice_counts(quick, counts_in(test), step_counts(yes), step_counts(no))
        }
        Step::Loop(true, test, body, last) => {
            let body = more_if(step_jumps(body), step_counts(body));
            loop_counts(test_counts(test), body, step_counts(last))
        }
        Step::Loop(false, test, body, last) => {
            let body = inside(step_counts(body), 1);
            loop_counts(counts_in(test), body, step_counts(last))
        }
        Step::Each(_, store, body) => both(
            inside(later(counts_in(store)), 2),
            inside(walking(step_counts(body)), 3),
        ),
        Step::Break | Step::Continue | Step::Next | Step::Exit | Step::Mark(_, _) => only(0),
        Step::ExitWith(code) => counts_in(code),
        Step::Return(code) => return_counts(code),
    }
}

/// What statements need.
#[cycle(step_counts)]
pub(crate) fn steps_counts(steps: &[Step]) -> Counts
    ensures temporaries { result.temporaries ≡ counted (steps_room (view_steps steps.now)) }
    ensures arrays { result.arrays ≡ counted (steps_arrays (view_steps steps.now)) }
    ensures iterators { result.iterators ≡ counted (steps_iterators (view_steps steps.now)) }
    ensures labels { result.labels ≡ counted (steps_labels (view_steps steps.now)) }
{
    let mut most = only(0);
    for step in steps {
        most = both(most, step_counts(step));
    }
    most
}

/// How many labels more than around their beginning stand around parts of statements.
pub fn steps_labels(steps: &[Step]) -> u32
    ensures { result ≡ counted (steps_labels (view_steps steps.now)) }
{
    steps_counts(steps).labels
}
