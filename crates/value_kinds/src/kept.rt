//! The forms of what is kept around code.

ghost use Rattle.std.specs.Prelude.{◌≡◌};
ghost use Rattle.mid_program.specs.Mid.{form_at};
ghost use Rattle.value_kinds.specs.View.{view_form, view_kept};

use crate::form::Form;
use sem_primitives::Answer;

/// What is kept while code is evaluated, the last one first.
#[derive(Clone, Copy)]
pub(crate) enum Kept<'a> {
    Nothing,
    /// Something of this form, and what was kept before it.
    Last(Form, &'a Kept<'a>),
}

/// The form of what was kept with so many others after it.
pub(crate) fn form_at<'a>(kept: &'a Kept<'a>, place: usize) -> Form
    ensures { view_form result ≡ form_at (view_kept kept.now) place }
{
    match kept {
        Kept::Nothing => Form::PrimitiveAnswer(Answer::Nothing),
        Kept::Last(form, before) => {
            if place == 0 {
                *form
            } else {
                form_at(before, place - 1)
            }
        }
    }
}
