//! What is there once code is evaluated.

ghost use Rattle.std.specs.Prelude.{◌≡◌};
ghost use Rattle.mid_program.specs.Mid.{PrimitiveAnswer, answer_by, slot_form};
ghost use Rattle.mid_program.specs.Sorted.{is_number};
ghost use Rattle.mid_program.specs.ViewCode.{view_slot};
ghost use Rattle.value_kinds.specs.Lanes.{is_plain};
ghost use Rattle.value_kinds.specs.View.{view_form};

use mid_program::{Operation, Slot};
use sem_primitives::{Answer, Sort};

/// What is there once code is evaluated.
#[derive(Clone, Copy)]
pub(crate) enum Form {
    /// What a primitive answers.
    PrimitiveAnswer(Answer),
    /// What an unboxed name has.
    NumberOrText,
    /// What an unboxed parameter is given where there is no argument.
    OptionalNumber,
}

/// Whether an answer is a number.
fn is_number(answer: Answer) -> bool
    ensures { result ≡ is_number (PrimitiveAnswer answer) }
{
    match answer {
        Answer::Of(Sort::Number) | Answer::Truth => true,
        Answer::Of(_)
        | Answer::Nothing
        | Answer::Done
        | Answer::Input
        | Answer::Assign
        | Answer::Stream
        | Answer::ValueOrEnd
        | Answer::Name => false,
    }
}

/// What an operation answers.
pub(crate) fn answer_by(operation: Operation) -> Answer
    ensures { result ≡ answer_by operation }
{
    match operation {
        Operation::Host(primitive) => primitive.answer(),
        Operation::Inline(_) | Operation::AsNumber | Operation::FieldNumber => Answer::Of(
            Sort::Number,
        ),
    }
}

impl Form {
    /// Whether it is a number.
    pub(crate) fn is_number(self) -> bool
        ensures { result ≡ is_number (view_form self) }
    {
        match self {
            Form::PrimitiveAnswer(answer) => is_number(answer),
            Form::NumberOrText | Form::OptionalNumber => false,
        }
    }

    /// Whether it is a number, or nothing.
    pub(crate) fn is_plain(self) -> bool
        ensures { result ≡ is_plain (view_form self) }
    {
        match self {
            Form::PrimitiveAnswer(answer) => is_number(answer),
            Form::OptionalNumber => true,
            Form::NumberOrText => false,
        }
    }

    /// What is read from a name.
    pub(crate) fn of_slot(slot: Slot) -> Form
        ensures { view_form result ≡ slot_form (view_slot slot) }
    {
        match slot {
            Slot::Global(true, _) | Slot::Parameter(true, _) => Form::NumberOrText,
            Slot::Global(false, _) | Slot::Parameter(false, _) => Form::PrimitiveAnswer(Answer::Of(
                Sort::Value,
            )),
        }
    }
}
