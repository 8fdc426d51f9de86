//! What stands in a temporary.

use sem_primitives::Answer;

/// What code leaves in its temporary.
#[derive(Clone, Copy, Drop)]
pub enum Form {
    /// What a primitive answers.
    PrimitiveAnswer(Answer),
    /// What an unboxed name has: a number or nothing, and perhaps a text beside it.
    NumberOrText,
    /// What an unboxed parameter is given: a number or nothing.
    OptionalNumber,
}
