//! The operations of the code.

use sem_primitives::Primitive;

/// An operator that the module carries out itself, with a check of the range.
#[derive(Clone, Copy, Drop)]
pub enum Arithmetic {
    Plus,
    Minus,
    Times,
    /// The quotient, which has to be whole.
    Over,
    Modulo,
    /// The quotient without its fraction.
    Truncated,
}

/// What is done with operands.
#[derive(Clone, Copy, Drop)]
pub enum Operation {
    /// The host does it.
    Host(Primitive),
    /// The module does it.
    Inline(Arithmetic),
    /// The operand's number.
    AsNumber,
    /// The same where it is the number of a field, else a fault.
    FieldNumber,
}
