//! Traps.

/// Why a run of a module traps. The last three are told by the host alone.
#[derive(Clone, Copy, Debug, PartialEq, Eq)]
pub enum TrapKind {
    /// The instruction `unreachable`.
    Unreachable,
    /// A division or a remainder by 0.
    DivideByZero,
    /// A quotient that is no integer of its width.
    IntegerOverflow,
    /// A load or a store past the end of the memory.
    MemoryBounds,
    /// An indirect call past the end of the table.
    TableBounds,
    /// An indirect call by an element that names no function.
    EmptyElement,
    /// An indirect call of a function of another type.
    WrongType,
    /// A handle, array or iterator that is not there.
    BadHandle,
    /// A place outside the memory.
    BadPointer,
    /// Another argument that does not fit.
    BadArgument,
}
