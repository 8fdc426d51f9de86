//! The limits of the profile: how much a script may hold, read and open at most.

/// How many bytes a text has at most.
pub const MAX_TEXT: usize = 1 << 26;

/// How many fields a record has at most; so the number of the last one.
pub const MAX_FIELDS: usize = 1 << 20;

/// The number of the last operand that is reached.
pub const MAX_OPERANDS: u32 = 1 << 20;

/// How many streams are open by their names at most.
pub const MAX_STREAMS: usize = 256;
