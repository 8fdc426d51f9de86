//! The limits of the profile: how much a module has at most that is written or read.

/// How many bytes a module has at most: 16 MiB.
pub const MAX_MODULE_BYTES: usize = 1 << 24;

/// How many blocks stand in one another at most, in one body.
pub const MAX_NESTING: u32 = 4_000;

/// How many locals a function has at most, its parameters aside.
pub const MAX_LOCALS: u32 = 50_000;

/// How many elements a table has at most at first.
pub const MAX_ELEMENTS: u32 = 65_536;

/// How many pages a memory has at most.
pub const MAX_PAGES: u32 = 256;
