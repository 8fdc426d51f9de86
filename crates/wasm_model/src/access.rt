//! Accesses to what the functions of an instance share.

use wasm_types::{LoadOp, StoreOp};

/// An access to globals or memory. Loads and stores carry their offset.
#[derive(Clone, Copy)]
pub enum Access {
    GlobalGet(u32),
    GlobalSet(u32),
    Load(LoadOp, u32),
    Store(StoreOp, u32),
    MemorySize,
    MemoryGrow,
}
