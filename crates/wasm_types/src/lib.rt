//! Modules of WebAssembly 1.0 as trees, without floating point, and the integers of their binary format.
#![tactic(auto)]

mod instr;
mod leb128;
mod locals;
mod module;
pub mod opcode_laws;
mod opcodes;
mod profile;
mod types;

pub use instr::{
    BlockType, CvtOp, IBinOp, IRelOp, ITestOp, IUnOp, Instr, LoadOp, MemArg, Simple, StoreOp,
};
pub use leb128::{
    push_s32, push_s64, push_u32, read_s32, read_s64, read_u32, take_s32, take_s64, take_u32,
    write_s32, write_s64, write_u32,
};
pub use locals::{Locals, Run};
pub use module::{Data, Elem, Export, ExportDesc, Func, Global, Import, Module, SectionId};
pub use opcodes::{IndexOp, Lead, lead_of, opcode};
pub use profile::{MAX_ELEMENTS, MAX_LOCALS, MAX_MODULE_BYTES, MAX_NESTING, MAX_PAGES};
pub use types::{FuncType, GlobalType, Limits, ValType};
