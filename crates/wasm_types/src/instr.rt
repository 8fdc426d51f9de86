//! Instructions (Core 1.0, section 2.4).

use crate::types::ValType;
use std::rc::Rc;

/// What a block gives: nothing, or one value.
pub type BlockType = Option<ValType>;

/// A test of one integer, with the result 0 or 1.
#[derive(Clone, Copy, Debug, PartialEq, Eq)]
pub enum ITestOp {
    Eqz,
}

/// An operator on one integer.
#[derive(Clone, Copy, Debug, PartialEq, Eq)]
pub enum IUnOp {
    Clz,
    Ctz,
    Popcnt,
}

/// An operator on two integers of one width.
#[derive(Clone, Copy, Debug, PartialEq, Eq)]
pub enum IBinOp {
    Add,
    Sub,
    Mul,
    DivS,
    DivU,
    RemS,
    RemU,
    And,
    Or,
    Xor,
    Shl,
    ShrS,
    ShrU,
    Rotl,
    Rotr,
}

/// A comparison of two integers of one width, with the result 0 or 1.
#[derive(Clone, Copy, Debug, PartialEq, Eq)]
pub enum IRelOp {
    Eq,
    Ne,
    LtS,
    LtU,
    GtS,
    GtU,
    LeS,
    LeU,
    GeS,
    GeU,
}

/// A conversion of one integer; `Extend8S` and the like take its low bits as two's complement (Core 2.0, section 2.4.1).
#[derive(Clone, Copy, PartialEq, Eq)]
pub enum CvtOp {
    I32WrapI64,
    I64ExtendI32S,
    I64ExtendI32U,
    I32Extend8S,
    I32Extend16S,
    I64Extend8S,
    I64Extend16S,
    I64Extend32S,
}

/// A load from memory.
#[derive(Clone, Copy, Debug, PartialEq, Eq)]
pub enum LoadOp {
    I32Load,
    I64Load,
    I32Load8S,
    I32Load8U,
    I32Load16S,
    I32Load16U,
    I64Load8S,
    I64Load8U,
    I64Load16S,
    I64Load16U,
    I64Load32S,
    I64Load32U,
}

/// A store to memory.
#[derive(Clone, Copy, Debug, PartialEq, Eq)]
pub enum StoreOp {
    I32Store,
    I64Store,
    I32Store8,
    I32Store16,
    I64Store8,
    I64Store16,
    I64Store32,
}

/// Where a load or a store takes place: the alignment hint, as a power of two, and what is added to the address.
#[derive(Clone, Copy, PartialEq, Eq)]
pub struct MemArg {
    pub align: u32,
    pub offset: u32,
}

/// An instruction without a body and without a list. Constants are bit patterns.
#[derive(Clone, Copy)]
pub enum Simple {
    Unreachable,
    Nop,
    Br(u32),
    BrIf(u32),
    Return,
    Call(u32),
    CallIndirect(u32),
    Drop,
    Select,
    LocalGet(u32),
    LocalSet(u32),
    LocalTee(u32),
    GlobalGet(u32),
    GlobalSet(u32),
    Load(LoadOp, MemArg),
    Store(StoreOp, MemArg),
    MemorySize,
    MemoryGrow,
    I32Const(u32),
    I64Const(u64),
    Test(ValType, ITestOp),
    Compare(ValType, IRelOp),
    Unary(ValType, IUnOp),
    Binary(ValType, IBinOp),
    Convert(CvtOp),
}

/// An instruction. Bodies are shared, so that who runs them can hold on to where it is without copying. The labels of a table are in a box, so that an
/// instruction is small: a module of 16 MiB may have as many.
#[derive(Drop)]
pub enum Instr {
    Plain(Simple),
    BrTable(Box<Vec<u32>>, u32),
    Block(BlockType, Rc<Vec<Instr>>),
    Loop(BlockType, Rc<Vec<Instr>>),
    If(BlockType, Rc<Vec<Instr>>, Rc<Vec<Instr>>),
}

const _: () = prove!(size_of::<Instr>() <= 24);
