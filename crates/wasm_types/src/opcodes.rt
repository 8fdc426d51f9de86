//! Opcodes (Core 1.0, section 5.4), both ways.

ghost use Rattle.std.specs.Prelude.{◌≡◌};
ghost use Rattle.wasm_types.specs.Opcodes.{opcode, test_opcode, compare_opcode, unary_opcode, binary_opcode, convert_opcode, load_opcode, store_opcode};
ghost use Rattle.wasm_types.specs.Leads.{lead_at, is_float, find_lead, control_leads, memory_leads, i32_leads, i64_leads, convert_leads, indexed};
ghost use Rattle.wasm_types.specs.declared.opcodes.Lead.TheVariants.{Unknown};

use crate::instr::{CvtOp, IBinOp, IRelOp, ITestOp, IUnOp, LoadOp, Simple, StoreOp};
use crate::types::ValType;

/// The instructions with one index and nothing else.
#[derive(Clone, Copy)]
pub enum IndexOp {
    Br,
    BrIf,
    Call,
    LocalGet,
    LocalSet,
    LocalTee,
    GlobalGet,
    GlobalSet,
}

impl IndexOp {
    /// The instruction with this index.
    pub fn with(self, n: u32) -> Simple
        ensures { result ≡ indexed self n }
    {
        match self {
            IndexOp::Br => Simple::Br(n),
            IndexOp::BrIf => Simple::BrIf(n),
            IndexOp::Call => Simple::Call(n),
            IndexOp::LocalGet => Simple::LocalGet(n),
            IndexOp::LocalSet => Simple::LocalSet(n),
            IndexOp::LocalTee => Simple::LocalTee(n),
            IndexOp::GlobalGet => Simple::GlobalGet(n),
            IndexOp::GlobalSet => Simple::GlobalSet(n),
        }
    }
}

/// What an opcode begins.
#[derive(Clone, Copy)]
pub enum Lead {
    /// An instruction without immediates.
    Bare(Simple),
    Index(IndexOp),
    Load(LoadOp),
    Store(StoreOp),
    I32Const,
    I64Const,
    CallIndirect,
    MemorySize,
    MemoryGrow,
    BrTable,
    Block,
    Loop,
    If,
    Else,
    End,
    /// An instruction on floating-point numbers.
    Float,
    /// No instruction.
    Unknown,
}

fn test_opcode(t: ValType, op: ITestOp) -> u8
    ensures { result ≡ test_opcode t op }
{
    let low = match op {
        ITestOp::Eqz => 0,
    };
    match t {
        ValType::I32 => 0x45 + low,
        ValType::I64 => 0x50 + low,
    }
}

fn compare_opcode(t: ValType, op: IRelOp) -> u8
    ensures { result ≡ compare_opcode t op }
{
    let low = match op {
        IRelOp::Eq => 0,
        IRelOp::Ne => 1,
        IRelOp::LtS => 2,
        IRelOp::LtU => 3,
        IRelOp::GtS => 4,
        IRelOp::GtU => 5,
        IRelOp::LeS => 6,
        IRelOp::LeU => 7,
        IRelOp::GeS => 8,
        IRelOp::GeU => 9,
    };
    match t {
        ValType::I32 => 0x46 + low,
        ValType::I64 => 0x51 + low,
    }
}

fn unary_opcode(t: ValType, op: IUnOp) -> u8
    ensures { result ≡ unary_opcode t op }
{
    let low = match op {
        IUnOp::Clz => 0,
        IUnOp::Ctz => 1,
        IUnOp::Popcnt => 2,
    };
    match t {
        ValType::I32 => 0x67 + low,
        ValType::I64 => 0x79 + low,
    }
}

fn binary_opcode(t: ValType, op: IBinOp) -> u8
    ensures { result ≡ binary_opcode t op }
{
    let low = match op {
        IBinOp::Add => 0,
        IBinOp::Sub => 1,
        IBinOp::Mul => 2,
        IBinOp::DivS => 3,
        IBinOp::DivU => 4,
        IBinOp::RemS => 5,
        IBinOp::RemU => 6,
        IBinOp::And => 7,
        IBinOp::Or => 8,
        IBinOp::Xor => 9,
        IBinOp::Shl => 10,
        IBinOp::ShrS => 11,
        IBinOp::ShrU => 12,
        IBinOp::Rotl => 13,
        IBinOp::Rotr => 14,
    };
    match t {
        ValType::I32 => 0x6a + low,
        ValType::I64 => 0x7c + low,
    }
}

fn convert_opcode(op: CvtOp) -> u8
    ensures { result ≡ convert_opcode op }
{
    match op {
        CvtOp::I32WrapI64 => 0xa7,
        CvtOp::I64ExtendI32S => 0xac,
        CvtOp::I64ExtendI32U => 0xad,
        CvtOp::I32Extend8S => 0xc0,
        CvtOp::I32Extend16S => 0xc1,
        CvtOp::I64Extend8S => 0xc2,
        CvtOp::I64Extend16S => 0xc3,
        CvtOp::I64Extend32S => 0xc4,
    }
}

fn load_opcode(op: LoadOp) -> u8
    ensures { result ≡ load_opcode op }
{
    match op {
        LoadOp::I32Load => 0x28,
        LoadOp::I64Load => 0x29,
        LoadOp::I32Load8S => 0x2c,
        LoadOp::I32Load8U => 0x2d,
        LoadOp::I32Load16S => 0x2e,
        LoadOp::I32Load16U => 0x2f,
        LoadOp::I64Load8S => 0x30,
        LoadOp::I64Load8U => 0x31,
        LoadOp::I64Load16S => 0x32,
        LoadOp::I64Load16U => 0x33,
        LoadOp::I64Load32S => 0x34,
        LoadOp::I64Load32U => 0x35,
    }
}

fn store_opcode(op: StoreOp) -> u8
    ensures { result ≡ store_opcode op }
{
    match op {
        StoreOp::I32Store => 0x36,
        StoreOp::I64Store => 0x37,
        StoreOp::I32Store8 => 0x3a,
        StoreOp::I32Store16 => 0x3b,
        StoreOp::I64Store8 => 0x3c,
        StoreOp::I64Store16 => 0x3d,
        StoreOp::I64Store32 => 0x3e,
    }
}

/// The first byte of an instruction.
pub fn opcode(instr: Simple) -> u8
    ensures { result ≡ opcode instr }
{
    match instr {
        Simple::Unreachable => 0x00,
        Simple::Nop => 0x01,
        Simple::Return => 0x0f,
        Simple::Drop => 0x1a,
        Simple::Select => 0x1b,
        Simple::Br(_) => 0x0c,
        Simple::BrIf(_) => 0x0d,
        Simple::Call(_) => 0x10,
        Simple::LocalGet(_) => 0x20,
        Simple::LocalSet(_) => 0x21,
        Simple::LocalTee(_) => 0x22,
        Simple::GlobalGet(_) => 0x23,
        Simple::GlobalSet(_) => 0x24,
        Simple::CallIndirect(_) => 0x11,
        Simple::Load(op, _) => load_opcode(op),
        Simple::Store(op, _) => store_opcode(op),
        Simple::MemorySize => 0x3f,
        Simple::MemoryGrow => 0x40,
        Simple::I32Const(_) => 0x41,
        Simple::I64Const(_) => 0x42,
        Simple::Test(t, op) => test_opcode(t, op),
        Simple::Compare(t, op) => compare_opcode(t, op),
        Simple::Unary(t, op) => unary_opcode(t, op),
        Simple::Binary(t, op) => binary_opcode(t, op),
        Simple::Convert(op) => convert_opcode(op),
    }
}

fn is_float(byte: u8) -> bool
    ensures { result ≡ is_float byte }
{
    byte == 0x2a
        || byte == 0x2b
        || byte == 0x38
        || byte == 0x39
        || byte == 0x43
        || byte == 0x44
        || (0x5b <= byte && byte <= 0x66)
        || (0x8b <= byte && byte <= 0xa6)
        || (0xa8 <= byte && byte <= 0xab)
        || (0xae <= byte && byte <= 0xbf)
}

fn control_of(byte: u8) -> Lead
    ensures { result ≡ find_lead control_leads (find_lead memory_leads (find_lead i32_leads
        (find_lead i64_leads (find_lead convert_leads Unknown byte) byte) byte) byte) byte }
{
    match byte {
        0x00 => Lead::Bare(Simple::Unreachable),
        0x01 => Lead::Bare(Simple::Nop),
        0x02 => Lead::Block,
        0x03 => Lead::Loop,
        0x04 => Lead::If,
        0x05 => Lead::Else,
        0x0b => Lead::End,
        0x0c => Lead::Index(IndexOp::Br),
        0x0d => Lead::Index(IndexOp::BrIf),
        0x0e => Lead::BrTable,
        0x0f => Lead::Bare(Simple::Return),
        0x10 => Lead::Index(IndexOp::Call),
        0x11 => Lead::CallIndirect,
        0x1a => Lead::Bare(Simple::Drop),
        0x1b => Lead::Bare(Simple::Select),
        0x20 => Lead::Index(IndexOp::LocalGet),
        0x21 => Lead::Index(IndexOp::LocalSet),
        0x22 => Lead::Index(IndexOp::LocalTee),
        0x23 => Lead::Index(IndexOp::GlobalGet),
        0x24 => Lead::Index(IndexOp::GlobalSet),
        _ => memory_of(byte),
    }
}

fn memory_of(byte: u8) -> Lead
    ensures { result ≡ find_lead memory_leads (find_lead i32_leads
        (find_lead i64_leads (find_lead convert_leads Unknown byte) byte) byte) byte }
{
    match byte {
        0x28 => Lead::Load(LoadOp::I32Load),
        0x29 => Lead::Load(LoadOp::I64Load),
        0x2c => Lead::Load(LoadOp::I32Load8S),
        0x2d => Lead::Load(LoadOp::I32Load8U),
        0x2e => Lead::Load(LoadOp::I32Load16S),
        0x2f => Lead::Load(LoadOp::I32Load16U),
        0x30 => Lead::Load(LoadOp::I64Load8S),
        0x31 => Lead::Load(LoadOp::I64Load8U),
        0x32 => Lead::Load(LoadOp::I64Load16S),
        0x33 => Lead::Load(LoadOp::I64Load16U),
        0x34 => Lead::Load(LoadOp::I64Load32S),
        0x35 => Lead::Load(LoadOp::I64Load32U),
        0x36 => Lead::Store(StoreOp::I32Store),
        0x37 => Lead::Store(StoreOp::I64Store),
        0x3a => Lead::Store(StoreOp::I32Store8),
        0x3b => Lead::Store(StoreOp::I32Store16),
        0x3c => Lead::Store(StoreOp::I64Store8),
        0x3d => Lead::Store(StoreOp::I64Store16),
        0x3e => Lead::Store(StoreOp::I64Store32),
        0x3f => Lead::MemorySize,
        0x40 => Lead::MemoryGrow,
        0x41 => Lead::I32Const,
        0x42 => Lead::I64Const,
        _ => i32_of(byte),
    }
}

fn i32_of(byte: u8) -> Lead
    ensures { result ≡ find_lead i32_leads
        (find_lead i64_leads (find_lead convert_leads Unknown byte) byte) byte }
{
    match byte {
        0x45 => Lead::Bare(Simple::Test(ValType::I32, ITestOp::Eqz)),
        0x46 => Lead::Bare(Simple::Compare(ValType::I32, IRelOp::Eq)),
        0x47 => Lead::Bare(Simple::Compare(ValType::I32, IRelOp::Ne)),
        0x48 => Lead::Bare(Simple::Compare(ValType::I32, IRelOp::LtS)),
        0x49 => Lead::Bare(Simple::Compare(ValType::I32, IRelOp::LtU)),
        0x4a => Lead::Bare(Simple::Compare(ValType::I32, IRelOp::GtS)),
        0x4b => Lead::Bare(Simple::Compare(ValType::I32, IRelOp::GtU)),
        0x4c => Lead::Bare(Simple::Compare(ValType::I32, IRelOp::LeS)),
        0x4d => Lead::Bare(Simple::Compare(ValType::I32, IRelOp::LeU)),
        0x4e => Lead::Bare(Simple::Compare(ValType::I32, IRelOp::GeS)),
        0x4f => Lead::Bare(Simple::Compare(ValType::I32, IRelOp::GeU)),
        0x67 => Lead::Bare(Simple::Unary(ValType::I32, IUnOp::Clz)),
        0x68 => Lead::Bare(Simple::Unary(ValType::I32, IUnOp::Ctz)),
        0x69 => Lead::Bare(Simple::Unary(ValType::I32, IUnOp::Popcnt)),
        0x6a => Lead::Bare(Simple::Binary(ValType::I32, IBinOp::Add)),
        0x6b => Lead::Bare(Simple::Binary(ValType::I32, IBinOp::Sub)),
        0x6c => Lead::Bare(Simple::Binary(ValType::I32, IBinOp::Mul)),
        0x6d => Lead::Bare(Simple::Binary(ValType::I32, IBinOp::DivS)),
        0x6e => Lead::Bare(Simple::Binary(ValType::I32, IBinOp::DivU)),
        0x6f => Lead::Bare(Simple::Binary(ValType::I32, IBinOp::RemS)),
        0x70 => Lead::Bare(Simple::Binary(ValType::I32, IBinOp::RemU)),
        0x71 => Lead::Bare(Simple::Binary(ValType::I32, IBinOp::And)),
        0x72 => Lead::Bare(Simple::Binary(ValType::I32, IBinOp::Or)),
        0x73 => Lead::Bare(Simple::Binary(ValType::I32, IBinOp::Xor)),
        0x74 => Lead::Bare(Simple::Binary(ValType::I32, IBinOp::Shl)),
        0x75 => Lead::Bare(Simple::Binary(ValType::I32, IBinOp::ShrS)),
        0x76 => Lead::Bare(Simple::Binary(ValType::I32, IBinOp::ShrU)),
        0x77 => Lead::Bare(Simple::Binary(ValType::I32, IBinOp::Rotl)),
        0x78 => Lead::Bare(Simple::Binary(ValType::I32, IBinOp::Rotr)),
        _ => i64_of(byte),
    }
}

fn i64_of(byte: u8) -> Lead
    ensures { result ≡ find_lead i64_leads (find_lead convert_leads Unknown byte) byte }
{
    match byte {
        0x50 => Lead::Bare(Simple::Test(ValType::I64, ITestOp::Eqz)),
        0x51 => Lead::Bare(Simple::Compare(ValType::I64, IRelOp::Eq)),
        0x52 => Lead::Bare(Simple::Compare(ValType::I64, IRelOp::Ne)),
        0x53 => Lead::Bare(Simple::Compare(ValType::I64, IRelOp::LtS)),
        0x54 => Lead::Bare(Simple::Compare(ValType::I64, IRelOp::LtU)),
        0x55 => Lead::Bare(Simple::Compare(ValType::I64, IRelOp::GtS)),
        0x56 => Lead::Bare(Simple::Compare(ValType::I64, IRelOp::GtU)),
        0x57 => Lead::Bare(Simple::Compare(ValType::I64, IRelOp::LeS)),
        0x58 => Lead::Bare(Simple::Compare(ValType::I64, IRelOp::LeU)),
        0x59 => Lead::Bare(Simple::Compare(ValType::I64, IRelOp::GeS)),
        0x5a => Lead::Bare(Simple::Compare(ValType::I64, IRelOp::GeU)),
        0x79 => Lead::Bare(Simple::Unary(ValType::I64, IUnOp::Clz)),
        0x7a => Lead::Bare(Simple::Unary(ValType::I64, IUnOp::Ctz)),
        0x7b => Lead::Bare(Simple::Unary(ValType::I64, IUnOp::Popcnt)),
        0x7c => Lead::Bare(Simple::Binary(ValType::I64, IBinOp::Add)),
        0x7d => Lead::Bare(Simple::Binary(ValType::I64, IBinOp::Sub)),
        0x7e => Lead::Bare(Simple::Binary(ValType::I64, IBinOp::Mul)),
        0x7f => Lead::Bare(Simple::Binary(ValType::I64, IBinOp::DivS)),
        0x80 => Lead::Bare(Simple::Binary(ValType::I64, IBinOp::DivU)),
        0x81 => Lead::Bare(Simple::Binary(ValType::I64, IBinOp::RemS)),
        0x82 => Lead::Bare(Simple::Binary(ValType::I64, IBinOp::RemU)),
        0x83 => Lead::Bare(Simple::Binary(ValType::I64, IBinOp::And)),
        0x84 => Lead::Bare(Simple::Binary(ValType::I64, IBinOp::Or)),
        0x85 => Lead::Bare(Simple::Binary(ValType::I64, IBinOp::Xor)),
        0x86 => Lead::Bare(Simple::Binary(ValType::I64, IBinOp::Shl)),
        0x87 => Lead::Bare(Simple::Binary(ValType::I64, IBinOp::ShrS)),
        0x88 => Lead::Bare(Simple::Binary(ValType::I64, IBinOp::ShrU)),
        0x89 => Lead::Bare(Simple::Binary(ValType::I64, IBinOp::Rotl)),
        0x8a => Lead::Bare(Simple::Binary(ValType::I64, IBinOp::Rotr)),
        _ => convert_of(byte),
    }
}

fn convert_of(byte: u8) -> Lead
    ensures { result ≡ find_lead convert_leads Unknown byte }
{
    match byte {
        0xa7 => Lead::Bare(Simple::Convert(CvtOp::I32WrapI64)),
        0xac => Lead::Bare(Simple::Convert(CvtOp::I64ExtendI32S)),
        0xad => Lead::Bare(Simple::Convert(CvtOp::I64ExtendI32U)),
        0xc0 => Lead::Bare(Simple::Convert(CvtOp::I32Extend8S)),
        0xc1 => Lead::Bare(Simple::Convert(CvtOp::I32Extend16S)),
        0xc2 => Lead::Bare(Simple::Convert(CvtOp::I64Extend8S)),
        0xc3 => Lead::Bare(Simple::Convert(CvtOp::I64Extend16S)),
        0xc4 => Lead::Bare(Simple::Convert(CvtOp::I64Extend32S)),
        _ => Lead::Unknown,
    }
}

/// What the byte begins.
#[tactic(auto, unfolding(crate::specs::Leads::lead_at))]
pub fn lead_of(byte: u8) -> Lead
    ensures { result ≡ lead_at byte }
{
    if is_float(byte) {
        Lead::Float
    } else {
        control_of(byte)
    }
}
