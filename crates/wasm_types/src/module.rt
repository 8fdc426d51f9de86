//! Modules (Core 1.0, section 2.5).
ghost use Rattle.std.specs.Prelude.{◌≡◌};
ghost use Rattle.wasm_types.specs.ModuleGrammar.{number};

use crate::instr::Instr;
use crate::locals::Locals;
use crate::types::{FuncType, GlobalType, Limits};
use std::rc::Rc;

/// A function: the index of its type, the types of its locals behind the parameters, and its body.
#[derive(Drop)]
pub struct Func {
    pub ty: u32,
    pub locals: Locals,
    pub body: Rc<Vec<Instr>>,
}

/// A global, and the expression that gives its first value.
#[derive(Drop)]
pub struct Global {
    pub ty: GlobalType,
    pub init: Vec<Instr>,
}

/// Functions that are put into a table from an offset on.
#[derive(Drop)]
pub struct Elem {
    pub table: u32,
    pub offset: Vec<Instr>,
    pub init: Vec<u32>,
}

/// Bytes that are put into a memory from an offset on.
#[derive(Drop)]
pub struct Data {
    pub memory: u32,
    pub offset: Vec<Instr>,
    pub init: Vec<u8>,
}

/// What an export gives access to.
#[derive(Clone, Copy)]
pub enum ExportDesc {
    Func(u32),
    Table(u32),
    Memory(u32),
    Global(u32),
}

/// The sections that are not custom, in their order.
#[derive(Clone, Copy)]
pub enum SectionId {
    Type,
    Import,
    Function,
    Table,
    Memory,
    Global,
    Export,
    Start,
    Element,
    Code,
    Data,
}

impl SectionId {
    /// The number that a section begins with.
    pub fn number(self) -> u8
        ensures { result ≡ number self }
    {
        match self {
            SectionId::Type => 1,
            SectionId::Import => 2,
            SectionId::Function => 3,
            SectionId::Table => 4,
            SectionId::Memory => 5,
            SectionId::Global => 6,
            SectionId::Export => 7,
            SectionId::Start => 8,
            SectionId::Element => 9,
            SectionId::Code => 10,
            SectionId::Data => 11,
        }
    }
}

/// An export.
#[derive(Drop)]
pub struct Export {
    pub name: String,
    pub desc: ExportDesc,
}

/// An imported function: the names of its module and of itself, and the index of its type.
#[derive(Drop)]
pub struct Import {
    pub module: String,
    pub name: String,
    pub ty: u32,
}

/// A module. Its imports are functions.
#[derive(Drop)]
pub struct Module {
    pub types: Vec<FuncType>,
    pub imports: Vec<Import>,
    pub funcs: Vec<Func>,
    pub tables: Vec<Limits>,
    pub memories: Vec<Limits>,
    pub globals: Vec<Global>,
    pub exports: Vec<Export>,
    pub start: Option<u32>,
    pub elems: Vec<Elem>,
    pub data: Vec<Data>,
}
