//! Sections and modules.

ghost use Rattle.std.specs.Prelude.{◌≡◌, ◌≤◌, List, ℕ, length, map, IfOk, IfErr};
ghost use Rattle.wasm_types.specs.View.{view_module};
ghost use Rattle.wasm_types.specs.ModuleGrammar.{IsModule};
ghost use Rattle.module_writer.specs.declared.fault.WriteFault.TheVariants.{TooLarge};
ghost use Rattle.module_writer.specs.Outputs.{Adds};
ghost use Rattle.module_writer.specs.Writers.{Written};
ghost use Rattle.module_writer.specs.Writing.{section_to, vec_section_to, start_to, from_types_to};

use crate::entries::{Kind, entries};
use crate::entry_kinds::{
    Codes, DataSegments, Elems, Exports, FuncTypes, Globals, Imports, Memories, Tables, TypeIndices,
};
use crate::fault::WriteFault;
use crate::output::Output;
use std::alloc;
use wasm_types::{Module, SectionId};

/// "\0asm" and version 1.
const HEADER: [u8; 8] = [0x00, 0x61, 0x73, 0x6d, 0x01, 0x00, 0x00, 0x00];

// A section with these contents: they were written on their own, since their size stands before them.
fn section(out: &mut Output, id: SectionId, contents: Output)
    ensures { (empty : Output) (all : Written) → empty.refused ≡ None → Adds empty contents all
        → Adds out.old out.new (section_to id all out.old.bytes.items) }
{
    match contents.all() {
        Ok(bytes) => {
            out.byte(id.number());
            out.counted(&bytes);
        }
        Err(fault) => out.refuse(fault),
    }
}

// A section of entries, if there are any.
fn entry_section<K: Kind>(out: &mut Output, id: SectionId, all: &[K::Entry])
    ensures { Adds out.old out.new
        (vec_section_to id K.writes (map K.form all.now) out.old.bytes.items) }
{
    match all {
        [] => {}
        [_, ..] => {
            let mut contents = Output::new(out.alloc());
            entries::<K>(&mut contents, all);
            section(out, id, contents);
        }
    }
}

fn start_section(out: &mut Output, start: Option<u32>)
    ensures { Adds out.old out.new (start_to start out.old.bytes.items) }
{
    if let Some(n) = start {
        let mut contents = Output::new(out.alloc());
        contents.index(n);
        section(out, SectionId::Start, contents);
    }
}

// All sections that have something to tell.
fn sections(out: &mut Output, m: &Module)
    ensures { Adds out.old out.new (from_types_to (view_module m.now) out.old.bytes.items) }
{
    entry_section::<FuncTypes>(out, SectionId::Type, &m.types);
    entry_section::<Imports>(out, SectionId::Import, &m.imports);
    entry_section::<TypeIndices>(out, SectionId::Function, &m.funcs);
    entry_section::<Tables>(out, SectionId::Table, &m.tables);
    entry_section::<Memories>(out, SectionId::Memory, &m.memories);
    entry_section::<Globals>(out, SectionId::Global, &m.globals);
    entry_section::<Exports>(out, SectionId::Export, &m.exports);
    start_section(out, m.start);
    entry_section::<Elems>(out, SectionId::Element, &m.elems);
    entry_section::<Codes>(out, SectionId::Code, &m.funcs);
    entry_section::<DataSegments>(out, SectionId::Data, &m.data);
}

/// The bytes of a module (Core 1.0, section 5.5): the fewest that are its, without custom sections.
///
/// `TooLarge` where no bytes are the module's within the limits: it has more than 16 MiB of them, blocks nested more than 4,000 deep,
/// more than 50,000 locals in a function, more than 256 pages or more than 65,536 table elements at first. `NoMemory` where there was no memory.
pub fn write(alloc: alloc::Global, m: &Module) -> Result<Vec<u8>, WriteFault>
    ensures spelled { IfOk result (λ v. IsModule v.items (view_module m.now)) }
    ensures shortest { IfOk result (λ v. (other : List ℕ) → IsModule other (view_module m.now)
        → length v.items ≤ length other) }
    ensures refused { IfErr result
        (λ e. e ≡ TooLarge → (bytes : List ℕ) → IsModule bytes (view_module m.now) → ⊥) }
{
    let mut out = Output::new(alloc);
    out.bytes(&HEADER);
    sections(&mut out, m);
    out.limit();
    out.all()
}
