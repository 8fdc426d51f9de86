//! Sections and modules.

ghost use Rattle.std.specs.Prelude.{◌≡◌, ◌-◌, ◌+◌, Some, None, MatchResult, MatchOption, IfOk, Ok, Err, map, length, [], ◌∷◌, ◌≤◌};
ghost use Rattle.std.specs.List.{All};
ghost use Rattle.wasm_types.specs.Instructions.{depths};
ghost use Rattle.wasm_types.specs.Syntax.{ModuleForm};
ghost use Rattle.wasm_types.specs.View.{view_func, view_module};
ghost use Rattle.wasm_types.specs.declared.module.SectionId.TheVariants as section_id;
ghost use Rattle.wasm_types.specs.ModuleGrammar.{no_parts, joined, module_of, IsModule};
ghost use Rattle.wasm_types.specs.Profile.{most_nesting};
ghost use Rattle.module_decoder.specs.View.{view_code, view_parts, view_progress};
ghost use Rattle.module_decoder.specs.Readers.{Gives, Fails};
ghost use Rattle.module_decoder.specs.Readings.{Reads};
ghost use Rattle.module_decoder.specs.Reading.{made_frame, section_by, part_at, Frame, frame_at, section_at, sections_at, custom_at, known_by, finished_by, after_header, module_at};

use crate::basics::{Span, unfinished};
use crate::body::{Body, held};
use crate::entries::{Indices, fill};
use crate::entry_kinds::{
    Code, Codes, DataSegments, Elems, Exports, FuncTypes, Globals, Imports, Memories, Tables,
};
use crate::fault::DecodeFault;
use crate::reader::Reader;
use latched::{push, shared};
use std::alloc::{AllocError, Global};
use wasm_types::{
    Data, Elem, Export, Func, FuncType, Import, Limits, MAX_MODULE_BYTES, Module, SectionId,
    take_u32,
};

/// "\0asm" and version 1.
const HEADER: [u8; 8] = [0x00, 0x61, 0x73, 0x6d, 0x01, 0x00, 0x00, 0x00];

/// What sections have given so far.
#[derive(Drop)]
pub struct Parts {
    pub types: Vec<FuncType>,
    pub imports: Vec<Import>,
    pub type_indices: Vec<u32>,
    pub tables: Vec<Limits>,
    pub memories: Vec<Limits>,
    pub globals: Vec<wasm_types::Global>,
    pub exports: Vec<Export>,
    pub start: Option<u32>,
    pub elems: Vec<Elem>,
    pub codes: Vec<Code>,
    pub data: Vec<Data>,
}

/// How far the sections are read: the id of the last one, the place of the function section, and the parts.
#[derive(Drop)]
pub struct Progress {
    pub last: u8,
    pub functions: usize,
    pub parts: Parts,
}

fn section_by(id: u8) -> Option<SectionId>
    ensures { result ≡ section_by id }
{
    match id {
        1 => Some(SectionId::Type),
        2 => Some(SectionId::Import),
        3 => Some(SectionId::Function),
        4 => Some(SectionId::Table),
        5 => Some(SectionId::Memory),
        6 => Some(SectionId::Global),
        7 => Some(SectionId::Export),
        8 => Some(SectionId::Start),
        9 => Some(SectionId::Element),
        10 => Some(SectionId::Code),
        11 => Some(SectionId::Data),
        _ => None,
    }
}

impl Parts {
    fn new(alloc: Global) -> Parts
        ensures { view_parts result ≡ no_parts }
    {
        Parts {
            types: Vec::new(alloc),
            imports: Vec::new(alloc),
            type_indices: Vec::new(alloc),
            tables: Vec::new(alloc),
            memories: Vec::new(alloc),
            globals: Vec::new(alloc),
            exports: Vec::new(alloc),
            start: None,
            elems: Vec::new(alloc),
            codes: Vec::new(alloc),
            data: Vec::new(alloc),
        }
    }

    // Takes the codes, of which there are as many as functions. Their number stands before them, so it is told first where it differs.
    fn take_codes(&mut self, reader: &mut Reader)
        ensures { Reads reader.old reader.new (Ok (view_parts self.new))
            (part_at reader.old.span section_id.Code (view_parts self.old) reader.old.rest.now) }
    {
        let bytes = reader.rest;
        let count = reader.index();
        if count as usize != self.type_indices.len() {
            reader.fail(reader.span.malformed());
            return;
        }
        reader.rest = bytes;
        fill::<Codes>(&mut self.codes, reader);
    }

    // Takes what the contents of a section give.
    fn take(&mut self, reader: &mut Reader, id: SectionId)
        ensures { Reads reader.old reader.new (Ok (view_parts self.new))
            (part_at reader.old.span id (view_parts self.old) reader.old.rest.now) }
    {
        match id {
            SectionId::Type => fill::<FuncTypes>(&mut self.types, reader),
            SectionId::Import => fill::<Imports>(&mut self.imports, reader),
            SectionId::Function => fill::<Indices>(&mut self.type_indices, reader),
            SectionId::Table => fill::<Tables>(&mut self.tables, reader),
            SectionId::Memory => fill::<Memories>(&mut self.memories, reader),
            SectionId::Global => fill::<Globals>(&mut self.globals, reader),
            SectionId::Export => fill::<Exports>(&mut self.exports, reader),
            SectionId::Start => {
                self.start = Some(reader.index());
                reader.ended();
            }
            SectionId::Element => fill::<Elems>(&mut self.elems, reader),
            SectionId::Code => self.take_codes(reader),
            SectionId::Data => fill::<DataSegments>(&mut self.data, reader),
        }
    }
}

// The contents of a section and the bytes after it.
fn frame(total: usize, bytes: &[u8]) -> Result<(&[u8], &[u8]), DecodeFault>
    ensures { Gives (λ x. made_frame x.0.now x.1.now) result (frame_at total bytes.now) }
{
    match take_u32(bytes) {
        None => {
            if unfinished(bytes, 5) {
                Err(DecodeFault::Truncated(total))
            } else {
                Err(DecodeFault::BadInteger(total.saturating_sub(bytes.len())))
            }
        }
        Some((n, rest)) => {
            let n = n as usize;
            if n <= rest.len() {
                Ok((&rest[..n], &rest[n..]))
            } else {
                Err(DecodeFault::Truncated(total))
            }
        }
    }
}

impl Progress {
    fn custom<'a>(
        &self,
        alloc: Global,
        total: usize,
        at: usize,
        bytes: &'a [u8],
    ) -> Result<&'a [u8], DecodeFault>
        ensures { Gives (λ x. (view_progress self.now, x.now)) result
            (custom_at total at (view_progress self.now) bytes.now) }
    {
        let (contents, after) = frame(total, bytes)?;
        let c = Span {
            section: at,
            end: total.saturating_sub(after.len()),
        };
        let mut reader = Reader::new(alloc, c, contents);
        reader.name();
        reader.sound()?;
        Ok(after)
    }

    fn known<'a>(
        &mut self,
        alloc: Global,
        total: usize,
        at: usize,
        id: SectionId,
        bytes: &'a [u8],
    ) -> Result<&'a [u8], DecodeFault>
        ensures { MatchResult result (λ x. known_by total at (Some id) (view_progress self.old)
            bytes.now ≡ Ok (view_progress self.new, x.now))
            (λ e. Fails e (known_by total at (Some id) (view_progress self.old) bytes.now)) }
    {
        if id.number() <= self.last {
            return Err(DecodeFault::BadSection(at));
        }
        let (contents, after) = frame(total, bytes)?;
        let c = Span {
            section: at,
            end: total.saturating_sub(after.len()),
        };
        let mut reader = Reader::new(alloc, c, contents);
        self.parts.take(&mut reader, id);
        reader.sound()?;
        self.last = id.number();
        if id == SectionId::Function {
            self.functions = at;
        }
        Ok(after)
    }

    fn section<'a>(
        &mut self,
        alloc: Global,
        total: usize,
        id: u8,
        bytes: &'a [u8],
    ) -> Result<&'a [u8], DecodeFault>
        ensures { MatchResult result (λ x. section_at total (view_progress self.old) id bytes.now
            ≡ Ok (view_progress self.new, x.now))
            (λ e. Fails e (section_at total (view_progress self.old) id bytes.now)) }
    {
        let at = total.saturating_sub(bytes.len() + 1);
        if id == 0 {
            return self.custom(alloc, total, at, bytes);
        }
        match section_by(id) {
            None => Err(DecodeFault::BadSection(at)),
            Some(id) => self.known(alloc, total, at, id, bytes),
        }
    }

    fn sections(&mut self, alloc: Global, total: usize, bytes: &[u8]) -> Result<(), DecodeFault>
        ensures { MatchResult result
            (λ _. sections_at total (length bytes.now) (view_progress self.old) bytes.now
            ≡ Ok (view_progress self.new))
            (λ e. Fails e
            (sections_at total (length bytes.now) (view_progress self.old) bytes.now)) }
    {
        let mut rest = bytes;
        let turns = bytes.len();
        for _ in 0..turns {
            match first_of(rest) {
                None => return Ok(()),
                Some((id, after)) => {
                    rest = self.section(alloc, total, id, after)?;
                }
            }
        }
        match first_of(rest) {
            None => Ok(()),
            Some(_) => Err(DecodeFault::TooLarge),
        }
    }
}

fn first_of(bytes: &[u8]) -> Option<(u8, &[u8])>
    ensures { MatchOption result (bytes.now ≡ []) (λ x. bytes.now ≡ x.0 ∷ x.1.now) }
{
    match bytes {
        [] => None,
        [b, rest @ ..] => Some((*b, rest)),
    }
}

fn first_index(indices: &[u32]) -> Option<(u32, &[u32])>
    ensures { MatchOption result (indices.now ≡ []) (λ x. indices.now ≡ x.0 ∷ x.1.now) }
{
    match indices {
        [] => None,
        [n, rest @ ..] => Some((*n, rest)),
    }
}

/// A function from the index of its type and its code.
fn func_of(alloc: Global, none: &Body, ty: u32, code: Code) -> Result<Func, AllocError>
    requires { none.now.value.items ≡ [] }
    ensures ty { IfOk result (λ func. func.ty ≡ ty) }
    ensures locals { IfOk result (λ func. func.locals ≡ code.locals) }
    ensures body { IfOk result (λ func. func.body.value.items ≡ code.body.items) }
{
    let body = held(alloc, none, code.body)?;
    Ok(Func {
        ty,
        locals: code.locals,
        body,
    })
}

/// The functions from the indices of their types and their codes, of which there are as many.
fn joined(alloc: Global, type_indices: Vec<u32>, codes: Vec<Code>) -> Result<Vec<Func>, AllocError>
    ensures { IfOk result
        (λ v. map view_func v.items ≡ joined type_indices.items (map view_code codes.items)) }
{
    let none = shared(alloc, Vec::new(alloc))?;
    let mut funcs = Vec::new(alloc);
    let mut rest = type_indices.as_slice();
    for code in codes {
        match first_index(rest) {
            None => return Ok(funcs),
            Some((ty, after)) => {
                push(&mut funcs, func_of(alloc, &none, ty, code)?)?;
                rest = after;
            }
        }
    }
    Ok(funcs)
}

fn finish(alloc: Global, functions: usize, parts: Parts) -> Result<Module, DecodeFault>
    ensures { Gives view_module result (finished_by functions (view_parts parts)) }
{
    let Parts {
        types,
        imports,
        type_indices,
        tables,
        memories,
        globals,
        exports,
        start,
        elems,
        codes,
        data,
    } = parts;
    if type_indices.len() != codes.len() {
        return Err(DecodeFault::BadSection(functions));
    }
    let funcs = joined(alloc, type_indices, codes)?;
    Ok(Module {
        types,
        imports,
        funcs,
        tables,
        memories,
        globals,
        exports,
        start,
        elems,
        data,
    })
}

fn after_header<'a>(total: usize, header: &[u8], bytes: &'a [u8]) -> Result<&'a [u8], DecodeFault>
    ensures { Gives (λ x. x.now) result (after_header total header.now bytes.now) }
{
    match header {
        [] => Ok(bytes),
        [h, hs @ ..] => match bytes {
            [] => Err(DecodeFault::Truncated(total)),
            [b, rest @ ..] => {
                if *b == *h {
                    after_header(total, hs, rest)
                } else {
                    Err(DecodeFault::BadHeader)
                }
            }
        },
    }
}

/// The module of these bytes.
pub fn decode(alloc: Global, bytes: &[u8]) -> Result<Module, DecodeFault>
    ensures read { Gives view_module result (module_at bytes.now) }
    ensures found { IfOk result (λ m. IsModule bytes.now (view_module m)) }
    ensures nested { IfOk result
        (λ m. All (λ f. depths f.body ≤ most_nesting) (view_module m).funcs) }
    ensures only { (m : ModuleForm) → IsModule bytes.now m → Gives view_module result (Ok m) }
{
    read_module(alloc, bytes)
}

fn read_module(alloc: Global, bytes: &[u8]) -> Result<Module, DecodeFault>
    ensures { Gives view_module result (module_at bytes.now) }
{
    let total = bytes.len();
    let rest = after_header(total, &HEADER, bytes)?;
    if total > MAX_MODULE_BYTES {
        return Err(DecodeFault::TooLarge);
    }
    let mut progress = Progress {
        last: 0,
        functions: 0,
        parts: Parts::new(alloc),
    };
    progress.sections(alloc, total, rest)?;
    finish(alloc, progress.functions, progress.parts)
}
