//! Linking: from a module and a host to the beginning of a run (Core 1.0, section 4.5.4).
ghost use Rattle.std.specs.List.{All};
ghost use Rattle.std.specs.Prelude.{ℕ, ◌≡◌, ◌↔◌, ◌*◌, ◌≤◌, IfErr, IfOk, IsTrue, None, Some, length, map};
ghost use Rattle.wasm_loader.specs.Laid.{code_at};
ghost use Rattle.wasm_model.specs.Frames.{constant_in, constant_of};
ghost use Rattle.wasm_model.specs.Links.{first_some, main_at, main_of, number_for, numbers_for, place_of, value_of, least, ElemFits, DataFits, SegmentsFit, filled, poured, limits_or_none, entry_code, beginning, Refuses};
ghost use Rattle.wasm_model.specs.LinkAnswers.{Numbers};
ghost use Rattle.wasm_model.specs.Machines.{agree};
ghost use Rattle.wasm_machine.specs.Standing.{Stand};
ghost use Rattle.wasm_machine.specs.Confs.{conf_of};
ghost use Rattle.wasm_machine.specs.ViewConf.{Begins, Lays, module_with};
ghost use Rattle.wasm_types.specs.Typing.{typed_in};
ghost use Rattle.wasm_types.specs.View.{signature_of, view, view_data, view_elem, view_export, view_import, view_module, views};

use crate::frames::Frames;
use crate::program::{callee, typed};
use crate::state::State;
use latched::{push, shared};
use std::alloc::{AllocError, Global};
use std::mem::replace;
use std::rc::Rc;
use wasm_loader::Code;
use wasm_model::{HostCalls, LinkFault};
use wasm_store::{Globals, Memory, Table, Word};
use wasm_types::{
    Data, Elem, Export, ExportDesc, Func, FuncType, Global as ModuleGlobal, Import, Instr, Limits,
    Module, Simple, ValType,
};

/// The function that is exported as `main` here.
fn main_at(whole: &Module, export: &Export) -> Option<u32>
    ensures { result ≡ main_at (view_module whole.now) (view_export export.now) }
{
    if !matches!(export.name.as_bytes(), [b'm', b'a', b'i', b'n']) {
        return None;
    }
    let ExportDesc::Func(n) = export.desc else {
        return None;
    };
    let Some(ty) = callee(whole, n) else {
        return None;
    };
    if ty.result == Some(ValType::I32) && ty.params.is_empty() {
        Some(n)
    } else {
        None
    }
}

fn main_among(whole: &Module, exports: &[Export]) -> Option<u32>
    ensures { result ≡ first_some (λ e. main_at (view_module whole.now) (view_export e))
        exports.now }
{
    for export in exports {
        if let Some(n) = main_at(whole, export) {
            return Some(n);
        }
    }
    None
}

/// The function `main`.
fn main_of(whole: &Module) -> Option<u32>
    ensures { result ≡ main_of (view_module whole.now) }
{
    main_among(whole, &whole.exports)
}

/// Whether a type that the host has is the one of this number.
fn is_type(whole: &Module, ty: u32, found: &FuncType) -> bool
    ensures { result ≡ agree (Some (signature_of found.now)) (typed_in (view_module whole.now) ty) }
{
    let Some(wanted) = typed(whole, ty) else {
        return false;
    };
    found.same(wanted)
}

/// The number that the host has for an import.
fn number_for<H: HostCalls>(whole: &Module, host: &H, import: &Import) -> Option<u32>
    ensures { number_for H.finds (view_module whole.now) (view_import import.now) ≡ result }
{
    let Some((number, found)) = host.find(import.module.as_bytes(), import.name.as_bytes()) else {
        return None;
    };
    if is_type(whole, import.ty, found) {
        Some(number)
    } else {
        None
    }
}

/// The numbers that the host has for the imports.
fn numbers_among<H: HostCalls>(
    alloc: Global,
    whole: &Module,
    host: &H,
    imports: &[Import],
) -> Result<Vec<u32>, LinkFault>
    ensures { Numbers result
        (map (λ x. number_for H.finds (view_module whole.now) (view_import x)) imports.now) }
{
    let mut numbers = Vec::new(alloc);
    for (index, import) in imports.iter().enumerate() {
        let Some(number) = number_for(whole, host, import) else {
            return Err(LinkFault::BadImport(index));
        };
        if numbers.push(number).is_err() {
            return Err(LinkFault::NoMemory);
        }
    }
    Ok(numbers)
}

/// The word of a constant instruction.
fn constant_of(i: &Instr) -> Option<Word>
    ensures { constant_of (view i.now) ≡ result }
{
    match i {
        Instr::Plain(Simple::I32Const(n)) => Some(Word::I32(*n)),
        Instr::Plain(Simple::I64Const(n)) => Some(Word::I64(*n)),
        _ => None,
    }
}

/// The constant that code begins with.
fn constant(code: &[Instr]) -> Option<Word>
    ensures { constant_in (views code.now) ≡ result }
{
    match code {
        [] => None,
        [first, ..] => constant_of(first),
    }
}

/// The place that a segment begins at.
fn place_of(code: &[Instr]) -> u32
    ensures { result ≡ place_of (views code.now) }
{
    match constant(code) {
        Some(Word::I32(n)) => n,
        _ => 0,
    }
}

fn least(all: &[Limits]) -> u32
    ensures { result ≡ least all.now }
{
    match all {
        [] => 0,
        [limits, ..] => limits.min,
    }
}

/// A segment, which is to lie within the table or the memory.
trait Segment {
    ghost use Rattle.std.specs.Prelude.{ℕ, ◌↔◌, IsTrue};

    ghost Fits: { ℕ → Self → Type 0 };

    /// Whether it lies within so many elements or bytes.
    fn fits(&self, size: usize) -> bool
        ensures { IsTrue result ↔ Fits size self.now };
}

impl Segment for Elem {
    ghost use Rattle.wasm_model.specs.Links.{ElemFits, DataFits};
    ghost use Rattle.wasm_types.specs.View.{view_elem};

    ghost Fits = { λ size e. ElemFits size (view_elem e) };

    fn fits(&self, size: usize) -> bool {
        let place = place_of(&self.offset) as usize;
        place <= size && self.init.len() <= size - place
    }
}

impl Segment for Data {
    ghost use Rattle.wasm_types.specs.View.{view_data};

    ghost Fits = { λ size d. DataFits size (view_data d) };

    fn fits(&self, size: usize) -> bool {
        let place = place_of(&self.offset) as usize;
        place <= size && self.init.len() <= size - place
    }
}

fn all_fit<S: Segment>(size: usize, segments: &[S]) -> bool
    ensures { IsTrue result ↔ All (S.Fits size) segments.now }
{
    segments.iter().all(|s| s.fits(size))
}

/// Whether the segments lie within the table and the memory.
fn segments_fit(whole: &Module) -> bool
    ensures { IsTrue result ↔ SegmentsFit (view_module whole.now) }
{
    let elems = all_fit(least(&whole.tables) as usize, &whole.elems);
    let data = all_fit(least(&whole.memories) as usize * 65536, &whole.data);
    elems & data
}

/// Writes the element segments, one after the other.
fn fill(table: &mut Table, size: usize, elems: &[Elem])
    requires size { length table.old ≡ size }
    requires fit { All (λ e. ElemFits size (view_elem e)) elems.now }
    ensures { table.new ≡ filled table.old (map view_elem elems.now) }
{
    for elem in elems {
        table.fill(place_of(&elem.offset), &elem.init);
    }
}

/// Writes the data segments, one after the other.
fn pour(memory: &mut Memory, size: usize, segments: &[Data])
    requires size { length memory.old.bytes ≡ size }
    requires fit { All (λ d. DataFits size (view_data d)) segments.now }
    ensures { memory.new ≡ poured memory.old (map view_data segments.now) }
{
    for segment in segments {
        memory.write(place_of(&segment.offset), &segment.init);
    }
}

/// The value of a constant expression.
fn value_of(code: &[Instr]) -> Word
    ensures { result ≡ value_of (views code.now) }
{
    match constant(code) {
        Some(word) => word,
        None => Word::I32(0),
    }
}

/// The first values of the globals.
fn values_of(alloc: Global, globals: &[ModuleGlobal]) -> Result<Vec<Word>, AllocError>
    ensures { IfOk result (λ v. v.items ≡ map (λ g. value_of (views g.init.items)) globals.now) }
{
    let mut values = Vec::new(alloc);
    for global in globals {
        values.push(value_of(&global.init))?;
    }
    Ok(values)
}

/// The calls that make up a run.
fn entry(alloc: Global, start: Option<u32>, main: u32) -> Result<Vec<Instr>, AllocError>
    ensures { IfOk result (λ v. views v.items ≡ entry_code start main) }
{
    let mut code = Vec::new(alloc);
    if let Some(start) = start {
        push(&mut code, Instr::Plain(Simple::Call(start)))?;
    }
    push(&mut code, Instr::Plain(Simple::Call(main)))?;
    Ok(code)
}

/// The memory of a module, or one of no pages.
fn limits_of(memories: &[Limits]) -> Limits
    ensures { result ≡ limits_or_none memories.now }
{
    match memories {
        [] => Limits {
            min: 0,
            max: Some(0),
        },
        [limits, ..] => *limits,
    }
}

/// The body of a function, which has another one then.
fn body_of(func: &mut Func, other: Rc<Vec<Instr>>) -> Rc<Vec<Instr>>
    ensures body { result ≡ func.old.body }
    ensures func { func.new ≡ record func.old { body = other } }
{
    replace(&mut func.body, other)
}

/// The code of a function that had this body.
fn code_of(
    alloc: Global,
    whole: &Module,
    func: &Func,
    body: Rc<Vec<Instr>>,
) -> Result<Code, AllocError>
    ensures body { IfOk result (λ c. code_at c 0 ≡ views body.value.items) }
    ensures begins { IfOk result Begins }
{
    let Some(ty) = typed(whole, func.ty) else {
        return Err(AllocError);
    };
    let Ok(locals) = u32::try_from(ty.params.len() + func.locals.len()) else {
        return Err(AllocError);
    };
    let code = Code::new(alloc, whole, locals, ty.result, body)?;
    let _layout = code.layout();
    Ok(code)
}

/// The code of each function, whose body is empty then.
fn own_codes(alloc: Global, whole: &mut Module) -> Result<Vec<Code>, AllocError>
    ensures begin { IfOk result (λ v. All Begins v.items) }
    ensures count { IfOk result (λ v. length v.items ≡ length whole.new.funcs.items) }
    ensures whole { IfOk result (λ v. module_with whole.new v.items ≡ view_module whole.old) }
{
    let none = shared(alloc, Vec::new(alloc))?;
    // (one more is that of the first frame; a list that grows has its elements twice for a while)
    let mut codes = Vec::with_capacity(alloc, whole.funcs.len().saturating_add(1))?;
    for number in 0..whole.funcs.len() {
        let body = body_of(&mut whole.funcs[number], none.clone()?);
        let code = code_of(alloc, whole, &whole.funcs[number], body)?;
        push(&mut codes, code)?;
    }
    Ok(codes)
}

/// The code of each function, whose body is empty then, and after them that of the first frame.
pub(crate) fn codes_of(
    alloc: Global,
    whole: &mut Module,
    main: u32,
) -> Result<Vec<Code>, AllocError>
    ensures codes { IfOk result (λ v. Lays (length whole.new.funcs.items)
        (entry_code whole.old.start main) v.items) }
    ensures whole { IfOk result (λ v. module_with whole.new v.items ≡ view_module whole.old) }
{
    let mut codes = own_codes(alloc, whole)?;
    let first = first_code(alloc, whole, main)?;
    push(&mut codes, first)?;
    Ok(codes)
}

/// The code of the first frame.
fn first_code(alloc: Global, whole: &Module, main: u32) -> Result<Code, AllocError>
    ensures body { IfOk result (λ c. code_at c 0 ≡ entry_code whole.now.start main) }
    ensures begins { IfOk result Begins }
    ensures locals { IfOk result (λ c. c.locals ≡ 0) }
    ensures gives { IfOk result (λ c. c.gives ≡ Some ValType.I32) }
{
    let calls = shared(alloc, entry(alloc, whole.start, main)?)?;
    let code = Code::new(alloc, whole, 0, Some(ValType::I32), calls)?;
    let _layout = code.layout();
    Ok(code)
}

/// The configuration in which a run begins, whose first frame has the last of these codes.
pub(crate) fn first_state(
    alloc: Global,
    whole: &Module,
    codes: &[Code],
) -> Result<State, AllocError>
    requires fit { SegmentsFit (view_module whole.now) }
    requires pages { (limits_or_none whole.now.memories.items).min ≤ 65536 }
    ensures begins { IfOk result
        (λ s. (main : ℕ) → Lays (length whole.now.funcs.items) (entry_code whole.now.start main) codes.now
        → conf_of codes.now s ≡ beginning (view_module whole.now) main) }
    ensures stands { IfOk result
        (λ s. (main : ℕ) → Lays (length whole.now.funcs.items) (entry_code whole.now.start main) codes.now
        → Stand codes.now s.frames) }
{
    let first = whole.funcs.len();
    let Some(code) = codes.get(first) else {
        return Err(AllocError);
    };
    let frames = Frames::new(alloc, code.layout(), first)?;
    let limits = limits_of(&whole.memories);
    let mut memory = Memory::new(alloc, limits)?;
    pour(&mut memory, limits.min as usize * 65536, &whole.data);
    let elements = least(&whole.tables);
    let mut table = Table::new(alloc, elements)?;
    fill(&mut table, elements as usize, &whole.elems);
    let globals = Globals::new(values_of(alloc, &whole.globals)?);
    Ok(State {
        frames,
        memory,
        table,
        globals,
    })
}

/// The function `main`, and the numbers of the imports.
pub(crate) fn link<H: HostCalls>(
    alloc: Global,
    whole: &Module,
    host: &H,
) -> Result<(u32, Vec<u32>), LinkFault>
    ensures ok { IfOk result
        (λ r. (main_of (view_module whole.now) ≡ Some r.0)
        × (numbers_for H.finds (view_module whole.now) ≡ map Some r.1.items)
        × SegmentsFit (view_module whole.now)) }
    ensures refused { IfErr result (Refuses H.finds (view_module whole.now)) }
{
    let Some(main) = main_of(whole) else {
        return Err(LinkFault::NoMain);
    };
    match numbers_among(alloc, whole, host, &whole.imports) {
        Err(fault) => Err(fault),
        Ok(numbers) => {
            if !segments_fit(whole) {
                return Err(LinkFault::SegmentBounds);
            }
            Ok((main, numbers))
        }
    }
}
