//! Single instructions, and choices.
ghost use Rattle.std.specs.Prelude.{◌≡◌, IfOk};
ghost use Rattle.wasm_types.specs.Syntax.{Instructions, Done};
ghost use Rattle.wasm_types.specs.View.{views};
ghost use Rattle.wasm_types.specs.declared.instr.Simple.TheVariants.{Call};
ghost use Rattle.host_imports.specs.Names.{import_number};
ghost use Rattle.host_imports.specs.declared.import.Import.TheVariants.{OfPrimitive};
ghost use Rattle.lower_model.specs.Small.{ask, ask_row, emit, emit_if, when};
ghost use Rattle.lower_model.specs.Statements.{again, block};
ghost use Rattle.lower_pieces.specs.Emits.{emit_all, Emits, Holds, Reads};

use crate::emitted::{Emitted, ROOM};
use host_imports::Import;
use sem_primitives::Primitive;
use std::alloc::{AllocError, Global};
use std::rc::Rc;
use wasm_types::{Instr, Simple};

/// Adds an instruction.
pub fn emit(out: &mut Emitted, simple: Simple)
    ensures { Emits out.old out.new (emit simple) }
{
    out.put_plain(simple);
}

/// Adds instructions.
pub fn emit_all(out: &mut Emitted, all: &[Simple])
    ensures { Emits out.old out.new (emit_all all.now) }
{
    for simple in all {
        emit(out, *simple);
    }
}

/// Adds a call of an import.
pub fn ask(out: &mut Emitted, import: Import)
    ensures { Emits out.old out.new (ask import) }
{
    emit(out, Simple::Call(import.number()));
}

/// Adds a call of a primitive.
pub fn ask_row(out: &mut Emitted, primitive: Primitive)
    ensures { Emits out.old out.new (ask_row primitive) }
{
    ask(out, Import::OfPrimitive(primitive));
}

/// The instruction that calls an import.
pub fn import_call(import: Import) -> Simple
    ensures { result ≡ Call (import_number import) }
{
    Simple::Call(import.number())
}

/// The instruction that calls a primitive.
pub fn row_call(primitive: Primitive) -> Simple
    ensures { result ≡ Call (import_number (OfPrimitive primitive)) }
{
    import_call(Import::OfPrimitive(primitive))
}

/// Instructions in a list of their own.
pub fn code_of(alloc: Global, all: &[Simple]) -> Emitted
    ensures { Holds result (emit_all all.now) }
{
    let mut code = Emitted::new(alloc);
    emit_all(&mut code, all);
    code
}

/// A list that gives back most of the memory that it does not take: nothing is added to it any more, and large scripts have many.
fn trimmed(code: Vec<Instr>) -> Vec<Instr>
    ensures { result.items ≡ code.items }
{
    let mut code = code;
    if code.len() + ROOM < code.capacity() {
        code.shrink_to_fit();
    }
    code
}

/// Code within an instruction.
fn enclosed(alloc: Global, code: Emitted) -> Result<Rc<Vec<Instr>>, AllocError>
    ensures { IfOk result (λ inner. (whole : Instructions) → Reads code Done whole
        → views inner.value.items ≡ whole) }
{
    let all = code.all()?;
    let code = trimmed(all);
    Ok(Rc::new(alloc, code)?)
}

/// Adds what is done where the topmost operand is not 0, and what is done where it is.
pub fn emit_if(alloc: Global, out: &mut Emitted, yes: Emitted, no: Emitted)
    ensures { (one other : Instructions) → Reads yes Done one → Reads no Done other
        → Emits out.old out.new (emit_if one other) }
{
    match (enclosed(alloc, yes), enclosed(alloc, no)) {
        (Ok(yes), Ok(no)) => out.put(Instr::If(None, yes, no)),
        _ => out.refuse(),
    }
}

/// Adds what is done where the topmost operand is not 0.
pub fn when(alloc: Global, out: &mut Emitted, yes: Emitted)
    ensures { (inside : Instructions) → Reads yes Done inside
        → Emits out.old out.new (when inside) }
{
    emit_if(alloc, out, yes, Emitted::new(alloc));
}

/// Adds these instructions where the topmost operand is not 0, and those where it is.
pub fn emit_if_all(alloc: Global, out: &mut Emitted, yes: &[Simple], no: &[Simple])
    ensures { Emits out.old out.new (emit_if (emit_all yes.now Done) (emit_all no.now Done)) }
{
    emit_if(alloc, out, code_of(alloc, yes), code_of(alloc, no));
}

/// Adds these instructions where the topmost operand is not 0.
pub fn when_all(alloc: Global, out: &mut Emitted, yes: &[Simple])
    ensures { Emits out.old out.new (when (emit_all yes.now Done)) }
{
    when(alloc, out, code_of(alloc, yes));
}

/// Adds a block.
pub fn block(alloc: Global, out: &mut Emitted, code: Emitted)
    ensures { (inside : Instructions) → Reads code Done inside
        → Emits out.old out.new (block inside) }
{
    match enclosed(alloc, code) {
        Ok(code) => out.put(Instr::Block(None, code)),
        Err(_) => out.refuse(),
    }
}

/// Adds a loop.
pub fn again(alloc: Global, out: &mut Emitted, code: Emitted)
    ensures { (inside : Instructions) → Reads code Done inside
        → Emits out.old out.new (again inside) }
{
    match enclosed(alloc, code) {
        Ok(code) => out.put(Instr::Loop(None, code)),
        Err(_) => out.refuse(),
    }
}
