//! Modules that are past a limit of the writer, and what cannot be read of bytes. Written bytes are lines of test_parts.

use module_writer::{WriteFault, write};
use std::alloc::{AllocError, Global};
use std::rc::Rc;
use std::test::Fail;
use wasm_types::{Data, Func, FuncType, Instr, Limits, Locals, Module, Simple, ValType};

fn empty(alloc: Global) -> Module {
    Module {
        types: Vec::new(alloc),
        imports: Vec::new(alloc),
        funcs: Vec::new(alloc),
        tables: Vec::new(alloc),
        memories: Vec::new(alloc),
        globals: Vec::new(alloc),
        exports: Vec::new(alloc),
        start: None,
        elems: Vec::new(alloc),
        data: Vec::new(alloc),
    }
}

/// A module with one function without parameters and results.
fn with_function(
    alloc: Global,
    locals: Locals,
    body: Rc<Vec<Instr>>,
) -> Result<Module, AllocError> {
    let mut m = empty(alloc);
    m.types.push(FuncType {
        params: Vec::new(alloc),
        result: None,
    })?;
    m.funcs.push(Func {
        ty: 0,
        locals,
        body,
    })?;
    Ok(m)
}

fn is_too_large(alloc: Global, m: &Module) -> bool {
    matches!(write(alloc, m), Err(WriteFault::TooLarge))
}

fn limits_of(min: u32) -> Limits {
    Limits { min, max: None }
}

#[test]
fn tables_and_memories(rt: HostRuntime) -> Result<(), Fail> {
    let mut m = empty(rt.alloc());
    m.memories.push(limits_of(257))?;
    assert!(rt; is_too_large(rt.alloc(), &m));
    let mut m = empty(rt.alloc());
    m.tables.push(limits_of(65537))?;
    assert!(rt; is_too_large(rt.alloc(), &m));
    Ok(())
}

#[test]
fn locals(rt: HostRuntime) -> Result<(), Fail> {
    let alloc = rt.alloc();
    let mut many = Locals::new(alloc);
    many.push(50001, ValType::I32)?;
    let m = with_function(alloc, many, Rc::new(alloc, Vec::new(alloc))?)?;
    assert!(rt; is_too_large(alloc, &m));
    Ok(())
}

#[test]
fn nesting(rt: HostRuntime) -> Result<(), Fail> {
    let alloc = rt.alloc();
    let mut body = Rc::new(alloc, Vec::new(alloc))?;
    for _ in 0..4001 {
        let around = vec![in alloc; Instr::Block(None, body)]?;
        body = Rc::new(alloc, around)?;
    }
    let m = with_function(alloc, Locals::new(alloc), body)?;
    assert!(rt; is_too_large(alloc, &m));
    Ok(())
}

#[test]
fn shared_bodies(rt: HostRuntime) -> Result<(), Fail> {
    let alloc = rt.alloc();
    let mut body = Rc::new(alloc, vec![in alloc; Instr::Plain(Simple::Nop)]?)?;
    for _ in 0..100 {
        let twice = vec![in alloc; Instr::Block(None, body.clone()?), Instr::Block(None, body)]?;
        body = Rc::new(alloc, twice)?;
    }
    let m = with_function(alloc, Locals::new(alloc), body)?;
    assert!(rt; is_too_large(alloc, &m));
    Ok(())
}

/// A module with a data segment of so many bytes.
fn with_data(alloc: Global, count: usize) -> Result<Module, AllocError> {
    let mut m = empty(alloc);
    m.data.push(Data {
        memory: 0,
        offset: vec![in alloc; Instr::Plain(Simple::I32Const(0))]?,
        init: vec![in alloc; 0; count]?,
    })?;
    Ok(m)
}

#[test]
fn sizes(rt: HostRuntime) -> Result<(), Fail> {
    // 22 bytes are not of the segment's own
    let full = write(rt.alloc(), &with_data(rt.alloc(), 16777216 - 22)?)?;
    assert_eq!(rt; full.len(), 16777216);
    let larger = with_data(rt.alloc(), 16777216 - 21)?;
    assert!(rt; is_too_large(rt.alloc(), &larger));
    Ok(())
}
