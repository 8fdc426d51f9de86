//! Which imports are called, and the numbers of functions once the others are left out.
ghost use Rattle.std.specs.Prelude.{◌≡◌, ◌≤◌, length, map, IfOk};
ghost use Rattle.lower_modules.specs.Calls.{noted, AreNewNumbers};
ghost use Rattle.lower_modules.specs.View.{view_functions};
ghost use Rattle.host_imports.specs.Imports.{imports};
ghost use Rattle.lower_model.specs.Modules.{called_from, calls_by, calls_in, chosen, is_call, new_number, renumbered, renumbered_one, renumbered_simple};
ghost use Rattle.wasm_types.specs.Syntax.{BrTable};
ghost use Rattle.wasm_types.specs.View.{view, views};

use crate::function::Function;
use host_imports::{IMPORT_COUNT, Import};
use latched::boxed;
use std::alloc::{AllocError, Global};
use std::rc::Rc;
use wasm_types::{Instr, Simple};

/// Notes what an instruction calls, if that is an import.
fn note_simple(called: &mut [bool], simple: Simple)
    ensures { called.new ≡ noted (λ import. is_call import simple) called.old }
{
    match simple {
        Simple::Call(number) => {
            let number = number as usize;
            if number < called.len() {
                called[number] = true;
            }
        }
        _ => {}
    }
}

/// Notes which imports an instruction calls.
#[cycle(calls)]
fn note_calls_by(called: &mut [bool], instr: &Instr)
    ensures { called.new ≡ noted (λ import. calls_by import (view instr.now)) called.old }
{
    match instr {
        Instr::Plain(simple) => note_simple(called, *simple),
        Instr::BrTable(_, _) => {}
        Instr::Block(_, inner) => note_calls_in(called, inner),
        Instr::Loop(_, inner) => note_calls_in(called, inner),
        Instr::If(_, inner, other) => {
            note_calls_in(called, inner);
            note_calls_in(called, other);
        }
    }
}

/// Notes which imports code calls.
#[cycle(calls)]
fn note_calls_in(called: &mut [bool], code: &[Instr])
    ensures { called.new ≡ noted (λ import. calls_in import (views code.now)) called.old }
{
    for instr in code {
        note_calls_by(called, instr);
    }
}

/// For each import, whether it is called: one walk over the code finds all of them.
pub(crate) fn called_imports(functions: &[Function]) -> [bool; IMPORT_COUNT]
    ensures { result ≡ called_from 0 imports (view_functions functions.now) }
{
    let mut called = [false; IMPORT_COUNT];
    for function in functions {
        note_calls_in(&mut called, &function.body);
    }
    called
}

/// The imports that are called.
pub(crate) fn chosen(alloc: Global, called: &[bool]) -> Result<Vec<Import>, AllocError>
    requires { length called.now ≡ length imports }
    ensures chosen { IfOk result (λ used. used.items ≡ chosen called.now imports) }
    ensures few { IfOk result (λ used. length used.items ≤ length imports) }
{
    let mut used = Vec::new(alloc);
    for place in 0..IMPORT_COUNT {
        if called[place] {
            if let Some(import) = Import::of_number(place as u32) {
                used.push(import)?;
            }
        }
    }
    Ok(used)
}

/// The numbers of the imports, and of the first function after them, once those are left out that are not called.
fn new_numbers(called: &[bool]) -> [u32; IMPORT_COUNT + 1]
    requires { length called.now ≡ length imports }
    ensures { AreNewNumbers called.now result }
{
    let mut numbers = [0; IMPORT_COUNT + 1];
    let mut next = 0;
    for place in 0..IMPORT_COUNT {
        if called[place] {
            next += 1;
        }
        numbers[place + 1] = next;
    }
    numbers
}

/// The numbers of functions once imports are left out that are not called. They are counted once, since code has many calls.
#[derive(Drop)]
pub(crate) struct Numbers<'a> {
    called: &'a [bool],
    first: [u32; IMPORT_COUNT + 1],
    ghost whole: { length called.now ≡ length imports },
    ghost counted: { AreNewNumbers called.now first },
}

impl<'a> Numbers<'a> {
    /// Those where these imports are called.
    pub(crate) fn of(called: &'a [bool]) -> Self
        requires { length called.now ≡ length imports }
        ensures { result.called.now ≡ called.now }
    {
        let first = new_numbers(called);
        Numbers { called, first }
    }

    /// The new number of a function.
    fn at(&self, number: u32) -> u32
        ensures { result ≡ new_number self.now.called.now number }
    {
        let place = number as usize;
        if place <= IMPORT_COUNT {
            self.first[place]
        } else {
            self.first[IMPORT_COUNT] + (number - IMPORT_COUNT as u32)
        }
    }
}

fn renumbered_simple(numbers: &Numbers<'_>, simple: Simple) -> Simple
    ensures { result ≡ renumbered_simple numbers.now.called.now simple }
{
    match simple {
        Simple::Call(number) => Simple::Call(numbers.at(number)),
        _ => simple,
    }
}

/// A branch by a table, which calls nothing.
fn copied(alloc: Global, labels: &[u32], last: u32) -> Result<Instr, AllocError>
    ensures { IfOk result (λ made. view made ≡ BrTable labels.now last) }
{
    let labels = labels.to_vec(alloc)?;
    Ok(Instr::BrTable(boxed(alloc, labels)?, last))
}

/// An instruction whose calls have the new numbers.
#[cycle(renumbering)]
fn renumbered_one(alloc: Global, numbers: &Numbers<'_>, instr: &Instr) -> Result<Instr, AllocError>
    ensures { IfOk result (λ made. view made ≡ renumbered_one numbers.now.called.now (view instr.now)) }
{
    match instr {
        Instr::Plain(simple) => Ok(Instr::Plain(renumbered_simple(numbers, *simple))),
        Instr::BrTable(labels, last) => copied(alloc, labels, *last),
        Instr::Block(kind, inner) => Ok(Instr::Block(*kind, renumbered(alloc, numbers, inner)?)),
        Instr::Loop(kind, inner) => Ok(Instr::Loop(*kind, renumbered(alloc, numbers, inner)?)),
        Instr::If(kind, inner, other) => {
            let inner = renumbered(alloc, numbers, inner)?;
            Ok(Instr::If(*kind, inner, renumbered_other(alloc, numbers, other)?))
        }
    }
}

/// What is done otherwise. That is mostly nothing, which is shared.
#[cycle(renumbering)]
fn renumbered_other(
    alloc: Global,
    numbers: &Numbers<'_>,
    code: &Rc<Vec<Instr>>,
) -> Result<Rc<Vec<Instr>>, AllocError>
    ensures { IfOk result (λ out. views out.value.items
        ≡ renumbered numbers.now.called.now (views code.now.value.items)) }
{
    if code.is_empty() {
        return code.clone();
    }
    renumbered(alloc, numbers, code)
}

/// Code whose calls have the new numbers. Most instructions have no body: these go straight into the list.
#[cycle(renumbering)]
pub(crate) fn renumbered(
    alloc: Global,
    numbers: &Numbers<'_>,
    code: &[Instr],
) -> Result<Rc<Vec<Instr>>, AllocError>
    ensures { IfOk result
        (λ out. views out.value.items ≡ renumbered numbers.now.called.now (views code.now)) }
{
    let mut out = Vec::with_capacity(alloc, code.len())?;
    for instr in code {
        match instr {
            Instr::Plain(simple) => {
                out.push_reserved(Instr::Plain(renumbered_simple(numbers, *simple)));
            }
            _ => {
                let made = renumbered_one(alloc, numbers, instr)?;
                out.push_reserved(made);
            }
        }
    }
    Ok(Rc::new(alloc, out)?)
}
