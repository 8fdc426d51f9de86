//! The imports of a module.
ghost use Rattle.std.specs.Prelude.{◌≡◌, IfErr, IfOk, MatchOption, None, Some, map};
ghost use Rattle.host_imports.specs.Imports.{host_finds};
ghost use Rattle.task_pages.specs.Calls.{AsksOnly, HasImports, IsImportOf, IsSilent, IsTyped, IsUnlisted, Lists, undecoded};
ghost use Rattle.task_pages.specs.Powers.{writes_of};
ghost use Rattle.wasm_model.specs.Links.{number_for};
ghost use Rattle.wasm_types.specs.Typing.{typed_in};
ghost use Rattle.wasm_types.specs.View.{signature_of, view_import, view_module};

use crate::powers::Writes;
use host_imports::{Import, Links};
use module_decoder::{DecodeFault, decode};
use module_validator::{InvalidFault, ValidModule, validate};
use std::alloc::Global;
use wasm_types::{FuncType, Import as ModuleImport, Module};

/// Why the imports of a module are not listed.
#[derive(Drop)]
pub enum Unlisted {
    /// The bytes are no module.
    Decode(DecodeFault),
    /// The typing rules do not allow the module.
    Invalid(InvalidFault),
    /// The host has no import of this name and type; imports are counted from 0.
    BadImport(usize),
    /// Memory ran out.
    NoMemory,
}

/// What is answered for bytes that the decoder refuses so.
fn undecoded(fault: DecodeFault) -> Unlisted
    ensures { result ≡ undecoded fault }
{
    match fault {
        DecodeFault::NoMemory => Unlisted::NoMemory,
        fault => Unlisted::Decode(fault),
    }
}

/// The module that the bytes are, typed.
fn read(alloc: Global, bytes: &[u8]) -> Result<ValidModule, Unlisted>
    ensures ok { IfOk result (λ v. IsTyped bytes.now (view_module v)) }
    ensures err { IfErr result (IsUnlisted bytes.now) }
{
    let module = match decode(alloc, bytes) {
        Ok(module) => module,
        Err(fault) => return Err(undecoded(fault)),
    };
    match validate(alloc, module) {
        Ok(valid) => Ok(valid),
        Err((_, InvalidFault::NoMemory)) => Err(Unlisted::NoMemory),
        Err((_, fault)) => Err(Unlisted::Invalid(fault)),
    }
}

/// A type of the module, by its number.
fn type_at(whole: &Module, number: u32) -> Option<&FuncType>
    ensures { MatchOption result (typed_in (view_module whole.now) number ≡ None)
        (λ t. typed_in (view_module whole.now) number ≡ Some (signature_of t.now)) }
{
    whole.types.get(number as usize)
}

/// The host's import that a module's is, by the names of its module and of itself, and by its type.
fn import_for(whole: &Module, links: &Links, wanted: &ModuleImport) -> Option<Import>
    ensures { IsImportOf result
        (number_for host_finds (view_module whole.now) (view_import wanted.now)) }
{
    let Some((number, found)) = links.find(wanted.module.as_bytes(), wanted.name.as_bytes()) else {
        return None;
    };
    let Some(ty) = type_at(whole, wanted.ty) else {
        return None;
    };
    if found.same(ty) {
        Import::of_number(number)
    } else {
        None
    }
}

/// The host's imports that a module's are.
fn imports_among(
    alloc: Global,
    whole: &Module,
    links: &Links,
    wanted: &[ModuleImport],
) -> Result<Vec<Import>, Unlisted>
    ensures { Lists result
        (map (λ x. number_for host_finds (view_module whole.now) (view_import x)) wanted.now) }
{
    let mut found = Vec::new(alloc);
    for (index, import) in wanted.iter().enumerate() {
        let Some(it) = import_for(whole, links, import) else {
            return Err(Unlisted::BadImport(index));
        };
        if found.push(it).is_err() {
            return Err(Unlisted::NoMemory);
        }
    }
    Ok(found)
}

/// The imports of a module, in its order. A machine of the module makes no other call, whatever its host answers; where none of them writes, no run
/// writes anything.
///
/// # Errors
///
/// [`Unlisted::Decode`] where the bytes are no module, [`Unlisted::Invalid`] where the typing rules do not allow it, [`Unlisted::BadImport`] of the first
/// import that the host does not have, in this order. [`Unlisted::NoMemory`] may come instead of any answer, where memory ran out. A module that does not
/// run for another cause, as one without `main`, is listed.
pub fn imports_of(alloc: Global, bytes: &[u8]) -> Result<Vec<Import>, Unlisted>
    ensures listed { IfOk result (λ found. HasImports bytes.now found.items) }
    ensures asked { IfOk result (λ found. AsksOnly bytes.now found.items) }
    ensures silent { IfOk result (λ found. writes_of found.items ≡ Writes.Nothing
        → IsSilent bytes.now) }
    ensures err { IfErr result (IsUnlisted bytes.now) }
{
    let valid = read(alloc, bytes)?;
    let Ok(links) = Links::new(alloc) else {
        return Err(Unlisted::NoMemory);
    };
    let whole = valid.get();
    imports_among(alloc, whole, &links, &whole.imports)
}
