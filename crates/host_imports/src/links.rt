//! Finding imports.
ghost use Rattle.std.specs.Prelude.{◌≡◌, ◌<◌, IfOk, IfSome, Some, map, option_copied, slice_get};
ghost use Rattle.host_imports.specs.Imports.{host_finds, host_types, import_type, imports_in, number_below, number_named, with_type};
ghost use Rattle.host_imports.specs.Links.{signature_if};
ghost use Rattle.wasm_model.specs.HostAnswers.{found_as};
ghost use Rattle.wasm_types.specs.View.{signature_of};

use crate::import::{IMPORTS, Import, imports_in};
use crate::types::type_of;
use std::alloc::{AllocError, Global};
use std::marker::Model;
use wasm_types::FuncType;

/// The types of the imports, by their numbers.
#[derive(Drop)]
pub struct Links {
    types: Vec<FuncType>,
}

impl Model for Links {
    ghost use Rattle.std.specs.Prelude.{⊤};

    ghost Value = { ⊤ };

    ghost use Rattle.host_imports.specs.Links.{HasTypes};

    ghost view = { λ l. tt };

    ghost invariant = { HasTypes };
}

/// The place of the import of a name.
fn place_named(name: &[u8]) -> Option<usize>
    ensures named { result ≡ number_named name.now }
    ensures within { IfSome result (λ place. place < 56) }
{
    IMPORTS
        .iter()
        .position(|import| import.name().as_bytes() == name)
}

/// The same, where a module of this name has that import.
fn place_in(from: &[u8], name: &[u8]) -> Option<usize>
    ensures among { result ≡ number_below (imports_in from.now) (number_named name.now) }
    ensures within { IfSome result (λ place. place < 56) }
{
    let place = place_named(name)?;
    if place < imports_in(from) {
        Some(place)
    } else {
        None
    }
}

fn type_in(types: &[FuncType], number: usize) -> Option<&FuncType>
    ensures { option_copied result ≡ slice_get types.now number }
{
    types.get(number)
}

#[tactic(auto, using(crate::proofs::Numbers::types_next))]
fn types_of(alloc: Global, imports: &[Import]) -> Result<Vec<FuncType>, AllocError>
    ensures { IfOk result (λ types. map signature_of types.items ≡ map import_type imports.now) }
{
    let mut types = Vec::new(alloc);
    for import in imports {
        types.push(type_of(alloc, *import)?)?;
    }
    Ok(types)
}

impl Links {
    /// The types of all imports.
    pub fn new(alloc: Global) -> Result<Links, AllocError> {
        Ok(Links {
            types: types_of(alloc, &IMPORTS)?,
        })
    }

    fn type_at(&self, number: usize) -> Option<&FuncType>
        ensures { signature_if (option_copied result) ≡ host_types number }
    {
        type_in(&self.types, number)
    }

    /// The number of a place, where an import has it, and its type.
    fn at(&self, place: usize) -> Option<(u32, &FuncType)>
        requires { place < 56 }
        ensures { found_as result ≡ with_type (Some place) }
    {
        let ty = self.type_at(place)?;
        Some((place as u32, ty))
    }

    /// The number and the type of an import, by the names of its module and of itself.
    pub fn find(&self, from: &[u8], name: &[u8]) -> Option<(u32, &FuncType)>
        ensures { found_as result ≡ host_finds from.now name.now }
    {
        self.at(place_in(from, name)?)
    }
}
