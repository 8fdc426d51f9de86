//! The types of imports, as a module declares them.
ghost use Rattle.std.specs.Prelude.{◌≡◌, IfOk};
ghost use Rattle.host_imports.specs.Imports.{import_type, params_of, result_of, words_of};
ghost use Rattle.wasm_types.specs.View.{signature_of};

use crate::import::Import;
use sem_primitives::{Answer, Argument, Sort};
use std::alloc::{AllocError, Global};
use wasm_types::{FuncType, ValType};

/// The words that an argument is passed as.
fn words_of(argument: Argument) -> &'static [ValType]
    ensures { result.now ≡ words_of argument }
{
    match argument {
        Argument::Of(Sort::Number) => &[ValType::I64],
        Argument::Place => &[ValType::I32, ValType::I32],
        _ => &[ValType::I32],
    }
}

#[tactic(auto, using(crate::proofs::Params::params_of_next))]
fn params_of(alloc: Global, arguments: &[Argument]) -> Result<Vec<ValType>, AllocError>
    ensures { IfOk result (λ params. params.items ≡ params_of arguments.now) }
{
    let mut params = Vec::new(alloc);
    for argument in arguments {
        params.extend_from_slice(words_of(*argument))?;
    }
    Ok(params)
}

/// The word that an answer is given as.
fn result_of(answer: Answer) -> Option<ValType>
    ensures { result ≡ result_of answer }
{
    match answer {
        Answer::Nothing => None,
        Answer::Of(Sort::Number) => Some(ValType::I64),
        _ => Some(ValType::I32),
    }
}

/// The type of an import: the words of its arguments, in order, and that of its answer.
///
/// # Errors
///
/// [`AllocError`] where there is no memory for the list of words.
pub fn type_of(alloc: Global, import: Import) -> Result<FuncType, AllocError>
    ensures { IfOk result (λ ty. signature_of ty ≡ import_type import) }
{
    Ok(FuncType {
        params: params_of(alloc, import.arguments())?,
        result: result_of(import.answer()),
    })
}
