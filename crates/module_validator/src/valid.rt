//! Validation of modules.
ghost use Rattle.std.specs.Prelude.{◌≡◌, ◌⊎◌, ◌-◌, ◌<◌, ◌≤◌, OnOk, IfOk, IfErr, Some, MatchResult, slice_get, get_or, length};
ghost use Rattle.std.specs.List.{All};
ghost use Rattle.module_validator.specs.Faults.{Refuses, Untypes};
ghost use Rattle.wasm_types.specs.Instructions.{depths};
ghost use Rattle.wasm_types.specs.Profile.{most_nesting};
ghost use Rattle.wasm_types.specs.Typing.{FuncOk, ModuleOk};
ghost use Rattle.wasm_types.specs.View.{view_func, view_module};

use crate::checker::{Scope, typed};
use crate::level::level_ok;
use crate::stack::{Labels, Refusal};
use std::alloc::Global;
use std::marker::Model;
use thiserror::Error;
use wasm_types::{Func, Module};

/// Why a module is refused. A function is named by its index, imported functions counted first.
#[derive(Clone, Copy, Debug, PartialEq, Eq, Drop, Error)]
pub enum InvalidFault {
    /// The function is not typed, and names a type, function, local, global, label, table or memory that is not there.
    #[error("BadIndex {0}")]
    BadIndex(usize),
    /// The function is not typed, though all that it names is there and its alignments are small enough: its operands are not of the types
    /// that are wanted, the labels of a table are unlike, or it sets a global that cannot be set.
    #[error("BadType {0}")]
    BadType(usize),
    /// The function is not typed, all that it names is there, and it has a load or a store whose alignment is larger than what it moves.
    #[error("BadAlign {0}")]
    BadAlign(usize),
    /// Something outside the functions' bodies is wrong: an index, a limit, a constant expression, the start function, or two exports
    /// of one name.
    #[error("BadModule")]
    BadModule,
    #[error("NoMemory")]
    NoMemory,
}

/// A module that the typing rules allow.
#[derive(Drop)]
pub struct ValidModule {
    whole: Module,
}

impl Model for ValidModule {
    ghost use Rattle.std.specs.Coded.{codes};
    ghost use Rattle.wasm_types.specs.Profile.{most_nesting};
    ghost use Rattle.wasm_types.specs.Typing.{ModuleOk};
    ghost use Rattle.wasm_types.specs.View.{view_module};
    ghost use Rattle.wasm_types.specs.contracts.instr.Instr as instr;
    ghost use Rattle.wasm_types.specs.declared.module.Module.{Module};

    ghost Value = { Module };

    ghost coded = { Prim.hlevel (codes, instr.the_row.coded) };

    ghost view = { λ v. v.whole };

    ghost invariant = { λ v. ModuleOk (view_module v.whole) };
}

impl ValidModule {
    /// The module.
    pub fn get(&self) -> &Module
        ensures same { result.now ≡ self.now }
        ensures valid { ModuleOk (view_module self.now) }
    {
        &self.whole
    }

    /// The module, given up.
    pub fn into_module(self) -> Module
        ensures same { result ≡ self }
        ensures valid { ModuleOk (view_module self) }
    {
        self.whole
    }
}

fn check_func(alloc: Global, m: &Module, f: &Func, function: usize) -> Result<(), InvalidFault>
    requires { depths (view_func f.now).body ≤ most_nesting }
    ensures { MatchResult result (λ _. FuncOk (view_module m.now) (view_func f.now))
        (Untypes (view_module m.now) (view_func f.now) function) }
{
    let Some(t) = typed(m, f.ty) else {
        return Err(InvalidFault::BadIndex(function));
    };
    let scope = Scope {
        whole: m,
        params: &t.params,
        own: &f.locals,
        gives: t.result,
    };
    let mut labels = Labels::new(alloc);
    match scope.body(alloc, &mut labels, &f.body, t.result, t.result) {
        Ok(()) => Ok(()),
        Err(Refusal::NoMemory) => Err(InvalidFault::NoMemory),
        Err(Refusal::Untyped) => Err(scope.name(function, &f.body)),
    }
}

/// Checks the functions of a module, one after the other.
fn check_funcs(alloc: Global, m: &Module, imports: usize) -> Result<(), InvalidFault>
    requires imports { imports ≡ length (view_module m.now).imports }
    requires nested { All (λ f. depths f.body ≤ most_nesting) (view_module m.now).funcs }
    ensures { MatchResult result (λ _. All (FuncOk (view_module m.now)) (view_module m.now).funcs)
        (Refuses (view_module m.now)) }
{
    for (index, f) in m.funcs.iter().enumerate() {
        check_func(alloc, m, f, imports + index)?;
    }
    Ok(())
}

fn check(alloc: Global, m: &Module) -> Result<(), InvalidFault>
    requires { All (λ f. depths f.body ≤ most_nesting) (view_module m.now).funcs }
    ensures { MatchResult result (λ _. ModuleOk (view_module m.now)) (Refuses (view_module m.now)) }
{
    match level_ok(alloc, m) {
        Err(_) => Err(InvalidFault::NoMemory),
        Ok(false) => Err(InvalidFault::BadModule),
        Ok(true) => check_funcs(alloc, m, m.imports.len()),
    }
}

/// The module, if the typing rules allow it (Core 1.0, section 3).
///
/// # Errors
///
/// The module is handed back: with [`InvalidFault::BadModule`] where the module level is not typed, with `BadIndex`, `BadAlign` or
/// `BadType` of the first function that is not typed, or with `NoMemory`.
///
/// Bodies are to be nested at most 4,000 deep, as those of a decoded module are, so that the native stack suffices.
pub fn validate(alloc: Global, m: Module) -> Result<ValidModule, (Module, InvalidFault)>
    requires nested { All (λ f. depths f.body ≤ most_nesting) (view_module m).funcs }
    ensures ok { IfOk result (λ v. v ≡ m) }
    ensures valid { OnOk result (ModuleOk (view_module m)) }
    ensures handed_back { IfErr result (λ e. e.0 ≡ m) }
    ensures cause { IfErr result (λ e. Refuses (view_module m) e.1) }
    ensures untyped { IfErr result
        (λ e. (e.1 ≡ InvalidFault.NoMemory) ⊎ (ModuleOk (view_module m) → ⊥)) }
{
    match check(alloc, &m) {
        Ok(()) => Ok(ValidModule { whole: m }),
        Err(fault) => Err((m, fault)),
    }
}
