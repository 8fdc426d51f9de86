//! The functions of a script, and its module.
ghost use Rattle.std.specs.Prelude.{[], true, false, ◌≡◌, ◌<◌, ◌≤◌, IfErr, IfOk, length, map, MatchOption, OnOk};
ghost use Rattle.std.specs.List.{AllByRecursion};
ghost use Rattle.mid_program.specs.Sorted.{context_of, parts_sorted, routines_sorted, steps_sorted, IsSorted};
ghost use Rattle.mid_program.specs.View.{view_mid, view_routine};
ghost use Rattle.lower_model.specs.Functions.{main_bases, main_callee, routine_bases, routine_callee};
ghost use Rattle.lower_model.specs.Modules.{all_callees, module_of};
ghost use Rattle.lower_modules.specs.Fits.{view_needs, FewLocals};
ghost use Rattle.lower_pieces.specs.Bounds.{most_places};
ghost use Rattle.lower_modules.specs.Lengths.{least_in};
ghost use Rattle.lower_modules.specs.Limits.{most_bytes, IsTooLarge};
ghost use Rattle.lower_modules.specs.View.{view_function, view_functions};
ghost use Rattle.lower_expressions.specs.Fits.{LendersFit};
ghost use Rattle.lowering.specs.Limits.{AreSmallEnough, MainIsSmall, RoutineIsSmall};
ghost use Rattle.wasm_types.specs.View.{view_module};

use crate::lengths::is_too_long;
use crate::lists::pushed;
use crate::main_parts::main_code;
use crate::routines::routine_code;
use lower_expressions::FunctionLayout;
use lower_layout::{Layout, LowerFault};
use lower_modules::{
    Function, Needs, local_types, main_needs, module_for, routine_needs, steps_labels,
};
use lower_pieces::Bases;
use mid_program::{Mid, Routine};
use std::alloc::Global;
use wasm_types::{MAX_MODULE_BYTES, MAX_NESTING, Module, ValType};

/// How many labels may stand in one another.
const MOST_NESTED: u32 = MAX_NESTING;

/// How many functions there may be, beside `main`.
const MOST_ROUTINES: usize = MAX_MODULE_BYTES;

/// The places of a function of these needs.
fn bases(needs: Needs) -> Bases
    requires { FewLocals (view_needs needs) }
    ensures { result ≡ view_needs needs }
{
    Bases::new(
        needs.parameters,
        needs.temporaries,
        needs.iterators,
        needs.arrays,
    )
}

/// What a function needs, if it is small enough.
fn small_routine(routine: &Routine) -> Option<Needs>
    ensures { MatchOption result (RoutineIsSmall (view_routine routine.now) → ⊥)
        (λ needs. (view_needs needs ≡ routine_bases (view_routine routine.now))
        × RoutineIsSmall (view_routine routine.now)) }
{
    if steps_labels(&routine.body) > MOST_NESTED {
        return None;
    }
    routine_needs(&routine.parameters, &routine.body)
}

/// A function.
fn routine_function(
    alloc: Global,
    layout: &Layout<'_>,
    routine: &Routine,
) -> Result<Function, LowerFault>
    requires few { length (view_mid layout.now.program.now).routines ≤ most_places }
    requires lenders { LendersFit layout.now.program.now.lenders.items }
    requires sorted { steps_sorted (context_of (view_mid layout.now.program.now)
        (view_routine routine.now).parameters) true false (view_routine routine.now).body ≡ true }
    ensures function { IfOk result (λ made. view_function made
        ≡ routine_callee (view_mid layout.now.program.now) (view_routine routine.now)) }
    ensures small { OnOk result (RoutineIsSmall (view_routine routine.now)) }
    ensures too_large { IfErr result
        (λ fault. fault ≡ LowerFault.TooLarge → RoutineIsSmall (view_routine routine.now) → ⊥) }
{
    let Some(needs) = small_routine(routine) else {
        return Err(LowerFault::TooLarge);
    };
    let bases = bases(needs);
    let function_layout = FunctionLayout {
        alloc,
        script: layout,
        bases: &bases,
    };
    let body = routine_code(&function_layout, &routine.parameters, &routine.body)?;
    let kinds = routine.parameters.as_slice().to_vec(alloc)?;
    let locals = local_types(alloc, needs)?;
    Ok(Function {
        kinds,
        locals,
        answer: ValType::I64,
        body,
    })
}

/// What `main` needs, if it is small enough.
fn small_main(mid: &Mid) -> Option<Needs>
    ensures { MatchOption result (MainIsSmall (view_mid mid.now) → ⊥) (λ needs.
        (view_needs needs ≡ main_bases (view_mid mid.now)) × MainIsSmall (view_mid mid.now)) }
{
    if steps_labels(&mid.begin) > MOST_NESTED
        || steps_labels(&mid.items) > MOST_NESTED
        || steps_labels(&mid.end) > MOST_NESTED
    {
        return None;
    }
    main_needs(mid)
}

/// `main`.
fn main_function(alloc: Global, layout: &Layout<'_>) -> Result<Function, LowerFault>
    requires few { length (view_mid layout.now.program.now).routines ≤ most_places }
    requires lenders { LendersFit layout.now.program.now.lenders.items }
    requires sorted { parts_sorted (view_mid layout.now.program.now)
        (context_of (view_mid layout.now.program.now) []) ≡ true }
    ensures function { IfOk result
        (λ made. view_function made ≡ main_callee (view_mid layout.now.program.now)) }
    ensures small { OnOk result (MainIsSmall (view_mid layout.now.program.now)) }
    ensures too_large { IfErr result
        (λ fault. fault ≡ LowerFault.TooLarge → MainIsSmall (view_mid layout.now.program.now)
        → most_bytes < least_in (main_callee (view_mid layout.now.program.now)).body) }
{
    let Some(needs) = small_main(layout.program) else {
        return Err(LowerFault::TooLarge);
    };
    let bases = bases(needs);
    let function_layout = FunctionLayout {
        alloc,
        script: layout,
        bases: &bases,
    };
    if is_too_long(&function_layout)? {
        return Err(LowerFault::TooLarge);
    }
    let body = main_code(&function_layout)?;
    let locals = local_types(alloc, needs)?;
    Ok(Function {
        kinds: Vec::new(alloc),
        locals,
        answer: ValType::I32,
        body,
    })
}

/// The functions of a script, without `main`.
fn routine_functions(alloc: Global, layout: &Layout<'_>) -> Result<Vec<Function>, LowerFault>
    requires few { length (view_mid layout.now.program.now).routines ≤ most_places }
    requires lenders { LendersFit layout.now.program.now.lenders.items }
    requires sorted { routines_sorted (view_mid layout.now.program.now)
        (view_mid layout.now.program.now).routines ≡ true }
    ensures functions { IfOk result (λ made. view_functions made.items ≡ map (routine_callee
        (view_mid layout.now.program.now)) (view_mid layout.now.program.now).routines) }
    ensures small { OnOk result
        (AllByRecursion RoutineIsSmall (view_mid layout.now.program.now).routines) }
    ensures too_large { IfErr result (λ fault. fault ≡ LowerFault.TooLarge
        → AllByRecursion RoutineIsSmall (view_mid layout.now.program.now).routines → ⊥) }
{
    let mut all = Vec::new(alloc);
    for routine in layout.routines() {
        let function = routine_function(alloc, layout, routine)?;
        pushed(&mut all, function)?;
    }
    Ok(all)
}

/// The functions of a script, `main` last.
///
/// # Errors
///
/// [`LowerFault::TooLarge`] where a function has more than 50,000 locals or its labels are nested past 4,000, or there are more than
/// 16,777,216 functions, or the code of `main` takes more bytes than that, and [`LowerFault::NoMemory`].
pub fn functions(alloc: Global, layout: &Layout<'_>) -> Result<Vec<Function>, LowerFault>
    requires { IsSorted (view_mid layout.now.program.now) }
    ensures functions { IfOk result
        (λ made. view_functions made.items ≡ all_callees (view_mid layout.now.program.now)) }
    ensures small { OnOk result (AreSmallEnough (view_mid layout.now.program.now)) }
    ensures too_large { IfErr result (λ fault. fault ≡ LowerFault.TooLarge → AreSmallEnough
        (view_mid layout.now.program.now) → IsTooLarge (view_mid layout.now.program.now)) }
{
    if layout.routines().len() > MOST_ROUTINES {
        return Err(LowerFault::TooLarge);
    }
    let mut all = routine_functions(alloc, layout)?;
    let main = main_function(alloc, layout)?;
    pushed(&mut all, main)?;
    Ok(all)
}

/// The module of a script, whose things stand where its layout has them. The layout has the script.
///
/// # Errors
///
/// Those of [`functions`] and of [`module_for`].
pub fn lower(alloc: Global, layout: &Layout<'_>) -> Result<Module, LowerFault>
    requires { IsSorted (view_mid layout.now.program.now) }
    ensures module { IfOk result
        (λ made. view_module made ≡ module_of (view_mid layout.now.program.now)) }
    ensures too_large { IfErr result (λ fault. fault ≡ LowerFault.TooLarge → AreSmallEnough
        (view_mid layout.now.program.now) → IsTooLarge (view_mid layout.now.program.now)) }
{
    let callees = functions(alloc, layout)?;
    module_for(alloc, layout.program, &callees)
}
