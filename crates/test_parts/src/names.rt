//! Which kinds the names of scripts have, or why scripts are refused for them.
//!
//! The answer is `names`, the functions with their parameters and the globals in the order of their first places, `[]` behind an array; or the refusal and
//! the name that it carries; or `NoTree`. The script's code, folded and unboxed, must name the same functions and globals with the same kinds, else `OtherCode`
//! is added.
use crate::show::show;
use awk_parse::parse;
use awk_resolve::{FunctionNames, NameKind, ResolveFault, Resolved, resolve};
use awk_tokens::tokens;
use mid_program::{Declared, Kind, Routine};
use script_code::{CompileFault, code_of};
use std::alloc::{AllocError, Global};

/// Adds a name, with brackets behind it if it is an array's.
fn push_name(out: &mut String, name: &NameKind) -> Result<(), AllocError> {
    show(out, name.name)?;
    if name.is_array {
        out.push_str("[]")?;
    }
    Ok(())
}

/// Adds a function with its parameters.
fn push_function(out: &mut String, function: &FunctionNames) -> Result<(), AllocError> {
    show(out, function.name)?;
    out.push('(')?;
    for (i, parameter) in function.parameters.iter().enumerate() {
        if i > 0 {
            out.push(' ')?;
        }
        push_name(out, parameter)?;
    }
    out.push(')')
}

/// What is said of a script that is not refused.
fn names_of(alloc: Global, script: &[u8], resolved: &Resolved) -> Result<String, AllocError> {
    let mut out = String::from_str(alloc, "names")?;
    for function in &resolved.functions {
        out.push(' ')?;
        push_function(&mut out, function)?;
    }
    for global in &resolved.globals {
        out.push(' ')?;
        push_name(&mut out, global)?;
    }
    if !is_named_in_code(alloc, script, resolved)? {
        out.push_str(" OtherCode")?;
    }
    Ok(out)
}

/// Whether a kind is that of a name.
fn is_kind_of(kind: &Kind, name: &NameKind) -> bool {
    match kind {
        Kind::Array => name.is_array,
        Kind::Boxed | Kind::Unboxed => !name.is_array,
    }
}

/// Whether these are the code's globals.
fn are_globals(declared: &[Declared], names: &[NameKind]) -> bool {
    let mut pairs = declared.iter().zip(names);
    declared.len() == names.len()
        && pairs.all(|(it, name)| it.name.as_slice() == name.name && is_kind_of(&it.kind, name))
}

/// Whether these are the kinds of a function's parameters in its code.
fn are_parameters(routine: &Routine, names: &[NameKind]) -> bool {
    let mut pairs = routine.parameters.iter().zip(names);
    routine.parameters.len() == names.len() && pairs.all(|(kind, name)| is_kind_of(kind, name))
}

/// Whether the script's code has its functions and globals. A script with a bad regular expression has none.
fn is_named_in_code(alloc: Global, script: &[u8], resolved: &Resolved) -> Result<bool, AllocError> {
    let mid = match code_of(alloc, script) {
        Ok(mid) => mid,
        Err(CompileFault::NoMemory) => return Err(AllocError),
        Err(fault) => return Ok(matches!(fault, CompileFault::Ere(..))),
    };
    let functions = &resolved.functions;
    let mut pairs = mid.routines.iter().zip(functions);
    Ok(
        are_globals(&mid.globals, &resolved.globals)
            && mid.routines.len() == functions.len()
            && pairs.all(|(it, function)| {
                it.name.as_slice() == function.name && are_parameters(it, &function.parameters)
            }),
    )
}

/// A refusal and the name that it carries.
fn refused(alloc: Global, word: &str, name: &[u8]) -> Result<String, AllocError> {
    let mut out = String::from_str(alloc, word)?;
    out.push(' ')?;
    show(&mut out, name)?;
    Ok(out)
}

/// What is said of a refused script.
fn refusal_of(alloc: Global, fault: &ResolveFault) -> Result<String, AllocError> {
    match fault {
        ResolveFault::TooMany(name) => refused(alloc, "TooMany", name.as_slice()),
        ResolveFault::DuplicateName(name) => refused(alloc, "DuplicateName", name.as_slice()),
        ResolveFault::UnknownFunction(name) => refused(alloc, "UnknownFunction", name.as_slice()),
        ResolveFault::ArgCount(name) => refused(alloc, "ArgCount", name.as_slice()),
        ResolveFault::KindClash(name) => refused(alloc, "KindClash", name.as_slice()),
        ResolveFault::NoMemory => Err(AllocError),
    }
}

/// What is said of a script.
pub(crate) fn names_or_refusal(alloc: Global, script: &[u8]) -> Result<String, AllocError> {
    let Ok(tokens) = tokens(alloc, script) else {
        return String::from_str(alloc, "NoTree");
    };
    let Ok(tree) = parse(alloc, &tokens) else {
        return String::from_str(alloc, "NoTree");
    };
    match resolve(alloc, &tree) {
        Ok(resolved) => names_of(alloc, script, &resolved),
        Err(fault) => refusal_of(alloc, &fault),
    }
}
