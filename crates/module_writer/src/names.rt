//! The section of names, behind the bytes of a module.

ghost use Rattle.std.specs.Prelude.{◌≡◌, ℕ, ◌+◌, ◌^◌, ◌<◌, ◌≤◌, ◌++◌, List, length, map, IfErr, IfOk, OnOk};
ghost use Rattle.wasm_types.specs.Syntax.{ModuleForm};
ghost use Rattle.wasm_types.specs.ModuleGrammar.{IsModule};
ghost use Rattle.wasm_types.specs.Profile.{most_module_bytes};
ghost use Rattle.module_writer.specs.declared.fault.WriteFault.TheVariants.{TooLarge};
ghost use Rattle.module_writer.specs.Names.{counted, functions_text, name_contents, names_text};

use crate::fault::WriteFault;
use std::alloc::Global;
use wasm_types::{MAX_MODULE_BYTES, push_u32};

/// The section's name with its length, and the number of the subsection.
const BEGINS: [u8; 6] = [4, 110, 97, 109, 101, 1];

/// Puts bytes with their number before them.
fn put_counted(out: &mut Vec<u8>, bytes: &[u8]) -> Result<(), WriteFault>
    ensures done { OnOk result (out.new.items ≡ out.old.items ++ counted bytes.now) }
    ensures too_large { IfErr result (λ fault. fault ≡ TooLarge → 2 ^ 32 ≤ length bytes.now) }
{
    match u32::try_from(bytes.len()) {
        Ok(count) => push_u32(out, count)?,
        Err(_) => return Err(WriteFault::TooLarge),
    }
    out.extend_from_slice(bytes)?;
    Ok(())
}

/// The names of functions; the first function has this number.
fn functions(alloc: Global, first: u32, names: &[Vec<u8>]) -> Result<Vec<u8>, WriteFault>
    requires { first + length names.now < 2 ^ 32 }
    ensures done { IfOk result
        (λ made. made.items ≡ functions_text first (map (λ name. name.items) names.now)) }
    ensures too_large { IfErr result (λ fault. fault ≡ TooLarge
        → 2 ^ 32 ≤ length (functions_text first (map (λ name. name.items) names.now))) }
{
    let mut made = Vec::new(alloc);
    push_u32(&mut made, names.len() as u32)?;
    let mut number = first;
    for name in names {
        push_u32(&mut made, number)?;
        put_counted(&mut made, name)?;
        number += 1;
    }
    Ok(made)
}

/// What the section has.
fn contents(alloc: Global, first: u32, names: &[Vec<u8>]) -> Result<Vec<u8>, WriteFault>
    requires { first + length names.now < 2 ^ 32 }
    ensures done { IfOk result
        (λ made. made.items ≡ name_contents first (map (λ name. name.items) names.now)) }
    ensures too_large { IfErr result (λ fault. fault ≡ TooLarge
        → 2 ^ 32 ≤ length (name_contents first (map (λ name. name.items) names.now))) }
{
    let functions = functions(alloc, first, names)?;
    let mut made = Vec::new(alloc);
    made.extend_from_slice(&BEGINS)?;
    put_counted(&mut made, &functions)?;
    Ok(made)
}

/// The bytes of a module, and behind them names for its functions from this number on. They are of the same module.
///
/// # Errors
///
/// [`WriteFault::TooLarge`] where they are more than 16 MiB, and [`WriteFault::NoMemory`].
pub fn with_names(
    alloc: Global,
    bytes: &[u8],
    first: u32,
    names: &[Vec<u8>],
) -> Result<Vec<u8>, WriteFault>
    requires { first + length names.now < 2 ^ 32 }
    ensures text { IfOk result
        (λ all. all.items ≡ bytes.now ++ names_text first (map (λ name. name.items) names.now)) }
    ensures same { IfOk result
        (λ all. (m : ModuleForm) → IsModule bytes.now m → IsModule all.items m) }
    ensures too_large { IfErr result (λ fault. fault ≡ TooLarge → most_module_bytes
        < length (bytes.now ++ names_text first (map (λ name. name.items) names.now))) }
{
    let contents = contents(alloc, first, names)?;
    let mut all = bytes.to_vec(alloc)?;
    all.push(0)?;
    put_counted(&mut all, &contents)?;
    if all.len() > MAX_MODULE_BYTES {
        return Err(WriteFault::TooLarge);
    }
    Ok(all)
}
