//! The section, behind the bytes of a module.
ghost use Rattle.std.specs.Prelude.{◌≡◌, ◌++◌, ◌^◌, ◌<◌, ◌≤◌, IfErr, IfOk, OnOk, Some, length, map};
ghost use Rattle.std.specs.List.{AllByRecursion, flat_map};
ghost use Rattle.wasm_types.specs.Leb128Texts.{u32_text};
ghost use Rattle.wasm_types.specs.ModuleGrammar.{IsModule};
ghost use Rattle.wasm_types.specs.Syntax.{ModuleForm};
ghost use Rattle.script_places.specs.Reading.{AllFit, Fits, IsWord, table_in};
ghost use Rattle.script_places.specs.Lines.{form_of, function_text, lines_contents, lines_text};
ghost use Rattle.module_writer.specs.Names.{counted};
ghost use Rattle.module_writer.specs.declared.fault.WriteFault.TheVariants.{TooLarge};
ghost use Rattle.wasm_types.specs.Profile.{most_module_bytes};

use crate::module_table::FunctionLines;
use module_writer::WriteFault;
use std::alloc::{AllocError, Global};
use wasm_types::{MAX_MODULE_BYTES, push_u32};

/// The section's name with its length.
pub(crate) const OWN_NAME: [u8; 10] = [9, 97, 119, 107, 46, 108, 105, 110, 101, 115];

/// Puts the number of something.
fn put_count(out: &mut Vec<u8>, count: usize) -> Result<(), WriteFault>
    ensures text { OnOk result (out.new.items ≡ out.old.items ++ u32_text count) }
    ensures word { OnOk result (IsWord count) }
    ensures large { IfErr result (λ fault. fault ≡ TooLarge → 2 ^ 32 ≤ count) }
{
    match u32::try_from(count) {
        Ok(count) => push_u32(out, count)?,
        Err(_) => return Err(WriteFault::TooLarge),
    }
    Ok(())
}

/// Puts bytes with their number before them.
fn put_counted(out: &mut Vec<u8>, bytes: &[u8]) -> Result<(), WriteFault>
    ensures text { OnOk result (out.new.items ≡ out.old.items ++ counted bytes.now) }
    ensures word { OnOk result (IsWord (length bytes.now)) }
    ensures large { IfErr result (λ fault. fault ≡ TooLarge → 2 ^ 32 ≤ length bytes.now) }
{
    put_count(out, bytes.len())?;
    out.extend_from_slice(bytes)?;
    Ok(())
}

fn put_numbers(out: &mut Vec<u8>, numbers: &[u32]) -> Result<(), AllocError>
    ensures text { OnOk result (out.new.items ≡ out.old.items ++ flat_map u32_text numbers.now) }
    ensures words { AllByRecursion IsWord numbers.now }
{
    for number in numbers {
        push_u32(out, *number)?;
    }
    Ok(())
}

/// Puts lines with their number before them.
fn put_lines(out: &mut Vec<u8>, lines: &[u32]) -> Result<(), WriteFault>
    ensures text { OnOk result (out.new.items
        ≡ out.old.items ++ (u32_text (length lines.now) ++ flat_map u32_text lines.now)) }
    ensures word { OnOk result (IsWord (length lines.now)) }
    ensures words { AllByRecursion IsWord lines.now }
    ensures large { IfErr result (λ fault. fault ≡ TooLarge → 2 ^ 32 ≤ length lines.now) }
{
    put_count(out, lines.len())?;
    put_numbers(out, lines)?;
    Ok(())
}

fn put_function(out: &mut Vec<u8>, function: &FunctionLines) -> Result<(), WriteFault>
    ensures text { OnOk result (out.new.items
        ≡ out.old.items ++ function_text (form_of function.now)) }
    ensures fits { OnOk result (Fits (form_of function.now)) }
    ensures large { IfErr result
        (λ fault. fault ≡ TooLarge → 2 ^ 32 ≤ length (function_text (form_of function.now))) }
{
    put_counted(out, &function.name)?;
    put_lines(out, &function.lines)
}

fn put_functions(out: &mut Vec<u8>, functions: &[FunctionLines]) -> Result<(), WriteFault>
    ensures text { OnOk result (out.new.items
        ≡ out.old.items ++ flat_map function_text (map form_of functions.now)) }
    ensures fit { OnOk result (AllByRecursion Fits (map form_of functions.now)) }
    ensures large { IfErr result (λ fault. fault ≡ TooLarge
        → 2 ^ 32 ≤ length (flat_map function_text (map form_of functions.now))) }
{
    for function in functions {
        put_function(out, function)?;
    }
    Ok(())
}

/// What the section has.
#[tactic(auto, using(crate::proofs::Long::contents_long))]
fn contents(alloc: Global, table: &[FunctionLines]) -> Result<Vec<u8>, WriteFault>
    ensures text { IfOk result (λ made. made.items ≡ lines_contents (map form_of table.now)) }
    ensures fit { OnOk result (AllFit (map form_of table.now)) }
    ensures large { IfErr result
        (λ fault. fault ≡ TooLarge → 2 ^ 32 ≤ length (lines_contents (map form_of table.now))) }
{
    let mut made = Vec::new(alloc);
    made.extend_from_slice(&OWN_NAME)?;
    put_count(&mut made, table.len())?;
    put_functions(&mut made, table)?;
    Ok(made)
}

/// The bytes of a module, and behind them the lines of its functions: first those of the script, then `main`. They are of the same module.
///
/// # Errors
///
/// [`WriteFault::TooLarge`] where they are more than 16 MiB, and [`WriteFault::NoMemory`].
pub fn with_lines(
    alloc: Global,
    bytes: &[u8],
    table: &[FunctionLines],
) -> Result<Vec<u8>, WriteFault>
    ensures text { IfOk result
        (λ all. all.items ≡ bytes.now ++ lines_text (map form_of table.now)) }
    ensures same { IfOk result
        (λ all. (m : ModuleForm) → IsModule bytes.now m → IsModule all.items m) }
    ensures found { IfOk result (λ all. (m : ModuleForm) → IsModule bytes.now m
        → table_in all.items ≡ Some (map form_of table.now)) }
    ensures too_large { IfErr result (λ fault. fault ≡ TooLarge → most_module_bytes
        < length (bytes.now ++ lines_text (map form_of table.now))) }
{
    let contents = contents(alloc, table)?;
    let mut all = bytes.to_vec(alloc)?;
    all.push(0)?;
    put_counted(&mut all, &contents)?;
    if all.len() > MAX_MODULE_BYTES {
        return Err(WriteFault::TooLarge);
    }
    Ok(all)
}
