//! The table of a module, by its bytes.
ghost use Rattle.std.specs.Prelude.{◌≡◌, IfOk, MatchResult, None, Some, map, option_map};
ghost use Rattle.script_places.specs.Lines.{form_of};
ghost use Rattle.script_places.specs.Reading.{function_at, items_at, lines_at, table_at, table_in};
ghost use Rattle.script_places.specs.declared.reading.Unread.TheVariants.{Malformed, NoMemory};
ghost use Rattle.wasm_types.specs.Leb128Texts.{u32_at};

use crate::module_table::FunctionLines;
use crate::sections::{counted, own_section};
use std::alloc::{AllocError, AllocFailed, Global};
use wasm_types::take_u32;

/// Why nothing is read.
#[derive(Drop)]
enum Unread {
    Malformed,
    NoMemory,
}

impl From<AllocError> for Unread {
    ghost from_gives = { λ _ e. e ≡ NoMemory };

    fn from(_e: AllocError) -> Unread {
        Unread::NoMemory
    }
}

impl<T: Drop> From<AllocFailed<T>> for Unread {
    ghost from_gives = { λ _ e. e ≡ NoMemory };

    fn from(_e: AllocFailed<T>) -> Unread {
        Unread::NoMemory
    }
}

fn take_number(bytes: &[u8]) -> Result<(u32, &[u8]), Unread>
    ensures { MatchResult result (λ x. u32_at bytes.now ≡ Some (x.0, x.1.now))
        (λ e. e ≡ Malformed → u32_at bytes.now ≡ None) }
{
    match take_u32(bytes) {
        Some((number, rest)) => Ok((number, rest)),
        None => Err(Unread::Malformed),
    }
}

/// So many numbers, and what comes after them.
fn take_numbers(alloc: Global, bytes: &[u8], count: u32) -> Result<(Vec<u32>, &[u8]), Unread>
    ensures { MatchResult result (λ x. items_at u32_at count bytes.now ≡ Some (x.0.items, x.1.now))
        (λ e. e ≡ Malformed → items_at u32_at count bytes.now ≡ None) }
{
    let mut made = Vec::new(alloc);
    let mut rest = bytes;
    for _ in 0..count {
        let (number, after) = take_number(rest)?;
        made.push(number)?;
        rest = after;
    }
    Ok((made, rest))
}

/// The lines of a function.
fn take_lines(alloc: Global, bytes: &[u8]) -> Result<(Vec<u32>, &[u8]), Unread>
    ensures { MatchResult result (λ x. lines_at bytes.now ≡ Some (x.0.items, x.1.now))
        (λ e. e ≡ Malformed → lines_at bytes.now ≡ None) }
{
    let (count, rest) = take_number(bytes)?;
    take_numbers(alloc, rest, count)
}

fn take_function(alloc: Global, bytes: &[u8]) -> Result<(FunctionLines, &[u8]), Unread>
    ensures { MatchResult result (λ x. function_at bytes.now ≡ Some (form_of x.0, x.1.now))
        (λ e. e ≡ Malformed → function_at bytes.now ≡ None) }
{
    let Some((name, rest)) = counted(bytes) else {
        return Err(Unread::Malformed);
    };
    let (lines, after) = take_lines(alloc, rest)?;
    let name = name.to_vec(alloc)?;
    Ok((FunctionLines { name, lines }, after))
}

/// So many functions, and what comes after them.
fn take_functions(
    alloc: Global,
    bytes: &[u8],
    count: u32,
) -> Result<(Vec<FunctionLines>, &[u8]), Unread>
    ensures { MatchResult result
        (λ x. items_at function_at count bytes.now ≡ Some (map form_of x.0.items, x.1.now))
        (λ e. e ≡ Malformed → items_at function_at count bytes.now ≡ None) }
{
    let mut made = Vec::new(alloc);
    let mut rest = bytes;
    for _ in 0..count {
        let (function, after) = take_function(alloc, rest)?;
        made.push(function)?;
        rest = after;
    }
    Ok((made, rest))
}

/// The functions of a table, and what comes after them.
fn take_table(alloc: Global, bytes: &[u8]) -> Result<(Vec<FunctionLines>, &[u8]), Unread>
    ensures { MatchResult result
        (λ x. table_at bytes.now ≡ Some (map form_of x.0.items, x.1.now))
        (λ e. e ≡ Malformed → table_at bytes.now ≡ None) }
{
    let (count, rest) = take_number(bytes)?;
    take_functions(alloc, rest, count)
}

/// The functions of a module with the lines of their places, as the last section of lines among its bytes has them. There are none where there is no such
/// section, or where it is no table.
///
/// # Errors
///
/// Where memory is wanting.
pub fn table_in(alloc: Global, bytes: &[u8]) -> Result<Option<Vec<FunctionLines>>, AllocError>
    ensures { IfOk result (λ found. option_map (λ table. map form_of table.items) found
        ≡ table_in bytes.now) }
{
    let Some(contents) = own_section(bytes) else {
        return Ok(None);
    };
    match take_table(alloc, contents) {
        Ok((found, _)) => Ok(Some(found)),
        Err(Unread::Malformed) => Ok(None),
        Err(Unread::NoMemory) => Err(AllocError),
    }
}
