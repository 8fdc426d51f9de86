//! What the names of a script stand for.

ghost use Rattle.std.specs.Prelude.{◌≡◌, ℕ, ◌+◌, List, map, IfOk};
ghost use Rattle.awk_resolve.specs.ViewFunctions.{view_functions};
ghost use Rattle.awk_resolve.specs.ViewKinds.{view_name_kinds};
ghost use Rattle.sem_scripts.specs.Names.{arrays_before, function_number, kind_at, special_array, special_in, special_named, special_names};
ghost use Rattle.mid_code.specs.ViewNames.{array_numbers, function_from, global_number, place_found, place_from, plain_special, script_of};

use crate::fallible::{all_three, push};
use awk_resolve::{FunctionNames, NameKind, Resolved};
use indexmap::IndexMap;
use sem_primitives::Special;
use std::alloc::{AllocError, Global};

/// What a name stands for that is used as a scalar.
#[derive(Clone, Copy)]
pub(crate) enum Variable {
    Global(usize),
    Parameter(usize),
    Reserved(Special),
}

/// The special variables that are scalars.
fn special_names() -> [(&'static [u8], Special); 14]
    ensures { map plain_special result ≡ special_names }
{
    [
        (b"ARGC".as_slice(), Special::Argc),
        (b"CONVFMT".as_slice(), Special::Convfmt),
        (b"FILENAME".as_slice(), Special::Filename),
        (b"FNR".as_slice(), Special::Fnr),
        (b"FS".as_slice(), Special::Fs),
        (b"NF".as_slice(), Special::Nf),
        (b"NR".as_slice(), Special::Nr),
        (b"OFMT".as_slice(), Special::Ofmt),
        (b"OFS".as_slice(), Special::Ofs),
        (b"ORS".as_slice(), Special::Ors),
        (b"RLENGTH".as_slice(), Special::Rlength),
        (b"RS".as_slice(), Special::Rs),
        (b"RSTART".as_slice(), Special::Rstart),
        (b"SUBSEP".as_slice(), Special::Subsep),
    ]
}

/// The special variable that stands with a name in a table.
fn special_in(table: &[(&'static [u8], Special)], name: &[u8]) -> Option<Special>
    ensures { result ≡ special_in (map plain_special table.now) name.now }
{
    for entry in table {
        if entry.0 == name {
            return Some(entry.1);
        }
    }
    None
}

/// The special variable of a name.
pub(crate) fn special_named(name: &[u8]) -> Option<Special>
    ensures { result ≡ special_named name.now }
{
    special_in(&special_names(), name)
}

/// The number of a special array.
pub(crate) fn special_array(name: &[u8]) -> Option<usize>
    ensures { result ≡ special_array name.now }
{
    if b"ARGV".as_slice() == name {
        return Some(0);
    }
    if b"ENVIRON".as_slice() == name {
        return Some(1);
    }
    None
}

/// The first place of a name among a function's parameters.
pub(crate) fn place_in(names: &[NameKind<'_>], name: &[u8]) -> Option<usize>
    ensures { result ≡ place_from 0 (view_name_kinds names.now) name.now }
{
    for i in 0..names.len() {
        if names[i].name == name {
            return Some(i);
        }
    }
    None
}

/// Whether the name of this number is an array's.
pub(crate) fn kind_at(names: &[NameKind<'_>], number: usize) -> bool
    ensures { result ≡ kind_at (view_name_kinds names.now) number }
{
    match names.get(number) {
        Some(name) => name.is_array,
        None => false,
    }
}

/// The first place of each global name.
fn places_of_globals<'a>(
    alloc: Global,
    names: &[NameKind<'a>],
) -> Result<IndexMap<&'a [u8], usize>, AllocError>
    ensures { IfOk result (λ found. (x : List ℕ) → place_found found.entries x
        ≡ place_from 0 (view_name_kinds names.now) x) }
{
    let mut found = IndexMap::new(alloc);
    let mut place = names.len();
    while place > 0 {
        place -= 1;
        found.insert(names[place].name, place)?;
    }
    Ok(found)
}

/// The first place of each function's name.
fn places_of_functions<'a>(
    alloc: Global,
    functions: &[FunctionNames<'a>],
) -> Result<IndexMap<&'a [u8], usize>, AllocError>
    ensures { IfOk result (λ found. (x : List ℕ) → place_found found.entries x
        ≡ function_from 0 (view_functions functions.now) x) }
{
    let mut found = IndexMap::new(alloc);
    let mut place = functions.len();
    while place > 0 {
        place -= 1;
        found.insert(functions[place].name, place)?;
    }
    Ok(found)
}

/// For each global name the number that it has if it is an array's; and last the number that one more array would have.
fn array_numbers(alloc: Global, names: &[NameKind<'_>]) -> Result<Vec<usize>, AllocError>
    ensures { IfOk result (λ numbers. numbers.items ≡ array_numbers 2 (view_name_kinds names.now)) }
{
    let mut numbers = Vec::new(alloc);
    let mut next = 2;
    for name in names {
        push(&mut numbers, next)?;
        next += usize::from(name.is_array);
    }
    push(&mut numbers, next)?;
    Ok(numbers)
}

/// The names of a script by their hashes.
#[derive(Drop)]
pub(crate) struct Names<'a> {
    pub resolved: &'a Resolved<'a>,
    globals: IndexMap<&'a [u8], usize>,
    functions: IndexMap<&'a [u8], usize>,
    numbers: Vec<usize>,
    ghost globals_found: { (x : List ℕ) → place_found globals.entries x
        ≡ place_from 0 (view_name_kinds resolved.now.globals.items) x },
    ghost functions_found: { (x : List ℕ) → place_found functions.entries x
        ≡ function_from 0 (view_functions resolved.now.functions.items) x },
    ghost numbers_found: { numbers.items ≡ array_numbers 2 (view_name_kinds
        resolved.now.globals.items) },
}

impl<'a> Names<'a> {
    /// The names of a script.
    pub fn new(alloc: Global, resolved: &'a Resolved<'a>) -> Result<Self, AllocError>
        ensures { IfOk result (λ names. names.resolved.now ≡ resolved.now) }
    {
        let numbers = array_numbers(alloc, &resolved.globals);
        let globals = places_of_globals(alloc, &resolved.globals);
        let functions = places_of_functions(alloc, &resolved.functions);
        let (globals, functions, numbers) = all_three(globals, functions, numbers)?;
        Ok(Names {
            resolved,
            globals,
            functions,
            numbers,
        })
    }

    /// The number of a global name; of one that is not there, how many there are.
    #[tactic(auto, using(crate::proofs::NameTables::length_kinds, crate::proofs::NameTables::place_from_is))]
    pub fn global(&self, name: &[u8]) -> usize
        ensures { result ≡ global_number (script_of self.now.resolved.now) name.now }
    {
        match self.globals.get(name) {
            Some(place) => *place,
            None => self.resolved.globals.len(),
        }
    }

    /// The number that a global name has if it is an array's.
    pub fn array(&self, name: &[u8]) -> usize
        ensures { result ≡ 2 + arrays_before (script_of self.now.resolved.now).globals name.now }
    {
        self.numbers[self.global(name)]
    }

    /// The number of a function; of one that is not there, how many there are.
    pub fn function(&self, name: &[u8]) -> usize
        ensures { result ≡ function_number (script_of self.now.resolved.now) name.now }
    {
        match self.functions.get(name) {
            Some(place) => *place,
            None => self.resolved.functions.len(),
        }
    }
}
