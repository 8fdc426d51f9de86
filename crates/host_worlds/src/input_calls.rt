//! The calls that read the inputs, `getline` in its forms, and those that end a file or begin END.
ghost use Rattle.std.specs.Prelude.{◌≡◌, ℕ, List, [], None};
ghost use Rattle.std.specs.FinMap as map;
ghost use Rattle.sem_primitives.specs.declared.table.Primitive.TheVariants as row;
ghost use Rattle.host_imports.specs.Codes.{input_code};
ghost use Rattle.host_imports.specs.declared.import.Import.{Import};
ghost use Rattle.host_streams.specs.Given.{GivesNone};
ghost use Rattle.host_streams.specs.OpenFiles.{WritersGo};
ghost use Rattle.host_texts.specs.declared.texts.Texts.{Texts as AnyTexts};
ghost use Rattle.host_values.specs.Calls.{reserved_handle};
ghost use Rattle.host_values.specs.ElementCalls.{IsTableCall};
ghost use Rattle.host_values.specs.Forms.{HostForm};
ghost use Rattle.host_values.specs.WorldCalls.{IsCalled};
ghost use Rattle.host_worlds.specs.Calls.{answered_by, shown_after, with_values};
ghost use Rattle.host_worlds.specs.Keeps.{IsMovedOn, IsReadOn, with_end, with_line, with_main_input};
ghost use Rattle.host_worlds.specs.Givens.{file_primitive, main_primitive};
ghost use Rattle.host_worlds.specs.States.{HoldsInput, form_ending, form_line, over_world};

use crate::argv::Argv;
use crate::input::{Input, MainRead, ReadInto};
use crate::{files, main_record};
use awk_values::{Stop, to_text};
use host_arrays::Arrays;
use host_handles::Handles;
use host_texts::Texts;
use host_values::{Refusal, Reply, expect_end, give, only_handle};
use sem_primitives::InputAnswer;
use std::alloc::Global;
use wasm_store::{TrapKind, Word};
use world_core::World;

/// What is answered where nothing else is to be said.
const DONE: Word = Word::I32(0);

/// The word of an answer.
fn input_code(answer: InputAnswer) -> u32
    ensures { result ≡ input_code answer }
{
    match answer {
        InputAnswer::End => 0,
        InputAnswer::Read => 1,
        InputAnswer::Pending => 2,
        InputAnswer::Failed => 3,
    }
}

/// What a call answers where this was read.
fn answered(read: Result<InputAnswer, Stop>) -> Result<Option<Word>, Refusal>
    ensures { result ≡ answered_by read }
{
    match read {
        Ok(answer) => Ok(Some(Word::I32(input_code(answer)))),
        Err(Stop::Fault(fault)) => Err(Refusal::Fault(fault)),
        Err(Stop::NoMemory) => Err(Refusal::NoMemory),
    }
}

/// Reads the main input (`next_main`, `getline`, `getline_var`), where no fault is kept.
///
/// # Errors
///
/// A trap, which changes nothing; a fault, which is to be kept, and after which nothing of texts and input is to be looked at; or want of memory.
#[inline(always)]
pub fn read_main<W: World>(
    alloc: Global,
    world: &mut W,
    arrays: &Arrays,
    texts: &mut Texts,
    input: &mut Input,
    how: MainRead,
    words: &[Word],
) -> Result<Option<Word>, Refusal>
    requires held { HoldsInput input.old (W.kinds world.old) }
    requires goes { W.is_modelled → WritersGo input.old.files.writers.items (W.state world.old) }
    ensures held { HoldsInput input.new (W.kinds world.new) }
    ensures goes { W.is_modelled → WritersGo input.new.files.writers.items (W.state world.new) }
    ensures outside { W.is_modelled → (W.state world.new).outside ≡ (W.state world.old).outside }
    ensures rest { IsMovedOn input.old input.new }
    ensures called { (f : HostForm) (memory : List ℕ) → f.fault ≡ None → f.arrays ≡ arrays.now
        → IsCalled W.is_modelled (Import.OfPrimitive (main_primitive how)) (over_world texts.old input.old (W.state
        world.old) f) words.now memory result (shown_after result (over_world texts.old input.old
        (W.state world.old) f) (over_world texts.new input.new (W.state world.new) f)) [] }
    ensures gives { GivesNone W.did world.old world.new }
{
    if let Err(kind) = expect_end(words) {
        return Err(Refusal::Trap(kind));
    }
    if input.names.is_pending() {
        return Err(Refusal::Trap(TrapKind::BadArgument));
    }
    let argv = Argv { arrays, alloc };
    answered(main_record::read(alloc, world, &argv, texts, input, how))
}

/// Reads a file (`getline_file`, `getline_var_file`), where no fault is kept.
///
/// # Errors
///
/// The same.
pub fn read_file<W: World>(
    alloc: Global,
    world: &mut W,
    handles: &mut Handles,
    texts: &mut Texts,
    input: &mut Input,
    to: ReadInto,
    words: &[Word],
) -> Result<Option<Word>, Refusal>
    requires held { HoldsInput input.old (W.kinds world.old) }
    requires goes { W.is_modelled → WritersGo input.old.files.writers.items (W.state world.old) }
    ensures held { HoldsInput input.new (W.kinds world.new) }
    ensures goes { W.is_modelled → WritersGo input.new.files.writers.items (W.state world.new) }
    ensures outside { W.is_modelled → (W.state world.new).outside ≡ (W.state world.old).outside }
    ensures rest { IsReadOn input.old input.new }
    ensures reserved { map.get handles.old reserved_handle ≡ None → map.get handles.new reserved_handle ≡ None }
    ensures called { (f : HostForm) (memory : List ℕ) → f.fault ≡ None
        → IsCalled W.is_modelled (Import.OfPrimitive (file_primitive to)) (with_values handles.old
        (over_world texts.old input.old (W.state world.old) f)) words.now memory result (shown_after
        result (with_values handles.old (over_world texts.old input.old (W.state world.old) f))
        (with_values handles.new (over_world texts.new input.new (W.state world.new) f))) [] }
    ensures writers { input.new.files.writers ≡ input.old.files.writers }
    ensures gives { GivesNone W.did world.old world.new }
{
    let (handle, value) = match only_handle(handles, words) {
        Ok(read) => read,
        Err(kind) => return Err(Refusal::Trap(kind)),
    };
    let Ok(name) = to_text(alloc, value) else {
        return Err(Refusal::NoMemory);
    };
    handles.take(handle);
    answered(files::read(alloc, world, texts, input, name.as_slice(), to))
}

/// Gives what was read for a variable (`line`), where no fault is kept.
///
/// # Errors
///
/// A trap, which changes nothing, or want of memory.
pub fn line(
    handles: &mut Handles,
    input: &mut Input,
    words: &[Word],
) -> Result<Option<Word>, Refusal>
    requires { map.get handles.old reserved_handle ≡ None }
    ensures rest { input.new ≡ with_line input.new.line input.old }
    ensures reserved { map.get handles.new reserved_handle ≡ None }
    ensures step { (f : HostForm) (memory : List ℕ) → f.fault ≡ None → IsTableCall
        (Import.OfPrimitive row.Line) (form_line handles.old input.old.line f) words.now memory result
        (form_line handles.new input.new.line f) }
{
    if let Err(kind) = expect_end(words) {
        return Err(Refusal::Trap(kind));
    }
    match input.line.take() {
        Some(value) => give(handles, Reply::Value(value)),
        None => Err(Refusal::Trap(TrapKind::BadArgument)),
    }
}

/// The actions of END begin (`begin_end`), where no fault is kept: from then on `getline` reads nothing of the main input.
///
/// # Errors
///
/// A trap where there are words, which changes nothing.
pub fn begin_end(input: &mut Input, words: &[Word]) -> Result<Option<Word>, Refusal>
    ensures rest { input.new ≡ with_end input.new.in_end input.old }
    ensures step { (f : HostForm) (memory : List ℕ) → f.fault ≡ None → IsTableCall
        (Import.OfPrimitive row.BeginEnd) (form_ending input.old.in_end f) words.now memory result
        (form_ending input.new.in_end f) }
{
    if let Err(kind) = expect_end(words) {
        return Err(Refusal::Trap(kind));
    }
    input.in_end = true;
    Ok(None)
}

/// Gives up the rest of what the main input reads (`next_file`), where no fault is kept. It takes no memory.
///
/// # Errors
///
/// A trap where there are words, which changes nothing.
pub fn next_file<W: World>(
    world: &mut W,
    input: &mut Input,
    words: &[Word],
) -> Result<Option<Word>, Refusal>
    requires held { HoldsInput input.old (W.kinds world.old) }
    requires goes { W.is_modelled → WritersGo input.old.files.writers.items (W.state world.old) }
    ensures held { HoldsInput input.new (W.kinds world.new) }
    ensures goes { W.is_modelled → WritersGo input.new.files.writers.items (W.state world.new) }
    ensures outside { W.is_modelled → (W.state world.new).outside ≡ (W.state world.old).outside }
    ensures rest { input.new ≡ with_main_input input.new.main input.old }
    ensures called { (f : HostForm) (memory : List ℕ) (texts : AnyTexts) → f.fault ≡ None → IsCalled
        W.is_modelled (Import.OfPrimitive row.NextFile) (over_world texts input.old (W.state world.old) f)
        words.now memory result (over_world texts input.new (W.state world.new) f) [] }
    ensures gives { GivesNone W.did world.old world.new }
{
    if let Err(kind) = expect_end(words) {
        return Err(Refusal::Trap(kind));
    }
    input.main.skip(world);
    Ok(Some(DONE))
}
