//! The next record of the main input, as an import asks for it.
ghost use Rattle.std.specs.Prelude.{◌≡◌, IfErr, Ok, OnOk};
ghost use Rattle.sem_primitives.specs.MainInput.{main_input};
ghost use Rattle.sem_primitives.specs.SharedState.{Inner};
ghost use Rattle.host_bytes.specs.Outcomes.{IsStopOf};
ghost use Rattle.host_streams.specs.Given.{GivesNone};
ghost use Rattle.host_streams.specs.OpenFiles.{WritersGo};
ghost use Rattle.host_worlds.specs.Finds.{FindsGiven, FindsRow};
ghost use Rattle.host_worlds.specs.Givens.{GivesMain, OffersTexts, RowGives, answer_of, failed_by, is_over, kept_by, main_of_given, main_row};
ghost use Rattle.host_worlds.specs.Keeps.{IsMoved, IsMovedOn, keep_of, with_line};
ghost use Rattle.host_worlds.specs.States.{Around, HoldsInput, Over, with_tables};

use crate::input::{Given, Input, MainRead, ReadInto};
use crate::record::count_record;
use crate::turn::turn;
use awk_values::{Bytes, Fault, Stop, Value};
use host_streams::Operands;
use host_texts::{Texts, put_record};
use sem_primitives::InputAnswer;
use std::alloc::Global;
use world_core::World;

/// What the main input gives, once the assignments that need no script are made.
fn given<W: World, O: Operands>(
    alloc: Global,
    world: &mut W,
    operands: &O,
    texts: &mut Texts,
    input: &mut Input,
) -> Result<Given, Stop>
    requires held { HoldsInput input.old (W.kinds world.old) }
    requires goes { W.is_modelled → WritersGo input.old.files.writers.items (W.state world.old) }
    ensures held { HoldsInput input.new (W.kinds world.new) }
    ensures goes { W.is_modelled → WritersGo input.new.files.writers.items (W.state world.new) }
    ensures told { W.is_modelled → (inner : Inner) → OffersTexts (O.text operands.now) inner → GivesMain
        (main_input (W.state world.old).outside
        (with_tables texts.old input.old (Over (W.state world.old)) inner)) result
        (with_tables texts.new input.new (Over (W.state world.new)) inner) }
    ensures outside { W.is_modelled → (W.state world.new).outside ≡ (W.state world.old).outside }
    ensures rest { IsMoved input.old input.new }
    ensures finds { FindsGiven (O.text operands.now) texts.old input.old result
        texts.new input.new }
    ensures gives { GivesNone W.did world.old world.new }
{
    'turns: loop {
        match turn(alloc, world, operands, texts, input) {
            Ok(Some(given)) => return Ok(given),
            Ok(None) => {}
            Err(stop) => return Err(stop),
        }
    }
}

/// A record is set, or kept for a variable.
#[inline(always)]
pub(crate) fn keep(
    alloc: Global,
    texts: &mut Texts,
    input: &mut Input,
    text: Bytes,
    to: ReadInto,
) -> Result<(), Stop>
    ensures ok { OnOk result ((around : Around) (inner : Inner)
        → kept_by to text (with_tables texts.old input.old around inner)
        ≡ Ok (with_tables texts.new input.new around inner, InputAnswer.Read)) }
    ensures err { IfErr result (λ stop. (around : Around) (inner : Inner)
        → IsStopOf (kept_by to text (with_tables texts.old input.old around inner)) stop) }
    ensures rest { input.new ≡ with_line input.new.line input.old }
{
    match to {
        ReadInto::Record => put_record(alloc, texts, text),
        ReadInto::Variable => {
            input.line = Some(Value::StrNum(text));
            Ok(())
        }
    }
}

/// Where an import puts a record.
fn keep_of(how: MainRead) -> ReadInto
    ensures { result ≡ keep_of how }
{
    match how {
        MainRead::Loop => ReadInto::Record,
        MainRead::Getline(to) => to,
    }
}

/// A record is counted, and then set or kept.
#[inline(always)]
fn take(
    alloc: Global,
    texts: &mut Texts,
    input: &mut Input,
    text: Bytes,
    how: MainRead,
) -> Result<(), Stop>
    ensures ok { OnOk result ((around : Around) (inner : Inner) → answer_of how
        (with_tables texts.old input.old around inner, main_of_given (Given.Taken text))
        ≡ Ok (with_tables texts.new input.new around inner, InputAnswer.Read)) }
    ensures err { IfErr result (λ stop. (around : Around) (inner : Inner) → IsStopOf (answer_of how
        (with_tables texts.old input.old around inner, main_of_given (Given.Taken text))) stop) }
    ensures rest { input.new ≡ with_line input.new.line input.old }
{
    match count_record(texts) {
        Ok(()) => keep(alloc, texts, input, text, keep_of(how)),
        Err(fault) => Err(Stop::Fault(fault)),
    }
}

/// A file does not open, or does not read: a fault in the main loop.
fn failed(how: MainRead, fault: Fault) -> Result<InputAnswer, Stop>
    ensures { result ≡ failed_by how fault }
{
    match how {
        MainRead::Loop => Err(Stop::Fault(fault)),
        MainRead::Getline(_) => Ok(InputAnswer::Failed),
    }
}

/// What an import answers to what the main input gives.
fn answer(
    alloc: Global,
    texts: &mut Texts,
    input: &mut Input,
    given: Given,
    how: MainRead,
) -> Result<InputAnswer, Stop>
    ensures told { (around : Around) (inner : Inner) → RowGives
        (answer_of how (with_tables texts.old input.old around inner, main_of_given given)) result
        (with_tables texts.new input.new around inner) }
    ensures rest { input.new ≡ with_line input.new.line input.old }
{
    match given {
        Given::Taken(text) => match take(alloc, texts, input, text, how) {
            Ok(()) => Ok(InputAnswer::Read),
            Err(stop) => Err(stop),
        },
        Given::Over => Ok(InputAnswer::End),
        Given::Pending => Ok(InputAnswer::Pending),
        Given::NotOpened => failed(how, Fault::OpenInput),
        Given::Failed => failed(how, Fault::ReadFailed),
    }
}

/// Whether an import reads nothing, in the actions of END.
fn is_over(input: &Input, how: MainRead) -> bool
    ensures { result ≡ is_over how input.now.in_end }
{
    match how {
        MainRead::Loop => false,
        MainRead::Getline(_) => input.in_end,
    }
}

/// Reads the main input: a record is set, or kept for a variable.
pub(crate) fn read<W: World, O: Operands>(
    alloc: Global,
    world: &mut W,
    operands: &O,
    texts: &mut Texts,
    input: &mut Input,
    how: MainRead,
) -> Result<InputAnswer, Stop>
    requires held { HoldsInput input.old (W.kinds world.old) }
    requires goes { W.is_modelled → WritersGo input.old.files.writers.items (W.state world.old) }
    ensures held { HoldsInput input.new (W.kinds world.new) }
    ensures goes { W.is_modelled → WritersGo input.new.files.writers.items (W.state world.new) }
    ensures told { W.is_modelled → (inner : Inner) → OffersTexts (O.text operands.now) inner → RowGives
        (main_row how (W.state world.old).outside
        (with_tables texts.old input.old (Over (W.state world.old)) inner)) result
        (with_tables texts.new input.new (Over (W.state world.new)) inner) }
    ensures outside { W.is_modelled → (W.state world.new).outside ≡ (W.state world.old).outside }
    ensures rest { IsMovedOn input.old input.new }
    ensures finds { FindsRow how (O.text operands.now) texts.old input.old result
        texts.new input.new }
    ensures gives { GivesNone W.did world.old world.new }
{
    if is_over(input, how) {
        return Ok(InputAnswer::End);
    }
    match given(alloc, world, operands, texts, input) {
        Ok(given) => answer(alloc, texts, input, given, how),
        Err(stop) => Err(stop),
    }
}
