//! What the main input gives once, with what it is told of an operand.
ghost use Rattle.std.specs.Prelude.{◌≡◌, Err, Ok, pos};
ghost use Rattle.sem_primitives.specs.MainInput.{main_input};
ghost use Rattle.sem_primitives.specs.SharedState.{Inner, with_special};
ghost use Rattle.sem_primitives.specs.declared.constants.Special.{Special as AnySpecial};
ghost use Rattle.awk_values.specs.declared.value.Value.{Value as AnyValue};
ghost use Rattle.host_streams.specs.Given.{GivesNone};
ghost use Rattle.host_streams.specs.Mains.{AnswerIs};
ghost use Rattle.host_streams.specs.Passing.{RestsAfter};
ghost use Rattle.host_streams.specs.OpenFiles.{WritersGo};
ghost use Rattle.host_worlds.specs.Finds.{FindsNext, FindsTurn};
ghost use Rattle.host_worlds.specs.Givens.{AssignLive, NextPasses, OffersTexts, TurnGives, TurnPasses, stopped_by};
ghost use Rattle.host_worlds.specs.Keeps.{IsMoved, with_main_input};
ghost use Rattle.host_texts.specs.States.{with_texts};
ghost use Rattle.host_worlds.specs.States.{HoldsInput, Over, with_tables};

use crate::input::{Given, Input};
use crate::record::give;
use crate::shown::shown_text;
use awk_values::{Bytes, Fault, Stop, Value};
use host_streams::{MainNext, Operands};
use host_texts::{Texts, assign};
use sem_primitives::Special;
use std::alloc::Global;
use world_core::World;

/// A file, or the standard input, is opened: FILENAME and FNR are set.
fn begin(texts: &mut Texts, name: Bytes)
    ensures { (inner : Inner) → with_texts texts.new inner
        ≡ with_special AnySpecial.Fnr (AnyValue.Num (pos 0))
        (with_special AnySpecial.Filename (AnyValue.StrNum name) (with_texts texts.old inner)) }
{
    give(texts, Special::Filename, Value::StrNum(name));
    give(texts, Special::Fnr, Value::Num(0));
}

/// What the main input gives next.
fn next<W: World, O: Operands>(
    world: &mut W,
    operands: &O,
    texts: &Texts,
    input: &mut Input,
) -> Result<MainNext, Stop>
    requires held { HoldsInput input.old (W.kinds world.old) }
    requires goes { W.is_modelled → WritersGo input.old.files.writers.items (W.state world.old) }
    ensures held { HoldsInput input.new (W.kinds world.new) }
    ensures goes { W.is_modelled → WritersGo input.new.files.writers.items (W.state world.new) }
    ensures told { W.is_modelled → (inner : Inner) → OffersTexts (O.text operands.now) inner → AnswerIs
        (main_input (W.state world.old).outside
        (with_tables texts.now input.old (Over (W.state world.old)) inner)) result
        (W.state world.old).outside (with_tables texts.now input.old (Over (W.state world.old))
        inner) (with_tables texts.now input.new (Over (W.state world.new)) inner) }
    ensures outside { W.is_modelled → (W.state world.new).outside ≡ (W.state world.old).outside }
    ensures rest { input.new ≡ with_main_input input.new.main input.old }
    ensures passes { NextPasses input.old.main result input.new.main }
    ensures rests { RestsAfter result input.new.main.reading input.new.main.found }
    ensures live { AssignLive result input.new.main }
    ensures finds { FindsNext (O.text operands.now) texts.now input.old result input.new }
    ensures gives { GivesNone W.did world.old world.new }
{
    let rs = shown_text(texts.specials.get(Special::Rs));
    let argc = texts.specials.get(Special::Argc);
    input.main.next(world, operands, argc, rs.as_slice())
}

/// A file that does not open, or does not read, is told; any other fault stops.
fn stopped(stop: Stop) -> Result<Option<Given>, Stop>
    ensures { result ≡ stopped_by stop }
{
    match stop {
        Stop::Fault(Fault::OpenInput) => Ok(Some(Given::NotOpened)),
        Stop::Fault(Fault::ReadFailed) => Ok(Some(Given::Failed)),
        stop => Err(stop),
    }
}

/// One turn: what the main input gives, or nothing yet, where an operand was opened or was an assignment that is made here.
pub(crate) fn turn<W: World, O: Operands>(
    alloc: Global,
    world: &mut W,
    operands: &O,
    texts: &mut Texts,
    input: &mut Input,
) -> Result<Option<Given>, Stop>
    requires held { HoldsInput input.old (W.kinds world.old) }
    requires goes { W.is_modelled → WritersGo input.old.files.writers.items (W.state world.old) }
    ensures held { HoldsInput input.new (W.kinds world.new) }
    ensures goes { W.is_modelled → WritersGo input.new.files.writers.items (W.state world.new) }
    ensures told { W.is_modelled → (inner : Inner) → OffersTexts (O.text operands.now) inner
        → TurnGives (main_input (W.state world.old).outside
        (with_tables texts.old input.old (Over (W.state world.old)) inner)) result
        (W.state world.old).outside
        (with_tables texts.new input.new (Over (W.state world.new)) inner) }
    ensures outside { W.is_modelled → (W.state world.new).outside ≡ (W.state world.old).outside }
    ensures rest { IsMoved input.old input.new }
    ensures passes { TurnPasses input.old.main result input.new.main }
    ensures finds { FindsTurn (O.text operands.now) texts.old input.old result
        texts.new input.new }
    ensures gives { GivesNone W.did world.old world.new }
{
    match next(world, operands, texts, input) {
        Ok(MainNext::Record(text)) => Ok(Some(Given::Taken(text))),
        Ok(MainNext::End) => Ok(Some(Given::Over)),
        Ok(MainNext::Opened(name)) => {
            begin(texts, name);
            Ok(None)
        }
        Ok(MainNext::Assign(name, text)) => {
            match assign(
                alloc,
                texts,
                &mut input.names,
                name.as_slice(),
                text.as_slice(),
            ) {
                Ok(true) => Ok(Some(Given::Pending)),
                Ok(false) => Ok(None),
                Err(stop) => Err(stop),
            }
        }
        Err(stop) => stopped(stop),
    }
}
