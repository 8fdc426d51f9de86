//! The next record of a file, as an import asks for it.
ghost use Rattle.std.specs.Prelude.{◌≡◌, ℕ, List, Ok, Result};
ghost use Rattle.awk_values.specs.Values.{text_of_value};
ghost use Rattle.awk_values.specs.declared.fault.Fault.{Fault as AnyFault};
ghost use Rattle.awk_values.specs.declared.value.Value.{Value as AnyValue};
ghost use Rattle.sem_primitives.specs.InputMeaning.{getline_file_by};
ghost use Rattle.sem_primitives.specs.SharedState.{Inner};
ghost use Rattle.sem_primitives.specs.declared.answers.InputAnswer.{InputAnswer as AnyAnswer};
ghost use Rattle.host_streams.specs.Given.{GivesNone};
ghost use Rattle.host_streams.specs.OpenFiles.{WritersGo};
ghost use Rattle.host_worlds.specs.Finds.{FindsFile, FindsFileRow};
ghost use Rattle.host_worlds.specs.Givens.{FileGives, RowGives, file_row};
ghost use Rattle.host_worlds.specs.Keeps.{IsReadOn, with_files};
ghost use Rattle.host_worlds.specs.States.{HoldsInput, Over, with_tables};

use crate::input::{Input, ReadInto};
use crate::main_record::keep;
use awk_values::Stop;
use host_streams::FileNext;
use host_texts::Texts;
use host_values::value_text;
use sem_primitives::{InputAnswer, Special};
use std::alloc::Global;
use world_core::World;

/// The next record of a file.
fn next<W: World>(
    alloc: Global,
    world: &mut W,
    texts: &Texts,
    input: &mut Input,
    name: &[u8],
) -> Result<FileNext, Stop>
    requires held { HoldsInput input.old (W.kinds world.old) }
    requires goes { W.is_modelled → WritersGo input.old.files.writers.items (W.state world.old) }
    ensures held { HoldsInput input.new (W.kinds world.new) }
    ensures goes { W.is_modelled → WritersGo input.new.files.writers.items (W.state world.new) }
    ensures told { W.is_modelled → (inner : Inner) (keep : List ℕ → Inner → Result (Inner × AnyAnswer)
        AnyFault) (value : AnyValue) → text_of_value value ≡ name.now → FileGives (getline_file_by
        keep value (W.state world.old).outside
        (with_tables texts.now input.old (Over (W.state world.old)) inner)) keep result
        (with_tables texts.now input.new (Over (W.state world.new)) inner) }
    ensures outside { W.is_modelled → (W.state world.new).outside ≡ (W.state world.old).outside }
    ensures rest { input.new ≡ with_files input.new.files input.old }
    ensures writers { input.new.files.writers ≡ input.old.files.writers }
    ensures finds { FindsFile name.now texts.now input.old result input.new }
    ensures gives { GivesNone W.did world.old world.new }
{
    let rs = value_text(alloc, texts.specials.get(Special::Rs))?;
    input.files.file_next(world, name, rs.as_slice())
}

/// Reads a file: its next record is set, or kept for a variable.
pub(crate) fn read<W: World>(
    alloc: Global,
    world: &mut W,
    texts: &mut Texts,
    input: &mut Input,
    name: &[u8],
    to: ReadInto,
) -> Result<InputAnswer, Stop>
    requires held { HoldsInput input.old (W.kinds world.old) }
    requires goes { W.is_modelled → WritersGo input.old.files.writers.items (W.state world.old) }
    ensures held { HoldsInput input.new (W.kinds world.new) }
    ensures goes { W.is_modelled → WritersGo input.new.files.writers.items (W.state world.new) }
    ensures told { W.is_modelled → (inner : Inner) (value : AnyValue) → text_of_value value ≡ name.now
        → RowGives (file_row to value (W.state world.old).outside
        (with_tables texts.old input.old (Over (W.state world.old)) inner)) result
        (with_tables texts.new input.new (Over (W.state world.new)) inner) }
    ensures outside { W.is_modelled → (W.state world.new).outside ≡ (W.state world.old).outside }
    ensures rest { IsReadOn input.old input.new }
    ensures writers { input.new.files.writers ≡ input.old.files.writers }
    ensures finds { FindsFileRow to name.now texts.old input.old result
        texts.new input.new }
    ensures gives { GivesNone W.did world.old world.new }
{
    match next(alloc, world, texts, input, name) {
        Ok(FileNext::Record(text)) => match keep(alloc, texts, input, text, to) {
            Ok(()) => Ok(InputAnswer::Read),
            Err(stop) => Err(stop),
        },
        Ok(FileNext::End) => Ok(InputAnswer::End),
        Ok(FileNext::Failed) => Ok(InputAnswer::Failed),
        Err(stop) => Err(stop),
    }
}
