//! The line that print puts out.
ghost use Rattle.std.specs.Prelude.{◌≡◌, ◌++◌, OnOk, []};
ghost use Rattle.awk_values.specs.Values.{text_of_value};
ghost use Rattle.sem_primitives.specs.FieldMeaning.{joined};
ghost use Rattle.sem_primitives.specs.OutputMeaning.{printed};
ghost use Rattle.sem_primitives.specs.SharedState.{Inner};
ghost use Rattle.host_worlds.specs.Forms.{inner_with};
ghost use Rattle.host_worlds.specs.Lines.{followed};

use awk_values::Value;
use host_texts::Specials;
use host_values::push_text;
use sem_primitives::Special;
use std::alloc::AllocError;

/// Adds the texts of values, another's text in front of each.
fn push_others(out: &mut Vec<u8>, between: &Value, values: &[Value]) -> Result<(), AllocError>
    ensures { OnOk result
        (out.new.items ≡ out.old.items ++ followed (text_of_value between.now) values.now) }
{
    for value in values {
        push_text(out, between)?;
        push_text(out, value)?;
    }
    Ok(())
}

/// Adds the texts of values to an empty text, with another's text between them.
#[tactic(auto, using(crate::proofs::Joined::joined_followed))]
fn push_joined(out: &mut Vec<u8>, between: &Value, values: &[Value]) -> Result<(), AllocError>
    requires { out.old.items ≡ [] }
    ensures { OnOk result (out.new.items ≡ joined (text_of_value between.now) values.now) }
{
    let Some((first, others)) = values.split_first() else {
        return Ok(());
    };
    push_text(out, first)?;
    push_others(out, between, others)
}

/// Makes a text the line of these operands: with OFS between them, and ORS at the end.
pub(crate) fn fill(
    line: &mut Vec<u8>,
    specials: &Specials,
    operands: &[Value],
) -> Result<(), AllocError>
    ensures { OnOk result
        ((inner : Inner) → line.new.items ≡ printed (inner_with specials.now inner) operands.now) }
{
    line.clear();
    push_joined(line, specials.get(Special::Ofs), operands)?;
    push_text(line, specials.get(Special::Ors))
}
