//! An assignment of the command line is made.
ghost use Rattle.std.specs.Prelude.{◌≡◌, IfErr, IfOk, Ok};
ghost use Rattle.sem_primitives.specs.Assignments.{assigned, assigned_by};
ghost use Rattle.sem_primitives.specs.MainInput.{start_assign_row};
ghost use Rattle.sem_primitives.specs.SharedState.{Inner};
ghost use Rattle.host_bytes.specs.Outcomes.{IsStopOf};
ghost use Rattle.host_texts.specs.NameForms.{PendsBy, with_all, with_pending};

use crate::name::takes_none;
use crate::names::Names;
use crate::record::put_special;
use crate::texts::Texts;
use awk_text::unescape;
use awk_values::{Bytes, Fault, Stop, Value};
use sem_primitives::{AssignAnswer, Special};
use std::alloc::Global;

/// A special variable takes a text, or a name of the script is to.
fn assign_by(
    alloc: Global,
    special: Option<Special>,
    texts: &mut Texts,
    names: &mut Names,
    name: &[u8],
    text: Bytes,
) -> Result<bool, Stop>
    ensures ok { IfOk result (λ pending. (inner : Inner) → assigned_by special name.now text
        (with_all texts.old names.old inner) ≡ Ok (with_all texts.new names.new inner, pending)) }
    ensures err { IfErr result (λ stop. (inner : Inner)
        → IsStopOf (assigned_by special name.now text (with_all texts.old names.old inner)) stop) }
    ensures rest { names.new ≡ with_pending names.new.pending names.old }
    ensures pending { IfOk result (λ pending. PendsBy pending names.old names.new) }
    ensures substituted { texts.new.substituted ≡ texts.old.substituted }
{
    let Some(special) = special else {
        let name = Bytes::from_slice(alloc, name)?;
        return names.keep(&name, text);
    };
    match put_special(alloc, texts, special, &Value::StrNum(text)) {
        Ok(()) => Ok(false),
        Err(stop) => Err(stop),
    }
}

/// Makes an assignment: of a special variable here, and of a scalar of the script the script is to make it, which is told. Escapes in the text are
/// those of strings.
///
/// # Errors
///
/// `BadAssignment` of what is no name, a reserved word, ARGV, ENVIRON, and an array or a function of the script; a fault of setting NF; or want of memory.
pub fn assign(
    alloc: Global,
    texts: &mut Texts,
    names: &mut Names,
    name: &[u8],
    text: &[u8],
) -> Result<bool, Stop>
    ensures ok { IfOk result (λ pending. (inner : Inner) → assigned name.now text.now
        (with_all texts.old names.old inner) ≡ Ok (with_all texts.new names.new inner, pending)) }
    ensures err { IfErr result (λ stop. (inner : Inner)
        → IsStopOf (assigned name.now text.now (with_all texts.old names.old inner)) stop) }
    ensures rest { names.new ≡ with_pending names.new.pending names.old }
    ensures pending { IfOk result (λ pending. PendsBy pending names.old names.new) }
    ensures substituted { texts.new.substituted ≡ texts.old.substituted }
{
    if takes_none(name) {
        return Err(Stop::Fault(Fault::BadAssignment));
    }
    let value = Bytes::from_vec(unescape(alloc, text)?)?;
    assign_by(alloc, Special::of_name(name), texts, names, name, value)
}

/// Makes the assignments that are left, up to one that the script is to make.
pub(crate) fn make_left(
    alloc: Global,
    texts: &mut Texts,
    names: &mut Names,
) -> Result<AssignAnswer, Stop>
    ensures ok { IfOk result (λ answer. (inner : Inner) → start_assign_row
        (with_all texts.old names.old inner) ≡ Ok (with_all texts.new names.new inner, answer)) }
    ensures err { IfErr result (λ stop. (inner : Inner)
        → IsStopOf (start_assign_row (with_all texts.old names.old inner)) stop) }
{
    while let Some((name, text)) = names.take_next()? {
        if assign(alloc, texts, names, name.as_slice(), text.as_slice())? {
            return Ok(AssignAnswer::Pending);
        }
    }
    Ok(AssignAnswer::NoneLeft)
}
