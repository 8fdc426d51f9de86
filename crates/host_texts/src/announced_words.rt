//! What the words of an announcement say.
ghost use Rattle.std.specs.Prelude.{◌≡◌};
ghost use Rattle.sem_primitives.specs.ConstantPlaces.{kind_at};
ghost use Rattle.sem_primitives.specs.declared.sorts.Constant.{Constant};
ghost use Rattle.host_texts.specs.NameWords.{declare_front, lent_declare};
ghost use Rattle.host_step.specs.Arguments.{constant_front};
ghost use Rattle.host_values.specs.Fronts.{owned};

use host_values::{expect_end, place_front};
use sem_primitives::NameKind;
use wasm_store::{TrapKind, Word};

const UNFIT: TrapKind = TrapKind::BadArgument;

fn kind_at(number: u32) -> Option<NameKind>
    ensures { result ≡ kind_at number }
{
    match number {
        0 => Some(NameKind::Scalar),
        1 => Some(NameKind::ArrayOrFunction),
        _ => None,
    }
}

/// What a name is.
fn kind_front(words: &[Word]) -> Result<(NameKind, &[Word]), TrapKind>
    ensures { owned result ≡ constant_front Constant.NameKind words.now }
{
    let Some((Word::I32(number), rest)) = words.split_first() else {
        return Err(UNFIT);
    };
    match kind_at(*number) {
        Some(kind) => Ok((kind, rest)),
        None => Err(UNFIT),
    }
}

/// A name, and what it is.
pub(crate) fn declare_front<'a>(
    memory: &'a [u8],
    words: &'a [Word],
) -> Result<(&'a [u8], NameKind), TrapKind>
    ensures { lent_declare result ≡ declare_front memory.now words.now }
{
    let (text, behind) = place_front(memory, words)?;
    let (kind, rest) = kind_front(behind)?;
    expect_end(rest)?;
    Ok((text, kind))
}
