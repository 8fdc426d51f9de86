//! The bytes that are not ordinary everywhere.
ghost use Rattle.std.specs.Prelude.{◌≡◌};
ghost use Rattle.ere_syntax.specs.Readers.{sign_of};

/// A byte with a meaning of its own.
#[derive(Clone, Copy)]
pub(crate) enum Sign {
    Dot,
    Hat,
    Dollar,
    OpenMark,
    CloseMark,
    BarMark,
    Star,
    Plus,
    Query,
    Brace,
    BracketMark,
    Backslash,
}

/// The sign that the byte is, if it is one.
#[tactic(auto, unfolding(crate::specs::Readers::sign_of))]
pub(crate) fn sign_of(byte: u8) -> Option<Sign>
    ensures { result ≡ sign_of byte }
{
    match byte {
        b'.' => Some(Sign::Dot),
        b'^' => Some(Sign::Hat),
        b'$' => Some(Sign::Dollar),
        b'(' => Some(Sign::OpenMark),
        b')' => Some(Sign::CloseMark),
        b'|' => Some(Sign::BarMark),
        b'*' => Some(Sign::Star),
        b'+' => Some(Sign::Plus),
        b'?' => Some(Sign::Query),
        b'{' => Some(Sign::Brace),
        b'[' => Some(Sign::BracketMark),
        b'\\' => Some(Sign::Backslash),
        _ => None,
    }
}
