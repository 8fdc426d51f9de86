//! What stands between fields.
ghost use Rattle.std.specs.Prelude.{◌≡◌, IfErr, IfNone, IfOk, IfSome, MatchOption, Ok, length};
ghost use Rattle.sem_primitives.specs.Fields.{separator_of};
ghost use Rattle.host_bytes.specs.Outcomes.{IsStopOf};
ghost use Rattle.host_format.specs.Separators.{IsAnySep, IsLong, Separates, separator_by};

use crate::eres::expression;
use awk_values::Stop;
use ere_match::Auto;
use std::alloc::Global;

/// What stands between fields (POSIX.1-2017 awk, "Regular Expressions", the use of FS).
#[derive(Drop)]
pub enum Sep {
    /// Runs of spaces, tabs and newlines; at both ends they belong to no field.
    Blanks,
    /// Nothing: each byte is a field.
    EachByte,
    /// Each of these bytes.
    Byte(u8),
    /// The matches of an expression that are not empty.
    Ere(Auto),
}

/// What stands between fields where that is no expression, and some byte is no field.
#[derive(Clone, Copy, Drop)]
pub enum Plain {
    /// Runs of spaces, tabs and newlines, as [`Sep::Blanks`].
    Blanks,
    /// Each of these bytes.
    Byte(u8),
}

impl Plain {
    /// What a separator's text means, where it has one byte.
    pub fn of(text: &[u8]) -> Option<Plain>
        ensures { MatchOption result (length text.now ≡ 1 → ⊥)
            (λ by. separator_of text.now ≡ Ok (separator_by by)) }
    {
        match text {
            [byte] => {
                if *byte == b' ' {
                    Some(Plain::Blanks)
                } else {
                    Some(Plain::Byte(*byte))
                }
            }
            _ => None,
        }
    }
}

impl Sep {
    /// What a separator's text means where it is no expression: one space, blanks; another byte, that byte; no byte, nothing.
    pub fn plain(text: &[u8]) -> Option<Sep>
        ensures some { IfSome result (λ sep. Separates text.now sep) }
        ensures sep { IfSome result IsAnySep }
        ensures none { IfNone result (IsLong text.now) }
    {
        match text {
            [] => Some(Sep::EachByte),
            [byte] => {
                if *byte == b' ' {
                    Some(Sep::Blanks)
                } else {
                    Some(Sep::Byte(*byte))
                }
            }
            _ => None,
        }
    }

    /// What a separator's text means: where it has more bytes than one, an expression.
    ///
    /// # Errors
    ///
    /// `BadEre` and `EreTooLarge` of an expression, and [`Stop::NoMemory`].
    pub fn of(alloc: Global, text: &[u8]) -> Result<Sep, Stop>
        ensures ok { IfOk result (λ sep. Separates text.now sep) }
        ensures sep { IfOk result IsAnySep }
        ensures err { IfErr result (IsStopOf (separator_of text.now)) }
    {
        if let Some(sep) = Sep::plain(text) {
            return Ok(sep);
        }
        let auto = expression(alloc, text)?;
        Ok(Sep::Ere(auto))
    }
}
