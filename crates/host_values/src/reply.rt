//! What calls answer.
ghost use Rattle.std.specs.Prelude.{◌≡◌};
ghost use Rattle.host_values.specs.ValueEvaluations.{number_reply, truth_reply};

use crate::spent::Spent;
use awk_text::MAX_NUMBER;
use awk_values::{Fault, Value};

/// An answer that gives nothing new but a value.
#[derive(Drop)]
pub enum Reply {
    Value(Value),
    Number(i64),
    Truth(bool),
    /// Nothing but that it is done.
    Done,
}

/// What a call comes to that does not trap: what it spends, and its answer or a fault.
#[derive(Drop)]
pub struct Evaluated {
    pub spent: Spent,
    pub outcome: Result<Reply, Fault>,
}

/// A number as an answer, where it is in range.
#[inline(always)]
pub(crate) fn number_reply(outcome: Result<i64, Fault>) -> Result<Reply, Fault>
    ensures { result ≡ number_reply outcome }
{
    let number = outcome?;
    if number.unsigned_abs() <= MAX_NUMBER {
        Ok(Reply::Number(number))
    } else {
        Err(Fault::Range)
    }
}

/// A truth value as an answer.
#[inline(always)]
pub(crate) fn truth_reply(outcome: Result<bool, Fault>) -> Result<Reply, Fault>
    ensures { result ≡ truth_reply outcome }
{
    Ok(Reply::Truth(outcome?))
}
