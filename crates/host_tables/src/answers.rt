//! What is answered to a call.
ghost use Rattle.std.specs.Prelude.{◌≡◌};
ghost use Rattle.host_step.specs.Answers.{refusal};
ghost use Rattle.host_tables.specs.Answers.{fits, told_as};

use host_imports::Import;
use host_values::Refusal;
use sem_primitives::{Answer, Sort};
use wasm_model::HostAnswer;
use wasm_store::{TrapKind, Word};

/// The word of 64 bits that stands for a fault.
const FAULTED: u64 = 1 << 63;

/// What is answered in the place of an answer where a fault is kept.
#[inline(always)]
pub fn refusal(answer: Answer) -> Option<Word>
    ensures { result ≡ refusal answer }
{
    match answer {
        Answer::Nothing => None,
        Answer::Of(Sort::Number) => Some(Word::I64(FAULTED)),
        _ => Some(Word::I32(u32::MAX)),
    }
}

/// Whether a word is as wide as this answer's.
#[inline(always)]
fn fits(answer: Answer, word: Option<Word>) -> bool
    ensures { result ≡ fits answer word }
{
    match answer {
        Answer::Nothing => word.is_none(),
        Answer::Of(Sort::Number) => matches!(&word, Some(Word::I64(_))),
        _ => matches!(&word, Some(Word::I32(_))),
    }
}

/// What is answered for a call that came to this. A word that does not fit is never given.
#[inline(always)]
pub fn told(import: Import, outcome: Result<Option<Word>, Refusal>) -> HostAnswer
    ensures { result ≡ told_as import outcome }
{
    let answer = import.answer();
    match outcome {
        Ok(word) if fits(answer, word) => HostAnswer::Done(word),
        Ok(_) => HostAnswer::Trap(TrapKind::BadArgument),
        Err(Refusal::Fault(_)) => HostAnswer::Done(refusal(answer)),
        Err(Refusal::Trap(kind)) => HostAnswer::Trap(kind),
        Err(Refusal::NoMemory) => HostAnswer::NoMemory,
    }
}
