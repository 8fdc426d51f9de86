//! Answers of hosts, as they are handed on.
ghost use Rattle.std.specs.Prelude.{◌≡◌};
ghost use Rattle.wasm_model.specs.BriefAnswers.{is_nothing, kind_of_trap, result_of};

use crate::host::HostAnswer;
use std::marker::Model;
use wasm_store::{TrapKind, Word};

/// What an answer is, its word left out.
#[derive(Clone, Copy, Drop)]
pub(crate) enum AnswerKind {
    I32,
    I64,
    Nothing,
    NoMemory,
    Unreachable,
    DivideByZero,
    IntegerOverflow,
    MemoryBounds,
    TableBounds,
    EmptyElement,
    WrongType,
    BadHandle,
    BadPointer,
    BadArgument,
}

/// An answer that a function gives back in two registers. Contracts see the answer that it is.
#[derive(Drop)]
pub struct BriefAnswer {
    kind: AnswerKind,
    bits: u64,
}

impl Model for BriefAnswer {
    ghost use Rattle.wasm_model.specs.declared.host.HostAnswer.{HostAnswer};
    ghost use Rattle.wasm_model.specs.BriefAnswers.{IsBrief, answer_of};

    ghost Value = { HostAnswer };

    ghost view = { λ a. answer_of a.kind a.bits };

    ghost invariant = { λ a. IsBrief a.kind a.bits };
}

/// The kind of an answer that traps.
#[inline(always)]
fn kind_of_trap(kind: TrapKind) -> AnswerKind
    ensures { result ≡ kind_of_trap kind }
{
    match kind {
        TrapKind::Unreachable => AnswerKind::Unreachable,
        TrapKind::DivideByZero => AnswerKind::DivideByZero,
        TrapKind::IntegerOverflow => AnswerKind::IntegerOverflow,
        TrapKind::MemoryBounds => AnswerKind::MemoryBounds,
        TrapKind::TableBounds => AnswerKind::TableBounds,
        TrapKind::EmptyElement => AnswerKind::EmptyElement,
        TrapKind::WrongType => AnswerKind::WrongType,
        TrapKind::BadHandle => AnswerKind::BadHandle,
        TrapKind::BadPointer => AnswerKind::BadPointer,
        TrapKind::BadArgument => AnswerKind::BadArgument,
    }
}

impl BriefAnswer {
    /// A word, which is the result.
    #[inline(always)]
    fn word(word: Word) -> BriefAnswer
        ensures { result ≡ HostAnswer.Done (Some word) }
    {
        match word {
            Word::I32(n) => BriefAnswer {
                kind: AnswerKind::I32,
                bits: u64::from(n),
            },
            Word::I64(n) => BriefAnswer {
                kind: AnswerKind::I64,
                bits: n,
            },
        }
    }

    /// An answer, briefly.
    #[inline(always)]
    pub fn of(answer: HostAnswer) -> BriefAnswer
        ensures { result ≡ answer }
    {
        match answer {
            HostAnswer::Done(Some(word)) => BriefAnswer::word(word),
            HostAnswer::Done(None) => BriefAnswer {
                kind: AnswerKind::Nothing,
                bits: 0,
            },
            HostAnswer::Trap(kind) => BriefAnswer {
                kind: kind_of_trap(kind),
                bits: 0,
            },
            HostAnswer::NoMemory => BriefAnswer {
                kind: AnswerKind::NoMemory,
                bits: 0,
            },
        }
    }

    /// The result, where the call is done with one.
    #[inline(always)]
    pub fn result(&self) -> Option<Word>
        ensures { result ≡ result_of self.now }
    {
        match self.kind {
            AnswerKind::I32 => Some(Word::I32(self.bits as u32)),
            AnswerKind::I64 => Some(Word::I64(self.bits)),
            _ => None,
        }
    }

    /// Whether the call is done, and has no result.
    #[inline(always)]
    pub fn is_nothing(&self) -> bool
        ensures { result ≡ is_nothing self.now }
    {
        matches!(self.kind, AnswerKind::Nothing)
    }

    /// The answer that it is.
    #[inline(always)]
    pub fn answer(self) -> HostAnswer
        ensures { result ≡ self }
    {
        match self.kind {
            AnswerKind::I32 => HostAnswer::Done(Some(Word::I32(self.bits as u32))),
            AnswerKind::I64 => HostAnswer::Done(Some(Word::I64(self.bits))),
            AnswerKind::Nothing => HostAnswer::Done(None),
            AnswerKind::NoMemory => HostAnswer::NoMemory,
            AnswerKind::Unreachable => HostAnswer::Trap(TrapKind::Unreachable),
            AnswerKind::DivideByZero => HostAnswer::Trap(TrapKind::DivideByZero),
            AnswerKind::IntegerOverflow => HostAnswer::Trap(TrapKind::IntegerOverflow),
            AnswerKind::MemoryBounds => HostAnswer::Trap(TrapKind::MemoryBounds),
            AnswerKind::TableBounds => HostAnswer::Trap(TrapKind::TableBounds),
            AnswerKind::EmptyElement => HostAnswer::Trap(TrapKind::EmptyElement),
            AnswerKind::WrongType => HostAnswer::Trap(TrapKind::WrongType),
            AnswerKind::BadHandle => HostAnswer::Trap(TrapKind::BadHandle),
            AnswerKind::BadPointer => HostAnswer::Trap(TrapKind::BadPointer),
            AnswerKind::BadArgument => HostAnswer::Trap(TrapKind::BadArgument),
        }
    }
}
