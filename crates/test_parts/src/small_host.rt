//! A small host, for modules that are run to see how they end.
ghost use Rattle.std.specs.Prelude.{◌≡◌};
ghost use Rattle.test_parts.specs.SmallHost.{answers, gives, takes};
ghost use Rattle.wasm_types.specs.View.{signature_of};

use std::alloc::{AllocError, Global};
use std::marker::Model;
use wasm_model::{HostAnswer, HostCalls};
use wasm_store::{Memory, TrapKind, Word};
use wasm_types::{FuncType, ValType};

/// A host with four imports, known by the length of their names: `drop` takes a number and traps at 99, `twice` doubles one, `filled` wants
/// memory, and `answers` takes nothing and gives 7. It sums the numbers that it was told.
#[derive(Drop)]
pub(crate) struct SmallHost {
    taking: FuncType,
    giving: FuncType,
    answering: FuncType,
    told: u32,
}

impl Model for SmallHost {
    ghost use Rattle.std.specs.Prelude.{ℕ, ◌≡◌};
    ghost use Rattle.test_parts.specs.SmallHost.{answers, gives, takes};
    ghost use Rattle.wasm_types.specs.View.{signature_of};

    ghost Value = { ℕ };

    ghost view = { λ h. h.told };

    ghost invariant = { λ h. (signature_of h.taking ≡ takes) × (signature_of h.giving ≡ gives)
        × (signature_of h.answering ≡ answers) };
}

impl SmallHost {
    pub(crate) fn new(alloc: Global) -> Result<SmallHost, AllocError> {
        let taking = FuncType {
            params: vec![in alloc; ValType::I32]?,
            result: None,
        };
        let giving = FuncType {
            params: vec![in alloc; ValType::I32]?,
            result: Some(ValType::I32),
        };
        let answering = FuncType {
            params: Vec::new(alloc),
            result: Some(ValType::I32),
        };
        Ok(SmallHost {
            taking,
            giving,
            answering,
            told: 0,
        })
    }

    /// The sum of what it was told.
    pub(crate) fn told(&self) -> u32 {
        self.told
    }
}

impl HostCalls for SmallHost {
    ghost use Rattle.std.specs.Prelude.{ℕ, false};
    ghost use Rattle.test_parts.specs.SmallHost.{small_finds, small_found, small_meaning, small_refused, small_typed, small_types};

    ghost Output = { ℕ };

    ghost State = { ℕ };

    ghost state = { λ h. h };

    ghost meaning = { small_meaning };

    ghost types = { small_types };

    ghost finds = { small_finds };

    fn find(&self, from: &[u8], name: &[u8]) -> Option<(u32, &FuncType)> {
        match name.len() {
            4 => Some((4, &self.taking)),
            5 => Some((5, &self.giving)),
            6 => Some((6, &self.taking)),
            7 => Some((7, &self.answering)),
            _ => None,
        }
    }

    fn call(&mut self, import: u32, args: &[Word], memory: &mut Memory) -> HostAnswer {
        if import == 7 {
            return HostAnswer::Done(Some(Word::I32(7)));
        }
        let Some(Word::I32(n)) = args.first() else {
            return HostAnswer::Trap(TrapKind::BadArgument);
        };
        let n = *n;
        self.told = self.told.wrapping_add(n);
        match import {
            4 if n == 99 => HostAnswer::Trap(TrapKind::BadHandle),
            4 => HostAnswer::Done(None),
            5 => HostAnswer::Done(Some(Word::I32(n.wrapping_mul(2)))),
            _ => HostAnswer::NoMemory,
        }
    }

    ghost halts = { λ _. false };

    fn is_halting(&self) -> bool {
        false
    }

    ghost found = { small_found };

    ghost typed = { small_typed };

    ghost refused = { small_refused };
}
