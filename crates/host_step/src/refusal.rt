//! Why a call has no answer.
use awk_values::Fault;
use std::alloc::AllocError;
use wasm_store::TrapKind;

/// Why a call has no answer.
#[derive(Clone, Copy, Drop)]
pub enum Refusal {
    /// It traps: nothing was spent, and nothing changed.
    Trap(TrapKind),
    /// A fault is to be kept: what it spends is gone.
    Fault(Fault),
    NoMemory,
}

impl From<AllocError> for Refusal {
    ghost use Rattle.std.specs.Prelude.{◌≡◌};
    ghost use Rattle.host_step.specs.declared.refusal.Refusal.TheVariants.{NoMemory};

    ghost from_gives = { λ _ e. e ≡ NoMemory };

    fn from(_error: AllocError) -> Refusal {
        Refusal::NoMemory
    }
}

impl From<TrapKind> for Refusal {
    ghost use Rattle.std.specs.Prelude.{◌≡◌};
    ghost use Rattle.host_step.specs.declared.refusal.Refusal.TheVariants as refusal;

    ghost from_gives = { λ k e. e ≡ refusal.Trap k };

    fn from(kind: TrapKind) -> Refusal {
        Refusal::Trap(kind)
    }
}
