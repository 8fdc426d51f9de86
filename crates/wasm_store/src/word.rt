//! Values.
ghost use Rattle.std.specs.Prelude.{◌≡◌};
ghost use Rattle.wasm_store.specs.Words.{pattern, type_of, zero_of};

use wasm_types::ValType;

/// A value (Core 1.0, section 4.2.1): an integer as its bit pattern, with its width.
#[derive(Clone, Copy, Debug, PartialEq, Eq)]
pub enum Word {
    I32(u32),
    I64(u64),
}

impl Word {
    /// The value 0 of a type, which locals have at first.
    #[inline(always)]
    pub fn zero(ty: ValType) -> Word
        ensures { result ≡ zero_of ty }
    {
        match ty {
            ValType::I32 => Word::I32(0),
            ValType::I64 => Word::I64(0),
        }
    }

    /// The type of the value.
    #[inline(always)]
    pub fn ty(self) -> ValType
        ensures { result ≡ type_of self }
    {
        match self {
            Word::I32(_) => ValType::I32,
            Word::I64(_) => ValType::I64,
        }
    }

    /// The bit pattern, as a number.
    #[inline(always)]
    pub(crate) fn pattern(self) -> u64
        ensures { result ≡ pattern self }
    {
        match self {
            Word::I32(n) => u64::from(n),
            Word::I64(n) => n,
        }
    }
}
