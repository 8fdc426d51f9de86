//! Equations that the operators on integers and memory meet. Each law is the contract of a function that does nothing.
ghost use Rattle.std.specs.Prelude.{◌≡◌, ◌↔◌, ◌⊎◌, ◌<◌, ◌≤◌, ◌+◌, ◌*◌, ◌%◌, ◌^◌, ◌-◌, ℕ, ℤ, pos, negsuc, neg_ℤ, min, max, length, List, Ok, Err, Some};
ghost use mir.Val.{bits, hbits};
ghost use Rattle.std.specs.Int.{Width, w32, w64, cast_signed, cast_unsigned};
ghost use Rattle.wasm_types.specs.declared.instr.IBinOp.TheVariants.{
  Add,
  Sub,
  Mul,
  DivS,
  DivU,
  RemS,
  RemU,
  And,
  Or,
  Xor,
  Shl,
  ShrS,
  ShrU,
  Rotl,
  Rotr,
};
ghost use Rattle.wasm_types.specs.declared.instr.IUnOp.TheVariants.{Clz, Ctz, Popcnt};
ghost use Rattle.wasm_types.specs.declared.instr.CvtOp.TheVariants.{I32WrapI64, I64ExtendI32S, I64ExtendI32U};
ghost use Rattle.wasm_types.specs.declared.instr.LoadOp.{LoadOp};
ghost use Rattle.wasm_types.specs.declared.instr.StoreOp.{StoreOp};
ghost use Rattle.wasm_types.specs.Typing.{loaded, stored};
ghost use Rattle.wasm_store.specs.declared.trap.TrapKind.{TrapKind};
ghost use Rattle.wasm_store.specs.declared.trap.TrapKind.TheVariants.{DivideByZero, IntegerOverflow, MemoryBounds};
ghost use Rattle.wasm_store.specs.declared.word.Word.{Word};
ghost use Rattle.wasm_store.specs.Integers.{binary_at, unary_at};
ghost use Rattle.wasm_store.specs.declared.word.Word.TheVariants.{I32, I64};
ghost use Rattle.wasm_store.specs.Words.{converted, low_extended, pattern};
ghost use Rattle.wasm_store.specs.Memories.{MemoryForm, load, store, word_of};
ghost use Rattle.agreement.specs.Integers.Arithmetic.{
  IsLeft,
  IsTwosComplement,
  IsDivided,
  IsDividedSigned,
  IsDividedDown,
};
ghost use Rattle.agreement.specs.Integers.Bits.{
  IsBitwise,
  IsRotatedLeft,
  HasLeadingZeros,
  HasTrailingZeros,
  ones_in_last,
};
ghost use Rattle.agreement.specs.Integers.Memory.{IsStoredAt};

/// A bit pattern is a signed integer in two's complement, and that integer has this pattern (Core 1.0, section 4.3.2, "Integer Operations").
pub fn patterns_are_integers()
    ensures signed { (w : Width) (a : ℕ) → a < 2 ^ bits w → IsTwosComplement w a (cast_signed w a) }
    ensures pattern { (w : Width) (a : ℕ) → a < 2 ^ bits w
        → cast_unsigned w (cast_signed w a) ≡ a }
{}

/// Sums, differences, products and shifts to the left are those of whole numbers, modulo 2^N (Core 1.0, section 4.3.2, `iadd`, `isub`, `imul`, `ishl`).
pub fn results_wrap()
    ensures add { (w : Width) (a b c : ℕ) → binary_at w Add a b ≡ Ok c → IsLeft w (a + b) c }
    ensures sub { (w : Width) (a b c : ℕ) → a < 2 ^ bits w → b < 2 ^ bits w
        → binary_at w Sub a b ≡ Ok c → (c < 2 ^ bits w) × IsLeft w (b + c) a }
    ensures mul { (w : Width) (a b c : ℕ) → binary_at w Mul a b ≡ Ok c → IsLeft w (a * b) c }
    ensures shl { (w : Width) (a b c : ℕ) → binary_at w Shl a b ≡ Ok c
        → IsLeft w (a * 2 ^ (b % bits w)) c }
{}

/// Quotients and remainders meet the equation of division. Signed ones round towards 0, and shifts to the right downwards (Core 1.0, section 4.3.2,
/// `idiv`, `irem`, `ishr`).
pub fn quotients_divide()
    ensures div_u { (w : Width) (a b q : ℕ) → binary_at w DivU a b ≡ Ok q
        → (r : ℕ) × IsDivided a b q r }
    ensures rem_u { (w : Width) (a b r : ℕ) → binary_at w RemU a b ≡ Ok r
        → (q : ℕ) × IsDivided a b q r }
    ensures div_s { (w : Width) (a b q : ℕ) → a < 2 ^ bits w → b < 2 ^ bits w
        → binary_at w DivS a b ≡ Ok q
        → (r : ℤ) × IsDividedSigned (cast_signed w a) (cast_signed w b) (cast_signed w q) r }
    ensures rem_s { (w : Width) (a b r : ℕ) → a < 2 ^ bits w → b < 2 ^ bits w
        → binary_at w RemS a b ≡ Ok r
        → (q : ℤ) × IsDividedSigned (cast_signed w a) (cast_signed w b) q (cast_signed w r) }
    ensures shr_u { (w : Width) (a b q : ℕ) → binary_at w ShrU a b ≡ Ok q
        → (r : ℕ) × IsDivided a (2 ^ (b % bits w)) q r }
    ensures shr_s { (w : Width) (a b q : ℕ) → a < 2 ^ bits w → binary_at w ShrS a b ≡ Ok q
        → IsDividedDown (cast_signed w a) (2 ^ (b % bits w)) (cast_signed w q) }
{}

/// A division by 0 traps, and so does that of the least signed integer by -1. No other does (Core 1.0, section 4.3.2, `idiv`, `irem`).
pub fn divisions_trap()
    ensures div_u { (w : Width) (a b : ℕ) (kind : TrapKind)
        → (binary_at w DivU a b ≡ Err kind) ↔ ((b ≡ 0) × (kind ≡ DivideByZero)) }
    ensures rem_u { (w : Width) (a b : ℕ) (kind : TrapKind)
        → (binary_at w RemU a b ≡ Err kind) ↔ ((b ≡ 0) × (kind ≡ DivideByZero)) }
    ensures rem_s { (w : Width) (a b : ℕ) (kind : TrapKind)
        → (binary_at w RemS a b ≡ Err kind) ↔ ((b ≡ 0) × (kind ≡ DivideByZero)) }
    ensures div_s { (w : Width) (a b : ℕ) (kind : TrapKind) → a < 2 ^ bits w → b < 2 ^ bits w
        → (binary_at w DivS a b ≡ Err kind) ↔ (((b ≡ 0) × (kind ≡ DivideByZero))
        ⊎ ((cast_signed w a ≡ neg_ℤ (pos (2 ^ hbits w))) × (cast_signed w b ≡ negsuc 0)
        × (kind ≡ IntegerOverflow))) }
{}

/// Operators on bits, bit for bit; rotations; counts of bits (Core 1.0, section 4.3.2, `iand`, `ior`, `ixor`, `irotl`, `irotr`, `iclz`, `ictz`, `ipopcnt`).
pub fn bits_are_placed()
    ensures and { (w : Width) (a b c : ℕ) → binary_at w And a b ≡ Ok c → IsBitwise min a b c }
    ensures or { (w : Width) (a b c : ℕ) → binary_at w Or a b ≡ Ok c → IsBitwise max a b c }
    ensures xor { (w : Width) (a b c : ℕ) → binary_at w Xor a b ≡ Ok c
        → IsBitwise (λ x y. (x + y) % 2) a b c }
    ensures rotl { (w : Width) (a b c : ℕ) → a < 2 ^ bits w → binary_at w Rotl a b ≡ Ok c
        → IsRotatedLeft w (b % bits w) a c }
    ensures rotr { (w : Width) (a b c : ℕ) → a < 2 ^ bits w → binary_at w Rotr a b ≡ Ok c
        → IsRotatedLeft w (b % bits w) c a }
    ensures clz { (w : Width) (a : ℕ) → a < 2 ^ bits w → HasLeadingZeros w a (unary_at w Clz a) }
    ensures ctz { (w : Width) (a : ℕ) → a < 2 ^ bits w → HasTrailingZeros w a (unary_at w Ctz a) }
    ensures popcnt { (w : Width) (a : ℕ) → a < 2 ^ bits w
        → unary_at w Popcnt a ≡ ones_in_last (bits w) a }
{}

/// A conversion to fewer bits is modulo 2^N; one to more bits gives the same integer, and so does an extension of the low bits (Core 1.0, section 4.3.3,
/// `wrap`, `extend_s`, `extend_u`; Core 2.0, section 4.3.2, `iextendM_s`).
pub fn conversions_keep_integers()
    ensures wrap { (a c : ℕ) → converted I32WrapI64 (I64 a) ≡ Some (I32 c) → IsLeft w32 a c }
    ensures extend_s { (a c : ℕ) → a < 2 ^ 32 → converted I64ExtendI32S (I32 a) ≡ Some (I64 c)
        → cast_signed w64 c ≡ cast_signed w32 a }
    ensures extend_u { (a c : ℕ) → converted I64ExtendI32U (I32 a) ≡ Some (I64 c) → c ≡ a }
    ensures low { (m n : Width) (a : ℕ) → hbits m ≤ hbits n
        → cast_signed n (low_extended m n a) ≡ cast_signed m (a % 2 ^ bits m) }
{}

/// After a store memory holds the number's lowest bytes there, and a load of as many bytes gives their number. Past the end of memory both trap, and a store
/// changes nothing (Core 1.0, section 4.4.4).
pub fn loads_give_what_is_stored()
    ensures stored { (op : StoreOp) (m after : MemoryForm) (at : ℕ) (w : Word)
        → store op m at w ≡ (Ok tt, after)
        → (after.most ≡ m.most)
        × IsStoredAt at (stored op).1 (pattern w % 2 ^ (8 * (stored op).1)) m.bytes after.bytes }
    ensures loaded { (op : StoreOp) (read : LoadOp) (m after : MemoryForm) (at : ℕ) (w : Word)
        → store op m at w ≡ (Ok tt, after) → (loaded read).1 ≡ (stored op).1
        → load read after.bytes at ≡ Ok (word_of read (pattern w % 2 ^ (8 * (stored op).1))) }
    ensures store_past { (op : StoreOp) (m : MemoryForm) (at : ℕ) (w : Word)
        → length m.bytes < at + (stored op).1 → store op m at w ≡ (Err MemoryBounds, m) }
    ensures load_past { (read : LoadOp) (bytes : List ℕ) (at : ℕ)
        → length bytes < at + (loaded read).1 → load read bytes at ≡ Err MemoryBounds }
{}
