//! Laws of the definitions, each the contract of a function that does nothing.

ghost use Rattle.std.specs.Prelude.{◌≡◌, ℕ, ◌++◌, List};
ghost use Rattle.wasm_types.specs.declared.opcodes.Lead.{Lead};
ghost use Rattle.wasm_types.specs.Leads.{code, IsLead, lead_at};
ghost use Rattle.wasm_types.specs.Leb128.{IsUnsigned, IsSigned};

/// What an opcode begins is found by it, and no two have the same opcode.
pub fn opcodes_differ()
    ensures found { (l : Lead) → IsLead l → lead_at (code l) ≡ l }
    ensures one { (l m : Lead) → IsLead l → IsLead m → code l ≡ code m → l ≡ m }
{}

/// Whatever follows, bytes begin with at most one unsigned integer of a width, in one form.
pub fn one_unsigned()
    ensures { (most limit n m : ℕ) (a b x y : List ℕ) → IsUnsigned most limit a n
        → IsUnsigned most limit b m → a ++ x ≡ b ++ y → (n ≡ m) × (x ≡ y) }
{}

/// Whatever follows, bytes begin with at most one signed integer of a width, in one form.
pub fn one_signed()
    ensures { (most half n m : ℕ) (a b x y : List ℕ) → IsSigned most half a n
        → IsSigned most half b m → a ++ x ≡ b ++ y → (n ≡ m) × (x ≡ y) }
{}
