//! Laws of number text: what the definitions say holds of every text.
ghost use Rattle.std.specs.Prelude.{◌≡◌, ℕ, ℤ, List};
ghost use Rattle.std.specs.Prelude.{Result};
ghost use Rattle.awk_text.specs.Reading.{Numeral};
ghost use Rattle.awk_text.specs.NumberText.{IsNumberOf, IsNumberText, IsTruncatedValue, IsWholeValue};
ghost use Rattle.awk_text.specs.declared.number.NumberFault.{NumberFault};

/// A text is number text in at most one way, and has at most one number and at most one truncated number.
pub fn at_most_one_number()
    ensures numeral { (text : List ℕ) (m n : Numeral) → IsNumberText text m → IsNumberText text n
        → m ≡ n }
    ensures number { (text : List ℕ) (v w : Result ℤ NumberFault) → IsNumberOf IsWholeValue text v
        → IsNumberOf IsWholeValue text w → v ≡ w }
    ensures truncated { (text : List ℕ) (v w : Result ℤ NumberFault)
        → IsNumberOf IsTruncatedValue text v → IsNumberOf IsTruncatedValue text w → v ≡ w }
{}
