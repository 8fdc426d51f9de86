//! Relations that formatted text meets. Each law is the contract of a function that does nothing.
ghost use Rattle.std.specs.Prelude.{◌≡◌, ◌↔◌, ◌≤◌, ℕ, List, length, Ok};
ghost use Rattle.awk_values.specs.declared.value.Value.{Value};
ghost use Rattle.sem_primitives.specs.Limits.{most_text};
ghost use Rattle.sem_primitives.specs.Formats.{Conversion, Specifier, converted, formatted};
ghost use Rattle.agreement.specs.Formats.Read.{IsFormatted};
ghost use Rattle.agreement.specs.Formats.Written.{IsInRange, IsWritten};

/// A format is bytes and conversions. Its text is these bytes and what the conversions make of the values, in order. Nothing else has a text, nor has one
/// that would be too long (POSIX.1-2017 awk, "Formatted output").
pub fn formats_are_read()
    ensures { (format : List ℕ) (values : List Value) (text : List ℕ)
        → (formatted format values ≡ Ok text)
        ↔ (IsFormatted format values text × (length text ≤ most_text)) }
{}

/// What a conversion makes of a value has at least its width. Apart from blanks, a number is its sign or mark and digits of its value, at least as many as
/// the precision says (POSIX.1-2017 awk, "Formatted output"; XBD 5).
pub fn conversions_are_written()
    ensures { (d : Conversion) (s : Specifier) (v : Value) (text : List ℕ) → IsInRange v
        → converted d s v ≡ Ok text → IsWritten d s v text }
{}
