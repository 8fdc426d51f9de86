//! What the definitions say in two places is the same.
//!
//! What the definitions say in two places is the same. Each law is the contract of a function that does nothing.
ghost use Rattle.std.specs.Prelude.{◌≡◌, ◌≢◌, ◌||◌, not, false, is_some, ℕ, List, ◌∷◌, ◌++◌, map, Some, None, Ok, Err, slice_get};
ghost use Rattle.awk_text.specs.Escapes.{is_octal, letter_escape, unescaped};
ghost use Rattle.awk_tokens.specs.Words.{reserved_word_of};
ghost use Rattle.awk_values.specs.declared.fault.Fault.{Fault};
ghost use Rattle.awk_values.specs.declared.value.Value.{Value};
ghost use Rattle.awk_values.specs.declared.value.Value.TheVariants.{Uninit};
ghost use Rattle.ere_syntax.specs.Bracket.{IsEscape, Letter, Octal, escape_value};
ghost use Rattle.awk_grammar.specs.Kinds.{has_name, special_arrays, special_scalars};
ghost use Rattle.sem_primitives.specs.declared.constants.Special.{Special};
ghost use Rattle.sem_primitives.specs.Constants.{specials};
ghost use Rattle.sem_primitives.specs.ConstantNumbers.{special_number};
ghost use Rattle.sem_primitives.specs.Numbers.{Number};
ghost use Rattle.sem_primitives.specs.SharedState.{Pairs};
ghost use Rattle.sem_primitives.specs.FieldMeaning.{field_number};
ghost use Rattle.sem_primitives.specs.ArrayMeaning.{element, stored, without};
ghost use Rattle.sem_primitives.specs.Assignments.{is_name, named, special_name, takes_none};
ghost use Rattle.sem_scripts.specs.Names.{is_special_array, special_array, special_named};
ghost use Rattle.sem_scripts.specs.Steps.{field_checked};
ghost use Rattle.host_arrays.specs.Pairs.{created, delete_pair, get_pair, set_pair};

/// The special variables have the same names for a script's kinds, for its meaning and for assignments of the command line.
pub fn special_names_agree()
    ensures each { (s : Special) → slice_get specials (special_number s) ≡ Some s }
    ensures scalars { special_scalars ≡ map special_name specials }
    ensures named { (name : List ℕ) → special_named name ≡ named name specials }
    ensures arrays { (name : List ℕ) → is_special_array (special_array name)
        ≡ has_name special_arrays name }
    ensures assigned { (name : List ℕ) → takes_none name ≡ (not (is_name name)
        || (is_some (reserved_word_of name) || has_name special_arrays name)) }
{}

/// A backslash and what follows it stand for the same byte in a string and in a regular expression. Where no escape is meant a string keeps the
/// backslash, and a regular expression the byte after it alone.
pub fn escapes_agree()
    ensures octals { (d : ℕ) (ds rest : List ℕ) → IsEscape (Octal d ds) rest →
        unescaped (92 ∷ (d ∷ (ds ++ rest))) ≡ escape_value (Octal d ds) ∷ unescaped rest }
    ensures letters { (c : ℕ) (byte : ℕ) (rest : List ℕ) → letter_escape c ≡ Some byte →
        (unescaped (92 ∷ (c ∷ rest)) ≡ byte ∷ unescaped rest) × (escape_value (Letter c) ≡ byte) }
    ensures others { (c : ℕ) (rest : List ℕ)
        → letter_escape c ≡ None → is_octal c ≡ false → c ≢ 10 →
        (unescaped (92 ∷ (c ∷ rest)) ≡ 92 ∷ (c ∷ unescaped rest)) × (escape_value (Letter c) ≡ c) }
{}

/// What a table of arrays does with the pairs of an array is what the rows do with them.
pub fn arrays_agree()
    ensures got { (key : List ℕ) (pairs : Pairs) → get_pair key pairs ≡ element key pairs }
    ensures put { (key : List ℕ) (v : Value) (pairs : Pairs) → set_pair key v pairs
        ≡ stored key v pairs }
    ensures deleted { (key : List ℕ) (pairs : Pairs) → delete_pair key pairs ≡ without key pairs }
    ensures made { (key : List ℕ) (pairs : Pairs) → element key pairs ≡ None → created key pairs
        ≡ stored key Uninit pairs }
    ensures there { (key : List ℕ) (v : Value) (pairs : Pairs) → element key pairs ≡ Some v
        → created key pairs ≡ pairs }
{}

/// The number of a field that is assigned is checked as that of a field that is read.
pub fn field_numbers_agree()
    ensures taken { (n : Number) (k : ℕ) → field_number n.number ≡ Ok k → field_checked n ≡ Ok n }
    ensures refused { (n : Number) (fault : Fault) → field_number n.number ≡ Err fault
        → field_checked n ≡ Err fault }
{}
