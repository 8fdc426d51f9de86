//! Relations that the functions of the table of primitives compute. Each law is the contract of a function that does nothing.
ghost use Rattle.std.specs.Prelude.{◌≡◌, ◌↔◌, ◌&&◌, not, ℕ, Bool, true, false, List, Ok, None};
ghost use Rattle.ere_syntax.specs.Tree.{Tree};
ghost use Rattle.sem_primitives.specs.Texts.{is_empty};
ghost use Rattle.sem_primitives.specs.TextMeaning.{places_of, replacement, replaced};
ghost use Rattle.sem_primitives.specs.Fields.{Separator, separator_of, pieces_of, fields_of};
ghost use Rattle.agreement.specs.Texts.Substitutions.{ArePlaces, IsPlace, StandsFor, Becomes};
ghost use Rattle.agreement.specs.Texts.Fields.{AreFields};

/// The places of gsub are the matches from left to right, each the first after the one before, without an empty one directly after it; the place of
/// sub is the first match.
pub fn places_are_matches()
    ensures all { (t : Tree) (text : List ℕ) (ps : List (ℕ × ℕ))
        → ArePlaces t text None ps ↔ (ps ≡ places_of t text true) }
    ensures one { (t : Tree) (text : List ℕ) (ps : List (ℕ × ℕ))
        → IsPlace t text ps ↔ (ps ≡ places_of t text false) }
{}

/// The text that is answered: what stands between the places is kept, and what the replacement stands for is put for each match.
pub fn texts_are_replaced()
    ensures replacement { (matched by new : List ℕ)
        → StandsFor matched by new ↔ (new ≡ replacement matched by) }
    ensures text { (t : Tree) (text by new : List ℕ) (all : Bool) → Becomes by 0
        (places_of t text all) text new ↔ (new ≡ replaced text by 0 (places_of t text all)) }
{}

/// The fields of a text, for each separator.
pub fn fields_are_parted()
    ensures pieces { (separator : Separator) (newlines : Bool) (text : List ℕ)
        (fields : List (List ℕ))
        → AreFields separator newlines text fields ↔ (fields ≡ pieces_of separator newlines text) }
    ensures of_record { (fs rs text : List ℕ) (separator : Separator) (fields : List (List ℕ))
        → separator_of fs ≡ Ok separator
        → AreFields separator (is_empty rs && not (is_empty fs)) text fields
        ↔ (fields_of fs rs text ≡ Ok fields) }
{}
