//! Laws of the definitions, each the contract of a function that does nothing.
ghost use Rattle.std.specs.Prelude.{◌≡◌, ◌≢◌, ℕ, List, Some};
ghost use Rattle.ere_syntax.specs.Tree.{Tree};
ghost use Rattle.ere_syntax.specs.FirstMatch.{IsFirstMatch, IsMatch};
ghost use Rattle.sem_primitives.specs.FirstMatch.{first_match, has_match};
ghost use Rattle.sem_primitives.specs.Numbers.{Number, faulted_word, number_of_word, number_word};
ghost use Rattle.sem_primitives.specs.Constants.{InConstant, constant_at};
ghost use Rattle.sem_primitives.specs.ConstantNumbers.{constant_number};
ghost use Rattle.sem_primitives.specs.declared.sorts.Constant.{Constant};

/// The word of a number says that number again, and is not the word that stands for a fault.
pub fn number_words()
    ensures again { (n : Number) → number_of_word (number_word n) ≡ Some n }
    ensures no_fault { (n : Number) → number_word n ≢ faulted_word }
{}

/// The word of a constant argument says that constant again.
pub fn constant_words()
    ensures { (c : Constant) (x : InConstant c) → constant_at c (constant_number c x) ≡ Some x }
{}

/// The first match that the rows compute is the first match of an expression: the leftmost, and of these the longest (POSIX XBD 9.1); and
/// whether there is one.
pub fn first_matches()
    ensures first { (t : Tree) (text : List ℕ) (from : ℕ)
        → IsFirstMatch t text from (first_match t text from) }
    ensures any { (t : Tree) (text : List ℕ) → IsMatch t text (has_match t text) }
{}
