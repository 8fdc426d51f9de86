//! The kinds of a script's names are two least sets. Each law is the contract of a function that does nothing.
ghost use Rattle.std.specs.Prelude.{◌≡◌, ◌↔◌, Bool, List};
ghost use Rattle.awk_grammar.specs.Trees.{Item};
ghost use Rattle.awk_grammar.specs.Marks.{Array, Kind, Scalar, script_marks};
ghost use Rattle.awk_grammar.specs.Kinds.{Key, heads, is_used_as, refusal, resolved};
ghost use Rattle.awk_resolve.specs.Sets.{AreUsedAs, names_by, refusal_by};

/// There is one least set of each kind, and it is the one that is computed.
pub fn one_set()
    ensures { (kind : Kind) (script : List Item) (set : Key → Bool) →
        AreUsedAs kind script set ↔ (set ≡ is_used_as kind (heads script) (script_marks script)) }
{}

/// Whatever sets are the least of both kinds: a script is refused, and its names have their kinds, by these.
pub fn kinds_are_sets()
    ensures refusal { (script : List Item) (arrays scalars : Key → Bool)
        → AreUsedAs Array script arrays → AreUsedAs Scalar script scalars
        → refusal script ≡ refusal_by arrays scalars script }
    ensures names { (script : List Item) (arrays : Key → Bool) → AreUsedAs Array script arrays
        → resolved script ≡ names_by arrays script }
{}
