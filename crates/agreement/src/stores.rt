//! Relations that the rows of arrays and of fields compute. Each law is the contract of a function that does nothing.
ghost use Rattle.std.specs.Prelude.{◌≡◌, ℕ, suc, List, ◌++◌, None, Ok};
ghost use Rattle.awk_values.specs.declared.value.Value.{Value};
ghost use Rattle.world_core.specs.WorldState.{Target};
ghost use Rattle.sem_primitives.specs.SharedState.{Inner, Pairs, Shared};
ghost use Rattle.sem_primitives.specs.ArrayMeaning.{array, keys, stored, without};
ghost use Rattle.sem_primitives.specs.Rows.{iterate_row};
ghost use Rattle.sem_primitives.specs.FieldMeaning.{with_count, with_field};
ghost use Rattle.agreement.specs.Stores.Elements.{IsDeleted, IsStored};
ghost use Rattle.agreement.specs.Stores.Fields.{CountIsAssigned, FieldIsAssigned};
ghost use Rattle.agreement.specs.Stores.Walks.{AreDistinct, Gives, IsKept};
ghost use Rattle.agreement.specs.Stores.Files.{Print, Succeed, base, held, is_open, texts_to};

/// An array is a finite map that remembers the order in which its keys were made.
pub fn arrays_are_maps()
    ensures stored { (key : List ℕ) (v : Value) (ps : Pairs) → IsStored key v ps (stored key v ps) }
    ensures deleted { (key : List ℕ) (ps : Pairs) → IsDeleted key ps (without key ps) }
{}

/// No key comes twice, and a walk gives each key that the array has when it begins, in the order in which they were made, whatever becomes of the array
/// meanwhile (POSIX.1-2017 awk, "Actions", the `for` over a name in an array).
pub fn walks_give_keys()
    ensures stored { (key : List ℕ) (v : Value) (ps : Pairs) → AreDistinct (keys ps)
        → AreDistinct (keys (stored key v ps)) }
    ensures deleted { (key : List ℕ) (ps : Pairs) → AreDistinct (keys ps)
        → AreDistinct (keys (without key ps)) }
    ensures walked { (a : ℕ) (inner later : Inner) (all : List (List ℕ))
        → IsKept (iterate_row a inner).1 (iterate_row a inner).0 later
        → Gives (iterate_row a inner).1 later all → all ≡ keys (array a inner) }
{}

/// An assignment to a field, or to NF, changes just that, and joins `$0` anew.
pub fn fields_are_assigned()
    ensures field { (n : ℕ) (v : Value) (before after : Inner)
        → with_field (suc n) v before ≡ Ok after → FieldIsAssigned n v before after }
    ensures count { (n : ℕ) (before after : Inner)
        → with_count n before ≡ Ok after → CountIsAssigned n before after }
{}

/// While nobody else changes files, a file holds what it held before, or nothing where `>` opened it, and then all that was printed to it, in order; and so does the
/// standard output.
pub fn files_hold_what_is_printed()
    ensures { (prints : List Print) (state end : Shared) → state.inner.finds ≡ None
        → Succeed prints state end → (t : Target)
        → held end.outside t
        ≡ base (is_open state.inner t) t prints (held state.outside t) ++ texts_to t prints }
{}
