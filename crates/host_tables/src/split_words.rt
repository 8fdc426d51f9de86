//! What the words of a split say.
ghost use Rattle.std.specs.Prelude.{◌≡◌, IfOk, true};
ghost use Rattle.std.specs.FinMap as map;
ghost use Rattle.host_tables.specs.Splits.{lent_split, split_front};

use awk_values::Value;
use host_arrays::Arrays;
use host_handles::Handles;
use host_texts::flag_front;
use host_values::{array_front, expect_end, value_after, value_front};
use wasm_store::{TrapKind, Word};

/// The handle of a text and the text, an array, the handle of a separator and the separator, and whether it is an expression.
pub(crate) fn split_front<'a>(
    arrays: &Arrays,
    handles: &'a Handles,
    words: &[Word],
) -> Result<(i32, &'a Value, i32, i32, &'a Value, bool), TrapKind>
    ensures value { lent_split result ≡ split_front arrays.now handles.now words.now }
    ensures there { IfOk result (λ x. map.contains_key arrays.now x.2 ≡ true) }
{
    let (first, text, behind_text) = value_front(handles, words)?;
    let (array, behind_array) = array_front(arrays, behind_text)?;
    let (second, separator, behind) = value_after(handles, first, behind_array)?;
    let (is_ere, rest) = flag_front(behind)?;
    expect_end(rest)?;
    Ok((first, text, array, second, separator, is_ere))
}
