//! Lines of a script.

ghost use Rattle.std.specs.Prelude.{◌≡◌};
ghost use Rattle.script_check.specs.Page.{first_line, last_line, line_number};

/// The number of the line that ends these bytes; lines count from 1.
pub(crate) fn line_number(before: &[u8]) -> usize
    ensures { result ≡ line_number before.now }
{
    before.iter().filter(|b| **b == b'\n').count() + 1
}

/// What stands on the last line.
pub(crate) fn last_line(before: &[u8]) -> &[u8]
    ensures { result.now ≡ last_line before.now }
{
    let mut start = 0;
    for i in 0..before.len() {
        if before[i] == b'\n' {
            start = i + 1;
        }
    }
    &before[start..]
}

/// What stands before the first newline.
pub(crate) fn first_line(after: &[u8]) -> &[u8]
    ensures { result.now ≡ first_line after.now }
{
    for i in 0..after.len() {
        if after[i] == b'\n' {
            return &after[..i];
        }
    }
    after
}
