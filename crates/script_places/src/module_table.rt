//! The functions of a module with the lines of their places.
ghost use Rattle.std.specs.Prelude.{◌≡◌, map, option_map};
ghost use Rattle.script_places.specs.Lines.{form_of, line_in, name_in};

/// The lines of a function of a module.
#[derive(Debug, Drop)]
pub struct FunctionLines {
    /// Its name.
    pub name: Vec<u8>,
    /// The line of each place of its code, in order; 0 for a place without a line.
    pub lines: Vec<u32>,
}

/// The line of a place in a function of the module. There is none where the place has none, or is not there.
pub fn line_in(table: &[FunctionLines], function: usize, place: usize) -> Option<usize>
    ensures { result ≡ line_in (map form_of table.now) function place }
{
    let lines = table.get(function)?;
    match lines.lines.get(place) {
        None | Some(0) => None,
        Some(line) => Some(*line as usize),
    }
}

/// The name of a function of the script. `main`, the last function, has none in the script.
pub fn name_in(table: &[FunctionLines], function: usize) -> Option<&[u8]>
    ensures { option_map (λ name. name.now) result ≡ name_in (map form_of table.now) function }
{
    if function >= table.len() || function + 1 == table.len() {
        return None;
    }
    let lines = table.get(function)?;
    Some(lines.name.as_slice())
}
