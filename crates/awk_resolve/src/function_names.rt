//! Names with their kinds.

/// A name and its kind.
#[derive(Clone, Copy)]
pub struct NameKind<'a> {
    pub name: &'a [u8],
    /// Whether it is an array's; a scalar's otherwise.
    pub is_array: bool,
}

/// A function with its parameters.
#[derive(Drop)]
pub struct FunctionNames<'a> {
    pub name: &'a [u8],
    pub parameters: Vec<NameKind<'a>>,
}
