//! What a script says of names.

/// How a name is used.
#[derive(Clone, Copy)]
pub(crate) enum Kind {
    Array,
    Scalar,
}

/// A mark: something that a script says of a name. A place is the function in whose body it stands, if it stands in one.
#[derive(Clone, Copy)]
pub(crate) enum Mark<'a> {
    /// A function's name where it is defined.
    Defined(&'a [u8]),
    /// A parameter of a function.
    Parameter(&'a [u8], &'a [u8]),
    Used(Kind, Option<&'a [u8]>, &'a [u8]),
    /// A call with so many arguments.
    Called(&'a [u8], usize),
    /// An argument of a call that is no bare name.
    Computed(&'a [u8], usize),
    /// A bare name as an argument of a call.
    Given(&'a [u8], usize, Option<&'a [u8]>, &'a [u8]),
}
