//! What a script does with its names, its `=` and its `/`.

/// What becomes of the value of an expression where it stands.
#[derive(Clone, Copy, Debug, PartialEq, Eq)]
pub enum Way {
    /// It is asked for.
    Asked,
    /// It is assigned to.
    Assigned,
    /// It is asked for, and assigned to.
    Changed,
    /// It is an array that a built-in function fills.
    Filled,
    /// It is an argument of a call.
    Given,
    /// It is the left end of a statement that only joins texts.
    Joined,
    /// It decides how a statement goes on.
    Condition,
}

/// What a script does at a name, at `=` or at `/`.
#[derive(Clone, Copy, Debug, PartialEq, Eq)]
pub enum Deed {
    /// Defines the function of this name.
    Defines,
    /// Names a parameter.
    Takes,
    /// Calls the function with so many arguments.
    Calls(usize),
    /// Asks for the scalar's value.
    Reads,
    /// Assigns to the scalar.
    Sets,
    /// Asks for the scalar's value, and assigns to it; or `getline` or the head of a loop over keys assigns to it.
    Changes,
    /// Asks for the scalar's value, at the left end of a statement that only joins texts.
    Joins,
    /// Gives the bare name as an argument.
    Gives,
    /// Asks for an element, or whether there is one, or walks over the keys.
    ReadsArray,
    /// Assigns to an element.
    SetsArray,
    /// Asks for an element, and assigns to it; or a built-in function fills the array.
    ChangesArray,
    /// Empties the array, or drops an element.
    Clears,
    /// Assigns, by `=`; as a whole condition, or elsewhere.
    Assigns(bool),
    /// Divides; a constant by one that does not divide it, or else.
    Divides(bool),
}

/// A name, `=` or `/` of a script and what is done there. `=` and `/` have no name. The place is the function in whose body it stands, or whose parameter
/// it names.
#[derive(Clone, Copy)]
pub struct Use<'a> {
    pub deed: Deed,
    pub place: Option<&'a [u8]>,
    pub name: &'a [u8],
}
