//! What is to be said of a use.

/// What is to be said of a name, of `=` or of `/`.
#[derive(Clone, Copy, Debug, PartialEq, Eq)]
pub enum Matter {
    /// A call of a function that the script lacks.
    UnknownFunction,
    /// A call with more arguments than the function has parameters.
    ArgCount,
    /// A function that the script defines and does not call.
    NeverCalled,
    /// A variable, no array, that the script asks for and does not assign to: the first place where it asks.
    NeverAssigned,
    /// A variable that the script assigns to and does not ask for: the first place where it assigns.
    NeverRead,
    /// The left end of a statement that only joins texts.
    OnlyJoins,
    /// `=` as a whole condition.
    AssignedCondition,
    /// A constant over one that does not divide it.
    UnevenQuotient,
}

/// What is to be said of a use where a script is refused for its names, but for calls.
#[derive(Clone, Copy)]
pub(crate) enum Trouble {
    /// A function after 1,000 others, or one of more than 100 parameters.
    TooMany,
    /// The name stands for two things.
    DuplicateName,
    /// The variable is an array and a scalar.
    KindClash,
    /// It is an array here.
    AsArray,
    /// It is a scalar here.
    AsScalar,
}

/// What a script may do with a name.
#[derive(Clone, Copy)]
pub(crate) enum Aspect {
    /// It calls the function.
    Calling,
    /// It asks for the variable.
    Asking,
    /// It assigns to the variable.
    Setting,
}
