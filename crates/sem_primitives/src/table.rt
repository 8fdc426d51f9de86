//! The table of primitives.
ghost use Rattle.std.specs.Prelude.{◌≡◌};
ghost use Rattle.sem_primitives.specs.Table.{answer_of, arguments_of, can_fault, listed_answer};

use crate::{Answer, Argument, Constant, Destination, Sort};

/// What the host does for a script, apart from what takes a list of values.
#[derive(Clone, Copy, Drop)]
pub enum Primitive {
    /// The value of a number.
    Num,
    /// The text of a constant.
    Lit,
    /// The uninitialised value.
    Uninit,
    /// The same value once more.
    Dup,
    /// A value's number.
    ToNum,
    /// A value's number, truncated.
    IntOf,
    /// A value's truth.
    Truth,
    /// A comparison of two values.
    Compare,
    /// One text behind the other.
    Concat,
    /// A power.
    Pow,
    /// A fault.
    Fail,
    /// The value of a special variable.
    GetSpecial,
    /// A special variable takes a value.
    SetSpecial,
    /// The value of a field; number 0 is the record.
    Field,
    /// A field, or the record, takes a value.
    SetField,
    /// An empty array.
    NewArray,
    /// An array's element, which is made where there is none.
    Elem,
    /// An array's element takes a value.
    SetElem,
    /// Whether an array has an element.
    Has,
    /// An element is taken from its array.
    Delete,
    /// Two parts of a key, with SUBSEP between them.
    Join,
    /// The keys of an array, to be visited.
    Iter,
    /// The next of these keys.
    IterNext,
    /// How many bytes a text has.
    Length,
    /// Whether a text has a match of an expression.
    Matches,
    /// Where the first match is; RSTART and RLENGTH are set.
    Match,
    /// How many matches are replaced; the new text is kept.
    Sub,
    /// The new text, once.
    SubResult,
    /// The pieces of a text become an array's elements.
    Split,
    /// A part of a text, of a length.
    Substr,
    /// A part of a text, to its end.
    SubstrFrom,
    /// Where a text first stands in another.
    Index,
    /// A text in lower case.
    Lower,
    /// A text in upper case.
    Upper,
    /// The next record of the main loop.
    NextMain,
    /// The next record of the main input.
    Getline,
    /// The same, for a variable.
    GetlineVar,
    /// The next record of a file.
    GetlineFile,
    /// The same, for a variable.
    GetlineVarFile,
    /// The text that was read for a variable, once.
    Line,
    /// A name of the script is announced.
    Declare,
    /// The next assignment of the command line.
    StartAssign,
    /// The name of an assignment that is pending.
    PendingName,
    /// Its value; it is pending no more.
    PendingValue,
    /// The actions of END begin.
    BeginEnd,
    /// The streams of a name are closed.
    Close,
    /// The rest of what the main input reads is given up.
    NextFile,
    /// All elements are taken from an array.
    Clear,
    /// What was written under a name is out; the empty name says all names.
    Flush,
}

/// What the host does with a list of values.
#[derive(Clone, Copy, Drop)]
pub enum Listed {
    /// The formatted text: the first value is the format.
    Sprintf,
    /// Prints the values; a file's name is one further last value.
    Print(Destination),
    /// Prints the formatted text; a file's name is one further last value.
    Printf(Destination),
}

impl Primitive {
    /// The sorts of its arguments, in order.
    pub fn arguments(self) -> &'static [Argument]
        ensures { result.now ≡ arguments_of self }
    {
        match self {
            Primitive::Num | Primitive::Field => &[Argument::Of(Sort::Number)],
            Primitive::Lit => &[Argument::Place],
            Primitive::Uninit
            | Primitive::NewArray
            | Primitive::SubResult
            | Primitive::NextMain
            | Primitive::Getline
            | Primitive::GetlineVar
            | Primitive::Line
            | Primitive::StartAssign
            | Primitive::PendingName
            | Primitive::PendingValue
            | Primitive::BeginEnd
            | Primitive::NextFile => &[],
            Primitive::Dup
            | Primitive::ToNum
            | Primitive::IntOf
            | Primitive::Truth
            | Primitive::Length
            | Primitive::Lower
            | Primitive::Upper
            | Primitive::GetlineFile
            | Primitive::GetlineVarFile
            | Primitive::Close
            | Primitive::Flush => &[Argument::Of(Sort::Value)],
            Primitive::Compare => &[
                Argument::Constant(Constant::Comparison),
                Argument::Of(Sort::Value),
                Argument::Of(Sort::Value),
            ],
            Primitive::Concat
            | Primitive::Join
            | Primitive::Matches
            | Primitive::Match
            | Primitive::Index => &[Argument::Of(Sort::Value), Argument::Of(Sort::Value)],
            Primitive::Pow => &[Argument::Of(Sort::Number), Argument::Of(Sort::Number)],
            Primitive::Fail => &[Argument::Constant(Constant::Fault)],
            Primitive::GetSpecial => &[Argument::Constant(Constant::Special)],
            Primitive::SetSpecial => &[
                Argument::Constant(Constant::Special),
                Argument::Of(Sort::Value),
            ],
            Primitive::SetField => &[Argument::Of(Sort::Number), Argument::Of(Sort::Value)],
            Primitive::Elem | Primitive::Has | Primitive::Delete => &[
                Argument::Of(Sort::Array),
                Argument::Of(Sort::Value),
            ],
            Primitive::SetElem => &[
                Argument::Of(Sort::Array),
                Argument::Of(Sort::Value),
                Argument::Of(Sort::Value),
            ],
            Primitive::Iter | Primitive::Clear => &[Argument::Of(Sort::Array)],
            Primitive::IterNext => &[Argument::Of(Sort::Iterator)],
            Primitive::Sub => &[
                Argument::Of(Sort::Value),
                Argument::Of(Sort::Value),
                Argument::Of(Sort::Value),
                Argument::Constant(Constant::Flag),
            ],
            Primitive::Split => &[
                Argument::Of(Sort::Value),
                Argument::Of(Sort::Array),
                Argument::Of(Sort::Value),
                Argument::Constant(Constant::Flag),
            ],
            Primitive::Substr => &[
                Argument::Of(Sort::Value),
                Argument::Of(Sort::Number),
                Argument::Of(Sort::Number),
            ],
            Primitive::SubstrFrom => &[Argument::Of(Sort::Value), Argument::Of(Sort::Number)],
            Primitive::Declare => &[Argument::Place, Argument::Constant(Constant::NameKind)],
        }
    }

    /// The sort of its answer.
    pub fn answer(self) -> Answer
        ensures { result ≡ answer_of self }
    {
        match self {
            Primitive::Num
            | Primitive::Lit
            | Primitive::Uninit
            | Primitive::Dup
            | Primitive::Concat
            | Primitive::GetSpecial
            | Primitive::Field
            | Primitive::Elem
            | Primitive::Join
            | Primitive::SubResult
            | Primitive::Substr
            | Primitive::SubstrFrom
            | Primitive::Lower
            | Primitive::Upper
            | Primitive::Line
            | Primitive::PendingValue => Answer::Of(Sort::Value),
            Primitive::ToNum
            | Primitive::IntOf
            | Primitive::Pow
            | Primitive::Length
            | Primitive::Match
            | Primitive::Sub
            | Primitive::Split
            | Primitive::Index => Answer::Of(Sort::Number),
            Primitive::Truth | Primitive::Compare | Primitive::Has | Primitive::Matches =>
                Answer::Truth,
            Primitive::Fail | Primitive::Declare | Primitive::BeginEnd => Answer::Nothing,
            Primitive::SetSpecial
            | Primitive::SetField
            | Primitive::SetElem
            | Primitive::Delete
            | Primitive::NextFile
            | Primitive::Clear => Answer::Done,
            Primitive::NewArray => Answer::Of(Sort::Array),
            Primitive::Iter => Answer::Of(Sort::Iterator),
            Primitive::IterNext => Answer::ValueOrEnd,
            Primitive::NextMain
            | Primitive::Getline
            | Primitive::GetlineVar
            | Primitive::GetlineFile
            | Primitive::GetlineVarFile => Answer::Input,
            Primitive::StartAssign => Answer::Assign,
            Primitive::PendingName => Answer::Name,
            Primitive::Close | Primitive::Flush => Answer::Stream,
        }
    }

    /// Whether it may fault.
    pub fn can_fault(self) -> bool
        ensures { result ≡ can_fault self }
    {
        match self {
            Primitive::Num
            | Primitive::Lit
            | Primitive::Uninit
            | Primitive::Dup
            | Primitive::Truth
            | Primitive::GetSpecial
            | Primitive::NewArray
            | Primitive::Elem
            | Primitive::SetElem
            | Primitive::Has
            | Primitive::Delete
            | Primitive::Iter
            | Primitive::IterNext
            | Primitive::Length
            | Primitive::SubResult
            | Primitive::Substr
            | Primitive::SubstrFrom
            | Primitive::Index
            | Primitive::Lower
            | Primitive::Upper
            | Primitive::Line
            | Primitive::Declare
            | Primitive::PendingName
            | Primitive::PendingValue
            | Primitive::BeginEnd
            | Primitive::Close
            | Primitive::NextFile
            | Primitive::Clear
            | Primitive::Flush => false,
            Primitive::ToNum
            | Primitive::IntOf
            | Primitive::Compare
            | Primitive::Concat
            | Primitive::Pow
            | Primitive::Fail
            | Primitive::SetSpecial
            | Primitive::Field
            | Primitive::SetField
            | Primitive::Join
            | Primitive::Matches
            | Primitive::Match
            | Primitive::Sub
            | Primitive::Split
            | Primitive::NextMain
            | Primitive::Getline
            | Primitive::GetlineVar
            | Primitive::GetlineFile
            | Primitive::GetlineVarFile
            | Primitive::StartAssign => true,
        }
    }
}

impl Listed {
    /// The sort of its answer.
    pub fn answer(self) -> Answer
        ensures { result ≡ listed_answer self }
    {
        match self {
            Listed::Sprintf => Answer::Of(Sort::Value),
            Listed::Print(_) | Listed::Printf(_) => Answer::Done,
        }
    }
}
