//! The imports of the modules `awk1` and `awk2`.
ghost use Rattle.std.specs.Prelude.{◌≡◌, slice_get};
ghost use Rattle.host_imports.specs.Imports.{import_answer, import_arguments, import_at, imports_in, lets_go, spends};
ghost use Rattle.host_imports.specs.FaultColumns.{can_fault, can_trap};
ghost use Rattle.host_imports.specs.Names.{import_name, import_number};

use sem_primitives::{Answer, Argument, Constant, Primitive, Sort};

/// What is made of the last values of the argument list.
#[derive(Clone, Copy, Drop)]
pub enum VariadicImport {
    Sprintf,
    Print,
    Printf,
}

/// What a module may ask of the host: a row of the table of primitives, or what builds the argument list, uses it, or lets something go.
#[derive(Clone, Copy, Drop)]
pub enum Import {
    OfPrimitive(Primitive),
    Variadic(VariadicImport),
    /// A value goes onto the argument list.
    Arg,
    /// A value is let go.
    Drop,
    /// An iterator is let go.
    IterFree,
    /// An array is let go.
    FreeArray,
}

/// How many imports there are.
pub const IMPORT_COUNT: usize = 56;

/// The imports in the order of their numbers, from 0 on.
pub const IMPORTS: [Import; IMPORT_COUNT] = [
    Import::OfPrimitive(Primitive::Num),
    Import::OfPrimitive(Primitive::Lit),
    Import::OfPrimitive(Primitive::Uninit),
    Import::OfPrimitive(Primitive::Dup),
    Import::OfPrimitive(Primitive::ToNum),
    Import::OfPrimitive(Primitive::IntOf),
    Import::OfPrimitive(Primitive::Truth),
    Import::OfPrimitive(Primitive::Compare),
    Import::OfPrimitive(Primitive::Concat),
    Import::OfPrimitive(Primitive::Pow),
    Import::OfPrimitive(Primitive::Fail),
    Import::OfPrimitive(Primitive::GetSpecial),
    Import::OfPrimitive(Primitive::SetSpecial),
    Import::OfPrimitive(Primitive::Field),
    Import::OfPrimitive(Primitive::SetField),
    Import::OfPrimitive(Primitive::NewArray),
    Import::OfPrimitive(Primitive::Elem),
    Import::OfPrimitive(Primitive::SetElem),
    Import::OfPrimitive(Primitive::Has),
    Import::OfPrimitive(Primitive::Delete),
    Import::OfPrimitive(Primitive::Join),
    Import::OfPrimitive(Primitive::Iter),
    Import::OfPrimitive(Primitive::IterNext),
    Import::OfPrimitive(Primitive::Length),
    Import::OfPrimitive(Primitive::Matches),
    Import::OfPrimitive(Primitive::Match),
    Import::OfPrimitive(Primitive::Sub),
    Import::OfPrimitive(Primitive::SubResult),
    Import::OfPrimitive(Primitive::Split),
    Import::OfPrimitive(Primitive::Substr),
    Import::OfPrimitive(Primitive::SubstrFrom),
    Import::OfPrimitive(Primitive::Index),
    Import::OfPrimitive(Primitive::Lower),
    Import::OfPrimitive(Primitive::Upper),
    Import::OfPrimitive(Primitive::NextMain),
    Import::OfPrimitive(Primitive::Getline),
    Import::OfPrimitive(Primitive::GetlineVar),
    Import::OfPrimitive(Primitive::GetlineFile),
    Import::OfPrimitive(Primitive::GetlineVarFile),
    Import::OfPrimitive(Primitive::Line),
    Import::OfPrimitive(Primitive::Declare),
    Import::OfPrimitive(Primitive::StartAssign),
    Import::OfPrimitive(Primitive::PendingName),
    Import::OfPrimitive(Primitive::PendingValue),
    Import::OfPrimitive(Primitive::BeginEnd),
    Import::OfPrimitive(Primitive::Close),
    Import::Arg,
    Import::Variadic(VariadicImport::Sprintf),
    Import::Variadic(VariadicImport::Print),
    Import::Variadic(VariadicImport::Printf),
    Import::Drop,
    Import::IterFree,
    Import::FreeArray,
    Import::OfPrimitive(Primitive::NextFile),
    Import::OfPrimitive(Primitive::Clear),
    Import::OfPrimitive(Primitive::Flush),
];

/// How many of the imports, from the first on, a module of this name has.
pub fn imports_in(from: &[u8]) -> usize
    ensures { result ≡ imports_in from.now }
{
    if from == b"awk1".as_slice() {
        53
    } else if from == b"awk2".as_slice() {
        56
    } else {
        0
    }
}

fn primitive_name(primitive: Primitive) -> &'static str
    ensures { result.now ≡ import_name (Import.OfPrimitive primitive) }
{
    match primitive {
        Primitive::Num => "num",
        Primitive::Lit => "lit",
        Primitive::Uninit => "uninit",
        Primitive::Dup => "dup",
        Primitive::ToNum => "to_num",
        Primitive::IntOf => "int_of",
        Primitive::Truth => "truth",
        Primitive::Compare => "compare",
        Primitive::Concat => "concat",
        Primitive::Pow => "pow",
        Primitive::Fail => "fail",
        Primitive::GetSpecial => "get_special",
        Primitive::SetSpecial => "set_special",
        Primitive::Field => "field",
        Primitive::SetField => "set_field",
        Primitive::NewArray => "new_array",
        Primitive::Elem => "elem",
        Primitive::SetElem => "set_elem",
        Primitive::Has => "has",
        Primitive::Delete => "delete",
        Primitive::Join => "join",
        Primitive::Iter => "iter",
        Primitive::IterNext => "iter_next",
        Primitive::Length => "length",
        Primitive::Matches => "matches",
        Primitive::Match => "match",
        Primitive::Sub => "sub",
        Primitive::SubResult => "sub_result",
        Primitive::Split => "split",
        Primitive::Substr => "substr",
        Primitive::SubstrFrom => "substr_from",
        Primitive::Index => "index",
        Primitive::Lower => "lower",
        Primitive::Upper => "upper",
        Primitive::NextMain => "next_main",
        Primitive::Getline => "getline",
        Primitive::GetlineVar => "getline_var",
        Primitive::GetlineFile => "getline_file",
        Primitive::GetlineVarFile => "getline_var_file",
        Primitive::Line => "line",
        Primitive::Declare => "declare",
        Primitive::StartAssign => "start_assign",
        Primitive::PendingName => "pending_name",
        Primitive::PendingValue => "pending_value",
        Primitive::BeginEnd => "begin_end",
        Primitive::Close => "close",
        Primitive::NextFile => "next_file",
        Primitive::Clear => "clear",
        Primitive::Flush => "flush",
    }
}

/// The number of a primitive among the imports.
fn primitive_number(primitive: Primitive) -> u32
    ensures { result ≡ import_number (Import.OfPrimitive primitive) }
{
    match primitive {
        Primitive::Num => 0,
        Primitive::Lit => 1,
        Primitive::Uninit => 2,
        Primitive::Dup => 3,
        Primitive::ToNum => 4,
        Primitive::IntOf => 5,
        Primitive::Truth => 6,
        Primitive::Compare => 7,
        Primitive::Concat => 8,
        Primitive::Pow => 9,
        Primitive::Fail => 10,
        Primitive::GetSpecial => 11,
        Primitive::SetSpecial => 12,
        Primitive::Field => 13,
        Primitive::SetField => 14,
        Primitive::NewArray => 15,
        Primitive::Elem => 16,
        Primitive::SetElem => 17,
        Primitive::Has => 18,
        Primitive::Delete => 19,
        Primitive::Join => 20,
        Primitive::Iter => 21,
        Primitive::IterNext => 22,
        Primitive::Length => 23,
        Primitive::Matches => 24,
        Primitive::Match => 25,
        Primitive::Sub => 26,
        Primitive::SubResult => 27,
        Primitive::Split => 28,
        Primitive::Substr => 29,
        Primitive::SubstrFrom => 30,
        Primitive::Index => 31,
        Primitive::Lower => 32,
        Primitive::Upper => 33,
        Primitive::NextMain => 34,
        Primitive::Getline => 35,
        Primitive::GetlineVar => 36,
        Primitive::GetlineFile => 37,
        Primitive::GetlineVarFile => 38,
        Primitive::Line => 39,
        Primitive::Declare => 40,
        Primitive::StartAssign => 41,
        Primitive::PendingName => 42,
        Primitive::PendingValue => 43,
        Primitive::BeginEnd => 44,
        Primitive::Close => 45,
        Primitive::NextFile => 53,
        Primitive::Clear => 54,
        Primitive::Flush => 55,
    }
}

impl VariadicImport {
    /// Its number among the imports.
    pub fn number(self) -> u32
        ensures { result ≡ import_number (Import.Variadic self) }
    {
        match self {
            VariadicImport::Sprintf => 47,
            VariadicImport::Print => 48,
            VariadicImport::Printf => 49,
        }
    }

    /// Its name, by which modules import it.
    pub fn name(self) -> &'static str
        ensures { result.now ≡ import_name (Import.Variadic self) }
    {
        match self {
            VariadicImport::Sprintf => "sprintf",
            VariadicImport::Print => "print",
            VariadicImport::Printf => "printf",
        }
    }

    /// How many of the last values are taken, and, of those that write, where to.
    pub fn arguments(self) -> &'static [Argument]
        ensures { result.now ≡ import_arguments (Import.Variadic self) }
    {
        match self {
            VariadicImport::Sprintf => &[Argument::Constant(Constant::Count)],
            VariadicImport::Print | VariadicImport::Printf => &[
                Argument::Constant(Constant::Count),
                Argument::Constant(Constant::Destination),
            ],
        }
    }

    /// The sort of its answer.
    pub fn answer(self) -> Answer
        ensures { result ≡ import_answer (Import.Variadic self) }
    {
        match self {
            VariadicImport::Sprintf => Answer::Of(Sort::Value),
            VariadicImport::Print | VariadicImport::Printf => Answer::Done,
        }
    }
}

fn import_in(imports: &[Import], number: usize) -> Option<Import>
    ensures { result ≡ slice_get imports.now number }
{
    imports.get(number).copied()
}

impl Import {
    /// The import of a number, from 0 on; none past the last.
    pub fn of_number(number: u32) -> Option<Import>
        ensures { result ≡ import_at number }
    {
        import_in(&IMPORTS, number as usize)
    }

    /// Its number.
    pub fn number(self) -> u32
        ensures { result ≡ import_number self }
    {
        match self {
            Import::OfPrimitive(primitive) => primitive_number(primitive),
            Import::Variadic(listing) => listing.number(),
            Import::Arg => 46,
            Import::Drop => 50,
            Import::IterFree => 51,
            Import::FreeArray => 52,
        }
    }

    /// Its name, by which modules import it.
    pub fn name(self) -> &'static str
        ensures { result.now ≡ import_name self }
    {
        match self {
            Import::OfPrimitive(primitive) => primitive_name(primitive),
            Import::Variadic(listing) => listing.name(),
            Import::Arg => "arg",
            Import::Drop => "drop",
            Import::IterFree => "iter_free",
            Import::FreeArray => "free_array",
        }
    }

    /// The sorts of its arguments, in order.
    pub fn arguments(self) -> &'static [Argument]
        ensures { result.now ≡ import_arguments self }
    {
        match self {
            Import::OfPrimitive(primitive) => primitive.arguments(),
            Import::Variadic(listing) => listing.arguments(),
            Import::Arg | Import::Drop => &[Argument::Of(Sort::Value)],
            Import::IterFree => &[Argument::Of(Sort::Iterator)],
            Import::FreeArray => &[Argument::Of(Sort::Array)],
        }
    }

    /// The sort of its answer.
    pub fn answer(self) -> Answer
        ensures { result ≡ import_answer self }
    {
        match self {
            Import::OfPrimitive(primitive) => primitive.answer(),
            Import::Variadic(listing) => listing.answer(),
            Import::Arg | Import::Drop | Import::IterFree | Import::FreeArray => Answer::Nothing,
        }
    }

    /// Whether its arguments of a sort are spent: their numbers stand for nothing after the call.
    pub fn spends(self, sort: Sort) -> bool
        ensures { result ≡ spends self sort }
    {
        match sort {
            Sort::Value => !matches!(self, Import::OfPrimitive(Primitive::Dup)),
            Sort::Number => false,
            Sort::Array => matches!(self, Import::FreeArray),
            Sort::Iterator => matches!(self, Import::IterFree),
        }
    }

    /// Whether it only lets something go, and does so once a fault is kept too.
    pub fn lets_go(self) -> bool
        ensures { result ≡ lets_go self }
    {
        matches!(self, Import::Drop | Import::IterFree | Import::FreeArray)
    }

    /// Whether a call may keep a fault.
    pub fn can_fault(self) -> bool
        ensures { result ≡ can_fault self }
    {
        match self {
            Import::OfPrimitive(primitive) => primitive.can_fault(),
            Import::Variadic(_) => true,
            Import::Arg | Import::Drop | Import::IterFree | Import::FreeArray => false,
        }
    }

    /// Whether a call with words of its types may trap. What takes no argument and is always in turn never does.
    pub fn can_trap(self) -> bool
        ensures { result ≡ can_trap self }
    {
        !matches!(
            self,
            Import::OfPrimitive(
                Primitive::Uninit | Primitive::NewArray | Primitive::BeginEnd | Primitive::NextFile
            )
        )
    }
}
