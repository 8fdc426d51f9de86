//! What constant arguments say.
ghost use Rattle.std.specs.Prelude.{◌≡◌};
ghost use Rattle.sem_primitives.specs.Assignments.{named, special_name};
ghost use Rattle.sem_primitives.specs.Constants.{specials};
ghost use Rattle.sem_primitives.specs.ConstantPlaces.{special_at};
ghost use Rattle.sem_primitives.specs.ConstantNumbers.{special_number};

/// A special variable (POSIX.1-2017 awk, "Variables and Special Variables"); ARGV and ENVIRON are arrays.
#[derive(Clone, Copy, Drop)]
pub enum Special {
    Argc,
    Convfmt,
    Filename,
    Fnr,
    Fs,
    Nf,
    Nr,
    Ofmt,
    Ofs,
    Ors,
    Rlength,
    Rs,
    Rstart,
    Subsep,
}

/// The special variables in the order of their numbers.
const SPECIALS: [Special; 14] = [
    Special::Argc,
    Special::Convfmt,
    Special::Filename,
    Special::Fnr,
    Special::Fs,
    Special::Nf,
    Special::Nr,
    Special::Ofmt,
    Special::Ofs,
    Special::Ors,
    Special::Rlength,
    Special::Rs,
    Special::Rstart,
    Special::Subsep,
];

impl Special {
    /// The variable's number, from 0 to 13, as modules give it.
    pub fn number(self) -> u8
        ensures { result ≡ special_number self }
    {
        match self {
            Special::Argc => 0,
            Special::Convfmt => 1,
            Special::Filename => 2,
            Special::Fnr => 3,
            Special::Fs => 4,
            Special::Nf => 5,
            Special::Nr => 6,
            Special::Ofmt => 7,
            Special::Ofs => 8,
            Special::Ors => 9,
            Special::Rlength => 10,
            Special::Rs => 11,
            Special::Rstart => 12,
            Special::Subsep => 13,
        }
    }

    /// The variable of a number; none past 13.
    pub fn of_number(number: u32) -> Option<Special>
        ensures { result ≡ special_at number }
    {
        SPECIALS.get(number as usize).copied()
    }

    /// The variable's name.
    pub fn name(self) -> &'static [u8]
        ensures { result.now ≡ special_name self }
    {
        match self {
            Special::Argc => b"ARGC".as_slice(),
            Special::Convfmt => b"CONVFMT".as_slice(),
            Special::Filename => b"FILENAME".as_slice(),
            Special::Fnr => b"FNR".as_slice(),
            Special::Fs => b"FS".as_slice(),
            Special::Nf => b"NF".as_slice(),
            Special::Nr => b"NR".as_slice(),
            Special::Ofmt => b"OFMT".as_slice(),
            Special::Ofs => b"OFS".as_slice(),
            Special::Ors => b"ORS".as_slice(),
            Special::Rlength => b"RLENGTH".as_slice(),
            Special::Rs => b"RS".as_slice(),
            Special::Rstart => b"RSTART".as_slice(),
            Special::Subsep => b"SUBSEP".as_slice(),
        }
    }

    /// The variable of a name, if it has one.
    pub fn of_name(name: &[u8]) -> Option<Special>
        ensures { result ≡ named name.now specials }
    {
        named_among(&SPECIALS, name)
    }
}

/// The first of these variables that has the name.
fn named_among(list: &[Special], name: &[u8]) -> Option<Special>
    ensures { result ≡ named name.now list.now }
{
    for special in list {
        if name == special.name() {
            return Some(*special);
        }
    }
    None
}

/// Where print and printf write to.
#[derive(Clone, Copy, Drop)]
pub enum Destination {
    Standard,
    /// A file that is emptied when it is opened (`>`).
    Emptied,
    /// A file that is written to at its end (`>>`).
    Appended,
}

/// What a name of the script is.
#[derive(Clone, Copy, Drop)]
pub enum NameKind {
    Scalar,
    ArrayOrFunction,
}
