//! The special variables (POSIX.1-2017 awk, "Variables and Special Variables").

ghost use Rattle.std.specs.Prelude.{◌≡◌};
ghost use Rattle.awk_grammar.specs.Kinds.{special_arrays, special_scalars, specials, has_name};
ghost use Rattle.awk_resolve.specs.ViewNames.{names};

/// Those that are arrays.
#[tactic(auto, unfolding(awk_grammar::specs::Kinds::special_arrays))]
pub(crate) fn special_arrays() -> [&'static [u8]; 2]
    ensures { names result ≡ special_arrays }
{
    [b"ARGV".as_slice(), b"ENVIRON".as_slice()]
}

/// Those that are scalars.
#[tactic(auto, unfolding(awk_grammar::specs::Kinds::special_scalars))]
pub(crate) fn special_scalars() -> [&'static [u8]; 14]
    ensures { names result ≡ special_scalars }
{
    [
        b"ARGC".as_slice(),
        b"CONVFMT".as_slice(),
        b"FILENAME".as_slice(),
        b"FNR".as_slice(),
        b"FS".as_slice(),
        b"NF".as_slice(),
        b"NR".as_slice(),
        b"OFMT".as_slice(),
        b"OFS".as_slice(),
        b"ORS".as_slice(),
        b"RLENGTH".as_slice(),
        b"RS".as_slice(),
        b"RSTART".as_slice(),
        b"SUBSEP".as_slice(),
    ]
}

/// Whether a name is among some.
fn is_among(list: &[&[u8]], name: &[u8]) -> bool
    ensures { result ≡ has_name (names list.now) name.now }
{
    for other in list {
        if name == *other {
            return true;
        }
    }
    false
}

/// Whether a name is that of a special variable.
#[tactic(auto, using(crate::proofs::Names::special_is))]
pub(crate) fn is_special(name: &[u8]) -> bool
    ensures { result ≡ has_name specials name.now }
{
    is_among(&special_arrays(), name) || is_among(&special_scalars(), name)
}
