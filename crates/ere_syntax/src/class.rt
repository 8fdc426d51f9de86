//! The classes of bracket expressions, over ASCII.
ghost use Rattle.std.specs.Prelude.{◌≡◌, option_map};
ghost use Rattle.ere_syntax.specs.Bracket.{closed_name};
ghost use Rattle.ere_syntax.specs.Readers.{strip};
ghost use Rattle.ere_syntax.specs.Scan.{between, in_class};
ghost use Rattle.ere_syntax.specs.Reads.{class_and, class_read, in_punct};

/// A class of bytes.
#[derive(Clone, Copy)]
pub(crate) enum Class {
    Alnum,
    Alpha,
    Blank,
    Cntrl,
    Digit,
    Graph,
    Lower,
    Print,
    Punct,
    Space,
    Upper,
    Xdigit,
}

const CLASSES: [Class; 12] = [
    Class::Alnum,
    Class::Alpha,
    Class::Blank,
    Class::Cntrl,
    Class::Digit,
    Class::Graph,
    Class::Lower,
    Class::Print,
    Class::Punct,
    Class::Space,
    Class::Upper,
    Class::Xdigit,
];

/// Whether the byte lies between the two, both included.
pub(crate) fn between(low: u8, high: u8, byte: u8) -> bool
    ensures { result ≡ between low high byte }
{
    low <= byte && byte <= high
}

impl Class {
    /// Its name, with the `:]` behind it.
    fn closed_name(self) -> &'static [u8]
        ensures { result.now ≡ closed_name self }
    {
        match self {
            Class::Alnum => b"alnum:]",
            Class::Alpha => b"alpha:]",
            Class::Blank => b"blank:]",
            Class::Cntrl => b"cntrl:]",
            Class::Digit => b"digit:]",
            Class::Graph => b"graph:]",
            Class::Lower => b"lower:]",
            Class::Print => b"print:]",
            Class::Punct => b"punct:]",
            Class::Space => b"space:]",
            Class::Upper => b"upper:]",
            Class::Xdigit => b"xdigit:]",
        }
    }

    /// Whether the byte is of the class.
    pub(crate) fn contains(self, byte: u8) -> bool
        ensures { result ≡ in_class self byte }
    {
        let digit = between(b'0', b'9', byte);
        let upper = between(b'A', b'Z', byte);
        let lower = between(b'a', b'z', byte);
        match self {
            Class::Alnum => digit || (upper || lower),
            Class::Alpha => upper || lower,
            Class::Blank => byte == b' ' || byte == b'\t',
            Class::Cntrl => between(0, 31, byte) || byte == 127,
            Class::Digit => digit,
            Class::Graph => between(33, 126, byte),
            Class::Lower => lower,
            Class::Print => between(32, 126, byte),
            Class::Punct => is_punct(byte),
            Class::Space => byte == b' ' || between(9, 13, byte),
            Class::Upper => upper,
            Class::Xdigit => digit || (between(b'A', b'F', byte) || between(b'a', b'f', byte)),
        }
    }
}

/// Whether the byte is a sign of punctuation.
fn is_punct(byte: u8) -> bool
    ensures { result ≡ in_punct byte }
{
    between(33, 47, byte)
        || (between(58, 64, byte) || (between(91, 96, byte) || between(123, 126, byte)))
}

/// What follows the prefix.
fn strip<'a>(prefix: &[u8], text: &'a [u8]) -> Option<&'a [u8]>
    ensures { option_map (λ rest. rest.now) result ≡ strip prefix.now text.now }
{
    match prefix {
        [] => Some(text),
        [wanted, others @ ..] => match text {
            [byte, rest @ ..] if *byte == *wanted => strip(others, rest),
            _ => None,
        },
    }
}

/// The class that is named at the front, behind its `[:`, and what follows its `:]`.
pub(crate) fn class_of(text: &[u8]) -> Option<(Class, &[u8])>
    ensures { option_map (λ x. class_and x.0 x.1.now) result ≡ class_read text.now }
{
    for class in CLASSES {
        match strip(class.closed_name(), text) {
            Some(rest) => return Some((class, rest)),
            None => {}
        }
    }
    None
}
