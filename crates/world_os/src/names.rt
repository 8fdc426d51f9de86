//! Names of the program's own streams.
ghost use Rattle.std.specs.Prelude.{◌≡◌};
ghost use Rattle.world_os.specs.StreamNames.{is_errors, is_input, is_output};

/// Whether a name means the standard input, where such names mean the program's own streams.
pub fn names_input(name: &[u8]) -> bool
    ensures { result ≡ is_input name.now }
{
    name == "/dev/stdin".as_bytes()
}

/// Whether a name means the standard output, where such names mean the program's own streams.
pub fn names_output(name: &[u8]) -> bool
    ensures { result ≡ is_output name.now }
{
    name == "/dev/stdout".as_bytes()
}

/// Whether a name means the standard error, where such names mean the program's own streams.
pub fn names_errors(name: &[u8]) -> bool
    ensures { result ≡ is_errors name.now }
{
    name == "/dev/stderr".as_bytes()
}
