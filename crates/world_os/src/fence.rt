//! Fences: which names may be opened.
ghost use Rattle.std.specs.Prelude.{◌≡◌, ℕ, List, Bool, ◌&&◌, not, option_map};
ghost use Rattle.world_os.specs.Fences.{is_absent, is_empty, is_open, lets_read, lets_write, list_of, no_name};

use crate::fenced_names::Names;
use crate::names::{names_errors, names_input, names_output};

/// Which names may be opened, for reading and for writing. The standard streams have no names: no fence is about them.
pub trait Fence: Drop {
    /// A name is let through both ways or not at all. Else a world behind the fence tells nothing, since what is told of a name is whether it opens.
    ghost alike: { Type 0 };

    /// The names that may be opened for reading.
    ghost reads: { Self → List ℕ → Bool };

    /// The names that may be opened for writing.
    ghost writes: { Self → List ℕ → Bool };

    /// Whether a name may be opened for reading.
    fn lets_read(&self, name: &[u8]) -> bool
        ensures { result ≡ reads self.now name.now };

    /// Whether a name may be opened for writing.
    fn lets_write(&self, name: &[u8]) -> bool
        ensures { result ≡ writes self.now name.now };

    /// What `alike` says.
    ghost both: { alike → (fence : Self) (name : List ℕ) → writes fence name ≡ reads fence name };
}

/// The fence that lets no name through.
#[derive(Clone, Copy, Drop)]
pub struct NoFiles;

impl Fence for NoFiles {
    ghost use Rattle.std.specs.Prelude.{refl};
    ghost use Rattle.world_os.specs.Fences.{no_name};

    ghost alike = { Unit {0} };

    ghost reads = { λ _. no_name };

    ghost writes = { λ _. no_name };

    fn lets_read(&self, _name: &[u8]) -> bool {
        false
    }

    fn lets_write(&self, _name: &[u8]) -> bool {
        false
    }

    ghost both = { λ _ _ _. refl };
}

/// The fence of a command line. Without any part every name is let through. Of the parts that are set each takes names away, but for names that are listed
/// and names of the program's own streams: these are let through by all parts.
#[derive(Drop)]
pub struct FileFence<'a> {
    /// No name is let through.
    pub no_files: bool,
    /// No name is let through for writing.
    pub read_only: bool,
    /// None but these names are let through for reading, and none for writing.
    pub operands: Option<Names<'a>>,
    /// The names that are listed for reading. If there are some, no others but operands are let through for reading.
    pub may_read: Names<'a>,
    /// The names that are listed for writing. If there are some, no others are let through for writing.
    pub may_write: Names<'a>,
    /// Names mean the program's own streams: they are no files.
    pub streams: bool,
}

impl<'a> FileFence<'a> {
    /// Whether a name may be read that is not listed and means no stream.
    fn reads_unlisted(&self, name: &[u8]) -> bool
        ensures { result ≡ (not self.now.no_files
            && is_open (option_map list_of self.now.operands) (list_of self.now.may_read) name.now) }
    {
        if self.no_files {
            return false;
        }
        match &self.operands {
            Some(operands) => operands.contains(name),
            None => self.may_read.is_empty(),
        }
    }

    /// Whether a name may be written that is not listed and means no stream.
    fn writes_unlisted(&self) -> bool
        ensures { result ≡ (not self.now.no_files
            && (not self.now.read_only && (is_absent (option_map list_of self.now.operands)
            && is_empty (list_of self.now.may_write)))) }
    {
        let fenced = self.no_files || self.read_only || self.operands.is_some();
        !fenced && self.may_write.is_empty()
    }
}

impl<'a> Fence for FileFence<'a> {
    ghost use Rattle.world_os.specs.Fences.{form_of, lets_read, lets_write};

    ghost alike = { ⊥ };

    ghost reads = { λ fence. lets_read (form_of fence) };

    ghost writes = { λ fence. lets_write (form_of fence) };

    fn lets_read(&self, name: &[u8]) -> bool {
        (self.streams && names_input(name))
            || self.may_read.contains(name)
            || self.reads_unlisted(name)
    }

    fn lets_write(&self, name: &[u8]) -> bool {
        (self.streams && (names_output(name) || names_errors(name)))
            || self.may_write.contains(name)
            || self.writes_unlisted()
    }

    ghost both = { λ no. absurd no };
}
