//! Texts that go to the standard output and to files.
ghost use Rattle.std.specs.Prelude.{◌≡◌, [], ◌∷◌, None, true, false, take, vec_len, IfOk, OnErr, OnOk};
ghost use Rattle.world_core.specs.WorldState.{Named, Open};
ghost use Rattle.world_core.specs.Traces.{opening};
ghost use Rattle.world_core.specs.Calls.{Opens, Writing};
ghost use Rattle.sem_primitives.specs.Finds.{seen};
ghost use Rattle.sem_primitives.specs.SharedState.{Shared};
ghost use Rattle.sem_primitives.specs.OutputMeaning.{all_out, is_writing, opened_if, written_by};
ghost use Rattle.host_streams.specs.Given.{GivesText, PutsGiven, PutsNew, opening_of};
ghost use Rattle.host_streams.specs.OpenFiles.{HoldsOpen, OthersStay, WritersGo, has_room, names_of, writer_place};
ghost use Rattle.host_streams.specs.Outputs.{BeginsPutTo, EndsPutTo, IsOf, PutsGivenTo, PutsTo, writers_to, with_writer};
ghost use Rattle.host_streams.specs.Puts.{OutputPrefix, EndsPut, IsOver, OpensOr, PutCounts, PutsBy, Spares};

use crate::put::put_open;
use crate::streams::{NamedWriter, Streams};
use awk_values::{Bytes, Fault, Stop};
use sem_primitives::MAX_STREAMS;
use world_core::{World, WorldFault};

/// Where a text goes.
#[derive(Clone, Copy, Drop)]
pub enum Target<'a> {
    /// The standard output.
    Standard,
    /// The file of this name, emptied where it is not open yet (`>`).
    Emptied(&'a [u8]),
    /// The file of this name, at its end where it is not open yet (`>>`).
    Appended(&'a [u8]),
}

/// The place of the stream that writes to a name.
pub(crate) fn find_writer(writers: &[NamedWriter], name: &[u8]) -> Option<usize>
    ensures { result ≡ writer_place name.now writers.now }
{
    writers.iter().position(|w| w.name.as_slice() == name)
}

/// Opens a file for writing, and gives its stream.
fn open_file<W: World>(world: &mut W, name: &[u8], append: bool) -> Result<u32, Stop>
    ensures opened { IfOk result (λ id. Opens Writing id (W.kinds world.old) (W.kinds world.new)) }
    ensures not_opened { OnErr result (W.kinds world.new ≡ W.kinds world.old) }
    ensures count { PutCounts result (W.count world.old) (W.count world.new) }
    ensures ends { EndsPut false true [] result }
    ensures told { W.is_modelled
        → OpensOr name.now append (W.state world.old) result (W.state world.new) }
    ensures did { W.did world.old (opening name.now append result) world.new }
{
    match world.open_write(name, append) {
        Ok(id) => Ok(id),
        Err(WorldFault::Failed) => Err(Stop::Fault(Fault::OpenOutput)),
        Err(WorldFault::NoMemory) => Err(Stop::NoMemory),
    }
}

/// Opens a file for writing and puts a text. The stream stays open if all of the text went out.
fn put_new<W: World>(world: &mut W, name: &[u8], append: bool, text: &[u8]) -> Result<u32, Stop>
    ensures opened { IfOk result (λ id. Opens Writing id (W.kinds world.old) (W.kinds world.new)) }
    ensures closed { OnErr result (W.kinds world.new ≡ W.kinds world.old) }
    ensures count { PutCounts result (W.count world.old) (W.count world.new) }
    ensures goes { W.is_modelled → IfOk result (λ id. (W.state world.new).writers id ≡ Named name.now) }
    ensures spares { W.is_modelled → Spares (W.kinds world.old) (W.state world.old) (W.state world.new) }
    ensures ends { EndsPut false true text.now result }
    ensures begun { OutputPrefix W.is_modelled (IsOver (W.state world.old)) (λ shared. opened_if true
        (seen shared.inner shared.outside (Named name.now)).opens name.now
        append text.now shared) result
        (W.state world.old) (W.state world.new) }
    ensures told { W.is_modelled → (shared : Shared) → IsOver (W.state world.old) shared
        → PutsBy (opened_if true (seen shared.inner shared.outside (Named name.now)).opens name.now
        append text.now shared) result (W.state world.old) (W.state world.new) }
    ensures given { PutsNew W.is_modelled W.did world.old world.new (W.kinds world.old) name.now
        (GivesText (Open name.now append ∷ []) (Named name.now) text.now result) (W.state world.old)
        (W.state world.new) result (λ shared. opened_if true (seen shared.inner shared.outside
        (Named name.now)).opens name.now append text.now shared) }
{
    let id = open_file(world, name, append)?;
    match put_open(world, id, text) {
        Ok(()) => Ok(id),
        Err(stop) => {
            world.close(id);
            Err(stop)
        }
    }
}

impl Streams {
    /// Whether all that was put to a file is out (`fflush`): where the file is open for writing it is, since each text goes out at once. The empty name
    /// says all files.
    #[tactic(auto, using(crate::proofs::Outputs::out_there))]
    pub fn is_out(&self, name: &[u8]) -> bool
        ensures { result ≡ all_out name.now (names_of self.now.writers.items) }
    {
        if name.is_empty() {
            return true;
        }
        find_writer(self.writers.as_slice(), name).is_some()
    }

    /// Puts a text to a file that is not open for writing.
    fn put_first<W: World>(
        &mut self,
        world: &mut W,
        name: &[u8],
        append: bool,
        text: &[u8],
    ) -> Result<(), Stop>
        requires held { HoldsOpen self.old (W.kinds world.old) }
        requires missing { writer_place name.now self.old.writers.items ≡ None }
        requires goes { W.is_modelled → WritersGo self.old.writers.items (W.state world.old) }
        ensures held { HoldsOpen self.new (W.kinds world.new) }
        ensures goes { W.is_modelled → WritersGo self.new.writers.items (W.state world.new) }
        ensures readers { self.new.readers ≡ self.old.readers }
        ensures stay { take (vec_len self.old.writers) self.new.writers.items
            ≡ self.old.writers.items }
        ensures opened { OnOk result (names_of self.new.writers.items
            ≡ with_writer name.now (names_of self.old.writers.items)) }
        ensures refused { OnErr result (self.new.writers.items ≡ self.old.writers.items) }
        ensures count { PutCounts result (W.count world.old) (W.count world.new) }
        ensures others { OthersStay self.old self.new (W.kinds world.old) (W.kinds world.new) }
        ensures no_others { OthersStay self.new self.old (W.kinds world.new) (W.kinds world.old) }
        ensures spares { W.is_modelled
            → Spares (W.kinds world.old) (W.state world.old) (W.state world.new) }
        ensures ends { EndsPut false (has_room self.old) text.now result }
        ensures begun { OutputPrefix W.is_modelled (IsOf self.old (W.state world.old)) (written_by false
            name.now append text.now) result (W.state world.old) (W.state world.new) }
        ensures told { W.is_modelled → (shared : Shared) → IsOf self.old (W.state world.old) shared
            → PutsBy (written_by false name.now append text.now shared) result (W.state world.old)
            (W.state world.new) }
        ensures given { PutsGiven W.is_modelled W.did world.old world.new self.old.writers.items
            self.new.writers.items (GivesText
            (Open name.now append ∷ []) (Named name.now) text.now result) (W.state world.old)
            (W.state world.new) result (IsOf self.old (W.state world.old)) (written_by false name.now append text.now) }
    {
        if self.readers.as_slice().len() + self.writers.as_slice().len() >= MAX_STREAMS {
            return Err(Stop::Fault(Fault::TooManyStreams));
        }
        let own = Bytes::from_slice(self.alloc, name)?;
        self.writers.reserve(1)?;
        let id = put_new(world, name, append, text)?;
        self.writers.push_reserved(NamedWriter { name: own, id });
        Ok(())
    }

    /// Puts a text to a file, which is opened for writing unless it is open.
    fn put_file<W: World>(
        &mut self,
        world: &mut W,
        name: &[u8],
        append: bool,
        text: &[u8],
    ) -> Result<(), Stop>
        requires held { HoldsOpen self.old (W.kinds world.old) }
        requires goes { W.is_modelled → WritersGo self.old.writers.items (W.state world.old) }
        ensures held { HoldsOpen self.new (W.kinds world.new) }
        ensures goes { W.is_modelled → WritersGo self.new.writers.items (W.state world.new) }
        ensures readers { self.new.readers ≡ self.old.readers }
        ensures stay { take (vec_len self.old.writers) self.new.writers.items
            ≡ self.old.writers.items }
        ensures opened { OnOk result (names_of self.new.writers.items
            ≡ with_writer name.now (names_of self.old.writers.items)) }
        ensures refused { OnErr result (self.new.writers.items ≡ self.old.writers.items) }
        ensures count { PutCounts result (W.count world.old) (W.count world.new) }
        ensures others { OthersStay self.old self.new (W.kinds world.old) (W.kinds world.new) }
        ensures no_others { OthersStay self.new self.old (W.kinds world.new) (W.kinds world.old) }
        ensures spares { W.is_modelled
            → Spares (W.kinds world.old) (W.state world.old) (W.state world.new) }
        ensures ends { EndsPut (is_writing name.now (names_of self.old.writers.items))
            (has_room self.old) text.now result }
        ensures begun { OutputPrefix W.is_modelled (IsOf self.old (W.state world.old)) (λ shared. written_by
            (is_writing name.now shared.inner.writers) name.now append text.now shared) result
            (W.state world.old) (W.state world.new) }
        ensures told { W.is_modelled → (shared : Shared) → IsOf self.old (W.state world.old) shared
            → PutsBy (written_by (is_writing name.now shared.inner.writers) name.now append text.now
            shared) result (W.state world.old) (W.state world.new) }
        ensures given { PutsGiven W.is_modelled W.did world.old world.new self.old.writers.items
            self.new.writers.items
            (GivesText (opening_of name.now append (names_of self.old.writers.items))
            (Named name.now) text.now result) (W.state world.old) (W.state world.new) result
            (IsOf self.old (W.state world.old)) (λ shared. written_by (is_writing name.now
            shared.inner.writers) name.now append text.now shared) }
    {
        match find_writer(self.writers.as_slice(), name) {
            Some(at) => put_open(world, self.writers[at].id, text),
            None => self.put_first(world, name, append, text),
        }
    }

    /// Puts a text to the standard output or to a file, which is opened unless it is open for writing (`print`, `print > file`, `print >> file`).
    /// It goes out at once. A file that was opened stays open, whatever it was opened for, if all of the text went out.
    ///
    /// # Errors
    ///
    /// [`Fault::TooManyStreams`] where the file is not open for writing and 256 streams are open; nothing is opened then.
    /// [`Fault::OpenOutput`] where it does not open. [`Fault::WriteFailed`] where not all of the text fits; what fits has gone out.
    /// [`Stop::NoMemory`]; the first bytes of what fits may have gone out.
    pub fn put_text<W: World>(
        &mut self,
        world: &mut W,
        target: Target<'_>,
        text: &[u8],
    ) -> Result<(), Stop>
        requires held { HoldsOpen self.old (W.kinds world.old) }
        requires goes { W.is_modelled → WritersGo self.old.writers.items (W.state world.old) }
        ensures held { HoldsOpen self.new (W.kinds world.new) }
        ensures goes { W.is_modelled → WritersGo self.new.writers.items (W.state world.new) }
        ensures readers { self.new.readers ≡ self.old.readers }
        ensures stay { take (vec_len self.old.writers) self.new.writers.items
            ≡ self.old.writers.items }
        ensures opened { OnOk result (names_of self.new.writers.items
            ≡ writers_to target.entry (names_of self.old.writers.items)) }
        ensures refused { OnErr result (self.new.writers.items ≡ self.old.writers.items) }
        ensures count { PutCounts result (W.count world.old) (W.count world.new) }
        ensures others { OthersStay self.old self.new (W.kinds world.old) (W.kinds world.new) }
        ensures no_others { OthersStay self.new self.old (W.kinds world.new) (W.kinds world.old) }
        ensures spares { W.is_modelled
            → Spares (W.kinds world.old) (W.state world.old) (W.state world.new) }
        ensures ends { EndsPutTo target.entry text.now self.old result }
        ensures begun { BeginsPutTo W.is_modelled target.entry text.now self.old (W.state world.old)
            result (W.state world.new) }
        ensures told { W.is_modelled → PutsTo target.entry text.now self.old (W.state world.old) result
            self.new (W.state world.new) }
        ensures given { PutsGivenTo W.is_modelled W.did target.entry text.now world.old world.new
            self.old self.new (W.state world.old) (W.state world.new) result }
    {
        match target {
            Target::Standard => put_open(world, 1, text),
            Target::Emptied(name) => self.put_file(world, name, false, text),
            Target::Appended(name) => self.put_file(world, name, true, text),
        }
    }
}
