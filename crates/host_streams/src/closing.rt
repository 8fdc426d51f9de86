//! Files that are closed.
ghost use Rattle.std.specs.Prelude.{◌≡◌};
ghost use Rattle.sem_primitives.specs.InputMeaning.{without_reader, without_writer};
ghost use Rattle.sem_primitives.specs.OutputMeaning.{is_writing};
ghost use Rattle.host_streams.specs.Given.{GivesNone};
ghost use Rattle.host_streams.specs.Closing.{ClosesName, is_open};
ghost use Rattle.host_streams.specs.OpenFiles.{HoldsOpen, OthersKeep, OthersStay, WritersGo, names_of, reader_names, readers_beside, readers_in, writers_beside};

use crate::output::find_writer;
use crate::streams::{Streams, find_reader};
use world_core::World;

impl Streams {
    /// Closes the stream that reads a file, and says whether there was one.
    fn close_reader<W: World>(&mut self, world: &mut W, name: &[u8]) -> bool
        requires held { HoldsOpen self.old (W.kinds world.old) }
        requires goes { W.is_modelled → WritersGo self.old.writers.items (W.state world.old) }
        ensures held { HoldsOpen self.new (W.kinds world.new) }
        ensures goes { W.is_modelled → WritersGo self.new.writers.items (W.state world.new) }
        ensures writers { self.new.writers ≡ self.old.writers }
        ensures count { W.count world.new ≡ W.count world.old }
        ensures answer { result ≡ is_writing name.now (reader_names self.old.readers.items) }
        ensures kept { self.new.readers.items ≡ readers_beside name.now self.old.readers.items }
        ensures names { reader_names self.new.readers.items
            ≡ without_writer name.now (reader_names self.old.readers.items) }
        ensures told { W.is_modelled → readers_in self.new.readers.items (W.state world.new)
            ≡ without_reader name.now (readers_in self.old.readers.items (W.state world.old)) }
        ensures outside { W.is_modelled → (W.state world.new).outside ≡ (W.state world.old).outside }
        ensures others { OthersStay self.old self.new (W.kinds world.old) (W.kinds world.new) }
        ensures no_others { OthersStay self.new self.old (W.kinds world.new) (W.kinds world.old) }
        ensures places { W.is_modelled
            → OthersKeep self.old (W.kinds world.old) (W.state world.old) (W.state world.new) }
        ensures gives { GivesNone W.did world.old world.new }
    {
        match find_reader(self.readers.as_slice(), name) {
            Some(at) => {
                let closed = self.readers.remove(at);
                world.close(closed.reader.id);
                true
            }
            None => false,
        }
    }

    /// Closes the stream that writes to a file, and says whether there was one.
    fn close_writer<W: World>(&mut self, world: &mut W, name: &[u8]) -> bool
        requires held { HoldsOpen self.old (W.kinds world.old) }
        requires goes { W.is_modelled → WritersGo self.old.writers.items (W.state world.old) }
        ensures held { HoldsOpen self.new (W.kinds world.new) }
        ensures goes { W.is_modelled → WritersGo self.new.writers.items (W.state world.new) }
        ensures readers { self.new.readers ≡ self.old.readers }
        ensures count { W.count world.new ≡ W.count world.old }
        ensures answer { result ≡ is_writing name.now (names_of self.old.writers.items) }
        ensures kept { self.new.writers.items ≡ writers_beside name.now self.old.writers.items }
        ensures names { names_of self.new.writers.items
            ≡ without_writer name.now (names_of self.old.writers.items) }
        ensures told { W.is_modelled → readers_in self.new.readers.items (W.state world.new)
            ≡ readers_in self.old.readers.items (W.state world.old) }
        ensures outside { W.is_modelled → (W.state world.new).outside ≡ (W.state world.old).outside }
        ensures others { OthersStay self.old self.new (W.kinds world.old) (W.kinds world.new) }
        ensures no_others { OthersStay self.new self.old (W.kinds world.new) (W.kinds world.old) }
        ensures places { W.is_modelled
            → OthersKeep self.old (W.kinds world.old) (W.state world.old) (W.state world.new) }
        ensures gives { GivesNone W.did world.old world.new }
    {
        match find_writer(self.writers.as_slice(), name) {
            Some(at) => {
                let closed = self.writers.remove(at);
                world.close(closed.id);
                true
            }
            None => false,
        }
    }

    /// Closes a file, for reading and for writing, and says whether it was open (`close`). It takes no memory. What was read of it and no record
    /// used is given up; the next call that names the file opens it anew.
    pub fn close<W: World>(&mut self, world: &mut W, name: &[u8]) -> bool
        requires held { HoldsOpen self.old (W.kinds world.old) }
        requires goes { W.is_modelled → WritersGo self.old.writers.items (W.state world.old) }
        ensures held { HoldsOpen self.new (W.kinds world.new) }
        ensures goes { W.is_modelled → WritersGo self.new.writers.items (W.state world.new) }
        ensures answer { result ≡ is_open name.now self.old }
        ensures readers { self.new.readers.items ≡ readers_beside name.now self.old.readers.items }
        ensures writers { self.new.writers.items ≡ writers_beside name.now self.old.writers.items }
        ensures reader_names { reader_names self.new.readers.items
            ≡ without_writer name.now (reader_names self.old.readers.items) }
        ensures writer_names { names_of self.new.writers.items
            ≡ without_writer name.now (names_of self.old.writers.items) }
        ensures count { W.count world.new ≡ W.count world.old }
        ensures told { W.is_modelled
            → ClosesName name.now self.old (W.state world.old) result self.new (W.state world.new) }
        ensures outside { W.is_modelled → (W.state world.new).outside ≡ (W.state world.old).outside }
        ensures others { OthersStay self.old self.new (W.kinds world.old) (W.kinds world.new) }
        ensures no_others { OthersStay self.new self.old (W.kinds world.new) (W.kinds world.old) }
        ensures places { W.is_modelled
            → OthersKeep self.old (W.kinds world.old) (W.state world.old) (W.state world.new) }
        ensures gives { GivesNone W.did world.old world.new }
    {
        let reading = self.close_reader(world, name);
        let writing = self.close_writer(world, name);
        reading || writing
    }
}
