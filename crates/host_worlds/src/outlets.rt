//! Texts that go where a call says.
ghost use Rattle.std.specs.Prelude.{◌≡◌, ◌≤◌, IfOk, Ok, length};
ghost use Rattle.sem_primitives.specs.InTurn.{with_name};
ghost use Rattle.sem_primitives.specs.OutputMeaning.{file_name, last_text, put_text};
ghost use Rattle.host_streams.specs.OpenFiles.{HoldsOpen, WritersGo};
ghost use Rattle.host_streams.specs.Puts.{PutCounts};
ghost use Rattle.host_worlds.specs.OutputCalls.{Keeps, OutputGiven, PutsAs};

use awk_values::{Bytes, Stop, Value, to_text};
use host_streams::{Streams, Target};
use sem_primitives::Destination;
use std::alloc::{AllocError, Global};
use world_core::World;

/// The text of the last value; it is shared, where the value is a text.
#[tactic(auto, using(crate::proofs::Lasts::last_is))]
fn last_text(alloc: Global, values: &[Value]) -> Result<Bytes, AllocError>
    requires { 1 ≤ length values.now }
    ensures { IfOk result (λ text. text ≡ last_text values.now) }
{
    match to_text(alloc, &values[values.len() - 1]) {
        Ok(text) => Ok(text),
        Err(_) => Err(AllocError),
    }
}

/// Puts a text to the standard output, or to the file that the last value names.
pub(crate) fn put_out<W: World>(
    alloc: Global,
    streams: &mut Streams,
    world: &mut W,
    to: Destination,
    values: &[Value],
    text: &[u8],
) -> Result<(), Stop>
    requires held { HoldsOpen streams.old (W.kinds world.old) }
    requires goes { W.is_modelled → WritersGo streams.old.writers.items (W.state world.old) }
    requires named { with_name to 0 ≤ length values.now }
    ensures keeps { Keeps W.is_modelled (W.kinds world.old) (W.kinds world.new) (W.state world.old)
        (W.state world.new) streams.old streams.new }
    ensures count { PutCounts result (W.count world.old) (W.count world.new) }
    ensures given { OutputGiven W.is_modelled W.did world.old world.new streams.old streams.new
        (W.state world.old) (W.state world.new) result (put_text to (file_name to values.now) text.now) }
    ensures told { W.is_modelled → PutsAs (put_text to (file_name to values.now) text.now) streams.old
        (W.state world.old) result streams.new (W.state world.new) }
{
    match to {
        Destination::Standard => streams.put_text(world, Target::Standard, text),
        Destination::Emptied => {
            let name = last_text(alloc, values)?;
            streams.put_text(world, Target::Emptied(name.as_slice()), text)
        }
        Destination::Appended => {
            let name = last_text(alloc, values)?;
            streams.put_text(world, Target::Appended(name.as_slice()), text)
        }
    }
}
