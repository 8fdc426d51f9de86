//! Texts that go to an open stream.
ghost use Rattle.std.specs.Prelude.{◌≡◌, ◌<◌, OnErr, length, true};
ghost use Rattle.world_core.specs.Calls.{Writing, next_count};
ghost use Rattle.sem_primitives.specs.SharedState.{Shared};
ghost use Rattle.sem_primitives.specs.OutputMeaning.{written};
ghost use Rattle.host_streams.specs.Given.{PutsSize, WritesSize};
ghost use Rattle.host_streams.specs.Puts.{OutputPrefix, TextPrefix, EndsPut, IsOver, PutCounts, PutsBy, PutsText};

use awk_values::{Fault, Stop};
use world_core::{World, WorldFault};

/// Writes a whole text to a stream that is open for writing.
fn write_all<W: World>(world: &mut W, id: u32, text: &[u8]) -> Result<(), WorldFault>
    requires { W.kinds world.old id ≡ Writing }
    ensures kinds { W.kinds world.new ≡ W.kinds world.old }
    ensures count { W.count world.new ≡ next_count result (W.count world.old) }
    ensures told { W.is_modelled → PutsText id text.now (W.state world.old) result (W.state world.new) }
    ensures some { OnErr result (0 < length text.now) }
    ensures begun { TextPrefix W.is_modelled id text.now (W.state world.old) result (W.state world.new) }
    ensures given { WritesSize W.is_modelled W.did world.old world.new id text.now (W.state world.old)
        (W.state world.new) result }
{
    let mut at = 0;
    while at < text.len() {
        let n = world.write(id, &text[at..])?;
        at += n;
    }
    Ok(())
}

/// Puts a text to a stream that is open for writing: what fits goes out, and it is a fault that not all does.
pub(crate) fn put_open<W: World>(world: &mut W, id: u32, text: &[u8]) -> Result<(), Stop>
    requires { W.kinds world.old id ≡ Writing }
    ensures kinds { W.kinds world.new ≡ W.kinds world.old }
    ensures count { PutCounts result (W.count world.old) (W.count world.new) }
    ensures told { W.is_modelled → (shared : Shared) → IsOver (W.state world.old) shared
        → PutsBy (written ((W.state world.old).writers id) text.now shared) result
        (W.state world.old) (W.state world.new) }
    ensures ends { EndsPut true true text.now result }
    ensures begun { OutputPrefix W.is_modelled (IsOver (W.state world.old)) (written
        ((W.state world.old).writers id) text.now) result (W.state world.old) (W.state world.new) }
    ensures readers { W.is_modelled → (W.state world.new).readers ≡ (W.state world.old).readers }
    ensures writers { W.is_modelled → (W.state world.new).writers ≡ (W.state world.old).writers }
    ensures given { PutsSize W.is_modelled W.did world.old world.new id text.now (W.state world.old)
        (W.state world.new) result }
{
    match write_all(world, id, text) {
        Ok(()) => Ok(()),
        Err(WorldFault::Failed) => Err(Stop::Fault(Fault::WriteFailed)),
        Err(WorldFault::NoMemory) => Err(Stop::NoMemory),
    }
}
