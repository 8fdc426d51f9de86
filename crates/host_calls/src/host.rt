//! The host.
ghost use Rattle.host_calls.specs.Held.{HoldsInput-prop, WritersGo-prop};
ghost use Rattle.host_worlds.specs.States.{HoldsInput};
ghost use Rattle.host_streams.specs.OpenFiles.{WritersGo};
ghost use Rattle.std.specs.Coded.{→_prop};

use host_imports::Links;
use host_tables::Tables;
use host_worlds::Input;
use std::alloc::Global;
use world_core::World;

/// The host of a module over a world: its tables, what it reads, the world, and a place for the line that is printed.
#[derive(Drop)]
pub struct Host<W: World> {
    pub(crate) alloc: Global,
    pub(crate) links: Links,
    pub(crate) tables: Tables,
    pub(crate) input: Input,
    /// What `print` and `printf` put together, kept for its memory.
    pub(crate) line: Vec<u8>,
    pub(crate) world: W,
    ghost held: { HoldsInput input (W.kinds world) } by { HoldsInput-prop input (W.kinds world) },
    ghost goes: { W.is_modelled → WritersGo input.files.writers.items (W.state world) } by { →_prop (WritersGo-prop input.files.writers.items (W.state world)) },
}
