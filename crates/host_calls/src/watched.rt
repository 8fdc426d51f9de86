//! A host in whose runs one sees where the first fault was met.
use crate::host::Host;
use wasm_model::{BriefAnswer, HostAnswer, HostCalls};
use wasm_store::{Memory, Word};
use wasm_types::FuncType;
use world_core::World;

/// The host, whose runs pause where it keeps a fault. It has the host's state, meaning, types and names.
#[derive(Drop)]
pub struct Watched<W: World> {
    pub host: Host<W>,
}

impl<W: World> HostCalls for Watched<W> {
    ghost use Rattle.host_calls.specs.Runs.{Sight, given_meaning, sight};
    ghost use Rattle.host_calls.specs.RunLaws.{given_refused, given_typed};
    ghost use Rattle.host_calls.specs.Pauses.{pauses};
    ghost use Rattle.host_step.specs.HostLaws.{host_found};
    ghost use Rattle.host_imports.specs.Imports.{host_finds, host_types};
    ghost use Rattle.world_core.specs.WorldState.{Action};

    ghost Output = { Action };

    ghost State = { Sight W };

    ghost state = { λ h. sight W.state h.host };

    ghost meaning = { given_meaning W.is_modelled W.did };

    ghost types = { host_types };

    ghost finds = { host_finds };

    fn find(&self, from: &[u8], name: &[u8]) -> Option<(u32, &FuncType)> {
        self.host.find(from, name)
    }

    #[inline(always)]
    fn call(&mut self, import: u32, args: &[Word], memory: &mut Memory) -> HostAnswer {
        self.host.call(import, args, memory)
    }

    #[inline(always)]
    fn ask(&mut self, import: u32, args: &[Word], memory: &mut Memory) -> BriefAnswer {
        self.host.ask(import, args, memory)
    }

    ghost halts = { pauses };

    #[inline(always)]
    fn is_halting(&self) -> bool {
        self.host.kept_fault().is_some()
    }

    ghost found = { host_found };

    ghost typed = { given_typed W.is_modelled W.did };

    ghost refused = { given_refused W.is_modelled W.did };
}
