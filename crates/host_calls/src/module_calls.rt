//! The calls of a module.
ghost use Rattle.std.specs.Prelude.{◌≡◌};

use crate::host::Host;
use wasm_model::{BriefAnswer, HostAnswer, HostCalls};
use wasm_store::{Memory, Word};
use wasm_types::FuncType;
use world_core::World;

impl<W: World> HostCalls for Host<W> {
    ghost use Rattle.std.specs.Prelude.{false};
    ghost use Rattle.host_calls.specs.Runs.{Sight, given_meaning, sight};
    ghost use Rattle.host_calls.specs.RunLaws.{given_refused, given_typed};
    ghost use Rattle.host_step.specs.HostLaws.{host_found};
    ghost use Rattle.host_imports.specs.Imports.{host_finds, host_types};
    ghost use Rattle.world_core.specs.WorldState.{Action};

    ghost Output = { Action };

    ghost State = { Sight W };

    ghost state = { λ h. sight W.state h };

    ghost meaning = { given_meaning W.is_modelled W.did };

    ghost types = { host_types };

    ghost finds = { host_finds };

    fn find(&self, from: &[u8], name: &[u8]) -> Option<(u32, &FuncType)> {
        self.links.find(from, name)
    }

    #[inline(always)]
    fn call(&mut self, import: u32, args: &[Word], memory: &mut Memory) -> HostAnswer {
        self.answer(args, memory, import).answer()
    }

    #[inline(always)]
    fn ask(&mut self, import: u32, args: &[Word], memory: &mut Memory) -> BriefAnswer {
        self.answer(args, memory, import)
    }

    ghost halts = { λ _. false };

    // Runs over it never pause.
    #[inline(always)]
    fn is_halting(&self) -> bool {
        false
    }

    ghost found = { host_found };

    ghost typed = { given_typed W.is_modelled W.did };

    ghost refused = { given_refused W.is_modelled W.did };
}
