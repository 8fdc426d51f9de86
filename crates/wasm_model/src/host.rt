//! Hosts: who answers a module's imports.
ghost use Rattle.std.specs.Prelude.{Bool, List, ℕ, ◌≡◌, Option, Some};
ghost use Rattle.wasm_model.specs.Hosts.{Typed};
ghost use Rattle.wasm_model.specs.HostAnswers.{Answers, GoesOn, found_as};
ghost use Rattle.wasm_store.specs.Memories.{MemoryForm};
ghost use Rattle.wasm_store.specs.declared.word.Word.{Word as AnyWord};
ghost use Rattle.wasm_types.specs.Syntax.{Signature};

use crate::brief::BriefAnswer;
use wasm_store::{Memory, TrapKind, Word};
use wasm_types::FuncType;

/// What a host answers to a call.
#[derive(Clone, Copy, Debug, PartialEq, Eq)]
pub enum HostAnswer {
    /// The call is done, with its result if its type has one.
    Done(Option<Word>),
    /// The call traps.
    Trap(TrapKind),
    /// Memory was wanting.
    NoMemory,
}

/// A host. What its calls mean is a relation, of which a machine knows only that answers have their import's type.
pub trait HostCalls {
    ghost use Rattle.wasm_model.specs.declared.host.HostAnswer.{HostAnswer};

    /// The pieces of its output.
    ghost Output: { Type 0 };

    /// Its states, as a run is told of them.
    ghost State: { Type 0 };

    /// The state that a host is in.
    ghost state: { Self → State };

    /// From this state, this import with these arguments over this memory may answer so, and leave this state, this memory and this
    /// further output.
    ghost meaning: { State → ℕ → List AnyWord → MemoryForm → HostAnswer → State → MemoryForm
        → List Output → Type 0 };

    /// The types of its imports, by number.
    ghost types: { ℕ → Option Signature };

    /// Which import has a name, and its type.
    ghost finds: { List ℕ → List ℕ → Option (ℕ × Signature) };

    /// The number and the type of an import, by the names of its module and of itself.
    fn find(&self, from: &[u8], name: &[u8]) -> Option<(u32, &FuncType)>
        ensures { found_as result ≡ finds from.now name.now };

    /// Calls an import by its number. Arguments are in order; `memory` is the module's, or one of no pages.
    fn call(&mut self, import: u32, args: &[Word], memory: &mut Memory) -> HostAnswer
        ensures means { Answers meaning (state self.old) import args.now memory.old result
            (state self.new) memory.new };

    /// The same call, whose answer is brief.
    fn ask(&mut self, import: u32, args: &[Word], memory: &mut Memory) -> BriefAnswer
        ensures means { Answers meaning (state self.old) import args.now memory.old result
            (state self.new) memory.new }
    {
        BriefAnswer::of(self.call(import, args, memory))
    }

    /// In which states a run is to pause.
    ghost halts: { State → Bool };

    /// Whether a run is to pause here.
    fn is_halting(&self) -> bool
        ensures { result ≡ halts (state self.now) };

    /// An import that is found has this type.
    ghost found: { (from name : List ℕ) (r : ℕ × Signature) → finds from name ≡ Some r
        → types r.0 ≡ Some r.1 };

    /// An answer is of its import's type.
    ghost typed: { (h : State) (i : ℕ) (args : List AnyWord) (mem : MemoryForm) (a : HostAnswer)
        (h' : State) (mem' : MemoryForm) (out : List Output)
        → meaning h i args mem a h' mem' out → Typed (types i) a };

    /// Where it wants memory, what it has written by then is how another answer's output begins.
    ghost refused: { (h : State) (i : ℕ) (args : List AnyWord) (mem : MemoryForm) (h' : State)
        (mem' : MemoryForm) (out : List Output)
        → meaning h i args mem HostAnswer.NoMemory h' mem' out → GoesOn meaning h i args mem out };
}
