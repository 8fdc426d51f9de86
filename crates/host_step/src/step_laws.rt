//! Laws of the definition, each the contract of a function that does nothing.
ghost use Rattle.std.specs.Prelude.{◌≡◌, ◌≢◌, false, ℕ, [], List, None, Option, Some};
ghost use Rattle.wasm_model.specs.Hosts.{Typed};
ghost use Rattle.wasm_model.specs.declared.host.HostAnswer.{HostAnswer};
ghost use Rattle.wasm_store.specs.declared.trap.TrapKind.{TrapKind};
ghost use Rattle.wasm_store.specs.declared.word.Word.{Word};
ghost use Rattle.wasm_types.specs.Syntax.{Signature};
ghost use Rattle.world_core.specs.WorldState.{Action};
ghost use Rattle.host_step.specs.HostState.{HostState};
ghost use Rattle.host_step.specs.HostStep.{HostStep, StepOf};
ghost use Rattle.host_imports.specs.Imports.{host_finds, host_types};
ghost use Rattle.host_imports.specs.FaultColumns.{can_fault, can_trap};
ghost use Rattle.host_imports.specs.declared.import.Import.{Import};

/// An import that is found by its names has the type that is told with it, and an answer is of its import's type.
pub fn types()
    ensures found { (from name : List ℕ) (r : ℕ × Signature) → host_finds from name ≡ Some r
        → host_types r.0 ≡ Some r.1 }
    ensures answered { (n : ℕ) (before : HostState) (words : List Word) (memory : List ℕ)
        (a : HostAnswer) (after : HostState) (out : List Action)
        → HostStep n before words memory a after out → Typed (host_types n) a }
{}

/// What the table says of traps and faults: an import that cannot fault keeps none, and one that cannot trap does not when it is called without words.
pub fn columns()
    ensures faults { (i : Import) (before : HostState) (words : List Word) (memory : List ℕ)
        (a : HostAnswer) (after : HostState) (out : List Action) → can_fault i ≡ false
        → StepOf i before words memory a after out → after.fault ≡ before.fault }
    ensures traps { (i : Import) (before : HostState) (memory : List ℕ) (a : HostAnswer)
        (after : HostState) (out : List Action) (kind : TrapKind) → can_trap i ≡ false
        → StepOf i before [] memory a after out → a ≢ HostAnswer.Trap kind }
{}
