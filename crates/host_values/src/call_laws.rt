//! Laws of the definitions, each the contract of a function that does nothing.
ghost use Rattle.std.specs.Prelude.{◌≡◌, false, [], List, ℕ, None, Ok, Option, Result, Some};
ghost use Rattle.awk_values.specs.declared.fault.Fault.{Fault};
ghost use Rattle.wasm_model.specs.Hosts.{Typed};
ghost use Rattle.wasm_model.specs.HostAnswers.{GoesOn};
ghost use Rattle.wasm_model.specs.declared.host.HostAnswer.{HostAnswer};
ghost use Rattle.wasm_store.specs.Memories.{MemoryForm};
ghost use Rattle.wasm_store.specs.declared.trap.TrapKind.{TrapKind};
ghost use Rattle.wasm_store.specs.declared.word.Word.{Word};
ghost use Rattle.world_core.specs.WorldState.{Action};
ghost use Rattle.host_step.specs.Answers.{refusal};
ghost use Rattle.host_imports.specs.Imports.{host_types, import_answer, lets_go};
ghost use Rattle.host_imports.specs.declared.import.Import.{Import};
ghost use Rattle.host_step.specs.declared.refusal.Refusal.{Refusal};
ghost use Rattle.host_values.specs.ElementCalls.{IsTableCall};
ghost use Rattle.host_values.specs.Forms.{HostForm};
ghost use Rattle.host_values.specs.FormMeaning.{FormCalled, FormMeans, FormState, form_meaning};
ghost use Rattle.host_values.specs.Findings.{View, viewed};
ghost use Rattle.host_values.specs.Shown.{SharesTables};
ghost use Rattle.host_values.specs.TableCalls.{Fits, TableCalls, answer_of_call, left_by_call};
ghost use Rattle.host_values.specs.WorldCalls.{IsCalled};

use world_core::World;

/// What machines ask of a host's meaning: an answer is of its import's type; and where memory was wanting, what was written by then is how another
/// answer's output begins.
pub fn asked<W: World>()
    ensures typed { (h : FormState) (i : ℕ) (args : List Word) (mem : MemoryForm) (a : HostAnswer)
        (h' : FormState) (mem' : MemoryForm) (out : List Action)
        → form_meaning W.is_modelled h i args mem a h' mem' out → Typed (host_types i) a }
    ensures refused { (h : FormState) (i : ℕ) (args : List Word) (mem : MemoryForm)
        (h' : FormState) (mem' : MemoryForm) (out : List Action)
        → form_meaning W.is_modelled h i args mem HostAnswer.NoMemory h' mem' out
        → GoesOn (form_meaning W.is_modelled) h i args mem out }
{}

/// A call on tables means what it is told as; an answer of another type is given nowhere. Where no fault is kept the
/// tables are told whole. Once one is kept, what lets nothing go is refused. A number of no import traps.
pub fn table_calls<W: World>()
    ensures called { (i : Import) (words : List Word) (memory : List ℕ)
        → (before after : HostForm) (r : Result (Option Word) Refusal) → Fits i r
        → after.shared.outside ≡ before.shared.outside
        → TableCalls i before words memory r after
        → FormMeans W.is_modelled (Some i) before words memory (answer_of_call i r)
        (left_by_call r after) [] }
    ensures unfit { (i : Import) (words : List Word) (memory : List ℕ)
        → (before after : HostForm) (w : Option Word) → (Fits i (Ok w) → ⊥)
        → TableCalls i before words memory (Ok w) after
        → FormMeans W.is_modelled (Some i) before words memory
        (HostAnswer.Trap TrapKind.BadArgument) after [] }
    ensures plain { (i : Import) (before after : HostForm) (words : List Word) (memory : List ℕ)
        (r : Result (Option Word) Refusal) → before.fault ≡ None
        → ((v : View) → IsTableCall i (viewed v before) words memory r (viewed v after))
        → TableCalls i before words memory r after }
    ensures refused { (i : Import) (f : HostForm) (words : List Word) (memory : List ℕ)
        (fault : Fault)
        → f.fault ≡ Some fault → lets_go i ≡ false
        → FormCalled W.is_modelled (Some i) f words memory
        (HostAnswer.Done (refusal (import_answer i))) f [] }
    ensures unknown { (f : HostForm) (words : List Word) (memory : List ℕ)
        → FormCalled W.is_modelled None f words memory (HostAnswer.Trap TrapKind.BadArgument) f [] }
{}

/// A call on tables over a world, where no fault is kept, means what it is told as; an answer of another type is given nowhere.
pub fn world_calls<W: World>()
    ensures called { (i : Import) (words : List Word) (memory : List ℕ) (before : HostForm)
        → before.fault ≡ None → (after : HostForm) (output : List Action)
        (r : Result (Option Word) Refusal)
        → Fits i r → IsCalled W.is_modelled i before words memory r after output
        → FormMeans W.is_modelled (Some i) before words memory (answer_of_call i r)
        (left_by_call r after) output }
    ensures unfit { (i : Import) (words : List Word) (memory : List ℕ) (before : HostForm)
        → before.fault ≡ None → (after : HostForm) (output : List Action) (w : Option Word)
        → (Fits i (Ok w) → ⊥) → IsCalled W.is_modelled i before words memory (Ok w) after output
        → FormMeans W.is_modelled (Some i) before words memory
        (HostAnswer.Trap TrapKind.BadArgument) after output }
{}

/// At a fault it is enough to tell tables that share what is looked at from then on: of the others a call may have changed any.
pub fn faulted_calls<W: World>()
    ensures { (import : Option Import) (before f g : HostForm) (words : List Word) (memory : List ℕ)
        (a : HostAnswer) (output : List Action) (fault : Fault) → f.fault ≡ Some fault
        → SharesTables f g
        → FormCalled W.is_modelled import before words memory a f output
        → FormCalled W.is_modelled import before words memory a g output }
{}
