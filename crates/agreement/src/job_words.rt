//! What the command line assigns, said of the job's own words.
//!
//! Laws of the runs of modules, each the contract of a function that does nothing.
ghost use Rattle.std.specs.Prelude.{◌≡◌, ◌⊎◌, ◌∷◌, ℕ, false, Some, codes, slice_get};
ghost use Rattle.sem_primitives.specs.Jobs.{JobForm, Environment, arguments_from};
ghost use Rattle.host_step.specs.HostState.{HostState};
ghost use Rattle.mid_program.specs.Mid.{Program, Then};
ghost use Rattle.mid_program.specs.Sorted.{IsSorted};
ghost use Rattle.sem_scripts.specs.Names.{Resolved};
ghost use Rattle.lower_model.specs.Modules.{module_of};
ghost use Rattle.wasm_model.specs.Machines.{Conf};
ghost use Rattle.wasm_model.specs.Runs.{MachineForm};
ghost use Rattle.wasm_types.specs.Typing.{ModuleOk};
ghost use Rattle.world_core.specs.WorldState.{Source};
ghost use Rattle.agreement.specs.Places.Assigned.{IsAssigned};
ghost use Rattle.agreement.specs.Places.NoLeaks.{AtStatement, Reached};
ghost use Rattle.agreement.specs.Quiet.Laned.{AtNumeric, IsNext};
ghost use Rattle.agreement.specs.Quiet.Quiet.{HostCallFree};
ghost use Rattle.agreement.specs.Quiet.Spots.{AtAssignment, AtFollowing};
ghost use Rattle.agreement.specs.Quiet.Sums.{AtFault};
ghost use Rattle.agreement.specs.Spots.Places.{final_program};
ghost use Rattle.agreement.specs.Words.Naming.{program_names};
ghost use Rattle.agreement.specs.Words.Words.{AssignsName};

use crate::quiet::statements_are_quiet;

/// ARGV is what the job made of it, wherever a run may come to of the module of a well-sorted program that does not name ARGV: no row that changes arrays is
/// given it.
pub fn argv_stays()
    ensures { (p : Program) → IsSorted p → program_names p ≡ false
        → (job : JobForm) (input : Source) (outside : Environment)
        (m : MachineForm) (c : Conf) (s : HostState)
        → Reached (module_of p) job input outside m c s
        → slice_get s.shared.inner.arrays 0
        ≡ Some (arguments_from 0 (codes "awk" ∷ job.operands)) }
{}

/// So each assignment of the command line to a name in a run of such a program comes from a word of the job that assigns to this name: a `-v`, or an operand.
/// The names that the module announces are the script's, in their order.
pub fn assignments_are_the_jobs()
    ensures { (p : Program) → IsSorted p → program_names p ≡ false
        → (job : JobForm) (input : Source) (outside : Environment)
        (m : MachineForm) (c : Conf) (s : HostState)
        → (reached : Reached (module_of p) job input outside m c s)
        → (i : ℕ) → IsAssigned reached i → AssignsName p job i }
{}

/// So a statement on numbers of such a program is quiet where its names are unboxed and take no copies, and no word of the job assigns to one of them.
pub fn quiet_by_the_job()
    ensures { (p : Program) → IsSorted p → ModuleOk (module_of p) → program_names p ≡ false
        → (job : JobForm) (input : Source) (outside : Environment)
        (m : MachineForm) (c : Conf) (s : HostState)
        → (reached : Reached (module_of p) job input outside m c s)
        → (here : AtStatement p c s) → (a : AtNumeric p c s here (λ i. AssignsName p job i))
        → HostCallFree m.program c (λ there. IsNext p c a.bases (Then a.next a.further)
        a.iterators a.out a.breaking a.continuing a.after there ⊎ AtFault p c there) }
{
    statements_are_quiet();
}

/// So is the statement where it stands in such a script.
pub fn scripts_are_quiet_by_the_job()
    ensures { (script : Resolved) → IsSorted (final_program script)
        → ModuleOk (module_of (final_program script))
        → program_names (final_program script) ≡ false
        → (job : JobForm) (input : Source) (outside : Environment)
        (m : MachineForm) (c : Conf) (s : HostState)
        → (reached : Reached (module_of (final_program script)) job input outside m c s)
        → (here : AtStatement (final_program script) c s)
        → (a : AtAssignment script c s here (λ i. AssignsName (final_program script) job i))
        → HostCallFree m.program c (λ there. AtFollowing script a.home a.around a.next a.further c there
        ⊎ AtFault (final_program script) c there) }
{
    quiet_by_the_job();
}
