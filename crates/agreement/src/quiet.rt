//! Statements on numbers alone call no import.
//!
//! Laws of the runs of modules, each the contract of a function that does nothing.
ghost use Rattle.std.specs.Prelude.{◌⊎◌, ℕ, List};
ghost use Rattle.std.specs.List.{Contains};
ghost use Rattle.awk_grammar.specs.Trees.{Tree};
ghost use Rattle.sem_primitives.specs.Jobs.{JobForm, Environment};
ghost use Rattle.host_step.specs.HostState.{HostState};
ghost use Rattle.mid_program.specs.Mid.{Kind, Program, Slot, Then};
ghost use Rattle.sem_scripts.specs.Names.{Resolved, Scope, variable_of};
ghost use Rattle.mid_program.specs.Sorted.{IsSorted};
ghost use Rattle.lower_model.specs.Modules.{module_of};
ghost use Rattle.wasm_model.specs.Machines.{Conf};
ghost use Rattle.wasm_model.specs.Runs.{MachineForm};
ghost use Rattle.wasm_types.specs.Typing.{ModuleOk};
ghost use Rattle.world_core.specs.WorldState.{Source};
ghost use Rattle.agreement.specs.Places.Assigned.{IsAssigned};
ghost use Rattle.agreement.specs.Places.NoLeaks.{AtStatement, Reached};
ghost use Rattle.agreement.specs.Quiet.Laned.{AtLaned, AtNumeric, IsNext};
ghost use Rattle.agreement.specs.Quiet.Quiet.{HostCallFree};
ghost use Rattle.agreement.specs.Quiet.Spots.{AtAssignment, AtFollowing};
ghost use Rattle.agreement.specs.Quiet.Statements.{IsNumeric, IsSo, IsSumStep, assignment};
ghost use Rattle.agreement.specs.Quiet.Sums.{AtFault, AtNext, AtSum};
ghost use Rattle.agreement.specs.Spots.Places.{final_program};

/// A statement on numbers calls no import. Where a run of the module of a well-sorted program stands at one, and another statement follows it in its
/// block, the run comes to that statement without a call of an import, unless a number is out of range, or a text of the command line stands beside one
/// of the names. No name is a parameter at whose place a global lends its value.
pub fn numbers_are_quiet()
    ensures { (p : Program) → IsSorted p → ModuleOk (module_of p)
        → (job : JobForm) (input : Source) (outside : Environment)
        (m : MachineForm) (c : Conf) (s : HostState)
        → Reached (module_of p) job input outside m c s → (a : AtSum p c)
        → HostCallFree m.program c (λ there. AtNext p c a there ⊎ AtFault p c there) }
{}

/// So is a statement whose names are unboxed in the function at work and take no copies, where the command line has assigned to none of them in this run. An
/// unboxed parameter never has a text beside it, but a global that lends at its place may; nothing lends at the place of a parameter here.
pub fn lanes_are_quiet()
    ensures { (p : Program) → IsSorted p → ModuleOk (module_of p)
        → (job : JobForm) (input : Source) (outside : Environment)
        (m : MachineForm) (c : Conf) (s : HostState)
        → (reached : Reached (module_of p) job input outside m c s)
        → (here : AtStatement p c s) → (a : AtLaned p c s here (IsAssigned reached))
        → HostCallFree m.program c (λ there. IsNext p c a.bases (Then a.next a.further)
        a.iterators a.out a.breaking a.continuing a.after there ⊎ AtFault p c there) }
{}

/// So is a statement of a script, `name = Expr` with number constants, names, groups, signs, `+`, `-` and `*` in Expr, whose names are such.
pub fn statements_are_quiet()
    ensures { (p : Program) → IsSorted p → ModuleOk (module_of p)
        → (job : JobForm) (input : Source) (outside : Environment)
        (m : MachineForm) (c : Conf) (s : HostState)
        → (reached : Reached (module_of p) job input outside m c s)
        → (here : AtStatement p c s) → (a : AtNumeric p c s here (IsAssigned reached))
        → HostCallFree m.program c (λ there. IsNext p c a.bases (Then a.next a.further)
        a.iterators a.out a.breaking a.continuing a.after there ⊎ AtFault p c there) }
{}

/// The code of such a statement of a script is one: an assignment of a sum, with constants computed and names in the lanes that they are given. Its names
/// are the statement's.
pub fn assignments_are_sums()
    ensures { (names : List Slot) (texts : List (List ℕ)) (scope : Scope)
        (globals parameters : List Kind)
        → (x : List ℕ) (t : Tree) → IsSo (Contains names) globals parameters (variable_of scope x)
        → IsNumeric (IsSo (Contains names) globals parameters) scope t
        → IsSumStep (Contains names) (assignment texts scope globals parameters x t) }
{}

/// So is the statement where it stands in a script, whose place the script's module has: the run comes to the place of the statement after it.
pub fn statements_of_scripts_are_quiet()
    ensures { (script : Resolved) → IsSorted (final_program script)
        → ModuleOk (module_of (final_program script))
        → (job : JobForm) (input : Source) (outside : Environment)
        (m : MachineForm) (c : Conf) (s : HostState)
        → (reached : Reached (module_of (final_program script)) job input outside m c s)
        → (here : AtStatement (final_program script) c s)
        → (a : AtAssignment script c s here (IsAssigned reached))
        → HostCallFree m.program c (λ there. AtFollowing script a.home a.around a.next a.further c there
        ⊎ AtFault (final_program script) c there) }
{
    statements_are_quiet();
}
