//! The module of a program has a run of each number of steps, whatever the outside is.
//!
//! Laws of the runs of modules, each the contract of a function that does nothing.
ghost use Rattle.std.specs.List.{All};
ghost use Rattle.std.specs.Prelude.{◌≡◌, ◌≤◌, ◌+◌, false, true, ℕ, List, Option, None, Some, length, slice_get};
ghost use Rattle.sem_primitives.specs.Jobs.{JobForm, Environment};
ghost use Rattle.awk_grammar.specs.Trees.{Item};
ghost use Rattle.awk_grammar.specs.Kinds.{most_parameters, refusal};
ghost use Rattle.sem_primitives.specs.declared.sorts.Sort.{Sort};
ghost use Rattle.sem_primitives.specs.declared.sorts.Sort.TheVariants as sort;
ghost use Rattle.host_step.specs.HostState.{HostState};
ghost use Rattle.host_step.specs.Live.{live_arrays, live_iterators, live_values};
ghost use Rattle.sem_scripts.specs.Kinds.{resolved};
ghost use Rattle.mid_program.specs.Mid.{Program, Routine, Unboxed};
ghost use Rattle.mid_program.specs.Sorted.{IsSorted, has_kind, is_mixed, kinds_of, mixed_of};
ghost use Rattle.mid_program.specs.Translation.{program_of};
ghost use Rattle.lower_model.specs.Boundaries.{nops_in, steps_places};
ghost use Rattle.lower_model.specs.Functions.{main_callee, routine_callee};
ghost use Rattle.lower_model.specs.Machine.{array_kinds};
ghost use Rattle.lower_model.specs.Modules.{module_of};
ghost use Rattle.lower_model.specs.Places.{handle_global};
ghost use Rattle.lower_model.specs.Small.{minus_one};
ghost use Rattle.wasm_model.specs.Machines.{Conf, Ends, turn};
ghost use Rattle.wasm_model.specs.Runs.{MachineForm};
ghost use Rattle.wasm_model.specs.declared.ends.End.TheVariants as ends;
ghost use Rattle.wasm_store.specs.declared.word.Word.{Word};
ghost use Rattle.wasm_store.specs.declared.word.Word.TheVariants.{I32};
ghost use Rattle.wasm_types.specs.ModuleGrammar.{IsModule};
ghost use Rattle.world_core.specs.WorldState.{Source};
ghost use Rattle.agreement.specs.Places.Assigned.{HasWord, IsAssigned};
ghost use Rattle.agreement.specs.Places.Existence.{HasRuns};
ghost use Rattle.agreement.specs.Places.Alive.{count_waiting, values_waiting, walks_waiting};
ghost use Rattle.agreement.specs.Places.NoLeaks.{AtReturn, AtStatement, EachPlace, Reached, begins_statement, boxed, numbers_of, scalars, walks};
ghost use Rattle.agreement.specs.Places.Places.{IsSmall};
ghost use Rattle.agreement.specs.Places.Statements.{main_places, main_starts, routine_starts, starts_in};

/// The module of a well-sorted program has a run of each number of steps, or a shorter one that ends, in every job and whatever the outside is, where its
/// functions have few locals and not too much code: the host never lacks a free number. So it is where the module has bytes, and no function has more
/// than 100 parameters.
pub fn modules_run()
    ensures small { (p : Program) → IsSorted p → IsSmall p
        → (job : JobForm) (input : Source) (outside : Environment)
        → HasRuns (module_of p) job input outside }
    ensures spelled { (p : Program) → IsSorted p → (bytes : List ℕ) → IsModule bytes (module_of p)
        → All (λ r. length r.parameters ≤ most_parameters) p.routines
        → (job : JobForm) (input : Source) (outside : Environment)
        → HasRuns (module_of p) job input outside }
{}

/// Nothing is kept. Where a statement begins each number that the host has for the module is in one place, and these are few: names, the parameters
/// of the function at work, and locals of callers. Where `main` has returned names alone hold something. So it is after every way out of a function too.
pub fn nothing_kept()
    ensures statement { (p : Program) → IsSorted p
        → (job : JobForm) (input : Source) (outside : Environment)
        → (m : MachineForm) (c : Conf) (s : HostState)
        → Reached (module_of p) job input outside m c s → begins_statement c.frame.code ≡ true
        → AtStatement p c s }
    ensures returned { (p : Program) → IsSorted p
        → (job : JobForm) (input : Source) (outside : Environment)
        → (m : MachineForm) (c : Conf) (s : HostState)
        → Reached (module_of p) job input outside m c s
        → (n : ℕ) → turn m.program c ≡ Ends (ends.Returned (Some (I32 n))) → AtReturn p c s }
{}

/// Where a statement begins at most so many values are alive, and exactly so many arrays and iterators: values are those of names, of boxed parameters, and
/// what callers that wait may hold; arrays those of the host, of names, and those that callers that wait hold; each loop over keys that is walked has an
/// iterator. This follows from what holds there.
pub fn little_is_alive()
    ensures values { (p : Program) (c : Conf) (s : HostState) → (here : AtStatement p c s)
        → live_values s ≤ scalars (kinds_of p.globals)
        + (boxed here.at.function.kinds + values_waiting p here.held.waiting c.callers here.called_by.waits) }
    ensures arrays { (p : Program) (c : Conf) (s : HostState) → (here : AtStatement p c s)
        → live_arrays s ≡ 2 + (array_kinds (kinds_of p.globals) + count_waiting sort.Array here.held.waiting) }
    ensures iterators { (p : Program) (c : Conf) (s : HostState) → AtStatement p c s
        → live_iterators s ≡ walks (numbers_of p) c.frame.labels + walks_waiting (numbers_of p) c.callers }
    ensures places { (os : List (Option Sort)) (ws : List Word) → EachPlace os ws → length os ≡ length ws }
{}

/// Where `main` has returned at most as many values and arrays are alive as names have, and the host's own arrays, and no iterator.
pub fn names_alone_are_alive()
    ensures values { (p : Program) (c : Conf) (s : HostState) → AtReturn p c s
        → live_values s ≤ scalars (kinds_of p.globals) }
    ensures arrays { (p : Program) (c : Conf) (s : HostState) → AtReturn p c s
        → live_arrays s ≤ 2 + array_kinds (kinds_of p.globals) }
    ensures iterators { (p : Program) (c : Conf) (s : HostState) → AtReturn p c s → live_iterators s ≡ 0 }
{}

/// An unboxed name that takes no copies, and to which the command line has not assigned in a run, has no handle where that run comes to a statement: a text
/// comes beside its number by such an assignment alone.
pub fn names_get_no_handle()
    ensures { (p : Program) → IsSorted p
        → (job : JobForm) (input : Source) (outside : Environment)
        → (m : MachineForm) (c : Conf) (s : HostState)
        → (reached : Reached (module_of p) job input outside m c s)
        → begins_statement c.frame.code ≡ true
        → (i : ℕ) → has_kind (kinds_of p.globals) i Unboxed ≡ true
        → is_mixed (mixed_of p.globals) i ≡ false → (IsAssigned reached i → ⊥)
        → slice_get c.globals (handle_global p.ranges i) ≡ Some (I32 minus_one) }
{}

/// An assignment of the command line comes from a word of it. A name that it assigned in a run is one to which, somewhere on the way, a `-v` of the job or an
/// element that ARGV then had assigned.
pub fn assignments_come_from_words()
    ensures { (p : Program) → IsSorted p
        → (job : JobForm) (input : Source) (outside : Environment)
        → (m : MachineForm) (c : Conf) (s : HostState)
        → (reached : Reached (module_of p) job input outside m c s)
        → (i : ℕ) → IsAssigned reached i → HasWord reached i }
{}

/// The functions of a script whose names are not refused have at most `most_parameters` parameters, and so have the routines of its code.
pub fn few_parameters()
    ensures { (items : List Item) → refusal items ≡ None
        → All (λ r. length r.parameters ≤ most_parameters) (program_of (resolved items)).routines }
{}

/// Each step of a program has a place of its own, the `nop` that begins its code, and a function's code has no other `nop`, but one before the test of a
/// `do` loop. A loop without a third part has no code for it. So what begins with a `nop` in a function's code is the code of its steps, one after another.
pub fn statements_have_places()
    ensures starts { (p : Program) (r : Routine) → starts_in (routine_callee p r).body
        ≡ routine_starts p r }
    ensures main_starts { (p : Program) → starts_in (main_callee p).body ≡ main_starts p }
    ensures routines { (p : Program) (r : Routine) → nops_in (routine_callee p r).body
        ≡ steps_places r.body }
    ensures main { (p : Program) → nops_in (main_callee p).body ≡ main_places p }
{}
