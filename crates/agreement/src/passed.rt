//! A run of a module passes the places of statements as its program executes statements: laws alone.
//!
//! Laws of the places that runs pass, each the contract of a function that does nothing.
ghost use Rattle.std.specs.Prelude.{◌≡◌, ℕ};
ghost use Rattle.mid_program.specs.Mid.{Program};
ghost use Rattle.mid_program.specs.MidMeaning.{mid_run_in};
ghost use Rattle.sem_scripts.specs.ScriptRun.{Setting};
ghost use Rattle.mid_program.specs.Sorted.{IsSorted};
ghost use Rattle.lower_model.specs.Modules.{module_of};
ghost use Rattle.agreement.specs.Passed.Passed.{Passes, no_probe};
ghost use Rattle.agreement.specs.Passed.Probes.{probed_run};

/// A run of the module of a well-sorted program passes the place of a statement as often as the program executes the statement, in the same order, and among
/// the same actions: whatever a probe adds to the output at each place, the run puts out with it what the program puts out with it.
pub fn places_are_passed()
    ensures { (p : Program) → IsSorted p → Passes (probed_run p) (module_of p) }
{}

/// With a probe that adds nothing a program does what it does: its run with probes is its own.
pub fn runs_without_a_probe()
    ensures { (p : Program) (s : Setting) (turns : ℕ) → probed_run p no_probe s turns
        ≡ mid_run_in p s turns }
{}
