//! Laws of scripts and of their code, each the contract of a function that does nothing.
ghost use Rattle.sem_scripts.specs.MoreTurns.{MoreTurnsKeep, NeverTooDeep};
ghost use Rattle.mid_program.specs.Mid.{Program};
ghost use Rattle.mid_program.specs.MidMeaning.{EndsAs, mid_run_in};
ghost use Rattle.sem_scripts.specs.Names.{Resolved};
ghost use Rattle.sem_scripts.specs.ScriptRun.{resolved_run};
ghost use Rattle.mid_program.specs.Translation.{program_of};

/// The code of a script ends as the script does: with the same status or fault, or still going on, and with the same output, whatever its job,
/// its input, the outside, the turns and the calls that may be nested.
pub fn same_meaning()
    ensures { (script : Resolved) → EndsAs (program_of script) script }
{}

/// With more turns a run that ended, faulted or nested a call too deeply does the same; one that went on has at least the output that it had.
pub fn more_turns_keep()
    ensures scripts { (script : Resolved) → MoreTurnsKeep (resolved_run script) }
    ensures code { (p : Program) → MoreTurnsKeep (mid_run_in p) }
{}

/// A run with at most as many turns as calls may be nested never nests one too deeply, since each call costs a turn: so the depth is a limit
/// of a run, and none of the language.
pub fn never_too_deep()
    ensures scripts { (script : Resolved) → NeverTooDeep (resolved_run script) }
    ensures code { (p : Program) → NeverTooDeep (mid_run_in p) }
{}
