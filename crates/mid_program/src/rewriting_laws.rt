//! A law of code that is rewritten, the contract of a function that does nothing.
ghost use Rattle.mid_program.specs.Mid.{Program};
ghost use Rattle.mid_program.specs.Rewritten.{Rewritten};
ghost use Rattle.mid_program.specs.SameRuns.{SameRuns};

/// Where each name still stands for the same place, whatever its lane, and what stands for each operation does the same, the program runs
/// as before: with the same status or fault, or still going on, and with the same output, in every setting and for every number of turns.
pub fn rewritten_code_runs_as_before()
    ensures { (p q : Program) → Rewritten p q → SameRuns q p }
{}
