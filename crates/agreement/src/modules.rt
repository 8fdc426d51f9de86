//! The module of a program does what the program does, and nothing else.
//!
//! Laws of the code that modules have for mid code, each the contract of a function that does nothing.
ghost use Rattle.mid_program.specs.Mid.{Program};
ghost use Rattle.mid_program.specs.MidMeaning.{mid_run_in};
ghost use Rattle.mid_program.specs.Sorted.{IsSorted};
ghost use Rattle.lower_model.specs.Modules.{module_of};
ghost use Rattle.agreement.specs.Modules.Agreement.{Agreement};
ghost use Rattle.agreement.specs.Modules.ValueAgreement.{ValueAgreement};

/// The machine over values and a well-sorted program agree: what one does the other does, and while it goes on both have put out the same so far.
pub fn values_agree()
    ensures { (p : Program) → IsSorted p → ValueAgreement p }
{}

/// A well-sorted program and its module agree, over every host of the table: in every job and whatever the outside is, what one does the other does,
/// faults and too many nested calls included; the module never traps, and its work for each turn is bounded.
pub fn modules_agree()
    ensures { (p : Program) → IsSorted p → Agreement (mid_run_in p) (module_of p) }
{}
