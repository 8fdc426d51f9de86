//! Relations that the rows of the main input compute. Each law is the contract of a function that does nothing.
ghost use Rattle.std.specs.Prelude.{◌≡◌, ◌↔◌, ℕ, Option, Result};
ghost use Rattle.awk_values.specs.declared.fault.Fault.{Fault};
ghost use Rattle.world_core.specs.WorldState.{Outside, Source};
ghost use Rattle.sem_primitives.specs.declared.answers.AssignAnswer.{AssignAnswer};
ghost use Rattle.sem_primitives.specs.SharedState.{Inner};
ghost use Rattle.sem_primitives.specs.MainInput.{main_input, start_assign_row};
ghost use Rattle.sem_primitives.specs.Carrying.{carried_from, carried_main};
ghost use Rattle.sem_primitives.specs.Records.{Got, first_record};
ghost use Rattle.agreement.specs.Input.MainInput.{Given, GivesNext};
ghost use Rattle.agreement.specs.Input.Assignments.{Makes};
ghost use Rattle.agreement.specs.Input.Records.{GivesFirst};

/// What a call of the main input gives, and how many assignments of the command line it carries out itself, are told by one walk over the
/// operands.
pub fn main_input_is_walked()
    ensures { (outside : Outside) (inner : Inner) (given : Given) (made : ℕ) →
        ((main_input outside inner ≡ given) × (carried_main outside inner ≡ made))
        ↔ GivesNext outside inner given made }
{}

/// What a call before BEGIN answers, and how many assignments it carries out itself, are told by one walk over those that are left.
pub fn assignments_are_made()
    ensures { (inner : Inner) (answer : Result (Inner × AssignAnswer) Fault) (made : ℕ) →
        ((start_assign_row inner ≡ answer) × (carried_from inner.assigns inner ≡ made))
        ↔ Makes inner.assigns inner answer made }
{}

/// The first record of a source is what its bytes are made of: newlines that are skipped, a text with no separator within, the separator, and the rest; or a last
/// text that no separator follows.
pub fn first_records_are_separated()
    ensures { (rs : Option ℕ) (source : Source) (answer : Result (Got × Source) Fault) →
        GivesFirst rs source answer ↔ (first_record rs source ≡ answer) }
{}
