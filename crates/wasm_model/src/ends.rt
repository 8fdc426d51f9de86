//! How runs end.

use wasm_store::{TrapKind, Word};

/// How a configuration ends, as the definitions say it. `Stuck` is where the specification has no reduction: no typed module gets there, and no
/// machine tells it.
#[derive(Clone, Copy)]
pub enum End {
    Returned(Option<Word>),
    Trapped(TrapKind),
    Exhausted,
    Stuck,
}

/// How a run ends, as the definitions say it.
#[derive(Clone, Copy)]
pub enum RunEnd {
    Ended(End),
    OutOfSteps,
    NoMemory,
}

/// How a run ends, as a machine tells it.
#[derive(Clone, Copy, Debug, PartialEq, Eq)]
pub enum MachineEnd {
    /// `main` gave this.
    Returned(i32),
    Trapped(TrapKind),
    /// The steps that were given are over. A further run goes on.
    OutOfSteps,
    /// A call found 10,000 frames open.
    Exhausted,
    /// Memory was wanting.
    NoMemory,
}
