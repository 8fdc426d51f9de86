//! What these imports read and change, beside texts and the world.
ghost use Rattle.std.specs.Prelude.{◌≡◌, [], ℕ};
ghost use Rattle.world_core.specs.WorldState.{State};
ghost use Rattle.world_core.specs.Calls.{Kind};
ghost use Rattle.sem_primitives.specs.SharedState.{Inner};
ghost use Rattle.host_streams.specs.OpenFiles.{WritersGo};
ghost use Rattle.host_worlds.specs.States.{HoldsInput, Over, input_at_start, with_input};

use awk_values::{Bytes, Value};
use host_streams::{MainInput, Streams};
use host_texts::Names;
use std::alloc::Global;

/// What these imports read and change, beside values, arrays and texts.
#[derive(Drop)]
pub struct Input {
    pub main: MainInput,
    pub files: Streams,
    /// The names of the script, and the assignment that is to be made now.
    pub names: Names,
    /// What was read for a variable, until it is given.
    pub line: Option<Value>,
    /// The actions of END have begun.
    pub in_end: bool,
}

impl Input {
    /// Before anything is read, with these names. It takes no memory.
    pub fn new(alloc: Global, names: Names) -> Input
        ensures held { (kinds : ℕ → Kind) → HoldsInput result kinds }
        ensures goes { (state : State) → WritersGo result.files.writers.items state }
        ensures none { result.files.writers.items ≡ [] }
        ensures begins { (state : State) (inner : Inner) → with_input result (Over state) inner
            ≡ input_at_start names state inner }
    {
        Input {
            main: MainInput::new(alloc),
            files: Streams::new(alloc),
            names,
            line: None,
            in_end: false,
        }
    }
}

/// Where a record goes.
#[derive(Clone, Copy, Drop)]
pub enum ReadInto {
    /// `$0`.
    Record,
    /// A variable: it is kept until `line` gives it.
    Variable,
}

/// Which import reads the main input.
#[derive(Clone, Copy, Drop)]
pub enum MainRead {
    /// `next_main`: a file that does not open, or does not read, is a fault.
    Loop,
    /// `getline` and `getline_var`: that is an answer.
    Getline(ReadInto),
}

/// What the main input gives, once the assignments that need no script are made.
#[derive(Drop)]
pub(crate) enum Given {
    Taken(Bytes),
    Over,
    Pending,
    NotOpened,
    Failed,
}
