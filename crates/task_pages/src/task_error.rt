//! Why a task is not done, and what is said of it.
ghost use Rattle.std.specs.Prelude.{◌≡◌};
ghost use Rattle.task_pages.specs.Tasks.{undone_code, undone_text};

use run_report::{FileFault, file_fault_text, no_memory_text};
use std::alloc::AllocError;

/// Why a task is not done.
#[derive(Drop)]
pub enum TaskError {
    /// A file that the line names failed.
    File(FileFault),
    /// An argument is not UTF-8.
    Arguments,
    /// The system gives no random numbers, with which the keys of arrays are hashed.
    RandomNumbers,
    /// The line has the option `-f` of other awks.
    ScriptFile,
    /// A text that begins with a hyphen comes after its option, and is not attached to it.
    TextApart,
    /// There is nothing of this name to explain.
    Unexplained,
    /// Memory ran out.
    NoMemory,
}

impl From<AllocError> for TaskError {
    ghost use Rattle.std.specs.Prelude.{◌≡◌};
    ghost use Rattle.task_pages.specs.declared.task_error.TaskError.TheVariants.{NoMemory};

    ghost from_gives = { λ _ e. e ≡ NoMemory };

    fn from(_error: AllocError) -> TaskError {
        TaskError::NoMemory
    }
}

/// What to do in place of `-f`.
const SCRIPT_FILE: &str =
    "awkwasm: no option -f: give the file's text, as awkwasm run \"$(cat prog.awk)\" .., or compile it and then exec\n";

/// What to do where clap reads the text of an option as another option.
const TEXT_APART: &str =
    "awkwasm: attach a text that begins with a hyphen to its option: -F-x in place of -F -x\n";

/// The line for the standard error.
pub fn undone_text(undone: &TaskError) -> &'static [u8]
    ensures { result.now ≡ undone_text undone.now }
{
    match undone {
        TaskError::File(fault) => file_fault_text(fault),
        TaskError::Arguments => "awkwasm: an argument is not UTF-8\n".as_bytes(),
        TaskError::RandomNumbers => "awkwasm: the system gives no random numbers\n".as_bytes(),
        TaskError::ScriptFile => SCRIPT_FILE.as_bytes(),
        TaskError::TextApart => TEXT_APART.as_bytes(),
        TaskError::Unexplained =>
            "awkwasm: no such name; awkwasm explain lists the names\n".as_bytes(),
        TaskError::NoMemory => no_memory_text(),
    }
}

/// The exit status: 5 where memory ran out, 8 for every other cause.
pub fn undone_status(undone: &TaskError) -> u8
    ensures { result ≡ undone_code undone.now }
{
    match undone {
        TaskError::NoMemory => 5,
        TaskError::File(_)
        | TaskError::Arguments
        | TaskError::RandomNumbers
        | TaskError::ScriptFile
        | TaskError::TextApart
        | TaskError::Unexplained => 8,
    }
}
