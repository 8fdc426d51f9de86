//! What is said of files that the command line names.
ghost use Rattle.std.specs.Prelude.{◌≡◌};
ghost use Rattle.run_report.specs.Explanations.{form_of, file_explanation};
ghost use Rattle.run_report.specs.Topics.{Shows};
ghost use Rattle.run_report.specs.declared.topic.Topic.TheVariants as Topic;

use crate::explained::Explanation;
use crate::report::FileFault;

const CANNOT_READ: Explanation = Explanation {
    meaning: "The file of the script or module could not be read.",
    command: "awkwasm compile nosuch out.wasm",
    shown: "awkwasm: CannotRead",
    advice: "Check that the name is right and that you may read the file.",
};

const CANNOT_WRITE: Explanation = Explanation {
    meaning: "The module could not be written, or the text of imports, explain, check, --help or --version could not be printed.",
    command: "echo 'BEGIN { }' | awkwasm compile /dev/stdin /",
    shown: "awkwasm: CannotWrite",
    advice: "Check that the folder exists, that you may write there, and that the disk has room. compile does not overwrite its script.",
};

/// What is said of such a file.
pub(crate) fn file_explanation(fault: FileFault) -> Explanation
    ensures said { form_of result ≡ file_explanation fault }
    ensures shown { Shows (Topic.File fault) result.shown.now }
{
    match fault {
        FileFault::CannotRead => CANNOT_READ,
        FileFault::CannotWrite => CANNOT_WRITE,
    }
}
