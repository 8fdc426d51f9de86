//! What is said of exit statuses.
ghost use Rattle.std.specs.Prelude.{◌≡◌};
ghost use Rattle.run_report.specs.Explanations.{form_of, status_explanation};
ghost use Rattle.run_report.specs.Topics.{Shows};
ghost use Rattle.run_report.specs.declared.topic.Topic.TheVariants as Topic;

use crate::explained::Explanation;
use crate::topic::StatusTopic;

const OWN: Explanation = Explanation {
    meaning: "The script ended by itself: with the status that it gave to exit, or with 0. That may be any status from 0 to 255, and then awkwasm prints no line.",
    command: "awkwasm run 'BEGIN { exit 0 }'; echo $?",
    shown: "0",
    advice: "In your scripts, leave 2 to 8 to awkwasm.",
};

const FAULTED: Explanation = Explanation {
    meaning: "A runtime error ended the run. Its name is on the standard error.",
    command: "awkwasm run 'BEGIN { print 7 / 2 }' 2>/dev/null; echo $?",
    shown: "2",
    advice: "For more, give that name to awkwasm explain.",
};

const REFUSED: Explanation = Explanation {
    meaning: "The script or module was refused, and nothing ran. The cause is on the standard error.",
    command: "awkwasm run 'BEGIN { next }' 2>/dev/null; echo $?",
    shown: "3",
    advice: "For more, give the name of the cause to awkwasm explain.",
};

const OUT_OF_STEPS: Explanation = Explanation {
    meaning: "The run took all the steps that --steps allows.",
    command: "awkwasm run --steps 9 'BEGIN { while (1) n++ }' 2>/dev/null; echo $?",
    shown: "4",
    advice: "For more: awkwasm explain OutOfSteps",
};

const NO_MEMORY: Explanation = Explanation {
    meaning: "Memory ran out.",
    command: "(ulimit -v 100000; awkwasm run 'BEGIN { while (1) a[n++] = n }') 2>/dev/null; echo $?",
    shown: "5",
    advice: "For more: awkwasm explain NoMemory",
};

const EXHAUSTED: Explanation = Explanation {
    meaning: "Calls were nested too deeply.",
    command: "awkwasm run 'function f() { f() } BEGIN { f() }' 2>/dev/null; echo $?",
    shown: "6",
    advice: "For more: awkwasm explain Exhausted",
};

const TRAPPED: Explanation = Explanation {
    meaning: "The module trapped. The kind of trap is on the standard error.",
    command: "awkwasm exec m.wasm 2>/dev/null; echo $?   # m.wasm: (module (func (export \"main\") (result i32) unreachable))",
    shown: "7",
    advice: "For more, give the name of the trap to awkwasm explain.",
};

const LINE: Explanation = Explanation {
    meaning: "The command line was refused, or a file that it names could not be read or written.",
    command: "awkwasm compile nosuch out.wasm 2>/dev/null; echo $?",
    shown: "8",
    advice: "awkwasm --help shows the commands and options.",
};

/// What is said of a status.
pub(crate) fn status_explanation(status: StatusTopic) -> Explanation
    ensures said { form_of result ≡ status_explanation status }
    ensures shown { Shows (Topic.Status status) result.shown.now }
{
    match status {
        StatusTopic::Own => OWN,
        StatusTopic::Faulted => FAULTED,
        StatusTopic::Refused => REFUSED,
        StatusTopic::OutOfSteps => OUT_OF_STEPS,
        StatusTopic::NoMemory => NO_MEMORY,
        StatusTopic::Exhausted => EXHAUSTED,
        StatusTopic::Trapped => TRAPPED,
        StatusTopic::Line => LINE,
    }
}
