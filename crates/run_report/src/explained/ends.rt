//! What is said of runs that were cut off.
ghost use Rattle.std.specs.Prelude.{◌≡◌};
ghost use Rattle.run_report.specs.Explanations.{form_of, end_explanation};
ghost use Rattle.run_report.specs.Topics.{Shows};
ghost use Rattle.run_report.specs.declared.topic.Topic.TheVariants as Topic;

use crate::explained::Explanation;
use crate::topic::EndTopic;

const OUT_OF_STEPS: Explanation = Explanation {
    meaning: "The run took all the steps that --steps allows. What the script printed is the beginning of its output.",
    command: "awkwasm run --steps 1000 'BEGIN { while (1) n++ }'",
    shown: "awkwasm: OutOfSteps",
    advice: "Allow more steps, or look for an endless loop.",
};

const EXHAUSTED: Explanation = Explanation {
    meaning: "Calls are nested too deeply: a function was called while 9,999 calls were waiting.",
    command: "awkwasm run 'function f(n) { return f(n + 1) } BEGIN { f(0) }'",
    shown: "awkwasm: Exhausted",
    advice: "Look for endless recursion, or use a loop.",
};

const NO_MEMORY: Explanation = Explanation {
    meaning: "Memory ran out. What the script printed is the beginning of its output.",
    command: "(ulimit -v 100000; awkwasm run 'BEGIN { while (1) a[n++] = n }')",
    shown: "awkwasm: NoMemory",
    advice: "Allow more memory, or keep less: delete elements, and close files.",
};

/// What is said of such an end.
pub(crate) fn end_explanation(end: EndTopic) -> Explanation
    ensures said { form_of result ≡ end_explanation end }
    ensures shown { Shows (Topic.End end) result.shown.now }
{
    match end {
        EndTopic::OutOfSteps => OUT_OF_STEPS,
        EndTopic::Exhausted => EXHAUSTED,
        EndTopic::NoMemory => NO_MEMORY,
    }
}
