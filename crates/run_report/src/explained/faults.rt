//! What is said of the faults of a run.
ghost use Rattle.std.specs.Prelude.{◌≡◌};
ghost use Rattle.run_report.specs.Explanations.{form_of, fault_explanation};
ghost use Rattle.run_report.specs.Topics.{Shows};
ghost use Rattle.run_report.specs.declared.topic.Topic.TheVariants as Topic;

use crate::explained::Explanation;
use awk_values::Fault;

const RANGE: Explanation = Explanation {
    meaning: "A number is below -2^53 or above 2^53.",
    command: "awkwasm run 'BEGIN { print 2 ^ 53 + 1 }'",
    shown: "awkwasm: Range",
    advice: "Count in larger units. Digits that you only print, or compare as text, have no limit.",
};

const FRACTION: Explanation = Explanation {
    meaning: "A field or another text was used as a number, and that number is not whole.",
    command: "echo 0.5 | awkwasm run '{ print $1 + 1 }'",
    shown: "awkwasm: Fraction",
    advice: "int($1) cuts it to a whole number. A field that you only print stays as it is. For money in cents: examples/recipes/money. For percentages: examples/recipes/percentages.",
};

const DIVISION_BY_ZERO: Explanation = Explanation {
    meaning: "The divisor of / or % is 0, or 0 is raised to a negative power.",
    command: "awkwasm run 'BEGIN { print 1 % n }'",
    shown: "awkwasm: DivisionByZero",
    advice: "Test the divisor first: if (n) print 1 % n",
};

const INEXACT: Explanation = Explanation {
    meaning: "A quotient, or a power with a negative exponent, is not a whole number.",
    command: "awkwasm run 'BEGIN { print 7 / 2 }'",
    shown: "awkwasm: Inexact",
    advice: "int(7 / 2) is the quotient without its remainder, and 7 % 2 is the remainder. For decimals: examples/recipes/percentages. For means and rounding: examples/recipes/rounding.",
};

const FIELD_NUMBER: Explanation = Explanation {
    meaning: "A field number, or NF, is below 0 or above 1,048,576.",
    command: "echo | awkwasm run '{ print $(NF - 1) }'",
    shown: "awkwasm: FieldNumber",
    advice: "Test first that the field exists: NF > 1 { print $(NF - 1) }",
};

const FORMAT: Explanation = Explanation {
    meaning: "A format of printf or sprintf is malformed, or an argument for it is missing.",
    command: "awkwasm run 'BEGIN { printf \"%d\\n\" }'",
    shown: "awkwasm: Format",
    advice: "Give each conversion an argument, and write %% for a percent sign. %e, %g, %a and a width of * are left out.",
};

const BAD_ERE: Explanation = Explanation {
    meaning: "A text was used as a regular expression and is not one. For a constant such as /(/, the line and the position in the expression follow the name.",
    command: "awkwasm run 'BEGIN { print \"x\" ~ \"(\" }'",
    shown: "awkwasm: BadEre",
    advice: "To match a special character itself, put a backslash before it, as in /\\(/, or search with index. [. .] and [= =] are left out.",
};

const ERE_TOO_LARGE: Explanation = Explanation {
    meaning: "A regular expression is nested more than 1,000 deep, or has more than 10,000 positions after its counts are expanded.",
    command: "awkwasm run 'BEGIN { print \"a\" ~ \"(a{200}){200}\" }'",
    shown: "awkwasm: EreTooLarge",
    advice: "Use smaller counts, or test the length with length.",
};

const TEXT_LIMIT: Explanation = Explanation {
    meaning: "A text would be longer than 67,108,864 bytes.",
    command: "awkwasm run 'BEGIN { s = \"a\"; while (1) s = s s }'",
    shown: "awkwasm: TextLimit",
    advice: "Print parts as they come, or keep them in the elements of an array. If a file is one long line, set RS.",
};

const OPEN_INPUT: Explanation = Explanation {
    meaning: "An operand names a file that did not open.",
    command: "awkwasm run '{ print }' nosuch",
    shown: "awkwasm: OpenInput",
    advice: "Check that the name is right and that you may read the file. An option such as --no-files or --may-read may forbid it.",
};

const READ_FAILED: Explanation = Explanation {
    meaning: "An operand or the standard input could not be read, or it is longer than --most-input allows.",
    command: "awkwasm run '{ print }' /",
    shown: "awkwasm: ReadFailed",
    advice: "Name files, not folders. If the input may be that long, raise --most-input.",
};

const OPEN_OUTPUT: Explanation = Explanation {
    meaning: "A file that print or printf writes to did not open.",
    command: "awkwasm run 'BEGIN { print 1 > \"/\" }'",
    shown: "awkwasm: OpenOutput",
    advice: "Check that its folder exists and that you may write there. An option such as --no-files, --read-only, --only-operands or --may-write may forbid it.",
};

const WRITE_FAILED: Explanation = Explanation {
    meaning: "A write failed: the disk is full, the standard output is closed, or a limit such as ulimit -f or --most-output is reached.",
    command: "awkwasm run 'BEGIN { print 1 }' >/dev/full",
    shown: "awkwasm: WriteFailed",
    advice: "Make room, or raise the limit. What the script wrote before stays.",
};

const TOO_MANY_STREAMS: Explanation = Explanation {
    meaning: "256 files are open, and the script opens one more.",
    command: "awkwasm run 'BEGIN { for (p = \"/dev/\"; ; p = p \"/\") getline < (p \"null\") }'",
    shown: "awkwasm: TooManyStreams",
    advice: "Call close(name) when you are done with a file.",
};

const NEXT_OUTSIDE: Explanation = Explanation {
    meaning: "next or nextfile ran while no record was being processed, in a function that BEGIN or END called.",
    command: "awkwasm run 'function f() { next } BEGIN { f() }'",
    shown: "awkwasm: NextOutside",
    advice: "Leave the function with return, and use next and nextfile in the actions of patterns.",
};

const BAD_ASSIGNMENT: Explanation = Explanation {
    meaning: "An assignment on the command line, such as -v NAME=TEXT, names something that is not a variable.",
    command: "awkwasm run -v 'length=1' 'BEGIN { print 2 }'",
    shown: "awkwasm: BadAssignment",
    advice: "Choose a name of letters, digits and _ that is not a word of awk, and not a function or array of the script. If the name of a file has a =, write ./NAME.",
};

/// What is said of a fault.
pub(crate) fn fault_explanation(fault: Fault) -> Explanation
    ensures said { form_of result ≡ fault_explanation fault }
    ensures shown { Shows (Topic.Fault fault) result.shown.now }
{
    match fault {
        Fault::Range => RANGE,
        Fault::Fraction => FRACTION,
        Fault::DivisionByZero => DIVISION_BY_ZERO,
        Fault::Inexact => INEXACT,
        Fault::FieldNumber => FIELD_NUMBER,
        Fault::Format => FORMAT,
        Fault::BadEre => BAD_ERE,
        Fault::EreTooLarge => ERE_TOO_LARGE,
        Fault::TextLimit => TEXT_LIMIT,
        Fault::OpenInput => OPEN_INPUT,
        Fault::ReadFailed => READ_FAILED,
        Fault::OpenOutput => OPEN_OUTPUT,
        Fault::WriteFailed => WRITE_FAILED,
        Fault::TooManyStreams => TOO_MANY_STREAMS,
        Fault::NextOutside => NEXT_OUTSIDE,
        Fault::BadAssignment => BAD_ASSIGNMENT,
    }
}
