//! What is said of scripts that are refused.
ghost use Rattle.std.specs.Prelude.{◌≡◌};
ghost use Rattle.run_report.specs.Explanations.{form_of, script_explanation};
ghost use Rattle.run_report.specs.Topics.{Shows};
ghost use Rattle.run_report.specs.declared.topic.Topic.TheVariants as Topic;

use crate::explained::Explanation;
use crate::topic::ScriptTopic;

const TOO_LARGE: Explanation = Explanation {
    meaning: "The script has more than 1,048,576 bytes, or a module exceeds a limit: 16 MiB, 4,000 nested blocks, 50,000 locals, 256 pages, 65,536 table elements.",
    command: "head -c 1048577 /dev/zero | awkwasm compile /dev/stdin out.wasm",
    shown: "awkwasm: TooLarge",
    advice: "Split the script, and move lists of data into a file that it reads.",
};

const BAD_BYTE: Explanation = Explanation {
    meaning: "No token of awk begins with this byte. The number is its line.",
    command: "awkwasm run 'BEGIN { print @ }'",
    shown: "awkwasm: BadByte 1",
    advice: "Look for a stray character on the line, such as a quote that an editor has curled. run takes the text of a script, not a file: awkwasm run \"$(cat prog.awk)\"",
};

const OPEN_STRING: Explanation = Explanation {
    meaning: "A string is not closed on its line. The number is the line.",
    command: "awkwasm run 'BEGIN { print \"a }'",
    shown: "awkwasm: OpenString 1",
    advice: "Close it with a double quote. In a string, \\n is a newline and \\\" a double quote.",
};

const OPEN_ERE: Explanation = Explanation {
    meaning: "A regular expression is not closed on its line. The number is the line.",
    command: "awkwasm run '/a { print }'",
    shown: "awkwasm: OpenEre 1",
    advice: "Close it with a slash. In the expression, write \\/ for a slash, also within brackets.",
};

const LEFT_OUT: Explanation = Explanation {
    meaning: "The script uses something that awkwasm leaves out. The line and what is left out follow the name.",
    command: "awkwasm run 'BEGIN { system(\"ls\") }'",
    shown: "awkwasm: LeftOut 1 system",
    advice: "For system or a pipe, run the program first, and give its output to the standard input. For func, write function. atan2, cos, sin, exp, log, sqrt, rand and srand are left out because numbers are whole.",
};

const NOT_WHOLE: Explanation = Explanation {
    meaning: "The script has a number that is not whole. The line follows the name.",
    command: "awkwasm run 'BEGIN { x = 0.5 }'",
    shown: "awkwasm: NotWhole 1",
    advice: "Count in smaller units, such as cents.",
};

const CONSTANT_RANGE: Explanation = Explanation {
    meaning: "The script has a number above 2^53. The line follows the name.",
    command: "awkwasm run 'BEGIN { x = 9007199254740993 }'",
    shown: "awkwasm: ConstantRange 1",
    advice: "If you only print it, or compare it as text, write it as a string.",
};

const SYNTAX: Explanation = Explanation {
    meaning: "This is not an awk script. The number is the line where the parser stopped.",
    command: "awkwasm run 'BEGIN { if (n { print } }'",
    shown: "awkwasm: Syntax 1",
    advice: "Look there, and before it, for a missing brace, parenthesis or operator. After print, > names a file: put a comparison in parentheses.",
};

const TOO_DEEP: Explanation = Explanation {
    meaning: "Expressions or statements are nested more than 1,000 deep. The number is the line.",
    command: "awkwasm run \"BEGIN { print $(printf '%01200d' | tr 0 '(')1$(printf '%01200d' | tr 0 ')') }\"",
    shown: "awkwasm: TooDeep 1",
    advice: "Assign parts to variables, move statements into functions, or fill an array in a loop.",
};

const MISPLACED: Explanation = Explanation {
    meaning: "next, nextfile, break, continue or return is in the wrong place. The number is its line.",
    command: "awkwasm run 'BEGIN { next }'",
    shown: "awkwasm: Misplaced 1",
    advice: "next and nextfile belong in the action of a pattern or in a function, break and continue in a loop, return in a function.",
};

const TOO_MANY: Explanation = Explanation {
    meaning: "The script defines this function after 1,000 others, or gives it more than 100 parameters. awkwasm check shows where.",
    command: "awkwasm run \"function f($(seq -s, -f a%g 101)) { }\"",
    shown: "awkwasm: TooMany f",
    advice: "Pass an array in place of many parameters.",
};

const DUPLICATE_NAME: Explanation = Explanation {
    meaning: "The name is used for two things: two functions, two parameters of a function, or a function and a variable. awkwasm check shows where.",
    command: "awkwasm run 'function f(a, a) { } BEGIN { f(1) }'",
    shown: "awkwasm: DuplicateName a",
    advice: "Rename one of them. Names of special variables, such as NF, are taken.",
};

const UNKNOWN_FUNCTION: Explanation = Explanation {
    meaning: "The script calls a function that it does not define. awkwasm check shows where.",
    command: "awkwasm run 'BEGIN { print f(1) }'",
    shown: "awkwasm: UnknownFunction f",
    advice: "Define the function. Functions of other awks, such as gensub and strftime, are left out. A variable before a parenthesis needs a space: f (1)",
};

const ARG_COUNT: Explanation = Explanation {
    meaning: "The script calls a function with more arguments than it has parameters. awkwasm check shows where.",
    command: "awkwasm run 'function f(a) { } BEGIN { f(1, 2) }'",
    shown: "awkwasm: ArgCount f",
    advice: "Remove an argument, or add a parameter.",
};

const KIND_CLASH: Explanation = Explanation {
    meaning: "The name is used both as an array and as a variable. awkwasm check shows where.",
    command: "awkwasm run 'BEGIN { a = 1; a[1] = 2 }'",
    shown: "awkwasm: KindClash a",
    advice: "Use two names. length(a) of an array is left out: count its elements in a loop.",
};

/// What is said of a refusal.
pub(crate) fn script_explanation(refusal: ScriptTopic) -> Explanation
    ensures said { form_of result ≡ script_explanation refusal }
    ensures shown { Shows (Topic.Script refusal) result.shown.now }
{
    match refusal {
        ScriptTopic::TooLarge => TOO_LARGE,
        ScriptTopic::BadByte => BAD_BYTE,
        ScriptTopic::OpenString => OPEN_STRING,
        ScriptTopic::OpenEre => OPEN_ERE,
        ScriptTopic::LeftOut => LEFT_OUT,
        ScriptTopic::NotWhole => NOT_WHOLE,
        ScriptTopic::ConstantRange => CONSTANT_RANGE,
        ScriptTopic::Syntax => SYNTAX,
        ScriptTopic::TooDeep => TOO_DEEP,
        ScriptTopic::Misplaced => MISPLACED,
        ScriptTopic::TooMany => TOO_MANY,
        ScriptTopic::DuplicateName => DUPLICATE_NAME,
        ScriptTopic::UnknownFunction => UNKNOWN_FUNCTION,
        ScriptTopic::ArgCount => ARG_COUNT,
        ScriptTopic::KindClash => KIND_CLASH,
    }
}
