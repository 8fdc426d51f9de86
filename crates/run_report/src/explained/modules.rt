//! What is said of modules that are refused.
ghost use Rattle.std.specs.Prelude.{◌≡◌};
ghost use Rattle.run_report.specs.Explanations.{form_of, module_explanation};
ghost use Rattle.run_report.specs.Topics.{Shows};
ghost use Rattle.run_report.specs.declared.topic.Topic.TheVariants as Topic;

use crate::explained::Explanation;
use crate::topic::ModuleTopic;

const BAD_HEADER: Explanation = Explanation {
    meaning: "This file is not a module: it does not begin with the 8 bytes of WebAssembly, version 1.",
    command: "echo 'BEGIN { print 2 }' | awkwasm exec /dev/stdin",
    shown: "awkwasm: BadHeader",
    advice: "exec runs what compile wrote: awkwasm compile prog.awk prog.wasm; awkwasm exec prog.wasm. To run a script without a module: awkwasm run \"$(cat prog.awk)\"",
};

const TRUNCATED: Explanation = Explanation {
    meaning: "The module ends too soon. The number is its length in bytes.",
    command: "printf '\\0asm\\1\\0\\0' | awkwasm exec /dev/stdin",
    shown: "awkwasm: Truncated 7",
    advice: "The file was cut off, for example by a full disk. Compile the script again, or copy the module again.",
};

const BAD_SECTION: Explanation = Explanation {
    meaning: "A section of the module is unknown, out of order, repeated or malformed. The number is the position of its first byte.",
    command: "printf '\\0asm\\1\\0\\0\\0\\77\\0' | awkwasm exec /dev/stdin",
    shown: "awkwasm: BadSection 8",
    advice: "Compile the script again. If the module is from another compiler, leave out what is newer than WebAssembly 1.0.",
};

const BAD_INTEGER: Explanation = Explanation {
    meaning: "An integer in the module is too long, or has wrong unused bits. The number is the position of its first byte.",
    command: "printf '\\0asm\\1\\0\\0\\0\\1\\200\\200\\200\\200\\200\\0' | awkwasm exec /dev/stdin",
    shown: "awkwasm: BadInteger 9",
    advice: "The file was changed. Compile the script again, or copy the module again.",
};

const BAD_OPCODE: Explanation = Explanation {
    meaning: "A byte in the module does not begin an instruction. The number is its position.",
    command: "printf '\\0asm\\1\\0\\0\\0\\1\\4\\1\\140\\0\\0\\3\\2\\1\\0\\12\\5\\1\\3\\0\\377\\13' | awkwasm exec /dev/stdin",
    shown: "awkwasm: BadOpcode 23",
    advice: "Compile the script again. If the module is from another compiler, allow only WebAssembly 1.0 and sign extension.",
};

const FLOAT: Explanation = Explanation {
    meaning: "The module has a floating-point type or instruction. The number is its position.",
    command: "printf '\\0asm\\1\\0\\0\\0\\1\\5\\1\\140\\1\\175\\0' | awkwasm exec /dev/stdin",
    shown: "awkwasm: Float 13",
    advice: "awkwasm runs modules that compute with integers only.",
};

const BAD_INDEX: Explanation = Explanation {
    meaning: "A function of the module names a type, function, local, global, label, table or memory that does not exist. The number is the index of that function.",
    command: "awkwasm exec m.wasm   # m.wasm: (module (func local.get 0 drop))",
    shown: "awkwasm: BadIndex 0",
    advice: "Report it to the author of the module. What compile writes is always valid.",
};

const BAD_TYPE: Explanation = Explanation {
    meaning: "A function of the module does not type-check. The number is its index.",
    command: "awkwasm exec m.wasm   # m.wasm: (module (func drop))",
    shown: "awkwasm: BadType 0",
    advice: "Report it to the author of the module. What compile writes is always valid.",
};

const BAD_ALIGN: Explanation = Explanation {
    meaning: "A load or store in the module has too large an alignment. The number is the index of its function.",
    command: "awkwasm exec m.wasm   # m.wasm: (module (memory 1) (func (drop (i32.load align=8 (i32.const 0)))))",
    shown: "awkwasm: BadAlign 0",
    advice: "Report it to the author of the module. What compile writes is always valid.",
};

const BAD_MODULE: Explanation = Explanation {
    meaning: "Something outside the functions of the module is invalid: an index, a limit, a constant, the start function, or two exports of one name.",
    command: "printf '\\0asm\\1\\0\\0\\0\\7\\10\\1\\4main\\0\\0' | awkwasm exec /dev/stdin",
    shown: "awkwasm: BadModule",
    advice: "Report it to the author of the module. What compile writes is always valid.",
};

const NO_MAIN: Explanation = Explanation {
    meaning: "The module does not export a function main that takes nothing and returns a 32-bit integer.",
    command: "printf '\\0asm\\1\\0\\0\\0' | awkwasm exec /dev/stdin",
    shown: "awkwasm: NoMain",
    advice: "exec runs what compile wrote. A module from elsewhere needs such a function.",
};

const BAD_IMPORT: Explanation = Explanation {
    meaning: "The module imports something that awkwasm does not have, or has with another type. The number is the index of the import, from 0 on.",
    command: "awkwasm exec m.wasm   # m.wasm: (module (import \"env\" \"now\" (func)) (func (export \"main\") (result i32) i32.const 0))",
    shown: "awkwasm: BadImport 0",
    advice: "docs/EMBEDDING.md lists all imports. Those of WASI are not among them.",
};

const SEGMENT_BOUNDS: Explanation = Explanation {
    meaning: "A segment of the module does not fit into its memory or table.",
    command: "awkwasm exec m.wasm   # m.wasm: (module (memory 1) (data (i32.const 65536) \"a\") (func (export \"main\") (result i32) i32.const 0))",
    shown: "awkwasm: SegmentBounds",
    advice: "Report it to the author of the module: make the memory or table larger, or place the segment lower.",
};

/// What is said of a refusal.
pub(crate) fn module_explanation(refusal: ModuleTopic) -> Explanation
    ensures said { form_of result ≡ module_explanation refusal }
    ensures shown { Shows (Topic.Module refusal) result.shown.now }
{
    match refusal {
        ModuleTopic::BadHeader => BAD_HEADER,
        ModuleTopic::Truncated => TRUNCATED,
        ModuleTopic::BadSection => BAD_SECTION,
        ModuleTopic::BadInteger => BAD_INTEGER,
        ModuleTopic::BadOpcode => BAD_OPCODE,
        ModuleTopic::Float => FLOAT,
        ModuleTopic::BadIndex => BAD_INDEX,
        ModuleTopic::BadType => BAD_TYPE,
        ModuleTopic::BadAlign => BAD_ALIGN,
        ModuleTopic::BadModule => BAD_MODULE,
        ModuleTopic::NoMain => NO_MAIN,
        ModuleTopic::BadImport => BAD_IMPORT,
        ModuleTopic::SegmentBounds => SEGMENT_BOUNDS,
    }
}
