//! What is said of traps.
ghost use Rattle.std.specs.Prelude.{◌≡◌};
ghost use Rattle.run_report.specs.Explanations.{form_of, trap_explanation};
ghost use Rattle.run_report.specs.Topics.{Shows};
ghost use Rattle.run_report.specs.declared.topic.Topic.TheVariants as Topic;

use crate::explained::Explanation;
use wasm_store::TrapKind;

const UNREACHABLE: Explanation = Explanation {
    meaning: "The module ran the instruction unreachable.",
    command: "awkwasm exec m.wasm   # m.wasm: (module (func (export \"main\") (result i32) unreachable))",
    shown: "awkwasm: Unreachable",
    advice: "Compiled scripts never trap. Report it to the author of the module.",
};

const DIVIDE_BY_ZERO: Explanation = Explanation {
    meaning: "The module divided an integer by 0.",
    command: "awkwasm exec m.wasm   # m.wasm: (module (func (export \"main\") (result i32) (i32.div_s (i32.const 1) (i32.const 0))))",
    shown: "awkwasm: DivideByZero",
    advice: "Compiled scripts never trap. Report it to the author of the module.",
};

const INTEGER_OVERFLOW: Explanation = Explanation {
    meaning: "A quotient in the module does not fit into its integer type.",
    command: "awkwasm exec m.wasm   # m.wasm: (module (func (export \"main\") (result i32) (i32.div_s (i32.const 0x80000000) (i32.const -1))))",
    shown: "awkwasm: IntegerOverflow",
    advice: "Compiled scripts never trap. Report it to the author of the module.",
};

const MEMORY_BOUNDS: Explanation = Explanation {
    meaning: "A load or store in the module reaches past the end of its memory.",
    command: "awkwasm exec m.wasm   # m.wasm: (module (memory 1) (func (export \"main\") (result i32) (i32.load (i32.const 65536))))",
    shown: "awkwasm: MemoryBounds",
    advice: "Compiled scripts never trap. Report it to the author of the module.",
};

const TABLE_BOUNDS: Explanation = Explanation {
    meaning: "An indirect call in the module reaches past the end of its table.",
    command: "awkwasm exec m.wasm   # m.wasm: (module (table 1 funcref) (func (export \"main\") (result i32) (call_indirect (result i32) (i32.const 1))))",
    shown: "awkwasm: TableBounds",
    advice: "Compiled scripts never trap. Report it to the author of the module.",
};

const EMPTY_ELEMENT: Explanation = Explanation {
    meaning: "An indirect call in the module meets an element of its table that has no function.",
    command: "awkwasm exec m.wasm   # m.wasm: (module (table 1 funcref) (func (export \"main\") (result i32) (call_indirect (result i32) (i32.const 0))))",
    shown: "awkwasm: EmptyElement",
    advice: "Compiled scripts never trap. Report it to the author of the module.",
};

const WRONG_TYPE: Explanation = Explanation {
    meaning: "An indirect call in the module meets a function of another type.",
    command: "awkwasm exec m.wasm   # m.wasm: (module (table funcref (elem $f)) (func $f) (func (export \"main\") (result i32) (call_indirect (result i32) (i32.const 0))))",
    shown: "awkwasm: WrongType",
    advice: "Compiled scripts never trap. Report it to the author of the module.",
};

const BAD_HANDLE: Explanation = Explanation {
    meaning: "The module passed the handle of a value, array or iterator that does not exist to a host call, for example one that it had consumed.",
    command: "awkwasm exec m.wasm   # m.wasm: (module (import \"awk1\" \"to_num\" (func (param i32) (result i64))) (func (export \"main\") (result i32) (drop (call 0 (i32.const 9))) (i32.const 0)))",
    shown: "awkwasm: BadHandle",
    advice: "Compiled scripts never trap. Report it to the author of the module. docs/EMBEDDING.md says which handles each call consumes.",
};

const BAD_POINTER: Explanation = Explanation {
    meaning: "The module passed an address and a length that do not fit into its memory to a host call.",
    command: "awkwasm exec m.wasm   # m.wasm: (module (import \"awk1\" \"lit\" (func (param i32 i32) (result i32))) (memory 1) (func (export \"main\") (result i32) (call 0 (i32.const 65536) (i32.const 1))))",
    shown: "awkwasm: BadPointer",
    advice: "Compiled scripts never trap. Report it to the author of the module.",
};

const BAD_ARGUMENT: Explanation = Explanation {
    meaning: "The module passed another argument that does not fit to a host call, or made the call out of turn.",
    command: "awkwasm exec m.wasm   # m.wasm: (module (import \"awk1\" \"fail\" (func (param i32))) (func (export \"main\") (result i32) (call 0 (i32.const 99)) (i32.const 0)))",
    shown: "awkwasm: BadArgument",
    advice: "Compiled scripts never trap. Report it to the author of the module. docs/EMBEDDING.md says what each call takes.",
};

/// What is said of a trap.
pub(crate) fn trap_explanation(kind: TrapKind) -> Explanation
    ensures said { form_of result ≡ trap_explanation kind }
    ensures shown { Shows (Topic.Trap kind) result.shown.now }
{
    match kind {
        TrapKind::Unreachable => UNREACHABLE,
        TrapKind::DivideByZero => DIVIDE_BY_ZERO,
        TrapKind::IntegerOverflow => INTEGER_OVERFLOW,
        TrapKind::MemoryBounds => MEMORY_BOUNDS,
        TrapKind::TableBounds => TABLE_BOUNDS,
        TrapKind::EmptyElement => EMPTY_ELEMENT,
        TrapKind::WrongType => WRONG_TYPE,
        TrapKind::BadHandle => BAD_HANDLE,
        TrapKind::BadPointer => BAD_POINTER,
        TrapKind::BadArgument => BAD_ARGUMENT,
    }
}
