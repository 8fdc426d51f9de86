//! The code before the call of the host that a machine stands after: which instruction put what on the stack.
use host_imports::{Import, VariadicImport};
use sem_primitives::Primitive;
use wasm_machine::{Machine, Place};
use wasm_store::Word;
use wasm_types::Simple;

/// How the topmost operand came to be on the stack, and where the code that puts it there begins.
#[derive(Clone, Copy)]
pub enum Push {
    /// Out of a local, which was written at this place.
    Moved { start: usize, written: usize },
    /// The value of this handle is there still.
    Held { start: usize, handle: i32 },
    Field { start: usize, number: Number },
    Literal { start: usize, from: u32, size: u32 },
    Number { start: usize, number: Number },
    Special { start: usize, number: u32 },
    /// An element, whose key was the topmost operand.
    Element,
    /// Two texts, which were the topmost operands, as one.
    Joined,
}

/// A number that was an operand, as it stands in its word, and the place where it was read.
#[derive(Clone, Copy)]
pub struct Number {
    pub bits: u64,
    pub read: usize,
}

/// What is known of a write of a local: that it was the last one, or that this is to be looked for before another place.
#[derive(Clone, Copy)]
enum Write {
    At(usize),
    Before(usize),
    Unknown,
}

/// The code up to the call of the host that a machine stands after.
#[derive(Clone, Copy)]
pub struct CodeBefore<'a> {
    pub machine: &'a Machine,
    function: usize,
    /// The place of the call.
    pub call: usize,
}

/// The word of -1, which stands for no handle.
const NONE: u32 = u32::MAX;

/// The handle that a word is, unless it is none.
fn handle_of(word: Word) -> Option<i32> {
    match word {
        Word::I32(NONE) | Word::I64(_) => None,
        Word::I32(handle) => Some(handle.cast_signed()),
    }
}

/// Whether an import changes nothing that a script reads.
fn only_reads(import: Import) -> bool {
    match import {
        Import::Arg | Import::Variadic(VariadicImport::Sprintf) => true,
        Import::OfPrimitive(primitive) => matches!(
            primitive,
            Primitive::Num
                | Primitive::Lit
                | Primitive::Uninit
                | Primitive::Dup
                | Primitive::ToNum
                | Primitive::IntOf
                | Primitive::Truth
                | Primitive::Compare
                | Primitive::Concat
                | Primitive::Pow
                | Primitive::Fail
                | Primitive::GetSpecial
                | Primitive::Field
                | Primitive::Elem
                | Primitive::Has
                | Primitive::Join
                | Primitive::Length
                | Primitive::Matches
                | Primitive::Substr
                | Primitive::SubstrFrom
                | Primitive::Index
                | Primitive::Lower
                | Primitive::Upper
        ),
        _ => false,
    }
}

impl<'a> CodeBefore<'a> {
    /// The code before the last step of a machine, if that was a call.
    pub fn new(machine: &'a Machine) -> Option<CodeBefore<'a>> {
        let place = machine.place(0)?;
        Some(CodeBefore {
            machine,
            function: place.function,
            call: place.at.checked_sub(1)?,
        })
    }

    fn place(&self, at: usize) -> Place {
        Place {
            function: self.function,
            at,
        }
    }

    fn instruction(&self, at: usize) -> Option<Simple> {
        self.machine.instruction(self.place(at))
    }

    /// The instruction so many places before one.
    fn back(&self, at: usize, count: usize) -> Option<Simple> {
        self.instruction(at.checked_sub(count)?)
    }

    /// The import that is called at a place.
    pub fn import(&self, at: usize) -> Option<Import> {
        Import::of_number(self.machine.import(self.place(at))?)
    }

    fn import_back(&self, at: usize, count: usize) -> Option<Import> {
        self.import(at.checked_sub(count)?)
    }

    /// Whether a local is written at a place.
    fn writes(&self, at: usize, local: u32) -> bool {
        match self.instruction(at) {
            Some(Simple::LocalSet(number) | Simple::LocalTee(number)) => number == local,
            _ => false,
        }
    }

    /// Whether what is done at a place is done whenever the call is reached.
    fn is_passed(&self, at: usize) -> bool {
        self.machine.encloses(self.place(at), self.call)
    }

    /// Whether a value is copied at a place, in the body of an `if` that only asks whether there is one. Where a global lends its value to a parameter, that
    /// stands in the body of an `if` that asks whether the parameter has nothing.
    fn is_copied_if_any(&self, at: usize) -> bool {
        let (Some(test), Some(next)) = (at.checked_sub(2), at.checked_add(1)) else {
            return false;
        };
        let copied = matches!(self.import(next), Some(Import::OfPrimitive(Primitive::Dup)));
        copied && self.asks(at, 2) && (self.is_passed(test) || self.is_lent(at))
    }

    /// Whether an `if` that is always passed begins where that does in whose body a lender is copied.
    fn is_lent(&self, at: usize) -> bool {
        match at.checked_sub(7) {
            Some(test) => self.asks(at, 7) && self.is_passed(test),
            None => false,
        }
    }

    /// Whether the instruction so many places before one has a body, or ends one.
    fn is_joint(&self, at: usize, count: usize) -> bool {
        match at.checked_sub(count) {
            Some(place) => self.instruction(place).is_none(),
            None => false,
        }
    }

    /// Whether a comparison is asked for by an `if` that stands so many places before one.
    fn asks(&self, at: usize, count: usize) -> bool {
        match at.checked_sub(count) {
            Some(test) => {
                self.is_joint(test, 0) && matches!(self.back(test, 1), Some(Simple::Compare(..)))
            }
            None => false,
        }
    }

    /// Whether a number becomes a value at a place in the last way of two: in the other one there is no number yet.
    fn is_boxed(&self, at: usize) -> bool {
        let num = matches!(
            self.import_back(at, 1),
            Some(Import::OfPrimitive(Primitive::Num))
        );
        let uninit = matches!(
            self.import_back(at, 5),
            Some(Import::OfPrimitive(Primitive::Uninit))
        );
        num && uninit && self.is_joint(at, 3) && self.asks(at, 6)
    }

    /// The same where a text may stand beside the number, which is left where it is.
    fn is_boxed_beside(&self, at: usize) -> bool {
        let num = matches!(
            self.import_back(at, 1),
            Some(Import::OfPrimitive(Primitive::Num))
        );
        let uninit = matches!(
            self.import_back(at, 7),
            Some(Import::OfPrimitive(Primitive::Uninit))
        );
        num && uninit && self.is_joint(at, 3) && self.asks(at, 8) && self.asks(at, 12)
    }

    /// Where a local was written last before a place, if that was done. It is no handle's.
    fn numbered(&self, local: u32, before: usize) -> Option<usize> {
        for count in 0..before {
            let at = before - 1 - count;
            if self.writes(at, local) {
                return if self.is_passed(at) {
                    Some(at)
                } else {
                    self.lent(at)
                };
            }
        }
        None
    }

    /// Where the number of a parameter was written last, if at a place a global lends its value: at that place where the parameter has nothing, as the constant
    /// before says, and else where the parameter was read.
    fn lent(&self, at: usize) -> Option<usize> {
        if !self.asks(at, 2) || !self.is_passed(at.checked_sub(2)?) {
            return None;
        }
        match (self.back(at, 1)?, self.back(at, 4)?, self.back(at, 6)?) {
            (Simple::GlobalGet(_), Simple::I64Const(least), Simple::LocalGet(parameter)) => {
                match self.machine.local(parameter)? {
                    Word::I64(bits) if bits == least => Some(at),
                    _ => at.checked_sub(5),
                }
            }
            _ => None,
        }
    }

    /// Whether a local is written between a place and the call.
    fn is_written_after(&self, local: u32, place: usize) -> bool {
        for at in place..self.call {
            if at > place && self.writes(at, local) {
                return true;
            }
        }
        false
    }

    /// Whether a global is written between a place and the call.
    fn is_set_after(&self, global: u32, place: usize) -> bool {
        for at in place..self.call {
            if let Some(Simple::GlobalSet(number)) = self.instruction(at) {
                if number == global {
                    return true;
                }
            }
        }
        false
    }

    /// The word of a local that was written at a place: what it was read from has it still, or the local itself.
    fn word_from(&self, local: u32, written: usize) -> Option<Word> {
        match self.back(written, 1)? {
            Simple::GlobalGet(global) if !self.is_set_after(global, written) => {
                self.machine.global(global)
            }
            Simple::LocalGet(from) if !self.is_written_after(from, written) => {
                self.machine.local(from)
            }
            Simple::I64Const(bits) => Some(Word::I64(bits)),
            _ if !self.is_written_after(local, written) => self.machine.local(local),
            _ => None,
        }
    }

    /// The number that a local had at a place. Where nothing is written into it from there on, it has the number still, whoever wrote it.
    fn number_of(&self, local: u32, at: usize) -> Option<Number> {
        let (word, read) = if self.is_written_after(local, at.checked_sub(1)?) {
            let read = self.numbered(local, at)?;
            (self.word_from(local, read)?, read)
        } else {
            (self.machine.local(local)?, at)
        };
        match word {
            Word::I64(bits) => Some(Number { bits, read }),
            Word::I32(_) => None,
        }
    }

    /// The word of the number that becomes a value at a place; none where there is no number, as the constant so many places before says.
    fn boxed(&self, at: usize, count: usize) -> Option<u64> {
        match (self.back(at, 2)?, self.back(at, count)?) {
            (Simple::LocalGet(local), Simple::I64Const(least)) => {
                let number = self.number_of(local, at)?;
                (number.bits != least).then_some(number.bits)
            }
            _ => None,
        }
    }

    /// What a number that becomes a value at a place tells of who wrote the value last: it was written there.
    fn choice(&self, at: usize) -> Write {
        match (self.boxed(at, 8), at.checked_sub(6)) {
            (Some(_), Some(test)) if self.is_passed(test) => Write::At(at),
            _ => Write::Unknown,
        }
    }

    /// The same where a text may stand beside the number: that was written before the test.
    fn choice_beside(&self, at: usize) -> Write {
        match (self.boxed(at, 10), self.back(at, 14), at.checked_sub(12)) {
            (Some(bits), Some(Simple::I64Const(mark)), Some(test)) if self.is_passed(test) => {
                if bits == mark {
                    Write::Before(test)
                } else {
                    Write::At(at)
                }
            }
            _ => Write::Unknown,
        }
    }

    /// What a write at a place tells.
    fn write(&self, at: usize) -> Write {
        if self.is_passed(at) || self.is_copied_if_any(at) {
            Write::At(at)
        } else if self.is_boxed(at) {
            self.choice(at)
        } else if self.is_boxed_beside(at) {
            self.choice_beside(at)
        } else {
            Write::Unknown
        }
    }

    /// Where a local was written last before a place; none where that is not known.
    fn written(&self, local: u32, before: usize) -> Option<usize> {
        let mut end = before;
        for count in 0..before {
            let at = before - 1 - count;
            if at < end && self.writes(at, local) {
                match self.write(at) {
                    Write::At(at) => return Some(at),
                    Write::Before(place) => end = place,
                    Write::Unknown => return None,
                }
            }
        }
        None
    }

    /// The topmost operand came out of a local, in place of which there is none now.
    fn moved(&self, at: usize, local: u32) -> Option<Push> {
        let start = at.checked_sub(3)?;
        match (self.back(at, 2)?, self.instruction(start)?) {
            (Simple::I32Const(NONE), Simple::LocalGet(from)) if from == local => Some(
                Push::Moved {
                    start,
                    written: self.written(local, start)?,
                },
            ),
            _ => None,
        }
    }

    /// The topmost operand is that of a local; where it is put back at once, it came there before.
    fn read(&self, at: usize, local: u32) -> Option<Push> {
        let start = at.checked_sub(1)?;
        match self.instruction(at) {
            Some(Simple::LocalTee(to)) if to == local => Some(Push::Moved {
                start,
                written: self.written(local, start)?,
            }),
            _ => self.held(start, self.machine.local(local)?),
        }
    }

    fn held(&self, start: usize, word: Word) -> Option<Push> {
        let handle = handle_of(word)?;
        Some(Push::Held { start, handle })
    }

    /// The number that was the topmost operand.
    fn number(&self, at: usize) -> Option<Number> {
        match self.back(at, 1)? {
            Simple::I64Const(bits) => Some(Number { bits, read: at }),
            Simple::LocalGet(local) => self.number_of(local, at),
            _ => None,
        }
    }

    /// A text of the module's memory, by its place and its length.
    fn literal(&self, at: usize) -> Option<Push> {
        let start = at.checked_sub(3)?;
        match (self.instruction(start)?, self.back(at, 2)?) {
            (Simple::I32Const(from), Simple::I32Const(size)) => Some(Push::Literal {
                start,
                from,
                size,
            }),
            _ => None,
        }
    }

    /// The answer of a call of the host.
    fn answer(&self, at: usize) -> Option<Push> {
        let Import::OfPrimitive(primitive) = self.import_back(at, 1)? else {
            return None;
        };
        let start = at.checked_sub(2)?;
        match (primitive, self.instruction(start)?) {
            (Primitive::Dup, Simple::LocalTee(local)) => self.held(
                at.checked_sub(3)?,
                self.machine.local(local)?,
            ),
            (Primitive::Field, _) => Some(Push::Field {
                start,
                number: self.number(at - 1)?,
            }),
            (Primitive::Num, _) => Some(Push::Number {
                start,
                number: self.number(at - 1)?,
            }),
            (Primitive::GetSpecial, Simple::I32Const(number)) => Some(Push::Special {
                start,
                number,
            }),
            (Primitive::Lit, _) => self.literal(at),
            (Primitive::Elem, _) => Some(Push::Element),
            (Primitive::Concat, _) => Some(Push::Joined),
            _ => None,
        }
    }

    /// How the operand came to be on the stack that is the topmost one at a place.
    pub fn push(&self, at: usize) -> Option<Push> {
        match self.back(at, 1)? {
            Simple::LocalSet(local) => self.moved(at, local),
            Simple::LocalGet(local) => self.read(at, local),
            Simple::GlobalGet(global) => self.held(
                at.checked_sub(1)?,
                self.machine.global(global)?,
            ),
            Simple::Call(_) => self.answer(at),
            _ => None,
        }
    }

    /// The number of the array that was the topmost operand.
    pub fn array(&self, at: usize) -> Option<i32> {
        match self.back(at, 1)? {
            Simple::I32Const(number) => Some(number.cast_signed()),
            Simple::LocalGet(local) => handle_of(self.machine.local(local)?),
            Simple::GlobalGet(global) => handle_of(self.machine.global(global)?),
            _ => None,
        }
    }

    /// A constant that was an operand, so many places before a place.
    pub fn constant(&self, at: usize, count: usize) -> Option<u32> {
        match self.back(at, count)? {
            Simple::I32Const(number) => Some(number),
            _ => None,
        }
    }

    /// Where the code of the last value ends that is an operand at a place, or went onto the argument list: before constants, numbers and arrays.
    pub fn value(&self, at: usize) -> Option<usize> {
        for count in 0..at {
            let end = at - count;
            match (self.back(end, 1)?, self.import_back(end, 1)) {
                (_, Some(Import::Arg)) => {}
                (Simple::LocalSet(_) | Simple::Call(_), _) => return Some(end),
                (Simple::I32Const(_) | Simple::LocalGet(_) | Simple::GlobalGet(_), _) => {}
                _ => return None,
            }
        }
        None
    }

    /// Where the code of an operand begins that ends at a place.
    pub fn start(&self, end: usize) -> Option<usize> {
        match self.back(end, 1)? {
            Simple::LocalSet(_) => end.checked_sub(3),
            Simple::Call(_) => match self.import_back(end, 1)? {
                Import::OfPrimitive(Primitive::Lit) => end.checked_sub(3),
                Import::OfPrimitive(Primitive::Field | Primitive::Num) => end.checked_sub(2),
                _ => None,
            },
            _ => None,
        }
    }

    /// Whether nothing that a script reads was changed from a place on.
    pub fn only_reads(&self, from: usize) -> bool {
        for at in from..self.call {
            if let Some(Simple::Call(_)) = self.instruction(at) {
                match self.import(at) {
                    Some(import) if only_reads(import) => {}
                    _ => return false,
                }
            }
        }
        true
    }
}
