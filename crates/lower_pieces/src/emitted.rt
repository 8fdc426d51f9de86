//! Instructions that were emitted.
ghost use Rattle.std.specs.Prelude.{◌≡◌, ◌<◌, true, false, IfOk};
ghost use Rattle.std.specs.Vec.{vec_capacity, vec_len};
ghost use Rattle.lower_model.specs.Small.{emit};
ghost use Rattle.wasm_types.specs.Syntax.{Instructions, Then};
ghost use Rattle.wasm_types.specs.View.{view};
ghost use Rattle.lower_pieces.specs.Emits.{followed, Emits, Holds, Reads};

use std::alloc::{AllocError, Global};
use wasm_types::{Instr, Simple};

/// For how many instructions there is room at first, and at least for how many more then: most lists have fewer.
pub(crate) const ROOM: usize = 8;

/// Instructions that were emitted. Once memory runs out for one no more are taken: only who asks for all of them learns of it.
#[derive(Drop)]
pub struct Emitted {
    code: Vec<Instr>,
    is_refused: bool,
}

impl Emitted {
    /// None yet.
    pub fn new(alloc: Global) -> Self
        ensures { Holds result (λ after. after) }
    {
        Emitted {
            code: Vec::new(alloc),
            is_refused: false,
        }
    }

    /// Whether there is room for another one, which is made if need be.
    #[inline(always)]
    fn has_room(&mut self) -> bool
        ensures code { self.new.code.items ≡ self.old.code.items }
        ensures open { result ≡ true → self.old.is_refused ≡ false }
        ensures room { result ≡ true → vec_len self.new.code < vec_capacity self.new.code }
        ensures refused { result ≡ false → self.new.is_refused ≡ true }
    {
        if self.is_refused {
            return false;
        }
        if self.code.len() < self.code.capacity() {
            return true;
        }
        self.is_refused = self.code.reserve(ROOM).is_err();
        !self.is_refused
    }

    /// Adds an instruction.
    pub(crate) fn put(&mut self, instruction: Instr)
        ensures { Emits self.old self.new (Then (view instruction)) }
    {
        if self.has_room() {
            self.code.push_reserved(instruction);
        }
    }

    /// Adds an instruction without a body.
    pub(crate) fn put_plain(&mut self, simple: Simple)
        ensures { Emits self.old self.new (emit simple) }
    {
        if self.has_room() {
            self.code.push_reserved(Instr::Plain(simple));
        }
    }

    /// Takes no more, where memory ran out for what was to be added: nothing is promised of it then.
    pub fn refuse(&mut self)
        ensures { (rest whole : Instructions) → Reads self.new rest whole }
    {
        self.is_refused = true;
    }

    /// All of them, unless memory ran out for one.
    pub fn all(self) -> Result<Vec<Instr>, AllocError>
        ensures { IfOk result (λ code. (rest whole : Instructions) → Reads self rest whole
            → followed code.items rest ≡ whole) }
    {
        if self.is_refused {
            return Err(AllocError);
        }
        Ok(self.code)
    }
}
