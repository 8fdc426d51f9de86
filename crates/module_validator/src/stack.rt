// What is known of a stack of types, and the labels around.
ghost use Rattle.std.specs.Prelude.{◌≡◌, List, ◌∷◌, [], true, false, Some, None, reverse, OnOk, MatchOption, ◌↔◌, IsTrue, slice_get, MatchResult, drop};
ghost use Rattle.module_validator.specs.Forms.{pop, pop_any, push, push_one, pops, after, Fits, Sees, SeesAny, Judges};
ghost use Rattle.std.specs.List.{All};
ghost use Rattle.wasm_types.specs.Typing.{one, Drops, Leaves, Selects, Fixed};

use std::alloc::{AllocError, Global};
use std::marker::Model;
use wasm_types::ValType;

/// Why code is refused.
#[derive(Clone, Copy)]
pub enum Refusal {
    /// The rules do not allow it.
    Untyped,
    NoMemory,
}

impl From<AllocError> for Refusal {
    ghost use Rattle.std.specs.Prelude.{◌≡◌};
    ghost use Rattle.module_validator.specs.declared.stack.Refusal.TheVariants.{NoMemory};

    ghost from_gives = { λ _ e. e ≡ NoMemory };

    fn from(_e: AllocError) -> Refusal {
        Refusal::NoMemory
    }
}

/// What is known of a stack of types. A contract sees the topmost entries, the topmost first,
/// and whether anything may lie below them, since the code is not reached.
#[derive(Drop)]
pub struct Stack {
    items: Vec<Option<ValType>>,
    unreached: bool,
}

impl Model for Stack {
    ghost use Rattle.std.specs.Prelude.{List, Option, Bool, reverse};
    ghost use Rattle.wasm_types.specs.declared.types.ValType.{ValType};

    ghost Value = { List (Option ValType) × Bool };

    ghost view = { λ s. (reverse s.items.items, s.unreached) };
}

impl Stack {
    pub(crate) fn new(alloc: Global) -> Stack
        ensures { result ≡ ([], false) }
    {
        Stack {
            items: Vec::new(alloc),
            unreached: false,
        }
    }

    /// Puts an entry on top.
    pub(crate) fn put(&mut self, entry: Option<ValType>) -> Result<(), Refusal>
        ensures { Sees result self.new (Some (push entry self.old)) }
    {
        match self.items.push(entry) {
            Ok(()) => Ok(()),
            Err(_) => Err(Refusal::NoMemory),
        }
    }

    /// Puts a result, if there is one, on top.
    pub(crate) fn put_one(&mut self, kind: Option<ValType>) -> Result<(), Refusal>
        ensures { Sees result self.new (Some (push_one kind self.old)) }
    {
        match kind {
            Some(k) => self.put(Some(k)),
            None => Ok(()),
        }
    }

    /// Takes whatever lies on top.
    pub(crate) fn take_any(&mut self) -> Result<Option<ValType>, Refusal>
        ensures { SeesAny result self.new (pop_any self.old) }
    {
        match self.items.pop() {
            Some(entry) => Ok(entry),
            None => {
                if self.unreached {
                    Ok(None)
                } else {
                    Err(Refusal::Untyped)
                }
            }
        }
    }

    /// Takes an operand of a type.
    pub(crate) fn take(&mut self, kind: ValType) -> Result<(), Refusal>
        ensures { Sees result self.new (pop kind self.old) }
    {
        match self.take_any()? {
            Some(k) => {
                if k == kind {
                    Ok(())
                } else {
                    Err(Refusal::Untyped)
                }
            }
            None => Ok(()),
        }
    }

    /// Takes a result, if there is one.
    pub(crate) fn take_one(&mut self, kind: Option<ValType>) -> Result<(), Refusal>
        ensures { Sees result self.new (pops (one kind) self.old) }
    {
        match kind {
            Some(k) => self.take(k),
            None => Ok(()),
        }
    }

    /// Takes operands of such types, the last on top.
    pub(crate) fn take_all(&mut self, kinds: &[ValType]) -> Result<(), Refusal>
        ensures { Sees result self.new (pops (reverse kinds.now) self.old) }
    {
        let mut left = kinds;
        while let Some((k, rest)) = left.split_last() {
            self.take(*k)?;
            left = rest;
        }
        Ok(())
    }

    /// The code that follows is not reached.
    pub(crate) fn cut(&mut self)
        ensures { self.new ≡ ([], true) }
    {
        self.items.clear();
        self.unreached = true;
    }

    /// Takes a result, if there is one; the code that follows is not reached.
    pub(crate) fn leave(&mut self, kind: Option<ValType>) -> Result<(), Refusal>
        ensures { Sees result self.new (after (Leaves (one kind)) self.old) }
    {
        self.take_one(kind)?;
        self.cut();
        Ok(())
    }

    /// Takes one operand and gives a result.
    pub(crate) fn unary(&mut self, kind: ValType, gives: ValType) -> Result<(), Refusal>
        ensures { Sees result self.new (after (Fixed (kind ∷ []) (Some gives)) self.old) }
    {
        self.take(kind)?;
        self.put(Some(gives))
    }

    /// Takes two operands and gives a result.
    pub(crate) fn binary(&mut self, kind: ValType, gives: ValType) -> Result<(), Refusal>
        ensures { Sees result self.new (after (Fixed (kind ∷ (kind ∷ [])) (Some gives)) self.old) }
    {
        self.take(kind)?;
        self.take(kind)?;
        self.put(Some(gives))
    }

    pub(crate) fn discard(&mut self) -> Result<(), Refusal>
        ensures { Sees result self.new (after Drops self.old) }
    {
        self.take_any()?;
        Ok(())
    }

    pub(crate) fn select(&mut self) -> Result<(), Refusal>
        ensures { Sees result self.new (after Selects self.old) }
    {
        self.take(ValType::I32)?;
        match self.take_any()? {
            Some(k) => {
                self.take(k)?;
                self.put(Some(k))
            }
            None => {
                let other = self.take_any()?;
                self.put(other)
            }
        }
    }

    /// Whether this may be the empty stack.
    pub(crate) fn is_done(&self) -> bool
        ensures { IsTrue result ↔ Fits self.now [] }
    {
        self.items.is_empty()
    }

    /// Whether this may be a stack of just that result.
    pub(crate) fn end(mut self, kind: Option<ValType>) -> Result<(), Refusal>
        ensures { Judges result (Fits self (one kind)) }
    {
        self.take_one(kind)?;
        if self.is_done() {
            Ok(())
        } else {
            Err(Refusal::Untyped)
        }
    }
}

/// The result types of the labels around. A contract sees the innermost first.
#[derive(Drop)]
pub struct Labels {
    items: Vec<Option<ValType>>,
}

impl Model for Labels {
    ghost use Rattle.std.specs.Prelude.{List, Option, reverse};
    ghost use Rattle.wasm_types.specs.declared.types.ValType.{ValType};

    ghost Value = { List (Option ValType) };

    ghost view = { λ s. reverse s.items.items };
}

impl Labels {
    pub(crate) fn new(alloc: Global) -> Labels
        ensures { result ≡ [] }
    {
        Labels {
            items: Vec::new(alloc),
        }
    }

    pub(crate) fn enter(&mut self, kind: Option<ValType>) -> Result<(), AllocError>
        ensures { OnOk result (self.new ≡ kind ∷ self.old) }
    {
        self.items.push(kind)?;
        Ok(())
    }

    pub(crate) fn leave(&mut self)
        ensures { self.new ≡ drop 1 self.old }
    {
        self.items.pop();
    }

    pub(crate) fn get(&self, n: u32) -> Option<Option<ValType>>
        ensures { result ≡ slice_get self.now n }
    {
        let n = n as usize;
        if n < self.items.len() {
            Some(self.items[self.items.len() - 1 - n])
        } else {
            None
        }
    }

    /// Whether these labels have all this type.
    pub(crate) fn are_all(&self, ns: &[u32], kind: Option<ValType>) -> bool
        ensures { IsTrue result ↔ All (λ k. slice_get self.now k ≡ Some kind) ns.now }
    {
        ns.iter().all(|n| self.get(*n) == Some(kind))
    }
}
