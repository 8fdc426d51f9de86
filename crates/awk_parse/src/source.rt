//! What is left of the tokens, and why reading stopped.

ghost use Rattle.std.specs.Prelude.{◌≡◌, ◌++◌, ◌∷◌, [], MatchOption, None, Some, Ok, Err};
ghost use Rattle.awk_grammar.specs.Reading.{name_at};
ghost use Rattle.awk_parse.specs.Marks.{mark_at};
ghost use Rattle.awk_parse.specs.Seen.{seen};
ghost use Rattle.awk_parse.specs.declared.refusal.Refusal.TheVariants.{NoMemory};
ghost use Rattle.awk_parse.specs.Parsed.{stands, at, ended, Parsed, Passed, is_read, IsSyntax, IsNoSyntax};

use crate::mark::{Mark, after};
use crate::peek::{after_name, stopped};
use crate::refusal::Refusal;
use awk_tokens::Token;
use latched::push;
use std::alloc::Global;

/// What is left of the tokens. Once reading stopped nothing is left: what is read from then on stands for nothing, and who asks at the end learns why.
#[derive(Clone, Copy)]
pub struct Source<'a> {
    pub alloc: Global,
    pub rest: &'a [Token<'a>],
    pub refused: Option<Refusal>,
}

impl<'a> Source<'a> {
    /// Reading stops here, if it did not stop before.
    #[inline(never)]
    pub fn refuse(&mut self, refusal: Refusal)
        ensures { at self.new ≡ ended (at self.old) refusal }
    {
        if self.refused.is_none() {
            self.refused = Some(refusal);
            self.rest = &[];
        }
    }

    /// Goes on here.
    pub fn go_on(&mut self, rest: &'a [Token<'a>])
        ensures { at self.new ≡ stands (seen rest.now) self.old.refused }
    {
        self.rest = rest;
    }

    /// Goes on after what must come next.
    #[inline(never)]
    pub fn expect(&mut self, mark: Mark)
        ensures { Passed (at self.old) (at self.new) (mark_at mark) }
    {
        match after(mark, self.rest) {
            Some(rest) => self.go_on(rest),
            None => self.refuse(stopped(self.rest)),
        }
    }

    /// A name.
    #[inline(never)]
    pub fn name(&mut self) -> Vec<u8>
        ensures { Parsed result.items (at self.old) (at self.new) name_at }
    {
        let Some((text, rest)) = after_name(self.rest) else {
            self.refuse(stopped(self.rest));
            return Vec::new(self.alloc);
        };
        self.go_on(rest);
        self.copied(text)
    }

    /// A text that was read, on the heap.
    pub fn copied(&mut self, text: &[u8]) -> Vec<u8>
        ensures { Parsed result.items (at self.old) (at self.new) (is_read text.now) }
    {
        match text.to_vec(self.alloc) {
            Ok(text) => text,
            Err(_) => {
                self.refuse(Refusal::NoMemory);
                Vec::new(self.alloc)
            }
        }
    }

    /// Goes on where an attempt ended, and gives what it read; where the tokens do not go on so, none, and reading goes on from where it stood.
    #[inline(never)]
    pub fn settled<T: Drop>(&mut self, attempt: Source<'a>, read: T) -> Option<T>
        ensures { MatchOption result (IsSyntax attempt.entry.refused × (at self.new ≡ at self.old))
            (λ x. (x ≡ read) × (IsNoSyntax attempt.entry.refused × (at self.new ≡ at attempt.entry))) }
    {
        if let Some(Refusal::Syntax(_)) = attempt.refused {
            return None;
        }
        *self = attempt;
        Some(read)
    }

    /// A value on the heap; none where reading stopped.
    #[inline(never)]
    pub fn boxed<T: Drop>(&mut self, value: T) -> Option<Box<T>>
        ensures { MatchOption result (at self.new ≡ ended (at self.old) NoMemory)
            (λ b. (b.value ≡ value) × (at self.new ≡ at self.old)) }
    {
        if self.refused.is_some() {
            return None;
        }
        match Box::new(self.alloc, value) {
            Ok(value) => Some(value),
            Err(_) => {
                self.refuse(Refusal::NoMemory);
                None
            }
        }
    }

    /// Adds an item to a list.
    #[inline(never)]
    pub fn push<T: Drop>(&mut self, items: &mut Vec<T>, item: T)
        ensures { Parsed items.new.items (at self.old) (at self.new)
            (is_read (items.old.items ++ item ∷ [])) }
    {
        if push(items, item).is_err() {
            self.refuse(Refusal::NoMemory);
        }
    }

    /// Adds an item to a list, which comes boxed.
    #[inline(never)]
    pub fn push_boxed<T: Drop>(&mut self, items: &mut Vec<T>, item: Box<T>)
        ensures { Parsed items.new.items (at self.old) (at self.new)
            (is_read (items.old.items ++ item.value ∷ [])) }
    {
        self.push(items, Box::into_inner(item));
    }
}
