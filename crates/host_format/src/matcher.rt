//! An expression's text, with its automaton.
ghost use Rattle.std.specs.Prelude.{◌≡◌, ◌↔◌, IfErr, IfOk, IsTrue, Ok, false};
ghost use Rattle.ere_syntax.specs.Tree.{Tree};
ghost use Rattle.ere_syntax.specs.FirstMatch.{IsFirstMatch, IsMatch};
ghost use Rattle.sem_primitives.specs.Eres.{expression_of};
ghost use Rattle.sem_primitives.specs.Fields.{Expression, pieces_of};
ghost use Rattle.host_format.specs.Spans.{AreSpans};
ghost use Rattle.host_bytes.specs.Outcomes.{IsStopOf};
ghost use Rattle.host_format.specs.Substitutions.{substitution};

use crate::eres::expression;
use crate::fields::split_by_expression;
use crate::span::Span;
use crate::substitution::{Substituted, substitute};
use awk_values::{Bytes, Stop};
use ere_match::{Auto, first_match, is_match};
use std::alloc::{AllocError, Global};
use std::marker::Model;

/// A text that is an expression, with the automaton of that expression. A clause sees the text alone.
#[derive(Drop)]
pub struct Matcher {
    text: Bytes,
    /// In a box, since matchers are moved.
    auto: Box<Auto>,
}

impl Model for Matcher {
    ghost use Rattle.std.specs.Prelude.{List, ℕ};
    ghost use Rattle.host_format.specs.Expressions.{IsExpression};

    ghost Value = { List ℕ };

    ghost view = { λ m. m.text };

    ghost invariant = { λ m. IsExpression m.text m.auto.value };
}

impl Matcher {
    /// The matcher of a text.
    ///
    /// # Errors
    ///
    /// The fault of a text that is no expression, or one past the limits; [`Stop::NoMemory`].
    pub fn of(alloc: Global, text: Bytes) -> Result<Matcher, Stop>
        ensures ok { IfOk result (λ matcher. matcher ≡ text) }
        ensures err { IfErr result (IsStopOf (expression_of text)) }
    {
        let auto = expression(alloc, text.as_slice())?;
        match Box::new(alloc, auto) {
            Ok(auto) => Ok(Matcher { text, auto }),
            Err(_) => Err(Stop::NoMemory),
        }
    }

    /// Its text, shared.
    pub(crate) fn text(&self) -> Result<Bytes, AllocError>
        ensures { IfOk result (λ text. text ≡ self.now) }
    {
        self.text.clone()
    }

    /// Whether it is the matcher of a text.
    pub fn is_of(&self, text: &Bytes) -> bool
        ensures { IsTrue result ↔ (self.now ≡ text.now) }
    {
        self.text == *text
    }

    /// Whether the expression matches somewhere in the text.
    pub fn is_match(&mut self, text: &[u8]) -> Result<bool, AllocError>
        ensures found { IfOk result
            (λ found. (t : Tree) × (expression_of self.old ≡ Ok t) × IsMatch t text.now found) }
        ensures kept { self.new ≡ self.old }
    {
        let found = is_match(&mut self.auto, text)?;
        Ok(found)
    }

    /// The first match in the text, and the longest of those that begin there.
    pub fn first_match(&mut self, text: &[u8]) -> Result<Option<(usize, usize)>, AllocError>
        ensures found { IfOk result (λ found. (t : Tree) × (expression_of self.old ≡ Ok t)
            × IsFirstMatch t text.now 0 found) }
        ensures kept { self.new ≡ self.old }
    {
        let found = first_match(&mut self.auto, text, 0)?;
        Ok(found)
    }

    /// The pieces of the text between the matches that are not empty, as parts of it. An empty text has none.
    pub fn split(&mut self, alloc: Global, text: &[u8]) -> Result<Vec<Span>, AllocError>
        ensures pieces { IfOk result (λ spans. (t : Tree) × (expression_of self.old ≡ Ok t)
            × AreSpans text.now spans.items (pieces_of (Expression t) false text.now)) }
        ensures kept { self.new ≡ self.old }
    {
        let spans = split_by_expression(alloc, text, &mut self.auto, false)?;
        Ok(spans)
    }

    /// The text with its first match, or with every match, replaced.
    ///
    /// # Errors
    ///
    /// `TextLimit` where the new text is past 67,108,864 bytes, and [`Stop::NoMemory`].
    pub fn substitute(
        &mut self,
        alloc: Global,
        by: &[u8],
        text: &Bytes,
        all: bool,
    ) -> Result<Substituted, Stop>
        ensures ok { IfOk result (λ new. (t : Tree) × (expression_of self.old ≡ Ok t)
            × (substitution t by.now text.now all ≡ Ok (new.count, new.text))) }
        ensures err { IfErr result (λ stop. (t : Tree) × (expression_of self.old ≡ Ok t)
            × IsStopOf (substitution t by.now text.now all) stop) }
        ensures kept { self.new ≡ self.old }
    {
        let new = match substitute(alloc, &mut self.auto, by, text, all) {
            Ok(new) => new,
            Err(stop) => return Err(stop),
        };
        Ok(new)
    }
}
