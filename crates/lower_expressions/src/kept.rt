//! What is kept where code is emitted.
ghost use Rattle.std.specs.Prelude.{◌≡◌, ◌≤◌, OnOk, get_or};
ghost use Rattle.mid_program.specs.Mid.{form_at};
ghost use Rattle.lower_pieces.specs.Bounds.{most_places};
ghost use Rattle.lower_pieces.specs.Forms.{view_form};
ghost use Rattle.lower_expressions.specs.Keeping.{kept_more, kept_none};
ghost use Rattle.lower_expressions.specs.Keeps.{keeping_in};

use crate::entry::Entry;
use lower_pieces::Form;
use sem_primitives::Answer;
use std::alloc::{AllocError, Global};
use std::marker::Model;

/// What is kept, the last one first.
#[derive(Drop)]
pub struct Kept {
    entries: Vec<Entry>,
}

impl Model for Kept {
    ghost use Rattle.std.specs.Prelude.{reverse};
    ghost use Rattle.lower_expressions.specs.Keeping.{Keeping, keeping_of};

    ghost Value = { Keeping };

    ghost view = { λ kept. keeping_of (reverse kept.entries.items) };
}

impl Kept {
    /// Nothing.
    pub fn none(alloc: Global) -> Self
        ensures { result ≡ kept_none }
    {
        Kept {
            entries: Vec::new(alloc),
        }
    }

    /// Something more is kept.
    pub fn push(&mut self, form: Form, temporary: u32) -> Result<(), AllocError>
        requires { temporary ≤ most_places }
        ensures { OnOk result (self.new ≡ kept_more (view_form form) temporary self.old) }
    {
        self.entries.push(Entry { form, temporary })?;
        Ok(())
    }

    /// What is kept with so many others after it.
    fn at(&self, after: usize) -> Entry
        ensures form { view_form result.form ≡ form_at self.now.forms after }
        ensures temporary { result.temporary ≡ get_or self.now.temporaries after 0 }
    {
        let count = self.entries.len();
        if count <= after {
            return Entry {
                form: Form::PrimitiveAnswer(Answer::Nothing),
                temporary: 0,
            };
        }
        self.entries[count - 1 - after]
    }
}

/// What is kept while code is emitted, the last one first: by the calls that wait, and before them.
#[derive(Clone, Copy)]
pub(crate) enum Keeps<'a> {
    Before(&'a Kept),
    Last(Entry, &'a Keeps<'a>),
}

/// What is kept with so many others after it.
pub(crate) fn kept_at<'a>(keeps: &'a Keeps<'a>, after: usize) -> Entry
    ensures form { view_form result.form ≡ form_at (keeping_in keeps.now).forms after }
    ensures temporary { result.temporary ≡ get_or (keeping_in keeps.now).temporaries after 0 }
{
    match keeps {
        Keeps::Before(kept) => kept.at(after),
        Keeps::Last(entry, before) => {
            if after == 0 {
                *entry
            } else {
                kept_at(before, after - 1)
            }
        }
    }
}
