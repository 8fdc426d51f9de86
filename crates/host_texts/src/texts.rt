//! What these imports read and change.
ghost use Rattle.std.specs.Prelude.{◌≡◌, None, IfOk};
ghost use Rattle.sem_primitives.specs.SharedState.{specials_at_start};
ghost use Rattle.sem_primitives.specs.declared.constants.Special.{Special as AnySpecial};
ghost use Rattle.host_texts.specs.States.{no_record, specials_of};

use crate::specials::Specials;
use awk_values::Value;
use host_fields::Record;
use host_format::Expressions;
use std::alloc::{AllocError, Global};

/// What these imports read and change of the state that a script and its host share.
#[derive(Drop)]
pub struct Texts {
    pub specials: Specials,
    /// `$0` and the fields.
    pub current_record: Record,
    /// What a substitution made, until it is given.
    pub substituted: Option<Value>,
    /// The expressions that were met last.
    pub expressions: Expressions,
}

impl Texts {
    /// Before a script runs with this many operands.
    ///
    /// # Errors
    ///
    /// There is no memory.
    pub fn at_start(alloc: Global, operands: u32) -> Result<Texts, AllocError>
        ensures specials { IfOk result (λ texts. (t : AnySpecial)
            → specials_of texts.specials.values t ≡ specials_at_start operands t) }
        ensures fields { IfOk result (λ texts. texts.current_record ≡ no_record) }
        ensures substituted { IfOk result (λ texts. texts.substituted ≡ None) }
    {
        Ok(Texts {
            specials: Specials::at_start(alloc, operands)?,
            current_record: Record::new(alloc),
            substituted: None,
            expressions: Expressions::new(alloc)?,
        })
    }
}
