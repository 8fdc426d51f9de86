//! The special variables.
ghost use Rattle.std.specs.Prelude.{◌≡◌, ◌<◌, IfOk, OnOk, slice_set};
ghost use Rattle.sem_primitives.specs.ConstantNumbers.{special_number};
ghost use Rattle.sem_primitives.specs.SharedState.{specials_at_start};
ghost use Rattle.sem_primitives.specs.declared.constants.Special.{Special as AnySpecial};
ghost use Rattle.host_texts.specs.Starts.{with_blanks, with_ends, with_formats, with_text};
ghost use Rattle.host_texts.specs.States.{specials_of};

use awk_values::{Bytes, Value};
use sem_primitives::Special;
use std::alloc::{AllocError, Global};

/// The values of the special variables, in the order of their numbers (POSIX.1-2017 awk, "Variables and Special Variables"). That of NF is
/// never looked at: NF is the number of fields.
#[derive(Drop)]
pub struct Specials {
    pub values: [Value; 14],
}

fn text(alloc: Global, bytes: &[u8]) -> Result<Value, AllocError>
    ensures { IfOk result (λ value. value ≡ Value.Text bytes.now) }
{
    Ok(Value::Text(Bytes::from_slice(alloc, bytes)?))
}

/// The place of a special variable among them.
#[tactic(auto, using(crate::proofs::SpecialNumbers::number_below))]
fn place_of(special: Special) -> usize
    ensures is { result ≡ special_number special }
    ensures below { result < 14 }
{
    usize::from(special.number())
}

impl Specials {
    /// Their values before a script runs with this many operands.
    ///
    /// # Errors
    ///
    /// There is no memory.
    #[tactic(auto, using(crate::proofs::Starts::started))]
    pub fn at_start(alloc: Global, operands: u32) -> Result<Specials, AllocError>
        ensures { IfOk result (λ specials. (t : AnySpecial) → specials_of specials.values t
            ≡ specials_at_start operands t) }
    {
        let mut specials = Specials {
            values: [
                Value::Num(i64::from(operands) + 1),
                Value::Uninit,
                Value::Uninit,
                Value::Num(0),
                Value::Uninit,
                Value::Num(0),
                Value::Num(0),
                Value::Uninit,
                Value::Uninit,
                Value::Uninit,
                Value::Num(-1),
                Value::Uninit,
                Value::Num(0),
                Value::Uninit,
            ],
        };
        specials.set_texts(alloc)?;
        Ok(specials)
    }

    /// Gives those that are texts theirs.
    fn set_texts(&mut self, alloc: Global) -> Result<(), AllocError>
        ensures { OnOk result
            (self.new.values ≡ with_ends (with_blanks (with_formats self.old.values))) }
    {
        self.set_formats(alloc)?;
        self.set_blanks(alloc)?;
        self.set_ends(alloc)
    }

    fn set_formats(&mut self, alloc: Global) -> Result<(), AllocError>
        ensures { OnOk result (self.new.values ≡ with_formats self.old.values) }
    {
        self.set_text(alloc, Special::Convfmt, b"%.6g")?;
        self.set_text(alloc, Special::Ofmt, b"%.6g")
    }

    fn set_blanks(&mut self, alloc: Global) -> Result<(), AllocError>
        ensures { OnOk result (self.new.values ≡ with_blanks self.old.values) }
    {
        self.set_text(alloc, Special::Fs, b" ")?;
        self.set_text(alloc, Special::Ofs, b" ")
    }

    fn set_ends(&mut self, alloc: Global) -> Result<(), AllocError>
        ensures { OnOk result (self.new.values ≡ with_ends self.old.values) }
    {
        self.set_text(alloc, Special::Ors, b"\n")?;
        self.set_text(alloc, Special::Rs, b"\n")?;
        self.set_text(alloc, Special::Subsep, b"\x1c")
    }

    /// Gives one a text.
    fn set_text(&mut self, alloc: Global, special: Special, bytes: &[u8]) -> Result<(), AllocError>
        ensures { OnOk result (self.new.values ≡ with_text special bytes.now self.old.values) }
    {
        self.set(special, text(alloc, bytes)?);
        Ok(())
    }

    /// The value of one; of NF, which is the number of fields, it is no use.
    pub fn get(&self, special: Special) -> &Value
        ensures { result.now ≡ specials_of self.now.values special }
    {
        &self.values[place_of(special)]
    }

    /// Gives one another value.
    pub fn set(&mut self, special: Special, value: Value)
        ensures { self.new.values ≡ slice_set self.old.values (special_number special) value }
    {
        self.values[place_of(special)] = value;
    }
}
