//! The record, and the special variables that count and hold.
ghost use Rattle.std.specs.Prelude.{◌≡◌, ◌≢◌, ◌==◌, cond, Err, IfErr, Ok, OnErr, OnOk, pos};
ghost use Rattle.awk_values.specs.Operators.{sum};
ghost use Rattle.sem_primitives.specs.InputMeaning.{counted_by, counted_record};
ghost use Rattle.sem_primitives.specs.SharedState.{Inner, with_special};
ghost use Rattle.host_worlds.specs.Counts.{IsCounted, count_after, next_count};
ghost use Rattle.sem_primitives.specs.ConstantNumbers.{special_number};
ghost use Rattle.host_texts.specs.States.{specials_of, with_texts};

use awk_text::MAX_NUMBER;
use awk_values::{Fault, Value, to_number};
use host_texts::Texts;
use sem_primitives::Special;

const LARGEST: i64 = MAX_NUMBER as i64;

/// The value of a special variable, among all of them, is another.
#[tactic(auto, using(crate::proofs::SpecialNumbers::number_within))]
fn put(values: &mut [Value; 14], special: Special, value: Value)
    ensures { specials_of values.new ≡ (λ t. cond (special_number special == special_number t) value
        (specials_of values.old t)) }
{
    values[usize::from(special.number())] = value;
}

/// Gives a special variable another value; NF is not kept so.
pub(crate) fn give(texts: &mut Texts, special: Special, value: Value)
    ensures { (inner : Inner) → with_texts texts.new inner
        ≡ with_special special value (with_texts texts.old inner) }
{
    put(&mut texts.specials.values, special, value);
}

/// The next number.
#[inline(always)]
fn one_more(number: i64) -> Result<i64, Fault>
    ensures { result ≡ sum number (pos 1) }
{
    if number >= LARGEST {
        return Err(Fault::Range);
    }
    if number + 1 >= -LARGEST {
        Ok(number + 1)
    } else {
        Err(Fault::Range)
    }
}

/// The count after the one that a value holds.
#[inline(never)]
fn count_after(value: &Value) -> Result<i64, Fault>
    ensures { result ≡ count_after value.now }
{
    match to_number(value) {
        Ok(number) => one_more(number),
        Err(fault) => Err(fault),
    }
}

/// A value counts a record.
#[inline(always)]
fn count(value: &mut Value) -> Result<(), Fault>
    ensures ok { OnOk result (next_count value.old ≡ Ok value.new) }
    ensures err { IfErr result (λ fault. next_count value.old ≡ Err fault) }
    ensures refused { OnErr result (value.new ≡ value.old) }
{
    if let Value::Num(number) = value {
        *number = one_more(*number)?;
        return Ok(());
    }
    *value = Value::Num(count_after(value)?);
    Ok(())
}

/// A special variable counts a record, among all of them.
#[tactic(auto, using(crate::proofs::SpecialNumbers::number_within))]
#[inline(always)]
fn count_in(values: &mut [Value; 14], special: Special) -> Result<(), Fault>
    ensures ok { OnOk result (IsCounted special values.old values.new) }
    ensures err { IfErr result
        (λ fault. next_count (specials_of values.old special) ≡ Err fault) }
    ensures refused { OnErr result (values.new ≡ values.old) }
{
    count(&mut values[usize::from(special.number())])
}

/// A special variable counts a record, by its own number.
#[inline(always)]
fn count_by(texts: &mut Texts, special: Special) -> Result<(), Fault>
    requires { special ≢ Special.Nf }
    ensures ok { OnOk result ((inner : Inner) → counted_by special (with_texts texts.old inner)
        ≡ Ok (with_texts texts.new inner)) }
    ensures err { IfErr result
        (λ fault. (inner : Inner) → counted_by special (with_texts texts.old inner) ≡ Err fault) }
    ensures refused { OnErr result (texts.new ≡ texts.old) }
{
    count_in(&mut texts.specials.values, special)
}

/// NR counts a record, and then FNR.
#[inline(always)]
pub(crate) fn count_record(texts: &mut Texts) -> Result<(), Fault>
    ensures ok { OnOk result ((inner : Inner) → counted_record (with_texts texts.old inner)
        ≡ Ok (with_texts texts.new inner)) }
    ensures err { IfErr result
        (λ fault. (inner : Inner) → counted_record (with_texts texts.old inner) ≡ Err fault) }
{
    count_by(texts, Special::Nr)?;
    count_by(texts, Special::Fnr)
}
