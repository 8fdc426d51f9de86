//! The imports on values, each by a function of its own: a call of it takes no more room and registers than that import needs.
ghost use Rattle.std.specs.Prelude.{◌≡◌, IfSome, List, Ok, ℕ, false};
ghost use Rattle.awk_values.specs.Values.{number_of_value};
ghost use Rattle.sem_primitives.specs.declared.table.Primitive.TheVariants as row;
ghost use Rattle.host_imports.specs.declared.import.Import.TheVariants.{Arg, Drop, OfPrimitive};
ghost use Rattle.host_step.specs.HostState.{HostState};
ghost use Rattle.host_step.specs.HostStep.{refuses};
ghost use Rattle.host_values.specs.Evaluations.{Evaluates};
ghost use Rattle.host_values.specs.ValueEvaluations.{number_reply, to_num_evaluation};
ghost use Rattle.host_values.specs.declared.reply.Reply.{Reply};
ghost use Rattle.host_calls.specs.Calls.{Means};

use crate::host::Host;
use awk_text::MAX_NUMBER;
use awk_values::Value;
use host_handles::Handles;
use host_imports::Import;
use host_values::{
    Evaluated, Reply, Spent, comparison, concat, dup, expect_end, fail, int_of, lit, num, power,
    to_num, truth_of, uninit, value_front,
};
use sem_primitives::Primitive;
use wasm_model::BriefAnswer;
use wasm_store::Word;
use world_core::World;

/// The number that a value is, where it is one in range.
#[inline(always)]
fn number_in_range(value: &Value) -> Option<i64>
    ensures { IfSome result
        (λ n. number_reply (number_of_value value.now) ≡ Ok (Reply.Number n)) }
{
    match value {
        Value::Num(number) if number.unsigned_abs() <= MAX_NUMBER => Some(*number),
        _ => None,
    }
}

/// What `to_num` comes to where the one value that words name is a number in range.
#[inline(always)]
fn number_alone(handles: &Handles, words: &[Word]) -> Option<Evaluated>
    ensures { IfSome result (λ e. (s : HostState) → Evaluates handles.now s (Ok e) s
        (to_num_evaluation handles.now s words.now)) }
{
    let Ok((handle, value, rest)) = value_front(handles, words) else {
        return None;
    };
    if expect_end(rest).is_err() {
        return None;
    }
    let number = number_in_range(value)?;
    Some(Evaluated {
        spent: Spent::One(handle),
        outcome: Ok(Reply::Number(number)),
    })
}

impl<W: World> Host<W> {
    /// A number as a value.
    #[inline(never)]
    pub(crate) fn on_num(&mut self, words: &[Word]) -> BriefAnswer
        requires { refuses (OfPrimitive row.Num) self.old.tables.fault ≡ false }
        ensures { (memory : List ℕ) → Means W.is_modelled W.state W.did (OfPrimitive row.Num)
            self.old words.now memory result self.new }
    {
        let import = Import::OfPrimitive(Primitive::Num);
        match num(words) {
            Ok(evaluated) => self.settle(import, evaluated),
            Err(refusal) => self.tell(import, Err(refusal)),
        }
    }

    /// The value of a literal.
    #[inline(never)]
    pub(crate) fn on_lit(&mut self, words: &[Word], memory: &[u8]) -> BriefAnswer
        requires { refuses (OfPrimitive row.Lit) self.old.tables.fault ≡ false }
        ensures { Means W.is_modelled W.state W.did (OfPrimitive row.Lit) self.old words.now
            memory.now result self.new }
    {
        let import = Import::OfPrimitive(Primitive::Lit);
        match lit(self.tables.alloc, &mut self.tables.literals, words, memory) {
            Ok(evaluated) => self.settle(import, evaluated),
            Err(refusal) => self.tell(import, Err(refusal)),
        }
    }

    /// The value of a variable that was never set.
    #[inline(never)]
    pub(crate) fn on_uninit(&mut self, words: &[Word]) -> BriefAnswer
        requires { refuses (OfPrimitive row.Uninit) self.old.tables.fault ≡ false }
        ensures { (memory : List ℕ) → Means W.is_modelled W.state W.did (OfPrimitive row.Uninit)
            self.old words.now memory result self.new }
    {
        let import = Import::OfPrimitive(Primitive::Uninit);
        match uninit(words) {
            Ok(evaluated) => self.settle(import, evaluated),
            Err(refusal) => self.tell(import, Err(refusal)),
        }
    }

    /// A value once more.
    #[inline(never)]
    pub(crate) fn on_dup(&mut self, words: &[Word]) -> BriefAnswer
        requires { refuses (OfPrimitive row.Dup) self.old.tables.fault ≡ false }
        ensures { (memory : List ℕ) → Means W.is_modelled W.state W.did (OfPrimitive row.Dup)
            self.old words.now memory result self.new }
    {
        let import = Import::OfPrimitive(Primitive::Dup);
        match dup(&self.tables.handles, words) {
            Ok(evaluated) => self.settle(import, evaluated),
            Err(refusal) => self.tell(import, Err(refusal)),
        }
    }

    /// The number of a value. Mostly the value is a number: then little is to be done.
    #[inline(never)]
    pub(crate) fn on_to_num(&mut self, words: &[Word]) -> BriefAnswer
        requires { refuses (OfPrimitive row.ToNum) self.old.tables.fault ≡ false }
        ensures { (memory : List ℕ) → Means W.is_modelled W.state W.did (OfPrimitive row.ToNum)
            self.old words.now memory result self.new }
    {
        match number_alone(&self.tables.handles, words) {
            Some(evaluated) => self.settle(Import::OfPrimitive(Primitive::ToNum), evaluated),
            None => self.on_to_num_else(words),
        }
    }

    /// The number of a value of any kind.
    #[inline(never)]
    fn on_to_num_else(&mut self, words: &[Word]) -> BriefAnswer
        requires { refuses (OfPrimitive row.ToNum) self.old.tables.fault ≡ false }
        ensures { (memory : List ℕ) → Means W.is_modelled W.state W.did (OfPrimitive row.ToNum)
            self.old words.now memory result self.new }
    {
        let import = Import::OfPrimitive(Primitive::ToNum);
        match to_num(&self.tables.handles, words) {
            Ok(evaluated) => self.settle(import, evaluated),
            Err(refusal) => self.tell(import, Err(refusal)),
        }
    }

    /// The number of a value without its fraction.
    #[inline(never)]
    pub(crate) fn on_int_of(&mut self, words: &[Word]) -> BriefAnswer
        requires { refuses (OfPrimitive row.IntOf) self.old.tables.fault ≡ false }
        ensures { (memory : List ℕ) → Means W.is_modelled W.state W.did (OfPrimitive row.IntOf)
            self.old words.now memory result self.new }
    {
        let import = Import::OfPrimitive(Primitive::IntOf);
        match int_of(&self.tables.handles, words) {
            Ok(evaluated) => self.settle(import, evaluated),
            Err(refusal) => self.tell(import, Err(refusal)),
        }
    }

    /// The truth of a value.
    #[inline(never)]
    pub(crate) fn on_truth(&mut self, words: &[Word]) -> BriefAnswer
        requires { refuses (OfPrimitive row.Truth) self.old.tables.fault ≡ false }
        ensures { (memory : List ℕ) → Means W.is_modelled W.state W.did (OfPrimitive row.Truth)
            self.old words.now memory result self.new }
    {
        let import = Import::OfPrimitive(Primitive::Truth);
        match truth_of(&self.tables.handles, words) {
            Ok(evaluated) => self.settle(import, evaluated),
            Err(refusal) => self.tell(import, Err(refusal)),
        }
    }

    /// Two values are compared.
    #[inline(never)]
    pub(crate) fn on_compare(&mut self, words: &[Word]) -> BriefAnswer
        requires { refuses (OfPrimitive row.Compare) self.old.tables.fault ≡ false }
        ensures { (memory : List ℕ) → Means W.is_modelled W.state W.did (OfPrimitive row.Compare)
            self.old words.now memory result self.new }
    {
        let import = Import::OfPrimitive(Primitive::Compare);
        match comparison(&self.tables.handles, words) {
            Ok(evaluated) => self.settle(import, evaluated),
            Err(refusal) => self.tell(import, Err(refusal)),
        }
    }

    /// The texts of two values as one.
    #[inline(never)]
    pub(crate) fn on_concat(&mut self, words: &[Word]) -> BriefAnswer
        requires { refuses (OfPrimitive row.Concat) self.old.tables.fault ≡ false }
        ensures { (memory : List ℕ) → Means W.is_modelled W.state W.did (OfPrimitive row.Concat)
            self.old words.now memory result self.new }
    {
        let outcome = concat(self.tables.alloc, &mut self.tables.handles, words);
        self.tell(Import::OfPrimitive(Primitive::Concat), outcome)
    }

    /// A power of numbers.
    #[inline(never)]
    pub(crate) fn on_pow(&mut self, words: &[Word]) -> BriefAnswer
        requires { refuses (OfPrimitive row.Pow) self.old.tables.fault ≡ false }
        ensures { (memory : List ℕ) → Means W.is_modelled W.state W.did (OfPrimitive row.Pow)
            self.old words.now memory result self.new }
    {
        let import = Import::OfPrimitive(Primitive::Pow);
        match power(words) {
            Ok(evaluated) => self.settle(import, evaluated),
            Err(refusal) => self.tell(import, Err(refusal)),
        }
    }

    /// The script meets a fault.
    #[inline(never)]
    pub(crate) fn on_fail(&mut self, words: &[Word]) -> BriefAnswer
        requires { refuses (OfPrimitive row.Fail) self.old.tables.fault ≡ false }
        ensures { (memory : List ℕ) → Means W.is_modelled W.state W.did (OfPrimitive row.Fail)
            self.old words.now memory result self.new }
    {
        let import = Import::OfPrimitive(Primitive::Fail);
        match fail(words) {
            Ok(evaluated) => self.settle(import, evaluated),
            Err(refusal) => self.tell(import, Err(refusal)),
        }
    }

    /// A value is let go.
    #[inline(never)]
    pub(crate) fn on_drop(&mut self, words: &[Word]) -> BriefAnswer
        requires { refuses Drop self.old.tables.fault ≡ false }
        ensures { (memory : List ℕ) → Means W.is_modelled W.state W.did Drop self.old words.now
            memory result self.new }
    {
        let outcome = self.tables.release(words);
        self.tell(Import::Drop, outcome)
    }

    /// A value goes onto the argument list.
    #[inline(never)]
    pub(crate) fn on_arg(&mut self, words: &[Word]) -> BriefAnswer
        requires { refuses Arg self.old.tables.fault ≡ false }
        ensures { (memory : List ℕ) → Means W.is_modelled W.state W.did Arg self.old words.now
            memory result self.new }
    {
        let outcome = self.tables.arg(words);
        self.tell(Import::Arg, outcome)
    }
}
