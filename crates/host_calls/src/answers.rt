//! The answer to a call.
ghost use Rattle.std.specs.Prelude.{◌≡◌, List, ℕ, IsSome, Ok};
ghost use Rattle.host_calls.specs.Calls.{MeansAt, Settles};
ghost use Rattle.host_calls.specs.Forms.{host_form};
ghost use Rattle.host_imports.specs.Imports.{import_answer};
ghost use Rattle.host_step.specs.Answers.{refusal};
ghost use Rattle.host_values.specs.TableCalls.{left_by_call};
ghost use Rattle.host_tables.specs.Answers.{told_as};

use crate::host::Host;
use host_imports::Import;
use host_tables::{refusal, told};
use host_values::{Evaluated, Refusal, carry_out};
use wasm_model::{BriefAnswer, HostAnswer};
use wasm_store::{Memory, TrapKind, Word};
use world_core::World;

/// What is answered to a number that no import has.
#[cold]
#[inline(never)]
fn unknown() -> BriefAnswer
    ensures { result ≡ HostAnswer.Trap TrapKind.BadArgument }
{
    BriefAnswer::of(HostAnswer::Trap(TrapKind::BadArgument))
}

/// What is answered once a fault is kept. It stands apart, so that the ways of the other calls hand their answers on as they are.
#[cold]
#[inline(never)]
fn refused(import: Import) -> BriefAnswer
    ensures { result ≡ HostAnswer.Done (refusal (import_answer import)) }
{
    BriefAnswer::of(HostAnswer::Done(refusal(import.answer())))
}

impl<W: World> Host<W> {
    /// Tells what a call came to, and keeps the fault that it met.
    #[inline(always)]
    pub(crate) fn tell(
        &mut self,
        import: Import,
        outcome: Result<Option<Word>, Refusal>,
    ) -> BriefAnswer
        ensures told { result ≡ told_as import outcome }
        ensures kept { host_form W.state self.new
            ≡ left_by_call outcome (host_form W.state self.old) }
        ensures world { self.new.world ≡ self.old.world }
        ensures input { self.new.input ≡ self.old.input }
    {
        self.tables.keep(outcome);
        BriefAnswer::of(told(import, outcome))
    }

    /// Carries out what a call came to, and tells it.
    #[inline(always)]
    pub(crate) fn settle(&mut self, import: Import, evaluated: Evaluated) -> BriefAnswer
        ensures settled { Settles W.state import (Ok evaluated) self.old result self.new }
        ensures world { self.new.world ≡ self.old.world }
        ensures input { self.new.input ≡ self.old.input }
    {
        let outcome = carry_out(&mut self.tables.handles, evaluated);
        self.tell(import, outcome)
    }

    /// Answers a call once a fault is kept: every import but those that let something go only refuses. It stands apart, so that the other calls look at
    /// nothing but whether a fault is kept.
    #[cold]
    #[inline(never)]
    fn answer_faulted(&mut self, words: &[Word], number: u32) -> BriefAnswer
        requires { IsSome self.old.tables.fault }
        ensures { (memory : List ℕ) → MeansAt W.is_modelled W.state W.did number self.old words.now
            memory result self.new }
    {
        let Some(import) = Import::of_number(number) else {
            return unknown();
        };
        match import {
            Import::Drop => self.on_drop(words),
            Import::IterFree => self.on_iter_free(words),
            Import::FreeArray => self.on_free_array(words),
            Import::OfPrimitive(_) | Import::Variadic(_) | Import::Arg => refused(import),
        }
    }

    /// Answers a call of the import that has the number in `IMPORTS`. Once a fault is kept every import but those that let something go only refuses. It is inlined
    /// into the machine's loop, and goes by the number, since to find the import first takes longer. The words come first, so that they stand where each import
    /// takes them.
    #[inline(always)]
    pub(crate) fn answer(&mut self, words: &[Word], memory: &Memory, number: u32) -> BriefAnswer
        ensures { MeansAt W.is_modelled W.state W.did number self.old words.now memory.now.bytes
            result self.new }
    {
        match number {
            _ if self.tables.fault().is_some() => self.answer_faulted(words, number),
            0 => self.on_num(words),
            1 => self.on_lit(words, memory.bytes()),
            2 => self.on_uninit(words),
            3 => self.on_dup(words),
            4 => self.on_to_num(words),
            5 => self.on_int_of(words),
            6 => self.on_truth(words),
            7 => self.on_compare(words),
            8 => self.on_concat(words),
            9 => self.on_pow(words),
            10 => self.on_fail(words),
            11 => self.on_get_special(words),
            12 => self.on_set_special(words),
            13 => self.on_field(words),
            14 => self.on_set_field(words),
            15 => self.on_new_array(words),
            16 => self.on_elem(words),
            17 => self.on_set_elem(words),
            18 => self.on_has(words),
            19 => self.on_delete(words),
            20 => self.on_join(words),
            21 => self.on_iter(words),
            22 => self.on_iter_next(words),
            23 => self.on_length(words),
            24 => self.on_matches(words),
            25 => self.on_match(words),
            26 => self.on_sub(words),
            27 => self.on_sub_result(words),
            28 => self.on_split(words),
            29 => self.on_substr(words),
            30 => self.on_substr_from(words),
            31 => self.on_index(words),
            32 => self.on_lower(words),
            33 => self.on_upper(words),
            34 => self.on_next_main(words),
            35 => self.on_getline(words),
            36 => self.on_getline_var(words),
            37 => self.on_getline_file(words),
            38 => self.on_getline_var_file(words),
            39 => self.on_line(words),
            40 => self.on_declare(words, memory.bytes()),
            41 => self.on_start_assign(words),
            42 => self.on_pending_name(words),
            43 => self.on_pending_value(words),
            44 => self.on_begin_end(words),
            45 => self.on_close(words),
            46 => self.on_arg(words),
            47 => self.on_sprintf(words),
            48 => self.on_print(words),
            49 => self.on_printf(words),
            50 => self.on_drop(words),
            51 => self.on_iter_free(words),
            52 => self.on_free_array(words),
            53 => self.on_next_file(words),
            54 => self.on_clear(words),
            55 => self.on_flush(words),
            _ => unknown(),
        }
    }
}
