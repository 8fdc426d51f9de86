//! The scan for globals that may lend their values.

ghost use Rattle.std.specs.Prelude.{◌≡◌, option_map, true};
ghost use Rattle.mid_program.specs.ViewCode.{view_slot};
ghost use Rattle.value_kinds.specs.Lanes.{first_wish, given, numbered_at, offered, wish_at, written};
ghost use Rattle.value_kinds.specs.View.{view_scan};

use crate::walk::close_at;
use mid_program::{Kind, Slot};

/// What code does with the globals that may lend their values.
#[derive(Drop)]
pub(crate) struct Scan {
    /// The globals into which code stores nothing are unboxed here.
    pub(crate) free: Vec<Kind>,
    /// Whether code reads the main input, where the command line may assign to them.
    pub(crate) asked: bool,
    /// By the places of parameters, the first global whose value is given there.
    pub(crate) wishes: Vec<Option<usize>>,
    /// By the places of parameters, whether a number is given there.
    pub(crate) numbered: Vec<bool>,
}

/// The first wish stays.
fn first_wish(wish: Option<usize>, global: usize) -> Option<usize>
    ensures { result ≡ first_wish wish global }
{
    match wish {
        Some(first) => Some(first),
        None => Some(global),
    }
}

fn wish_at(wishes: &mut Vec<Option<usize>>, place: usize, global: usize)
    ensures { wishes.new.items ≡ wish_at wishes.old.items place global }
{
    if place < wishes.len() {
        wishes[place] = first_wish(wishes[place], global);
    }
}

/// Notes that a number is given at a place, if it is one.
fn note_number(numbered: &mut Vec<bool>, place: usize, number: bool)
    ensures { numbered.new.items ≡ numbered_at number numbered.old.items place }
{
    if number && place < numbered.len() {
        numbered[place] = true;
    }
}

impl Scan {
    /// Something is stored into a name.
    pub(crate) fn store(&mut self, slot: Slot)
        ensures { view_scan self.new ≡ written (view_scan self.old) (view_slot slot) }
    {
        match slot {
            Slot::Global(_, place) => close_at(&mut self.free, place),
            Slot::Parameter(_, _) => {}
        }
    }

    /// The value of a name is given at a place, if there is a source.
    fn offer(&mut self, place: usize, source: Option<Slot>)
        ensures { view_scan self.new
            ≡ offered (view_scan self.old) place (option_map view_slot source) }
    {
        match source {
            Some(Slot::Global(_, global)) => wish_at(&mut self.wishes, place, global),
            Some(Slot::Parameter(_, _)) | None => {}
        }
    }

    /// An argument is given at a place: the value of a name, if there is a source, or a number.
    pub(crate) fn give(&mut self, place: usize, source: Option<Slot>, number: bool)
        ensures { view_scan self.new
            ≡ given (view_scan self.old) place (option_map view_slot source) number }
    {
        self.offer(place, source);
        note_number(&mut self.numbered, place, number);
    }

    /// The main input is read.
    pub(crate) fn ask(&mut self)
        ensures { view_scan self.new ≡ record (view_scan self.old) { asked = true } }
    {
        self.asked = true;
    }
}
