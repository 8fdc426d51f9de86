//! The lanes of names.

ghost use Rattle.std.specs.Prelude.{◌≡◌, map};
ghost use Rattle.mid_program.specs.Mid.{Unboxed};
ghost use Rattle.mid_program.specs.Sorted.{same_kind};
ghost use Rattle.mid_program.specs.View.{view_kind};
ghost use Rattle.mid_program.specs.ViewCode.{view_slot};
ghost use Rattle.value_kinds.specs.Applied.{is_unboxed, kind_with};
ghost use Rattle.value_kinds.specs.View.{slots};

use mid_program::{Kind, Slot};

/// Which of a script's names are unboxed: the others are boxed, or arrays.
#[derive(Drop)]
pub struct Lanes {
    /// The globals into which numbers alone are stored: into the other unboxed ones copies of names are stored, too, which may be texts.
    pub numbers: Vec<Kind>,
    /// By the numbers of the globals. An unboxed one is a number with a boxed twin, since the command line may give it a text.
    pub globals: Vec<Kind>,
    /// For each function, by the places of its parameters. An unboxed one is a number, or nothing yet.
    pub parameters: Vec<Vec<Kind>>,
    /// By the places of parameters, the global that lends its value there, to unboxed parameters that have no number.
    pub lenders: Vec<Option<usize>>,
}

/// The lanes where a piece of code stands.
#[derive(Clone, Copy)]
pub(crate) struct Names<'a> {
    pub(crate) globals: &'a [Kind],
    pub(crate) parameters: &'a [Kind],
}

fn is_lane(kind: Kind) -> bool
    ensures { result ≡ same_kind (view_kind kind) Unboxed }
{
    match kind {
        Kind::Unboxed => true,
        Kind::Boxed | Kind::Array => false,
    }
}

/// Whether a name is unboxed; one that has no lane is not.
#[tactic(auto, using(crate::proofs::Views::unboxed_past))]
pub(crate) fn is_unboxed(kinds: &[Kind], place: usize) -> bool
    ensures { result ≡ is_unboxed (map view_kind kinds.now) place }
{
    if place >= kinds.len() {
        return false;
    }
    is_lane(kinds[place])
}

/// The kind of a name in the lane that it gets: an array stays one.
pub(crate) fn kind_with(unboxed: bool, kind: Kind) -> Kind
    ensures { view_kind result ≡ kind_with unboxed (view_kind kind) }
{
    match kind {
        Kind::Array => Kind::Array,
        Kind::Boxed | Kind::Unboxed => { if unboxed { Kind::Unboxed } else { Kind::Boxed } }
    }
}

impl<'a> Names<'a> {
    /// A scalar's name in its lane.
    pub(crate) fn slot(self, slot: Slot) -> Slot
        ensures { view_slot result ≡ slots self.entry (view_slot slot) }
    {
        match slot {
            Slot::Global(_, place) => Slot::Global(is_unboxed(self.globals, place), place),
            Slot::Parameter(_, place) => Slot::Parameter(is_unboxed(self.parameters, place), place),
        }
    }
}
