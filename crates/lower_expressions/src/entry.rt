//! Something that is kept.
ghost use Rattle.std.specs.Prelude.{◌≤◌};
ghost use Rattle.lower_pieces.specs.Bounds.{most_places};

use lower_pieces::Form;

/// Something that is kept: its form, and its temporary.
#[derive(Clone, Copy, Drop)]
pub struct Entry {
    pub form: Form,
    pub temporary: u32,
    ghost few: { temporary ≤ most_places },
}
