//! The handles that a call spends.
ghost use Rattle.std.specs.Prelude.{◌≡◌};
ghost use Rattle.host_values.specs.Evaluations.{left_by};

use host_handles::Handles;

/// The handles that a call spends, once it is carried out.
#[derive(Clone, Copy, Drop)]
pub enum Spent {
    Nothing,
    One(i32),
    Two(i32, i32),
    Three(i32, i32, i32),
}

impl Spent {
    /// Takes their values out.
    #[inline(always)]
    pub(crate) fn leave(self, handles: &mut Handles)
        ensures { handles.new ≡ left_by self handles.old }
    {
        match self {
            Spent::Nothing => {}
            Spent::One(handle) => {
                handles.take(handle);
            }
            Spent::Two(first, second) => {
                handles.take(first);
                handles.take(second);
            }
            Spent::Three(first, second, third) => {
                handles.take(first);
                handles.take(second);
                handles.take(third);
            }
        }
    }
}
