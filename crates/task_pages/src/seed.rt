//! What the keys of arrays are hashed with.
ghost use Rattle.std.specs.Prelude.{IfErr};
ghost use Rattle.task_pages.specs.Outcomes.{IsUnbegun};

use crate::task_error::TaskError;
use std::hash::RandomState;
use std::io;

/// What the keys of arrays are hashed with. No script can know it.
///
/// # Errors
///
/// If the system gives no random numbers, or memory runs out.
pub fn random_state(rt: &HostRuntime) -> Result<RandomState, TaskError>
    ensures { IfErr result IsUnbegun }
{
    match RandomState::new(rt) {
        Ok(state) => Ok(state),
        Err(error) if error.kind() == io::ErrorKind::OutOfMemory => Err(TaskError::NoMemory),
        Err(_) => Err(TaskError::RandomNumbers),
    }
}
