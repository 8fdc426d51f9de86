//! The descriptors of the standard streams, where the program starts with some of them closed.
ghost use Rattle.std.specs.Prelude.{◌≤ℤ◌, pos, IfSome};
ghost use Rattle.std.specs.Fd.{file_raw_fd};

use std::fs::File;
use std::os::fd::AsRawFd;
use std::{fs, io};

/// The greatest descriptor of a standard stream: that of the standard error.
const LAST_STANDARD: i32 = 2;

/// What stands for a stream that is closed: the null device or, in a place without it, the root folder. It takes no byte and gives none.
fn nothing(rt: &HostRuntime) -> io::Result<File> {
    match fs::open(rt, "/dev/null") {
        Ok(device) => Ok(device),
        Err(_) => fs::open(rt, "/"),
    }
}

/// Takes the lowest free descriptor, if a standard stream has it.
fn take_lowest(rt: &HostRuntime) -> Option<File>
    ensures { IfSome result (λ file. file_raw_fd file ≤ℤ pos 2) }
{
    match nothing(rt) {
        Ok(file) if file.as_raw_fd() <= LAST_STANDARD => Some(file),
        _ => None,
    }
}

/// Takes the descriptors of the standard streams that are closed: else the first files that are opened get them, and what is meant for a stream goes
/// into a file. They are taken as long as the answer is kept. Where the system opens nothing they stay free.
pub fn take_closed(rt: &HostRuntime) -> (Option<File>, Option<File>, Option<File>)
    ensures first { IfSome result.0 (λ file. file_raw_fd file ≤ℤ pos 2) }
    ensures second { IfSome result.1 (λ file. file_raw_fd file ≤ℤ pos 2) }
    ensures third { IfSome result.2 (λ file. file_raw_fd file ≤ℤ pos 2) }
{
    let Some(first) = take_lowest(rt) else {
        return (None, None, None);
    };
    let Some(second) = take_lowest(rt) else {
        return (Some(first), None, None);
    };
    (Some(first), Some(second), take_lowest(rt))
}
