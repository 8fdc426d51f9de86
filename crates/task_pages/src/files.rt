//! Files that the line names.
ghost use Rattle.std.specs.Prelude.{IfErr};
ghost use Rattle.task_pages.specs.Outcomes.{IsUnread};

use crate::task_error::TaskError;
use run_report::FileFault;
use std::alloc::Global;
use std::io::Read;
use std::rt::Files;
use std::{fs, io};
use wasm_types::MAX_MODULE_BYTES;

/// How many bytes of a module's file are read at most: one past the greatest length of a module.
pub const MODULE_LIMIT: u64 = MAX_MODULE_BYTES as u64 + 1;

/// The first bytes of a file, so many at most.
fn read_file<R: Files>(alloc: Global, files: &R, path: &str, limit: u64) -> io::Result<Vec<u8>> {
    let mut bytes = Vec::new(alloc);
    fs::open(files, path)?.take(limit).read_to_end(&mut bytes)?;
    Ok(bytes)
}

/// The first bytes of a file that the line names.
///
/// # Errors
///
/// If the file is not read.
pub fn file_of(rt: &HostRuntime, path: &str, limit: u64) -> Result<Vec<u8>, TaskError>
    ensures { IfErr result IsUnread }
{
    match read_file(rt.alloc(), rt, path, limit) {
        Ok(bytes) => Ok(bytes),
        Err(error) if error.kind() == io::ErrorKind::OutOfMemory => Err(TaskError::NoMemory),
        Err(_) => Err(TaskError::File(FileFault::CannotRead)),
    }
}
