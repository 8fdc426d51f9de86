//! What goes to the standard streams and to a module's file.
ghost use Rattle.std.specs.Io.KnownBytes.{Appends};
ghost use Rattle.std.specs.IoError.{error_kind};
ghost use Rattle.std.specs.Prelude.{◌≡◌, ◌≢◌, IfErr, OnOk};
ghost use Rattle.task_pages.specs.Outcomes.{IsUnwritten};

use crate::task_error::TaskError;
use run_report::FileFault;
use std::alloc::AllocError;
use std::fs::{File, OpenOptions, Permissions};
use std::io::{ErrorKind, Write};
use std::os::unix::fs::MetadataExt;
use std::{fs, io, process};

/// How many names are tried for a new file.
const MOST_NAMES: u32 = 1000;

/// Writes to the standard error. That it fails changes nothing.
pub fn tell(rt: &HostRuntime, text: &[u8]) {
    let _ = rt.stderr().write_all(text);
}

/// What is told of a file, or of the standard output, that is not written.
pub(crate) fn unwritten(error: &io::Error) -> TaskError
    ensures memory { error_kind error.now ≡ ErrorKind.OutOfMemory → result ≡ TaskError.NoMemory }
    ensures other { error_kind error.now ≢ ErrorKind.OutOfMemory
        → result ≡ TaskError.File FileFault.CannotWrite }
    ensures kind { IsUnwritten result }
{
    match error.kind() {
        ErrorKind::OutOfMemory => TaskError::NoMemory,
        _ => TaskError::File(FileFault::CannotWrite),
    }
}

/// Writes the whole of a text.
///
/// # Errors
///
/// If it is not written.
pub fn write_text<W: Write>(to: &mut W, text: &[u8]) -> Result<(), TaskError>
    ensures ok { OnOk result (Appends (W.contents to.old) (W.contents to.new) text.now) }
    ensures err { IfErr result IsUnwritten }
{
    match to.write_all(text) {
        Ok(()) => Ok(()),
        Err(error) => Err(unwritten(&error)),
    }
}

/// Whether two names are those of one regular file.
fn is_same_file(rt: &HostRuntime, one: &str, other: &str) -> bool {
    match (fs::metadata(rt, one), fs::metadata(rt, other)) {
        (Ok(one), Ok(other)) => {
            one.is_file() && one.dev() == other.dev() && one.ino() == other.ino()
        }
        _ => false,
    }
}

/// The name of a new file beside another one.
fn name_beside(rt: &HostRuntime, out: &str, number: u32) -> Result<String, AllocError> {
    let own = process::id(rt.process());
    format!(in rt.alloc(); "{out}.{own}.{number}.new")
}

/// A new file beside another one, with its name: that of the first number whose file is not there.
fn new_beside(rt: &HostRuntime, out: &str) -> io::Result<(File, String)> {
    for number in 0..MOST_NAMES {
        let beside = name_beside(rt, out, number)?;
        match File::create_new(rt, beside.as_str()) {
            Ok(file) => return Ok((file, beside)),
            Err(error) if error.kind() == ErrorKind::AlreadyExists => {}
            Err(error) => return Err(error),
        }
    }
    Err(io::Error::from(ErrorKind::AlreadyExists))
}

/// Writes a new file, which then takes the place of another one.
fn replace(rt: &HostRuntime, file: File, beside: &str, out: &str, bytes: &[u8]) -> io::Result<()> {
    let mut file = file;
    file.write_all(bytes)?;
    fs::rename(rt, beside, out)
}

/// Writes a file by a new one beside it, so that the former file stays where that fails. In a folder that takes no new file the file itself is written.
fn write_by_new(
    rt: &HostRuntime,
    out: &str,
    bytes: &[u8],
    former: Option<Permissions>,
) -> io::Result<()> {
    let (file, beside) = match new_beside(rt, out) {
        Ok(made) => made,
        Err(error) if error.kind() == ErrorKind::PermissionDenied => {
            return fs::write(rt, out, bytes);
        }
        Err(error) => return Err(error),
    };
    if let Some(former) = former {
        let _ = file.set_permissions(former);
    }
    let replaced = replace(rt, file, beside.as_str(), out, bytes);
    if replaced.is_err() {
        let _ = fs::remove_file(rt, beside.as_str());
    }
    replaced
}

/// Writes a file. A device, a pipe or a link is written itself.
fn write_file(rt: &HostRuntime, out: &str, bytes: &[u8]) -> io::Result<()> {
    match fs::symlink_metadata(rt, out) {
        Ok(former) if former.is_file() => {
            // It is not replaced where it may not be written.
            OpenOptions::new().write(true).open(rt, out)?;
            write_by_new(rt, out, bytes, Some(former.permissions()))
        }
        Ok(_) => fs::write(rt, out, bytes),
        Err(_) => write_by_new(rt, out, bytes, None),
    }
}

/// Writes the module of a script's file. The script itself is not overwritten.
///
/// # Errors
///
/// If it is not written.
pub fn write_module(
    rt: &HostRuntime,
    script_file: &str,
    out: &str,
    module: &[u8],
) -> Result<(), TaskError>
    ensures { IfErr result IsUnwritten }
{
    if is_same_file(rt, script_file, out) {
        return Err(TaskError::File(FileFault::CannotWrite));
    }
    match write_file(rt, out, module) {
        Ok(()) => Ok(()),
        Err(error) => Err(unwritten(&error)),
    }
}
