//! What a task may open, read and write.
ghost use Rattle.std.specs.Prelude.{◌≡◌, [], IfOk};
ghost use Rattle.task_pages.specs.Jobs.{fence_of_task};
ghost use Rattle.world_os.specs.Fences.{form_of};
ghost use Rattle.world_os.specs.Limits.{StartsWith};

use command_line::Task;
use std::alloc::{AllocError, Global};
use std::io::{Read, Write};
use std::rt::Files;
use world_os::{FencedWorld, FileFence, LimitedWorld, Names, OsWorld, OwnStreams};

/// The fence that a task's options set up.
///
/// # Errors
///
/// If memory runs out.
pub fn fence_of<'a>(alloc: Global, task: &'a Task<'_>) -> Result<FileFence<'a>, AllocError>
    ensures { IfOk result (λ fence. form_of fence ≡ fence_of_task task.now) }
{
    let operands = if task.fences.only_operands {
        Some(Names::new(alloc, task.words.as_slice())?)
    } else {
        None
    };
    Ok(FileFence {
        no_files: task.fences.no_files,
        read_only: task.fences.read_only,
        operands,
        may_read: Names::new(alloc, task.may_read.as_slice())?,
        may_write: Names::new(alloc, task.may_write.as_slice())?,
        streams: task.streams,
    })
}

/// Real files, with the program's own streams, of which a task's limits let so many bytes through.
fn limited_world<'a, R: Files, I: Read + Drop, O: Write + Drop, E: Write + Drop>(
    alloc: Global,
    files: &'a R,
    own: OwnStreams<I, O, E>,
    task: &Task<'_>,
) -> LimitedWorld<OsWorld<'a, R, I, O, E>>
    ensures streams { result.inner.streams.items ≡ [] }
    ensures count { result.inner.failures ≡ 0 }
    ensures named { result.inner.named ≡ own.named }
    ensures output { result.inner.output ≡ own.output }
    ensures errors { result.inner.errors ≡ own.errors }
    ensures limits { StartsWith task.now.limits.most_output task.now.limits.most_input result }
{
    let files = OsWorld::new(alloc, files, own);
    LimitedWorld::new(files, task.limits.most_output, task.limits.most_input)
}

/// Real files and the program's own streams. A task opens only what its options let through, and so many bytes are read and written at most as they allow.
/// Nothing is open but the standard streams, nothing is read or written, and nothing has failed.
///
/// # Errors
///
/// If memory runs out.
pub(crate) fn os_world_of<'a, R: Files, I: Read + Drop, O: Write + Drop, E: Write + Drop>(
    alloc: Global,
    files: &'a R,
    own: (I, O, E),
    task: &'a Task<'_>,
) -> Result<FencedWorld<LimitedWorld<OsWorld<'a, R, I, O, E>>, FileFence<'a>>, AllocError>
    ensures fence { IfOk result (λ world. form_of world.fence ≡ fence_of_task task.now) }
    ensures kept_out { IfOk result (λ world. world.kept_out ≡ 0) }
    ensures streams { IfOk result (λ world. world.inner.inner.streams.items ≡ []) }
    ensures count { IfOk result (λ world. world.inner.inner.failures ≡ 0) }
    ensures named { IfOk result (λ world. world.inner.inner.named ≡ task.now.streams) }
    ensures output { IfOk result (λ world. world.inner.inner.output ≡ own.1) }
    ensures errors { IfOk result (λ world. world.inner.inner.errors ≡ own.2) }
    ensures limits { IfOk result (λ world. StartsWith task.now.limits.most_output
        task.now.limits.most_input world.inner) }
{
    let (input, output, errors) = own;
    let own = OwnStreams {
        input,
        output,
        errors,
        named: task.streams,
    };
    let fence = fence_of(alloc, task)?;
    Ok(FencedWorld::new(limited_world(alloc, files, own, task), fence))
}
