//! Limits on bytes, and names that a fence lets through.
use std::alloc::{AllocError, Global};
use std::test::Fail;
use world_core::{MemFile, MemWorld, World, WorldFault};
use world_os::{Fence, FileFence, LimitedWorld, Names};

/// A world whose standard input is `abcdef`, of which so many bytes are written, and read, at most.
fn limited(
    alloc: Global,
    most_output: u64,
    most_input: u64,
) -> Result<LimitedWorld<MemWorld>, AllocError> {
    let mut bytes = Vec::new(alloc);
    bytes.extend_from_slice(b"abcdef")?;
    let world = MemWorld::new(alloc, MemFile::holding(bytes), MemFile::absent());
    Ok(LimitedWorld::new(world, most_output, most_input))
}

/// What fits goes out, then writing fails, but for an empty text.
fn output_is_limited(alloc: Global) -> Result<bool, WorldFault> {
    let mut world = limited(alloc, 4, 0)?;
    let whole = world.write(1, b"abc")? == 3;
    let part = world.write(1, b"def")? == 1;
    let fails = world.write(1, b"ef") == Err(WorldFault::Failed);
    let empty = world.write(1, b"")? == 0;
    Ok(whole && part && fails && empty && world.failures() == 1)
}

/// Reads four bytes at most, twice.
fn two_reads(
    alloc: Global,
    most_input: u64,
) -> Result<(usize, Result<usize, WorldFault>), WorldFault> {
    let mut world = limited(alloc, 0, most_input)?;
    let first = world.read(0, &mut [0; 4])?;
    Ok((first, world.read(0, &mut [0; 4])))
}

/// At a limit below the input reading fails, and goes on failing; at one of its length the end is told.
fn input_is_limited(alloc: Global) -> Result<bool, WorldFault> {
    let below = two_reads(alloc, 4)? == (4, Err(WorldFault::Failed));
    let within = two_reads(alloc, 5)? == (4, Ok(1));
    let mut world = limited(alloc, 0, 6)?;
    let all = world.read(0, &mut [0; 8])? == 6;
    let end = world.read(0, &mut [0; 8])? == 0;
    let again = world.read(0, &mut [0; 8])? == 0;
    Ok(below && within && all && end && again && world.failures() == 0)
}

/// Names are found wherever they are in their list.
fn listed_names(alloc: Global) -> Result<bool, AllocError> {
    let names = Names::new(alloc, &["b", "a", "", "ab", "b"])?;
    let there = names.contains(b"a") && names.contains(b"ab") && names.contains(b"");
    let more = names.contains(b"b") && !names.contains(b"c") && !names.contains(b"abc");
    let none = Names::none(alloc);
    Ok(there && more && !names.is_empty() && none.is_empty() && !none.contains(b""))
}

/// A fence that keeps all files out but two.
fn two_files(alloc: Global) -> Result<bool, AllocError> {
    let fence = FileFence {
        no_files: true,
        read_only: false,
        operands: None,
        may_read: Names::new(alloc, &["data"])?,
        may_write: Names::new(alloc, &["out"])?,
        streams: true,
    };
    let reads = fence.lets_read(b"data") && !fence.lets_read(b"out");
    let writes = fence.lets_write(b"out") && !fence.lets_write(b"data");
    let streams = fence.lets_read(b"/dev/stdin") && fence.lets_write(b"/dev/stderr");
    Ok(reads && writes && streams)
}

#[test]
fn limits_and_lists(rt: HostRuntime) -> Result<(), Fail> {
    assert!(rt; output_is_limited(rt.alloc())?);
    assert!(rt; input_is_limited(rt.alloc())?);
    assert!(rt; listed_names(rt.alloc())?);
    assert!(rt; two_files(rt.alloc())?);
    Ok(())
}
