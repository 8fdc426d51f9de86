//! Worlds in memory.
ghost use Rattle.std.specs.Prelude.{◌≡◌, ◌<◌};
ghost use Rattle.world_core.specs.Calls.{Reading, Writing};
ghost use Rattle.world_core.specs.Memory.{open_for};

use std::alloc::{AllocError, Global};
use std::test::Fail;
use world_core::{Ending, MemFile, MemWorld, Octets, World, WorldFault};

fn file(alloc: Global, bytes: &[u8]) -> Result<MemFile, AllocError> {
    let mut items = Vec::new(alloc);
    items.extend_from_slice(bytes)?;
    Ok(MemFile::holding(items))
}

fn world(alloc: Global, input: &[u8]) -> Result<MemWorld, AllocError> {
    let input = file(alloc, input)?;
    Ok(MemWorld::new(alloc, input, MemFile::absent()))
}

/// Reads once, through the trait, and says whether these bytes came.
fn reads<W: World>(world: &mut W, id: u32, wanted: &[u8]) -> bool
    requires { W.kinds world.old id ≡ Reading }
    ensures { W.kinds world.new id ≡ Reading }
{
    let mut buffer = [0; 4];
    match world.read(id, &mut buffer) {
        Ok(n) => &buffer[..n] == wanted,
        Err(_) => false,
    }
}

/// Writes once, through the trait, and says whether this many bytes went out; want of memory is an error.
fn writes<W: World>(world: &mut W, id: u32, text: &[u8], wanted: usize) -> Result<bool, WorldFault>
    requires { W.kinds world.old id ≡ Writing }
    ensures { W.kinds world.new id ≡ Writing }
{
    match world.write(id, text) {
        Ok(written) => Ok(written == wanted),
        Err(WorldFault::Failed) => Ok(false),
        Err(WorldFault::NoMemory) => Err(WorldFault::NoMemory),
    }
}

/// Puts other bytes under a name while a stream is read.
fn replaces(
    alloc: Global,
    world: &mut MemWorld,
    id: u32,
    name: &[u8],
    bytes: &[u8],
) -> Result<(), AllocError>
    requires { open_for world.old id ≡ Reading }
    ensures { open_for world.new id ≡ Reading }
{
    let other = file(alloc, bytes)?;
    world.add(name, other)?;
    Ok(())
}

/// Closes a reader.
fn ends<W: World>(world: &mut W, id: u32)
    requires open { W.kinds world.old id ≡ Reading }
    requires own { 1 < id }
{
    world.close(id);
}

/// Bytes of a vector and back.
fn bytes_of_a_vector(alloc: Global) -> Result<bool, AllocError> {
    let mut items = Vec::new(alloc);
    items.extend_from_slice(b"abc")?;
    let octets = Octets::from_vec(items);
    let held = octets.as_slice() == b"abc".as_slice();
    Ok(octets.into_vec().as_slice() == b"abc".as_slice() && held)
}

/// The standard input is read to its end, which is told again.
fn standard_input_to_its_end(alloc: Global) -> Result<bool, WorldFault> {
    let mut world = world(alloc, b"hello\n")?;
    let front = reads(&mut world, 0, b"hell");
    let none = world.read(0, &mut []) == Ok(0);
    let rest = reads(&mut world, 0, b"o\n");
    let end = reads(&mut world, 0, b"");
    let again = reads(&mut world, 0, b"");
    Ok(front && none && rest && end && again && world.failures() == 0)
}

/// The standard input fails after its bytes, and goes on failing; an empty read does not.
fn standard_input_that_fails(alloc: Global) -> Result<bool, WorldFault> {
    let mut input = file(alloc, b"ab")?;
    input.ending = Ending::Fails;
    let mut world = MemWorld::new(alloc, input, MemFile::absent());
    let mut buffer = [0; 4];
    let bytes = reads(&mut world, 0, b"ab");
    let none = world.read(0, &mut []) == Ok(0) && world.failures() == 0;
    let fails = world.read(0, &mut buffer) == Err(WorldFault::Failed);
    let again = world.read(0, &mut buffer) == Err(WorldFault::Failed);
    Ok(bytes && none && fails && again && world.failures() == 2)
}

/// What fits goes out; then writing fails, but for an empty text.
fn standard_output_whose_room_is_full(alloc: Global) -> Result<bool, WorldFault> {
    let mut output = MemFile::absent();
    output.room = Some(4);
    let mut world = MemWorld::new(alloc, MemFile::absent(), output);
    let empty = world.output() == b"".as_slice();
    let whole = writes(&mut world, 1, b"abc", 3)?;
    let part = writes(&mut world, 1, b"defg", 1)?;
    let none = writes(&mut world, 1, b"", 0)? && world.failures() == 0;
    let fails = world.write(1, b"efg") == Err(WorldFault::Failed) && world.failures() == 1;
    let still = writes(&mut world, 1, b"", 0)?;
    let held = empty && whole && part && none && fails && still;
    Ok(held && world.output() == b"abcd".as_slice())
}

/// A name that is absent, and one that does not open.
fn names_that_do_not_open(alloc: Global) -> Result<bool, WorldFault> {
    let mut world = world(alloc, b"")?;
    let mut shut = file(alloc, b"kept")?;
    shut.opens = false;
    world.add(b"shut", shut)?;
    let absent = world.open_read(b"absent") == Err(WorldFault::Failed);
    let to_read = world.open_read(b"shut") == Err(WorldFault::Failed);
    let to_write = world.open_write(b"shut", false) == Err(WorldFault::Failed);
    let to_append = world.open_write(b"shut", true) == Err(WorldFault::Failed);
    let held = absent && to_read && to_write && to_append && world.failures() == 4;
    let kept = world.bytes(b"shut") == Some(b"kept".as_slice());
    Ok(held && kept && world.bytes(b"absent").is_none())
}

/// A file is appended to, and then emptied.
fn names_emptied_and_appended(alloc: Global) -> Result<bool, WorldFault> {
    let mut world = world(alloc, b"")?;
    world.add(b"f", file(alloc, b"old")?)?;
    let f = world.open_write(b"f", true)?;
    let kept = world.bytes(b"f") == Some(b"old".as_slice());
    let more = writes(&mut world, f, b"+", 1)?;
    let appended = world.bytes(b"f") == Some(b"old+".as_slice());
    let again = world.open_write(b"f", false)?;
    let other = again != f && again > 1;
    let emptied = world.bytes(b"f") == Some(b"".as_slice());
    let new = writes(&mut world, again, b"new", 3)?;
    let held = kept && more && appended && other && emptied && new;
    Ok(held && world.bytes(b"f") == Some(b"new".as_slice()))
}

/// A name that was not added is created, and holds its bytes after it is closed.
fn absent_names_are_created(alloc: Global) -> Result<bool, WorldFault> {
    let mut world = world(alloc, b"")?;
    let g = world.open_write(b"g", true)?;
    let created = world.bytes(b"g") == Some(b"".as_slice());
    let written = writes(&mut world, g, b"gg", 2)?;
    let there = world.bytes(b"g") == Some(b"gg".as_slice());
    let others = world.bytes(b"f").is_none() && world.output() == b"".as_slice();
    world.close(g);
    let held = created && written && there && others;
    Ok(held && world.bytes(b"g") == Some(b"gg".as_slice()))
}

/// A named file has a room.
fn a_named_file_has_a_room(alloc: Global) -> Result<bool, WorldFault> {
    let mut world = world(alloc, b"")?;
    let mut small = file(alloc, b"ab")?;
    small.room = Some(3);
    world.add(b"small", small)?;
    let id = world.open_write(b"small", true)?;
    let part = writes(&mut world, id, b"cd", 1)?;
    let fails = world.write(id, b"d") == Err(WorldFault::Failed) && world.failures() == 1;
    Ok(part && fails && world.bytes(b"small") == Some(b"abc".as_slice()))
}

/// A reader has the bytes of its opening, whatever the name holds later.
fn a_reader_has_the_bytes_of_its_opening(alloc: Global) -> Result<bool, WorldFault> {
    let mut world = world(alloc, b"")?;
    world.add(b"f", file(alloc, b"first")?)?;
    world.add(b"f", file(alloc, b"second")?)?;
    let reader = world.open_read(b"f")?;
    replaces(alloc, &mut world, reader, b"f", b"third")?;
    let front = reads(&mut world, reader, b"seco");
    let rest = reads(&mut world, reader, b"nd");
    let end = reads(&mut world, reader, b"");
    world.close(reader);
    Ok(front && rest && end && world.bytes(b"f") == Some(b"third".as_slice()))
}

/// The standard streams.
fn standard_streams(alloc: Global) -> Result<bool, WorldFault> {
    let input = standard_input_to_its_end(alloc)?;
    let broken = standard_input_that_fails(alloc)?;
    let output = standard_output_whose_room_is_full(alloc)?;
    Ok(input && broken && output)
}

/// Files by their names.
fn named_files(alloc: Global) -> Result<bool, WorldFault> {
    let shut = names_that_do_not_open(alloc)?;
    let changed = names_emptied_and_appended(alloc)?;
    let created = absent_names_are_created(alloc)?;
    let room = a_named_file_has_a_room(alloc)?;
    let read = a_reader_has_the_bytes_of_its_opening(alloc)?;
    Ok(shut && changed && created && room && read)
}

#[test]
fn worlds_in_memory(rt: HostRuntime) -> Result<(), Fail> {
    assert!(rt; bytes_of_a_vector(rt.alloc())?);
    assert!(rt; standard_streams(rt.alloc())?);
    assert!(rt; named_files(rt.alloc())?);
    Ok(())
}
