//! Real files.
use std::test::Fail;
use std::{fs, io};
use world_core::{World, WorldFault};
use world_os::{OsWorld, OwnStreams};

const NAME: &str = "world_os.txt";

/// What the first two reads of a name give.
fn two_reads<W: World>(world: &mut W, name: &[u8]) -> Result<(usize, usize, [u8; 8]), WorldFault> {
    let mut buffer = [0; 8];
    let id = world.open_read(name)?;
    let first = world.read(id, &mut buffer)?;
    let second = world.read(id, &mut [0; 8])?;
    world.close(id);
    Ok((first, second, buffer))
}

/// Writes a text to a name, and gives how many bytes were taken.
fn written<W: World>(
    world: &mut W,
    name: &[u8],
    append: bool,
    text: &[u8],
) -> Result<usize, WorldFault> {
    let id = world.open_write(name, append)?;
    let taken = world.write(id, text)?;
    world.close(id);
    Ok(taken)
}

/// Whether a name is told not to open, for reading or writing.
fn is_refused<W: World>(world: &mut W, name: &[u8]) -> bool {
    let reading = world.open_read(name) == Err(WorldFault::Failed);
    world.open_write(name, true) == Err(WorldFault::Failed) && reading
}

static NO_FILES: [&[u8]; 3] = [b"", b"\xff", b"absent/file"];

#[test]
fn real_files(rt: HostRuntime) -> Result<(), Fail> {
    let name = NAME.as_bytes();
    let own = OwnStreams {
        input: rt.stdin(),
        output: io::writer(&rt),
        errors: rt.stderr(),
        named: false,
    };
    let mut world = OsWorld::new(rt.alloc(), &rt, own);
    let old = written(&mut world, name, false, b"old text")? == 8;
    let emptied = written(&mut world, name, false, b"ab")? == 2;
    let appended = written(&mut world, name, true, b"\xff\n")? == 2;
    let read = two_reads(&mut world, name)? == (4, 0, *b"ab\xff\n\0\0\0\0");
    assert!(rt; old && emptied && appended && read && world.failures() == 0);
    fs::remove_file(&rt, NAME)?;
    let absent = two_reads(&mut world, name).is_err();
    assert!(rt; absent && world.failures() == 1);
    for other in NO_FILES {
        assert!(rt; is_refused(&mut world, other), "{other:?}");
    }
    assert!(rt; world.failures() == 7);
    Ok(())
}

/// Writes to the names of the program's own streams, and reads from one: here they are three files.
fn own_streams_by_name(rt: &HostRuntime) -> Result<bool, Fail> {
    let own = OwnStreams {
        input: fs::open(rt, "own_input.txt")?,
        output: fs::create(rt, "own_output.txt")?,
        errors: fs::create(rt, "own_errors.txt")?,
        named: true,
    };
    let mut world = OsWorld::new(rt.alloc(), rt, own);
    let first = world.write(1, b"a")? == 1;
    let second = written(&mut world, b"/dev/stdout", false, b"bc")? == 2;
    let third = world.write(1, b"d")? == 1;
    let errors = written(&mut world, b"/dev/stderr", false, b"e")? == 1;
    let again = written(&mut world, b"/dev/stderr", true, b"f")? == 1;
    let read = two_reads(&mut world, b"/dev/stdin")? == (2, 0, *b"in\0\0\0\0\0\0");
    Ok(first && second && third && errors && again && read && world.failures() == 0)
}

#[test]
fn own_streams(rt: HostRuntime) -> Result<(), Fail> {
    fs::write(&rt, "own_input.txt", b"in")?;
    assert!(rt; own_streams_by_name(&rt)?);
    assert_eq!(rt;
        fs::read(&rt, "own_output.txt")?.as_slice(),
        b"abcd".as_slice()
    );
    assert_eq!(rt;
        fs::read(&rt, "own_errors.txt")?.as_slice(),
        b"ef".as_slice()
    );
    for name in ["own_input.txt", "own_output.txt", "own_errors.txt"] {
        fs::remove_file(&rt, name)?;
    }
    Ok(())
}
