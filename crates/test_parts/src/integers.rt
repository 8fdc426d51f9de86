//! Worked integers, each public call once.

use std::alloc::{AllocError, Global};
use std::test::Fail;
use wasm_types::{
    FuncType, ValType, read_s32, read_s64, read_u32, write_s32, write_s64, write_u32,
};

static WRITTEN: [(u32, &[u8]); 3] = [
    (624485, &[0xe5, 0x8e, 0x26]),
    (0, &[0x00]),
    (u32::MAX, &[0xff, 0xff, 0xff, 0xff, 0x0f]),
];

static WRITTEN_SIGNED: [(i32, &[u8]); 3] = [
    (-123456, &[0xc0, 0xbb, 0x78]),
    (99, &[0xe3, 0x00]),
    (i32::MIN, &[0x80, 0x80, 0x80, 0x80, 0x78]),
];

static WRITTEN_LONG: [(i64, &[u8]); 2] = [
    (
        i64::MIN,
        &[0x80, 0x80, 0x80, 0x80, 0x80, 0x80, 0x80, 0x80, 0x80, 0x7f],
    ),
    (-1, &[0x7f]),
];

/// Whether an integer without a sign is written so, and read again.
fn is_u32(alloc: Global, number: u32, bytes: &[u8]) -> Result<bool, AllocError> {
    let written = write_u32(alloc, number)?;
    Ok(written.as_slice() == bytes && read_u32(bytes) == Some((number, bytes.len())))
}

fn is_s32(alloc: Global, number: i32, bytes: &[u8]) -> Result<bool, AllocError> {
    let written = write_s32(alloc, number)?;
    Ok(written.as_slice() == bytes && read_s32(bytes) == Some((number, bytes.len())))
}

fn is_s64(alloc: Global, number: i64, bytes: &[u8]) -> Result<bool, AllocError> {
    let written = write_s64(alloc, number)?;
    Ok(written.as_slice() == bytes && read_s64(bytes) == Some((number, bytes.len())))
}

#[test]
fn written_without_a_sign(rt: HostRuntime) -> Result<(), Fail> {
    for (number, bytes) in WRITTEN {
        assert!(rt; is_u32(rt.alloc(), number, bytes)?, "{number}");
    }
    Ok(())
}

#[test]
fn written_with_a_sign(rt: HostRuntime) -> Result<(), Fail> {
    for (number, bytes) in WRITTEN_SIGNED {
        assert!(rt; is_s32(rt.alloc(), number, bytes)?, "{number}");
    }
    Ok(())
}

#[test]
fn written_long(rt: HostRuntime) -> Result<(), Fail> {
    for (number, bytes) in WRITTEN_LONG {
        assert!(rt; is_s64(rt.alloc(), number, bytes)?, "{number}");
    }
    Ok(())
}

static READ: [(&[u8], Option<(u32, usize)>); 5] = [
    (&[0xe5, 0x8e, 0x26, 0x55], Some((624485, 3))),
    (&[0x80, 0x80, 0x80, 0x80, 0x00], Some((0, 5))),
    (&[0x80, 0x80, 0x80, 0x80, 0x10], None),
    (&[0x80, 0x80], None),
    (&[], None),
];

#[test]
fn read(rt: HostRuntime) -> Result<(), Fail> {
    for (bytes, wanted) in READ {
        assert!(rt; read_u32(bytes) == wanted, "{bytes:?}");
    }
    assert!(rt; read_s32(&[0x80, 0x80, 0x80, 0x80, 0x08]).is_none());
    let last = [0x80, 0x80, 0x80, 0x80, 0x80, 0x80, 0x80, 0x80, 0x80, 0x01];
    assert!(rt; read_s64(&last).is_none());
    Ok(())
}

fn two_params(alloc: Global, answer: Option<ValType>) -> Result<FuncType, AllocError> {
    Ok(FuncType {
        params: vec![in alloc; ValType::I32, ValType::I64]?,
        result: answer,
    })
}

#[test]
fn same_types(rt: HostRuntime) -> Result<(), Fail> {
    let one = two_params(rt.alloc(), None)?;
    let other = two_params(rt.alloc(), Some(ValType::I32))?;
    assert!(rt; one.same(&one) && !one.same(&other));
    Ok(())
}
