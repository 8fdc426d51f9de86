//! What is said of bytes that were changed, and of random ones; single faults are lines of test_parts.
//!
//! Each count is that of the decoder and the validator of `tests/reference/wasm`, which are another implementation. Node's engine takes the valid ones, and no other.

use crate::modules::{Unfit, checked_module};
use module_decoder::DecodeFault;
use module_validator::InvalidFault;
use std::alloc::{AllocError, Global};
use std::test::Fail;

const HEADER: [u8; 8] = [0x00, 0x61, 0x73, 0x6d, 0x01, 0x00, 0x00, 0x00];

// Imports `drop` of `awk1`; `main` drops handle 99 and gives 0.
const DROPS: [u8; 61] = [
    0x00, 0x61, 0x73, 0x6d, 0x01, 0x00, 0x00, 0x00, 0x01, 0x09, 0x02, 0x60, 0x01, 0x7f, 0x00, 0x60,
    0x00, 0x01, 0x7f, 0x02, 0x0d, 0x01, 0x04, 0x61, 0x77, 0x6b, 0x31, 0x04, 0x64, 0x72, 0x6f, 0x70,
    0x00, 0x00, 0x03, 0x02, 0x01, 0x01, 0x07, 0x08, 0x01, 0x04, 0x6d, 0x61, 0x69, 0x6e, 0x00, 0x01,
    0x0a, 0x0b, 0x01, 0x09, 0x00, 0x41, 0xe3, 0x00, 0x10, 0x00, 0x41, 0x00, 0x0b,
];

// Of 305 changes of one byte.
static CHANGED: [(&str, usize); 9] = [
    ("valid", 52),
    ("BadHeader", 40),
    ("Truncated", 17),
    ("BadSection", 163),
    ("BadOpcode", 8),
    ("Float", 4),
    ("BadIndex", 7),
    ("BadType", 8),
    ("BadModule", 6),
];

// Of 250 headers with 24 random bytes behind each.
static RANDOM: [(&str, usize); 3] = [("BadSection", 238), ("BadOpcode", 11), ("Truncated", 1)];

/// The name of a decoder's fault.
fn undecoded(fault: DecodeFault) -> &'static str {
    match fault {
        DecodeFault::BadHeader => "BadHeader",
        DecodeFault::Truncated(_) => "Truncated",
        DecodeFault::BadSection(_) => "BadSection",
        DecodeFault::BadInteger(_) => "BadInteger",
        DecodeFault::BadOpcode(_) => "BadOpcode",
        DecodeFault::Float(_) => "Float",
        DecodeFault::TooLarge => "TooLarge",
        DecodeFault::NoMemory => "NoMemory",
    }
}

/// The name of a validator's fault.
fn invalid(fault: InvalidFault) -> &'static str {
    match fault {
        InvalidFault::BadIndex(_) => "BadIndex",
        InvalidFault::BadType(_) => "BadType",
        InvalidFault::BadAlign(_) => "BadAlign",
        InvalidFault::BadModule => "BadModule",
        InvalidFault::NoMemory => "NoMemory",
    }
}

/// What is said of bytes.
fn told(alloc: Global, bytes: &[u8]) -> &'static str {
    match checked_module(alloc, bytes) {
        Ok(_) => "valid",
        Err(Unfit::Undecoded(fault)) => undecoded(fault),
        Err(Unfit::Invalid(fault)) => invalid(fault),
    }
}

/// How many of the answers are this one.
fn count(answers: &[&str], answer: &str) -> usize {
    let mut count: usize = 0;
    for it in answers {
        if *it == answer {
            count = count.saturating_add(1);
        }
    }
    count
}

/// The module with one byte changed.
fn changed(alloc: Global, place: usize, change: u8) -> Result<Vec<u8>, AllocError> {
    let mut bytes = DROPS.to_vec(alloc)?;
    if let Some(byte) = bytes.get_mut(place) {
        *byte ^= change;
    }
    Ok(bytes)
}

/// The header, and 24 bytes below 16 that follow from the seed, which is moved on.
fn random(alloc: Global, seed: &mut u32) -> Result<Vec<u8>, AllocError> {
    let mut bytes = HEADER.to_vec(alloc)?;
    for _ in 0..24 {
        *seed = seed.wrapping_mul(1664525).wrapping_add(1013904223);
        bytes.push((*seed >> 24) as u8 & 0x0f)?;
    }
    Ok(bytes)
}

#[test]
fn changed_bytes(rt: HostRuntime) -> Result<(), Fail> {
    let mut answers = Vec::new(rt.alloc());
    for place in 0..DROPS.len() {
        for change in [0x01, 0x10, 0x40, 0x80, 0xff] {
            let bytes = changed(rt.alloc(), place, change)?;
            answers.push(told(rt.alloc(), &bytes))?;
        }
    }
    assert_eq!(rt; answers.len(), 305);
    for (answer, wanted) in CHANGED {
        assert_eq!(rt; count(&answers, answer), wanted, "{answer}");
    }
    Ok(())
}

#[test]
fn random_bytes(rt: HostRuntime) -> Result<(), Fail> {
    let mut answers = Vec::new(rt.alloc());
    let mut seed: u32 = 1;
    for _ in 0..250 {
        let bytes = random(rt.alloc(), &mut seed)?;
        answers.push(told(rt.alloc(), &bytes))?;
    }
    for (answer, wanted) in RANDOM {
        assert_eq!(rt; count(&answers, answer), wanted, "{answer}");
    }
    Ok(())
}
