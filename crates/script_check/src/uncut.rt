//! Where the cutting of a script into tokens stops.

ghost use Rattle.std.specs.Prelude.{◌≡◌, ◌≤◌, IfOk, length, slice_get};
ghost use Rattle.script_check.specs.Remarks.{view_finding};
ghost use Rattle.script_check.specs.Uncut.{IsCutOrNot, IsUncut, StopsAt, byte_text, character_length, fault_line, fault_word, is_curled, is_inner_byte, line_end, line_found, line_start, may_stop, stop_found, stop_length, stop_text};

use crate::finding::{Finding, Said, bounded};
use crate::lines::first_line;
use awk_tokens::{TokenFault, tokens};
use std::alloc::{AllocError, Global};

/// How many places of a line are tried.
const MAX_TRIES: usize = 1_000;

/// Where a line begins; lines count from 1. Past the last line it is the end.
fn line_start(line: usize, script: &[u8]) -> usize
    ensures within { result ≤ length script.now }
    ensures value { result ≡ line_start line script.now }
{
    let mut left = line;
    for i in 0..script.len() {
        if left <= 1 {
            return i;
        }
        if script[i] == b'\n' {
            left -= 1;
        }
    }
    script.len()
}

/// Where the line ends that begins at a place.
fn line_end(script: &[u8], start: usize) -> usize
    requires { start ≤ length script.now }
    ensures from { start ≤ result }
    ensures within { result ≤ length script.now }
    ensures value { result ≡ line_end script.now start }
{
    start + first_line(&script[start..]).len()
}

/// Whether what stops the cutting may begin with this byte.
fn may_stop(fault: TokenFault, byte: u8) -> bool
    ensures { result ≡ may_stop fault byte }
{
    match fault {
        TokenFault::OpenString(_) => byte == b'"',
        TokenFault::OpenEre(_) => byte == b'/',
        _ => { !(byte.is_ascii_alphanumeric() || byte == b' ' || byte == b'\t' || byte == b'_') }
    }
}

/// Whether the bytes before a place are cut into tokens.
fn are_cut(alloc: Global, script: &[u8], place: usize) -> Result<bool, AllocError>
    requires { place ≤ length script.now }
    ensures { IfOk result (IsCutOrNot script.now place) }
{
    match tokens(alloc, &script[..place]) {
        Ok(_) => Ok(true),
        Err(TokenFault::NoMemory) => Err(AllocError),
        Err(_) => Ok(false),
    }
}

/// Where the cutting stops between two places: at the last place before which the bytes are cut into tokens. None where that is not found in a number of tries.
fn last_stop(
    alloc: Global,
    script: &[u8],
    fault: TokenFault,
    from: usize,
    to: usize,
) -> Result<Option<usize>, AllocError>
    requires from { from ≤ to }
    requires within { to ≤ length script.now }
    ensures { IfOk result (StopsAt script.now fault from to) }
{
    let mut tries: usize = 0;
    for back in 0..to - from {
        let place = to - 1 - back;
        if tries < MAX_TRIES && may_stop(fault, script[place]) {
            tries += 1;
            if are_cut(alloc, script, place)? {
                return Ok(Some(place));
            }
        }
    }
    Ok(None)
}

/// Whether a curled quote begins these bytes.
fn is_curled(rest: &[u8]) -> bool
    ensures { result ≡ is_curled rest.now }
{
    rest.starts_with(&[0xe2, 0x80, 0x98])
        || rest.starts_with(&[0xe2, 0x80, 0x99])
        || rest.starts_with(&[0xe2, 0x80, 0x9c])
        || rest.starts_with(&[0xe2, 0x80, 0x9d])
}

/// What is said of bytes at which no token begins.
fn byte_text(rest: &[u8]) -> &'static str
    ensures { result.now ≡ byte_text rest.now }
{
    if rest.starts_with(&[b'\r']) {
        "a carriage return; lines end in a newline alone"
    } else if rest.starts_with(&[0xef, 0xbb, 0xbf]) {
        "a byte-order mark"
    } else if is_curled(rest) {
        "a curled quote; texts stand in straight ones"
    } else {
        "no token begins with this byte"
    }
}

/// Whether the byte of this number is there, and within a character.
fn is_inner_at(rest: &[u8], number: usize) -> bool
    ensures { result ≡ is_inner_byte (slice_get rest.now number) }
{
    number < rest.len() && rest[number] >= 0x80 && rest[number] < 0xc0
}

/// How many bytes a character has that begins there.
fn character_length(rest: &[u8]) -> usize
    ensures { result ≡ character_length rest.now }
{
    if !is_inner_at(rest, 1) {
        1
    } else if !is_inner_at(rest, 2) {
        2
    } else if !is_inner_at(rest, 3) {
        3
    } else {
        4
    }
}

/// The line that a fault carries.
fn fault_line(fault: TokenFault) -> usize
    ensures { result ≡ fault_line fault }
{
    match fault {
        TokenFault::BadByte(line) | TokenFault::OpenString(line) | TokenFault::OpenEre(line) =>
            line,
        TokenFault::NoMemory => 0,
    }
}

fn fault_word(fault: TokenFault) -> &'static str
    ensures { result.now ≡ fault_word fault }
{
    match fault {
        TokenFault::BadByte(_) => "BadByte",
        TokenFault::OpenString(_) => "OpenString",
        TokenFault::OpenEre(_) => "OpenEre",
        TokenFault::NoMemory => "",
    }
}

/// What is said of the bytes from which on nothing is cut.
fn stop_text(fault: TokenFault, rest: &[u8]) -> &'static str
    ensures { result.now ≡ stop_text fault rest.now }
{
    match fault {
        TokenFault::OpenString(_) => "the text is not closed on its line",
        TokenFault::OpenEre(_) => "the regular expression is not closed on its line",
        _ => byte_text(rest),
    }
}

/// How many of these bytes are meant.
fn stop_length(fault: TokenFault, rest: &[u8]) -> usize
    ensures { result ≡ stop_length fault rest.now }
{
    match fault {
        TokenFault::BadByte(_) => character_length(rest),
        _ => 1,
    }
}

/// What is found at the place where the cutting stops.
fn stop_found<'a>(script: &[u8], fault: TokenFault, place: usize) -> Finding<'a>
    requires { place ≤ length script.now }
    ensures { view_finding result ≡ stop_found script.now fault place }
{
    let rest = &script[place..];
    let said = Said::error(fault_word(fault), &[], stop_text(fault, rest));
    bounded(script.len(), place, stop_length(fault, rest), said)
}

/// What is found where only the line is known.
fn line_found<'a>(script: &[u8], fault: TokenFault, start: usize) -> Finding<'a>
    ensures { view_finding result ≡ line_found script.now fault start }
{
    let said = Said::error(fault_word(fault), &[], "on this line");
    bounded(script.len(), start, 0, said)
}

/// What is found in a script that is not cut into tokens.
pub(crate) fn uncut_found<'a>(
    alloc: Global,
    script: &[u8],
    fault: TokenFault,
) -> Result<Finding<'a>, AllocError>
    ensures { IfOk result (λ found. IsUncut script.now fault (view_finding found)) }
{
    let from = line_start(fault_line(fault), script);
    let to = line_end(script, from);
    match last_stop(alloc, script, fault, from, to)? {
        Some(place) => Ok(stop_found(script, fault, place)),
        None => Ok(line_found(script, fault, from)),
    }
}
