//! Limits of scripts: 0, the greatest value, and one more.

use crate::scripts::script_of;
use jfs_bits::Rule;
use jfs_io::MemSource;
use jfs_script::{ScriptError, read_script};
use std::alloc::{AllocError, Global};
use std::test::*;

const MOST_BYTES: usize = 16_777_216;

// A word so many times after a front, and an end.
fn repeated(
    alloc: Global,
    front: &[u8],
    piece: &[u8],
    times: usize,
    end: &[u8],
) -> Result<Vec<u8>, AllocError> {
    let mut text = Vec::from_slice(alloc, front)?;
    for _ in 0..times {
        text.extend_from_slice(piece)?;
    }
    text.extend_from_slice(end)?;
    Ok(text)
}

// Why a script isn't read.
fn error_of(alloc: Global, text: &[u8]) -> Option<ScriptError> {
    script_of(alloc, text).err()
}

// The script's only line breaks this rule.
fn breaks(rule: Rule) -> Option<ScriptError> {
    Some(ScriptError::BadScript { line: 1, rule })
}

static NUMBERS: [&[u8]; 11] = [
    b"truncate /f 0",
    b"truncate /f 18446744073709551615",
    b"truncate /f 00000000000000000001",
    b"read /f 0 1",
    b"read /f 0 4096",
    b"read /f 18446744073709551614 1",
    b"fill /f 0 65536 00",
    b"fill /f 18446744073709486079 65536 ff",
    b"write /f 18446744073709551615 41",
    b"mkdir /a 000",
    b"mkdir /a 7777",
];

static OTHER_NUMBERS: [&[u8]; 9] = [
    b"truncate /f 18446744073709551616",
    b"truncate /f 99999999999999999999",
    b"truncate /f 000000000000000000001",
    b"read /f 0 0",
    b"read /f 0 4097",
    b"read /f 18446744073709551615 1",
    b"fill /f 0 0 00",
    b"fill /f 0 65537 00",
    b"fill /f 18446744073709486080 65536 ff",
];

#[test]
fn numbers(rt: HostRuntime) {
    for line in NUMBERS.iter() {
        assert!(rt; error_of(rt.alloc(), line).is_none(), "{line:?}");
    }
    for line in OTHER_NUMBERS.iter() {
        assert!(rt;
            error_of(rt.alloc(), line) == breaks(Rule::Number),
            "{line:?}"
        );
    }
}

/// A front, a piece, how many times it comes, an end, and the rule that the line breaks.
type Long = (
    &'static [u8],
    &'static [u8],
    usize,
    &'static [u8],
    Option<Rule>,
);

// 2,046 names of one unit and one of two take 4,095 bytes, 2,048 names of one unit 4,096.
static LONG_WORDS: [Long; 9] = [
    (b"stat /", b"n", 255, b"", None),
    (b"stat /", b"n", 256, b"", Some(Rule::Name)),
    (b"create /", b"n", 256, b" 0644", Some(Rule::Name)),
    (b"stat ", b"/a", 2046, b"/ab", None),
    (b"stat ", b"/a", 2048, b"", Some(Rule::Path)),
    (b"symlink /a ", b"%41", 255, b"", None),
    (b"symlink /a ", b"x", 256, b"", Some(Rule::Target)),
    (b"write /a 0 ", b"41", 4096, b"", None),
    (b"write /a 0 ", b"41", 4097, b"", Some(Rule::Hex)),
];

// Whether a script of such a line is read, or refused by such an error.
fn is_answered(
    alloc: Global,
    front: &[u8],
    piece: &[u8],
    times: usize,
    end: &[u8],
    error: Option<ScriptError>,
) -> Result<bool, AllocError> {
    let text = repeated(alloc, front, piece, times, end)?;
    Ok(error_of(alloc, &text) == error)
}

fn broken(rule: Option<Rule>) -> Option<ScriptError> {
    match rule {
        Some(rule) => breaks(rule),
        None => None,
    }
}

#[test]
fn names_paths_and_targets(rt: HostRuntime) {
    for (front, piece, times, end, rule) in LONG_WORDS.iter() {
        let is_so = is_answered(rt.alloc(), front, piece, *times, end, broken(*rule)).expect(
            &rt, "memory",
        );
        assert!(rt; is_so, "{front:?} {times}");
    }
}

/// A word that comes first, a piece, how many times it comes, and the end of the script; the count of what is too much, if it is.
type Many = (
    &'static [u8],
    &'static [u8],
    usize,
    &'static [u8],
    Option<u32>,
);

// Too many lines come before a bad one.
static MANY_LINES: [Many; 4] = [
    (b"", b"\n", 4096, b"", None),
    (b"", b"\n", 4095, b"sync", None),
    (b"", b"\n", 4096, b"\n", Some(4097)),
    (b"foo", b"\n", 4096, b"#", Some(4097)),
];

// 4,096 lines in 16,777,216 bytes, and one byte more: both are met in that byte. Then 4,096 lines of which the last is too long.
static MANY_BYTES: [(usize, usize, &[u8], Option<u32>); 4] = [
    (MOST_BYTES, 0, b"", None),
    (MOST_BYTES + 1, 0, b"", Some(16_777_217)),
    (MOST_BYTES - 4096, 4096, b"#", Some(4097)),
    (MOST_BYTES - 4096, 4095, b"##", Some(16_777_217)),
];

fn too_much(count: Option<u32>) -> Option<ScriptError> {
    match count {
        Some(count) => Some(ScriptError::TooMuch { count }),
        None => None,
    }
}

// Whether a note of so many bytes, so many ends of lines and an end are answered so.
fn is_long_answered(
    alloc: Global,
    bytes: usize,
    times: usize,
    end: &[u8],
    error: Option<ScriptError>,
) -> Result<bool, AllocError> {
    let mut text = vec![in alloc; b'#'; bytes]?;
    for _ in 0..times {
        text.push(b'\n')?;
    }
    text.extend_from_slice(end)?;
    Ok(error_of(alloc, &text) == error)
}

#[test]
fn lines_and_bytes(rt: HostRuntime) {
    for (front, piece, times, end, count) in MANY_LINES.iter() {
        let is_so = is_answered(rt.alloc(), front, piece, *times, end, too_much(*count)).expect(
            &rt, "memory",
        );
        assert!(rt; is_so, "{front:?} {times}");
    }
    for (bytes, times, end, count) in MANY_BYTES.iter() {
        let is_so = is_long_answered(rt.alloc(), *bytes, *times, end, too_much(*count)).expect(
            &rt, "memory",
        );
        assert!(rt; is_so, "{bytes} {times}");
    }
}

#[test]
fn pieces(rt: HostRuntime) {
    let alloc = rt.alloc();
    // A piece of the source ends between a carriage return and its line feed.
    let text = repeated(alloc, b"#", b"x", 4094, b"\r\nsync\n").expect(&rt, "memory");
    let lines = script_of(alloc, &text).ok().expect(&rt, "a script");
    assert_eq!(rt; lines.len(), 1);
    assert_eq!(rt; lines[0].number, 2);
    // And within a word.
    let text = repeated(alloc, b"#", b"x", 4092, b"\nsync\n").expect(&rt, "memory");
    let lines = script_of(alloc, &text).ok().expect(&rt, "a script");
    assert_eq!(rt; lines.len(), 1);
    assert_eq!(rt; lines[0].number, 2);
}

#[test]
fn faults(rt: HostRuntime) {
    let alloc = rt.alloc();
    let mut source = MemSource::new(Vec::from_slice(alloc, b"foo\n").expect(
        &rt, "memory",
    )).with_fails(1, 1);
    assert_eq!(rt;
        read_script(alloc, &mut source).err(),
        Some(ScriptError::Fault)
    );
    // A later fault comes before a bad line.
    let mut source = MemSource::new(Vec::from_slice(alloc, b"foo\n").expect(
        &rt, "memory",
    )).with_fails(2, 2);
    assert_eq!(rt;
        read_script(alloc, &mut source).err(),
        Some(ScriptError::Fault)
    );
    let mut source = MemSource::new(Vec::from_slice(alloc, b"foo\n").expect(
        &rt, "memory",
    )).with_fails(3, 3);
    assert_eq!(rt; read_script(alloc, &mut source).err(), breaks(Rule::Word));
}
