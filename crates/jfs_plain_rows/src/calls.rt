//! What the words of each call ask for.

use crate::scripts::{script_of, spelled};
use jfs_name::Path;
use jfs_plain::Call;
use std::alloc::{AllocError, Global};
use std::test::*;

/// Lines, and the call that each asks for in other words: its name, its first path as it is spelled, its mode, size or offset, its second
/// path, target or bytes, and its count.
static CALLS: [(&str, &str); 16] = [
    ("mkdir /a 0755", "mkdir [47, 97] 493 [] 0"),
    ("create /a/b 644", "create [47, 97, 47, 98] 420 [] 0"),
    ("symlink /a %20%7Ex", "symlink [47, 97] 0 [32, 126, 120] 0"),
    ("link /a /b", "link [47, 97] 0 [47, 98] 0"),
    ("unlink /a", "unlink [47, 97] 0 [] 0"),
    ("rmdir /", "rmdir [] 0 [] 0"),
    ("rename /a /b", "rename [47, 97] 0 [47, 98] 0"),
    ("chmod / 7777", "chmod [] 4095 [] 0"),
    ("write /a 5 41fF", "write [47, 97] 5 [65, 255] 0"),
    ("fill /a 7 9 4a", "fill [47, 97] 7 [74] 9"),
    ("truncate /a 0", "truncate [47, 97] 0 [] 0"),
    ("read /a 5 4096", "read [47, 97] 5 [] 4096"),
    ("stat /%u0041", "stat [47, 65] 0 [] 0"),
    ("list /", "list [] 0 [] 0"),
    (
        "readlink /%u00e4",
        "readlink [47, 37, 117, 48, 48, 69, 52] 0 [] 0",
    ),
    ("sync", "sync [] 0 [] 0"),
];

fn name(call: &Call) -> &'static str {
    match call {
        Call::Mkdir { .. } => "mkdir",
        Call::Create { .. } => "create",
        Call::Symlink { .. } => "symlink",
        Call::Link { .. } => "link",
        Call::Unlink { .. } => "unlink",
        Call::Rmdir { .. } => "rmdir",
        Call::Rename { .. } => "rename",
        Call::Chmod { .. } => "chmod",
        Call::Write { .. } => "write",
        Call::Fill { .. } => "fill",
        Call::Truncate { .. } => "truncate",
        Call::Read { .. } => "read",
        Call::Stat { .. } => "stat",
        Call::List { .. } => "list",
        Call::Readlink { .. } => "readlink",
        Call::Sync => "sync",
    }
}

fn first_path(call: &Call) -> Option<&Path> {
    match call {
        Call::Mkdir { path, .. } => Some(path),
        Call::Create { path, .. } => Some(path),
        Call::Symlink { path, .. } => Some(path),
        Call::Link { from, .. } => Some(from),
        Call::Unlink { path } => Some(path),
        Call::Rmdir { path } => Some(path),
        Call::Rename { from, .. } => Some(from),
        Call::Chmod { path, .. } => Some(path),
        Call::Write { path, .. } => Some(path),
        Call::Fill { path, .. } => Some(path),
        Call::Truncate { path, .. } => Some(path),
        Call::Read { path, .. } => Some(path),
        Call::Stat { path } => Some(path),
        Call::List { path } => Some(path),
        Call::Readlink { path } => Some(path),
        Call::Sync => None,
    }
}

fn second_path(call: &Call) -> Option<&Path> {
    match call {
        Call::Link { to, .. } => Some(to),
        Call::Rename { to, .. } => Some(to),
        _ => None,
    }
}

// The mode, the size or the offset.
fn number(call: &Call) -> u64 {
    match call {
        Call::Mkdir { mode, .. } => u64::from(*mode),
        Call::Create { mode, .. } => u64::from(*mode),
        Call::Chmod { mode, .. } => u64::from(*mode),
        Call::Write { offset, .. } => *offset,
        Call::Fill { offset, .. } => *offset,
        Call::Truncate { size, .. } => *size,
        Call::Read { offset, .. } => *offset,
        _ => 0,
    }
}

fn count(call: &Call) -> u32 {
    match call {
        Call::Fill { count, .. } => *count,
        Call::Read { count, .. } => *count,
        _ => 0,
    }
}

fn spelled_if(alloc: Global, path: Option<&Path>) -> Result<Vec<u8>, AllocError> {
    match path {
        Some(path) => spelled(alloc, path),
        None => Ok(Vec::new(alloc)),
    }
}

// The second path, the target or the bytes.
fn second(alloc: Global, call: &Call) -> Result<Vec<u8>, AllocError> {
    match call {
        Call::Symlink { target, .. } => Vec::from_slice(alloc, target.as_slice()),
        Call::Write { bytes, .. } => Vec::from_slice(alloc, bytes.as_slice()),
        Call::Fill { byte, .. } => Vec::from_slice(alloc, &[*byte]),
        _ => spelled_if(alloc, second_path(call)),
    }
}

// A call in other words.
fn told(alloc: Global, call: &Call) -> Result<String, AllocError> {
    let path = spelled_if(alloc, first_path(call))?;
    let rest = second(alloc, call)?;
    told_of(alloc, name(call), &path, number(call), &rest, count(call))
}

fn told_of(
    alloc: Global,
    name: &str,
    path: &[u8],
    number: u64,
    rest: &[u8],
    count: u32,
) -> Result<String, AllocError> {
    format!(in alloc; "{name} {path:?} {number} {rest:?} {count}")
}

// Whether a call is told so.
fn is_told(alloc: Global, call: &Call, wanted: &str) -> Result<bool, AllocError> {
    let text = told(alloc, call)?;
    Ok(text.as_str() == wanted)
}

// Whether a script of one line asks for this call, and its copy does.
fn asks(alloc: Global, line: &str, wanted: &str) -> Result<bool, AllocError> {
    let Ok(lines) = script_of(alloc, line.as_bytes()) else {
        return Ok(false);
    };
    let [line] = lines.as_slice() else {
        return Ok(false);
    };
    let same = line.request.copy(alloc)?;
    Ok(
        !same.lazy
            && is_told(alloc, &line.request.call, wanted)?
            && is_told(alloc, &same.call, wanted)?,
    )
}

#[test]
fn each_call(rt: HostRuntime) {
    for (line, wanted) in CALLS.iter() {
        assert!(rt;
            asks(rt.alloc(), line, wanted).expect(&rt, "memory"),
            "{line}"
        );
    }
}
