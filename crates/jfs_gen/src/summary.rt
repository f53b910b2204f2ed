//! What a history made of the files of the generated scripts.

ghost use Rattle.std.specs.Prelude.{◌≡◌, ◌<◌, ◌≤◌, ◌+◌, ◌++◌, ℕ, Option, length, IfOk, OnOk, None};
ghost use Rattle.std.specs.Fmt.{decimal};
ghost use Rattle.jfs_name.specs.Directory.{is_same};
ghost use Rattle.jfs_gen.specs.Summary.{home_name, file_name, is_at, left_by, left_with, left_after, with_file, files_from, files_in, is_refused, refused_in, summary_text};

use crate::name::numbered;
use jfs_name::{Name, Path};
use jfs_plain::{Call, Entry, Reply};
use std::alloc::{AllocError, Global};

/// How many files a generated script works on.
const FILES: u32 = 16;

/// The files that stand: how many, and how many bytes they have together.
#[derive(Clone, Copy, PartialEq, Eq, Debug)]
struct Files {
    files: u64,
    bytes: u64,
}

/// Adds the line that sums up a history of generated scripts: how many entries there are, how many of them were refused, how many files of the
/// clients 1 to `clients` stand after it, and how many bytes these have. A directory that a script makes is new to it; of files that stood before,
/// what the history tells counts.
pub fn write_summary(
    alloc: Global,
    history: &[Entry],
    clients: u32,
    into: &mut Vec<u8>,
) -> Result<(), AllocError>
    requires { clients < 99 }
    ensures { OnOk result (into.new.items ≡ into.old.items ++ summary_text history.now clients) }
{
    let stand = files_in(alloc, history, clients)?;
    into.extend_from_slice(b"gen ")?;
    push_decimal(alloc, into, history.len() as u64)?;
    into.extend_from_slice(b" entries, ")?;
    push_decimal(alloc, into, refused_in(history) as u64)?;
    into.extend_from_slice(b" refused, ")?;
    push_decimal(alloc, into, stand.files)?;
    into.extend_from_slice(b" files, ")?;
    push_decimal(alloc, into, stand.bytes)?;
    into.extend_from_slice(b" bytes\n")
}

/// Adds a number.
fn push_decimal(alloc: Global, into: &mut Vec<u8>, number: u64) -> Result<(), AllocError>
    ensures { OnOk result (into.new.items ≡ into.old.items ++ decimal number) }
{
    into.extend_from_slice(number.to_string(alloc)?.as_bytes())
}

/// How many entries were refused.
fn refused_in(history: &[Entry]) -> usize
    ensures { result ≡ refused_in history.now }
{
    let mut refused = 0;
    for entry in history {
        if is_refused(&entry.reply) {
            refused += 1;
        }
    }
    refused
}

fn is_refused(reply: &Reply) -> bool
    ensures { result ≡ is_refused reply.now }
{
    matches!(reply, Reply::Refused(_))
}

/// The files of all clients that stand.
fn files_in(alloc: Global, history: &[Entry], clients: u32) -> Result<Files, AllocError>
    requires { clients < 99 }
    ensures { IfOk result (λ all. all ≡ files_in history.now clients) }
{
    let mut all = Files { files: 0, bytes: 0 };
    for i in 0..clients {
        all = files_of(alloc, history, i + 1, all)?;
    }
    Ok(all)
}

/// Adds the files of a client that stand.
fn files_of(
    alloc: Global,
    history: &[Entry],
    client: u32,
    before: Files,
) -> Result<Files, AllocError>
    requires client { client < 100 }
    ensures { IfOk result (λ all. all ≡ files_from history.now client 0 16 before) }
{
    let home = numbered(alloc, b'g', client)?;
    let mut all = before;
    for file in 0..FILES {
        let name = numbered(alloc, b'f', file)?;
        all = all.with_file(left_after(history, &home, &name));
    }
    Ok(all)
}

impl Files {
    /// With a file of this size, where it stands.
    fn with_file(self, size: Option<u64>) -> Files
        ensures { result ≡ with_file self size }
    {
        match size {
            Some(size) => Files {
                files: self.files.saturating_add(1),
                bytes: self.bytes.saturating_add(size),
            },
            None => self,
        }
    }
}

/// The size of a file after a history, where it stands.
fn left_after(history: &[Entry], home: &Name, file: &Name) -> Option<u64>
    ensures { result ≡ left_after home.now file.now None history.now }
{
    let mut size = None;
    for entry in history {
        size = left_with(home, file, size, &entry.call, &entry.reply);
    }
    size
}

/// The size of a file after a call with this reply.
fn left_with(home: &Name, file: &Name, size: Option<u64>, call: &Call, reply: &Reply) -> Option<u64>
    ensures { result ≡ left_with home.now file.now size call.now reply.now }
{
    match reply {
        Reply::Done => left_by(home, file, size, call),
        _ => size,
    }
}

/// The size of a file after a call that was done.
fn left_by(home: &Name, file: &Name, size: Option<u64>, call: &Call) -> Option<u64>
    ensures { result ≡ left_by home.now file.now size call.now }
{
    match call {
        Call::Create { path, .. } if is_at(home, file, path) => Some(0),
        Call::Unlink { path } if is_at(home, file, path) => None,
        Call::Fill {
            path,
            offset,
            count,
            ..
        } if is_at(home, file, path) => {
            let end = offset.saturating_add(u64::from(*count));
            Some(size.unwrap_or(0).max(end))
        }
        Call::Truncate { path, size: end } if is_at(home, file, path) => Some(*end),
        _ => size,
    }
}

/// Whether a path is these two names.
fn is_at(home: &Name, file: &Name, path: &Path) -> bool
    ensures { result ≡ is_at home.now file.now path.now }
{
    match path.as_slice() {
        [a, b] => is_same(a, home) && is_same(b, file),
        _ => false,
    }
}

fn is_same(a: &Name, b: &Name) -> bool
    ensures { result ≡ is_same a.now b.now }
{
    a.as_slice().cmp(b.as_slice()).is_eq()
}
