//! The summary of a history, beside a plain file tree.

use jfs_bits::Moment;
use jfs_gen::{file_path, workload, write_summary};
use jfs_plain::{Call, Entry, PlainTree, Reply};
use std::alloc::Global;

const NOW: Moment = Moment { sec: 1000, nano: 0 };

/// A call on a plain file tree; a new object gets the lowest number that is free.
fn step(tree: &mut PlainTree, call: &Call) -> Option<Reply> {
    for fresh in 4..1000 {
        if tree.is_free(fresh) {
            return Some(tree.step(call, fresh, NOW));
        }
    }
    None
}

/// The entries of a client's generated lines on a tree.
fn entries_of(
    alloc: Global,
    tree: &mut PlainTree,
    number: u64,
    client: u32,
    calls: u32,
) -> Option<Vec<Entry>> {
    if client >= 100 || calls > 4094 {
        return None;
    }
    let lines = workload(alloc, number, client, calls).ok()?;
    let mut entries = Vec::new(alloc);
    for line in &lines {
        let reply = step(tree, &line.request.call)?;
        let call = line.request.call.copy(alloc).ok()?;
        entries
            .push(Entry {
                client,
                line: line.number,
                call,
                lazy: false,
                reply,
            })
            .ok()?;
    }
    Some(entries)
}

/// How many of a client's files stand on a tree, and how many bytes they have.
fn files_of(alloc: Global, tree: &mut PlainTree, client: u32) -> Option<(u64, u64)> {
    if client >= 100 {
        return None;
    }
    let mut files: u64 = 0;
    let mut bytes: u64 = 0;
    for file in 0..16 {
        let path = file_path(alloc, client, file).ok()?;
        if let Reply::Attr(stat) = step(tree, &Call::Stat { path })? {
            files = files.checked_add(1)?;
            bytes = bytes.checked_add(stat.size)?;
        }
    }
    Some((files, bytes))
}

/// A number, a client, and how many calls it has.
static ROWS: [(u64, u32, u32); 4] = [(7, 1, 0), (7, 1, 300), (0, 12, 200), (123456789, 16, 400)];

/// The line that sums up the calls of a client on a new tree, and how it begins and ends.
fn told(alloc: Global, number: u64, client: u32, calls: u32) -> Option<bool> {
    let mut tree = PlainTree::new(alloc, 268_435_456, NOW).ok()?;
    let entries = entries_of(alloc, &mut tree, number, client, calls)?;
    let mut text = Vec::new(alloc);
    write_summary(alloc, entries.as_slice(), 16, &mut text).ok()?;
    let (files, bytes) = files_of(alloc, &mut tree, client)?;
    let mut refused: u64 = 0;
    for entry in &entries {
        if let Reply::Refused(_) = entry.reply {
            refused = refused.checked_add(1)?;
        }
    }
    let count = entries.len();
    let wanted = format!(in alloc;
        "gen {count} entries, {refused} refused, {files} files, {bytes} bytes\n"
    ).ok()?;
    Some(text.as_slice() == wanted.as_bytes())
}

#[test]
fn summaries_are_those_of_a_plain_tree(rt: HostRuntime) {
    let alloc = rt.alloc();
    for (number, client, calls) in ROWS.iter() {
        let is_so = told(alloc, *number, *client, *calls);
        assert!(rt; is_so == Some(true), "{number} {client} {calls}");
    }
}
