//! Sizes that a file gets.

use crate::volume::{
    BLOCKS, MADE, SIZE, append, fill_of, freed_by, is_short, map_of_objects, page_of, path_of,
    volume_of_objects,
};
use jfs_bits::{Blob, Moment};
use jfs_disk::{Disk, Part, SureDisk};
use jfs_imap::InodeMap;
use jfs_inode::inode_in;
use jfs_plain::{Call, PlainTree, Refusal, Reply};
use jfs_read::read_bytes;
use jfs_reader::DiskView;
use jfs_truncate::{Truncated, truncate};
use std::alloc::Global;
use std::test::*;

/// No file may be larger.
const LIMIT: u64 = 40_000;

/// How many blocks are written, and how many are freed.
type Counts = (usize, u32);

/// When the file gets a size.
const NOW: Moment = Moment { sec: 2000, nano: 9 };

fn truncated(
    alloc: Global,
    disk: &mut SureDisk,
    map: &InodeMap,
    unit: u16,
    size: u64,
) -> Option<Result<Truncated, Refusal>> {
    let path = path_of(alloc, unit)?;
    let path = path.as_slice();
    if disk.pages() < BLOCKS || !is_short(path) {
        return None;
    }
    let mut view = DiskView::new(disk, Part::Whole, BLOCKS);
    Some(truncate(alloc, &mut view, map, path, size, LIMIT, NOW))
}

/// The file's bytes on the volume, in its first 40,000.
fn bytes_on(alloc: Global, disk: &mut SureDisk, map: &InodeMap) -> Option<Blob> {
    let path = path_of(alloc, 97)?;
    let path = path.as_slice();
    if disk.pages() < BLOCKS || !is_short(path) {
        return None;
    }
    let mut view = DiskView::new(disk, Part::Whole, BLOCKS);
    read_bytes(alloc, &mut view, map, path, 0, 40_000).ok()
}

/// The root directory of a plain tree gets a file `a`.
fn create(alloc: Global, tree: &mut PlainTree) -> Option<Reply> {
    let path = path_of(alloc, 97)?;
    stepped(tree, &Call::Create { path, mode: 0o644 }, MADE)
}

/// Block `k` of the file is filled.
fn fill(alloc: Global, tree: &mut PlainTree, k: u32) -> Option<Reply> {
    let path = path_of(alloc, 97)?;
    let call = Call::Fill {
        path,
        offset: u64::from(k).saturating_mul(4096),
        count: if k == 4 { 3616 } else { 4096 },
        byte: fill_of(k),
    };
    stepped(tree, &call, MADE)
}

/// The plain tree whose root directory names `a` this file, as inode 4.
fn plain_tree(alloc: Global) -> Option<PlainTree> {
    let mut tree = PlainTree::new(alloc, LIMIT, MADE).ok()?;
    let mut good = create(alloc, &mut tree).is_some();
    for k in 0..5 {
        good &= fill(alloc, &mut tree, k).is_some();
    }
    if good { Some(tree) } else { None }
}

/// What a call is answered by the plain tree.
fn stepped(tree: &mut PlainTree, call: &Call, now: Moment) -> Option<Reply> {
    let fresh = if tree.is_free(4) { 4 } else { 7 };
    if !tree.is_free(fresh) {
        return None;
    }
    Some(tree.step(call, fresh, now))
}

/// The file's bytes in the plain tree.
fn plain_bytes(alloc: Global, tree: &mut PlainTree) -> Option<Blob> {
    let path = path_of(alloc, 97)?;
    let read = Call::Read {
        path,
        offset: 0,
        count: 40_000,
    };
    match stepped(tree, &read, NOW)? {
        Reply::Bytes(bytes) => Some(bytes),
        _ => None,
    }
}

/// Whether the file's inode has the size and the time of the plain tree's.
fn has_times(disk: &mut SureDisk, tree: &PlainTree) -> bool {
    let d = inode_in(&page_of(disk, 29), 4);
    match tree.node(4) {
        Some(node) => d.size == node.size && d.mtime == node.times.modified,
        None => false,
    }
}

/// Whether the file has the size, the time and the bytes of the plain tree's.
fn is_same(alloc: Global, disk: &mut SureDisk, map: &InodeMap, tree: &mut PlainTree) -> bool {
    match (bytes_on(alloc, disk, map), plain_bytes(alloc, tree)) {
        (Some(a), Some(b)) => a.as_slice() == b.as_slice() && has_times(disk, tree),
        _ => false,
    }
}

/// The reply of the plain tree where an object gets a size.
fn plain_size(alloc: Global, tree: &mut PlainTree, unit: u16, size: u64) -> Option<Reply> {
    let path = path_of(alloc, unit)?;
    stepped(tree, &Call::Truncate { path, size }, NOW)
}

/// Does what a truncate says: how many blocks are written, and how many freed.
fn done(disk: &mut SureDisk, out: &Truncated) -> Option<Counts> {
    if append(disk, &out.blocks, &out.tx) {
        Some((out.blocks.len(), freed_by(&out.tx)))
    } else {
        None
    }
}

/// What a truncate of a path's object does to the volume: how many blocks are written and freed, or why it isn't done.
fn sized(
    alloc: Global,
    disk: &mut SureDisk,
    map: &InodeMap,
    unit: u16,
    size: u64,
) -> Option<Result<Counts, Refusal>> {
    match truncated(alloc, disk, map, unit, size)? {
        Ok(out) => match done(disk, &out) {
            Some(counts) => Some(Ok(counts)),
            None => None,
        },
        Err(why) => Some(Err(why)),
    }
}

/// What becomes of both when a path's object gets a size, where the file is the same then, and what is done of it is done in the plain tree.
fn resized(
    alloc: Global,
    disk: &mut SureDisk,
    map: &InodeMap,
    tree: &mut PlainTree,
    unit: u16,
    size: u64,
) -> Option<Result<Counts, Refusal>> {
    let is_done = matches!(plain_size(alloc, tree, unit, size)?, Reply::Done);
    let counts = sized(alloc, disk, map, unit, size)?;
    if is_same(alloc, disk, map, tree) && (is_done || counts.is_err()) {
        Some(counts)
    } else {
        None
    }
}

/// What is named, the size that it gets, and what comes of it. A size inside a block zeroes what follows there; one at its end frees the blocks behind alone; a larger one
/// makes a hole, in which no block is written.
static ROWS: [(u16, u64, Result<Counts, Refusal>); 14] = [
    (97, SIZE, Ok((1, 0))),
    (97, 9000, Ok((1, 2))),
    (97, 8192, Ok((0, 1))),
    (97, 30_000, Ok((0, 0))),
    (97, 20_001, Ok((0, 0))),
    (97, 8195, Ok((0, 0))),
    (97, 4097, Ok((1, 0))),
    (97, 40_000, Ok((1, 0))),
    (97, 40_001, Err(Refusal::FileTooBig)),
    (0, 1, Err(Refusal::IsDir)),
    (98, 1, Err(Refusal::NotFile)),
    (99, 1, Err(Refusal::NotFound)),
    (97, 0, Ok((0, 2))),
    (97, 10, Ok((0, 0))),
];

#[test]
fn files_get_sizes(rt: HostRuntime) {
    let alloc = rt.alloc();
    let map = map_of_objects(alloc).expect(&rt, "memory");
    let mut disk = volume_of_objects(alloc).expect(&rt, "a volume");
    let mut tree = plain_tree(alloc).expect(&rt, "a tree");
    assert!(rt; is_same(alloc, &mut disk, &map, &mut tree));
    for (unit, size, wanted) in ROWS.iter() {
        let came = resized(alloc, &mut disk, &map, &mut tree, *unit, *size);
        assert!(rt; came == Some(*wanted), "{size}");
    }
}
