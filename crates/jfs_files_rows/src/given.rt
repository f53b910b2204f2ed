//! Calls on small volumes that are made by hand, and how their answers are counted.

ghost use Rattle.std.specs.Prelude.{IfSome};
ghost use Rattle.jfs_plain.specs.Limits.{FitsPath, FitsCall, FitsRequest, FitsTarget};

use crate::calls::asked as outcome_of;
use crate::claims::{Owners, map_with};
use crate::trees::{Tree, put_tree};
use crate::words::{EMPTY_DIRECTORY, Word, failing_disk, small_disk};
use jfs_bits::{Blob, Moment, put_u32};
use jfs_disk::{Disk, Part};
use jfs_files::{FileOutcome, Maps};
use jfs_imap::InodeMap;
use jfs_inode_rows::places_of;
use jfs_name::{Path, read_path};
use jfs_plain::{Call, Refusal, Reply, Request};
use jfs_ranges::PageView;
use jfs_reader::DiskView;
use std::alloc::{AllocError, Global};

/// The inode map of the small volume: inodes 0 to 7 are in use.
pub fn inodes_of(alloc: Global) -> Result<InodeMap, AllocError> {
    inodes_with(alloc, 0xff00_0000, 1)
}

/// A map of so many extents of 32 inodes, 128 at most, all of them the one at page 29. Which inodes of the first are in use is told by a word, the first one by the highest bit; those of the others all are.
fn inodes_with(alloc: Global, used: u32, extents: u32) -> Result<InodeMap, AllocError> {
    let mut set = [0xffu8; 512];
    put_u32(&mut set, 0, used);
    let mut places = Vec::new(alloc);
    for place in 0..extents {
        places.push((place, 29))?;
    }
    let list = places_of(alloc, places.as_slice(), 1)?;
    InodeMap::from_parts(alloc, &set, &list, 1, 8192, 1)
}

/// What differs from the small volume: how many blocks there are, what those behind the first 44 are, which inodes of the first extent are in use, how many extents there are, words, and pages of a tree.
#[derive(Clone, Copy)]
pub struct Given<'a> {
    pub blocks: u32,
    pub owners: Owners,
    pub used: u32,
    pub extents: u32,
    pub words: &'a [Word],
    pub tree: Tree,
}

/// 64 blocks.
pub const SMALL: Given<'static> = Given {
    blocks: 64,
    owners: Owners::None,
    used: 0xff00_0000,
    extents: 1,
    words: &[],
    tree: Tree::None,
};

/// 200 blocks.
pub const LARGE: Given<'static> = Given {
    blocks: 200,
    ..SMALL
};

/// All inodes are in use.
pub const ALL_IN_USE: Given<'static> = Given {
    used: 0xffff_ffff,
    ..LARGE
};

pub const LARGE_WITH_DIRECTORY: Given<'static> = Given {
    words: &EMPTY_DIRECTORY,
    ..LARGE
};

fn maps_of(alloc: Global, given: Given<'_>) -> Option<Maps> {
    if given.blocks == 0 || given.blocks > 224 {
        return None;
    }
    Some(Maps {
        blocks: map_with(alloc, given.blocks, given.owners)?,
        inodes: inodes_with(alloc, given.used, given.extents).ok()?,
        file_limit: 33_554_432,
    })
}

/// How an answer is counted: the edits of a transaction; how many names there are, and the inode of the last one; how many bytes, and the third one from behind; an inode's number.
pub type Counted = Result<(usize, u32), Refusal>;

/// A commit is due first.
pub const NEEDS_LOG: Counted = Ok((1000, 0));

fn counted(outcome: FileOutcome) -> Counted {
    match outcome {
        FileOutcome::Changed { tx, blocks } => {
            Ok((tx.len(), if blocks.is_empty() { 0 } else { 1 }))
        }
        FileOutcome::Same(Reply::Refused(why)) => Err(why),
        FileOutcome::Same(Reply::Names(names)) => match names.as_slice().last() {
            Some(last) => Ok((names.len(), last.inode)),
            None => Ok((0, 0)),
        },
        FileOutcome::Same(Reply::Target(bytes)) => Ok(third_last(bytes.as_slice())),
        FileOutcome::Same(Reply::Bytes(bytes)) => Ok(third_last(bytes.as_slice())),
        FileOutcome::Same(Reply::Attr(stat)) => Ok((0, stat.inode)),
        FileOutcome::Same(Reply::Done) => Ok((0, 0)),
        FileOutcome::NeedsLog => NEEDS_LOG,
    }
}

fn third_last(bytes: &[u8]) -> (usize, u32) {
    let n = bytes.len();
    if n < 3 {
        return (n, 0);
    }
    (n, u32::from(bytes[n - 3]))
}

/// Which call is asked for.
#[derive(Clone, Copy)]
pub enum Asked {
    Mkdir,
    Create,
    Symlink,
    Chmod,
    Link,
    Unlink,
    Rmdir,
    Stat,
    List,
    Readlink,
    Read,
    Truncate,
    Write,
    Fill,
    Rename,
    Sync,
}

/// The call of a path that is asked for; a link and a rename get the other one, and a symbolic link a target, which is also what a write puts behind three bytes. A fill puts two bytes before the end of the first block, and two behind it.
fn call_of(asked: Asked, path: Path, to: Path, target: Blob) -> Call
    requires path { FitsPath path }
    requires to { FitsPath to }
    requires target { FitsTarget target }
    ensures fits { FitsCall result }
{
    match asked {
        Asked::Mkdir => Call::Mkdir { path, mode: 0o750 },
        Asked::Create => Call::Create { path, mode: 0o640 },
        Asked::Symlink => Call::Symlink { path, target },
        Asked::Unlink => Call::Unlink { path },
        Asked::Rmdir => Call::Rmdir { path },
        Asked::Chmod => Call::Chmod { path, mode: 0o700 },
        Asked::Link => Call::Link { from: path, to },
        Asked::Stat => Call::Stat { path },
        Asked::List => Call::List { path },
        Asked::Readlink => Call::Readlink { path },
        Asked::Read => Call::Read {
            path,
            offset: 0,
            count: 8,
        },
        Asked::Truncate => Call::Truncate { path, size: 2 },
        Asked::Write => Call::Write {
            path,
            offset: 3,
            bytes: target,
        },
        Asked::Fill => Call::Fill {
            path,
            offset: 4094,
            count: 4,
            byte: 46,
        },
        Asked::Rename => Call::Rename { from: path, to },
        Asked::Sync => Call::Sync,
    }
}

/// The path that a text spells.
fn path_of(alloc: Global, text: &[u8]) -> Option<Path>
    ensures { IfSome result FitsPath }
{
    match read_path(alloc, text) {
        Ok(path) => Some(path),
        Err(_) => None,
    }
}

/// The target `xy`.
fn target_of(alloc: Global) -> Option<Blob>
    ensures { IfSome result FitsTarget }
{
    let mut target = Blob::new(alloc);
    match target.extend_from_slice(b"xy") {
        Ok(()) => Some(target),
        Err(_) => None,
    }
}

/// The call of a path; a link and a rename get the name `/nn`.
fn request_of(alloc: Global, asked: Asked, path: &[u8]) -> Option<Request>
    ensures { IfSome result FitsRequest }
{
    let path = path_of(alloc, path)?;
    let to = path_of(alloc, b"/nn")?;
    let target = target_of(alloc)?;
    Some(Request {
        call: call_of(asked, path, to, target),
        lazy: false,
    })
}

/// What is answered by a view that shows the small volume.
fn answer_by_view<V: PageView>(
    alloc: Global,
    view: &mut V,
    maps: &mut Maps,
    request: &Request,
) -> Option<Counted>
    requires { FitsRequest request.now }
{
    let free = maps.blocks.free();
    let now = Moment { sec: 1000, nano: 7 };
    let counted = counted(outcome_of(alloc, view, maps, request, now)?);
    // what isn't done reserves nothing
    if (counted.is_err() || counted == NEEDS_LOG) && maps.blocks.free() != free {
        return None;
    }
    Some(counted)
}

/// What is answered, on a disk that has the small volume.
fn answer_on<D: Disk>(
    alloc: Global,
    disk: &mut D,
    given: Given<'_>,
    request: &Request,
) -> Option<Counted>
    requires { FitsRequest request.now }
{
    let mut maps = maps_of(alloc, given)?;
    let blocks = disk.pages();
    let mut view = DiskView::new(disk, Part::Whole, blocks);
    answer_by_view(alloc, &mut view, &mut maps, request)
}

/// What is answered to a call, on a disk that has the small volume.
fn asked_on<D: Disk>(
    alloc: Global,
    disk: &mut D,
    given: Given<'_>,
    asked: Asked,
    path: &[u8],
) -> Option<Counted> {
    let request = request_of(alloc, asked, path)?;
    answer_on(alloc, disk, given, &request)
}

/// What is answered.
pub fn answer(alloc: Global, given: Given<'_>, asked: Asked, path: &[u8]) -> Option<Counted> {
    let mut disk = small_disk(alloc, given.blocks, given.words).ok()?;
    put_tree(&mut disk, given.tree);
    asked_on(alloc, &mut disk, given, asked, path)
}

/// What is answered where one read fails.
pub fn answer_by(
    alloc: Global,
    number: u64,
    given: Given<'_>,
    asked: Asked,
    path: &[u8],
) -> Option<Counted> {
    let mut disk = failing_disk(alloc, number, given.blocks, given.words)?;
    put_tree(&mut disk, given.tree);
    asked_on(alloc, &mut disk, given, asked, path)
}
