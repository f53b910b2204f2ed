//! Bytes that are put into a file. (POSIX: pwrite.)

ghost use Rattle.std.specs.Prelude.{◌≡◌, ◌≤◌, ◌<◌, ◌+◌, ℕ, [], length, get_or, replicate, IfOk, IfErr};
ghost use Rattle.jfs_disk.specs.Image.{page_of};
ghost use Rattle.jfs_link.specs.meaning.specs.Contents.{is_regular};
ghost use Rattle.jfs_plain.specs.Step.{write};
ghost use Rattle.jfs_file_blocks.specs.room.specs.Laws.{blocks_in};
ghost use Rattle.jfs_read.specs.way.specs.Answer.{Carries, Answers};
ghost use Rattle.jfs_read.specs.way.specs.Walk.{IsHeld, IsShown};
ghost use Rattle.jfs_write_pages.specs.data_steps.specs.After.{AreWholePages, LieWithin};
ghost use Rattle.jfs_write.specs.Look.{FitsBytes, IsAllowed};
ghost use Rattle.jfs_write.specs.Call.{CarriesStop, MapAfter, IsWritten, IsStopped, StepsInRoom, StartsWrite, StartsFill, LooksAs, allowed_of};

use crate::answer::Stop;
use crate::look::blocks_in;
use crate::make::Written;
use crate::reserve::write_at;
use jfs_bits::Moment;
use jfs_bmap::BlockMap;
use jfs_file_blocks::claim::look_for_space;
use jfs_imap::InodeMap;
use jfs_inode::Dinode;
use jfs_name::Name;
use jfs_plain::Refusal;
use jfs_ranges::PageView;
use jfs_read::reader::has_names;
use jfs_read::way::{Held, walk};
use jfs_write_pages::Change;
use std::alloc::{AllocError, Global};

/// How many blocks a range of bytes may need beside those of its data.
const TREE_BLOCKS: u32 = 8;

/// No file has more bytes: the blocks of a file end below 2^40.
const MOST_BYTES: u64 = (1 << 52) - 4096;

/// What puts 1 to 65,536 bytes into the file at the end of a path, from an offset on: blocks that are written, each with its whole page, and then a transaction. Holes that the bytes touch get new blocks, the first
/// of them behind the file's last extent while these are free; what was a hole or not recorded is zero beside the bytes, and so is what lies behind the old end. Exactly the blocks that the transaction takes are
/// reserved then beside those before; after an `Err` the map is as before.
/// A refusal is the first of: the walk's; `IsDir` or `NotFile` where that is no regular file; `FileTooBig` where it is larger than `limit` bytes or would be, or would end past block 2^40; `NoSpace`; and `Damaged`, at
/// the first page of the file's tree that breaks a rule. `NeedsLog` where fewer blocks are free than are wanted: one for each hole, and fifteen for pages of its tree where it gets extents.
pub fn write<V: PageView>(
    alloc: Global,
    view: &mut V,
    blocks: &mut BlockMap,
    inodes: &InodeMap,
    path: &[Name],
    offset: u64,
    bytes: &[u8],
    limit: u64,
    now: Moment,
) -> Result<Written, Stop>
    requires map { blocks_in blocks.old ≡ V.PageView.block_count view.old }
    requires names { (i : ℕ) → i < length path.now → length (get_or path.now i []) ≤ 255 }
    requires some { 0 < length bytes.now }
    requires few { length bytes.now ≤ 65536 }
    ensures image { V.PageView.tells → V.PageView.image view.new ≡ V.PageView.image view.old }
    ensures count_of_blocks { V.PageView.block_count view.new ≡ V.PageView.block_count view.old }
    ensures device { V.PageView.device view.new ≡ V.PageView.device view.old }
    ensures fault { CarriesStop (V.PageView.faults view.old) (V.PageView.faults view.new) result }
    ensures within { IfOk result (λ out. LieWithin (V.PageView.block_count view.old) out.blocks) }
    ensures whole { IfOk result (λ out. AreWholePages out.blocks) }
    ensures map { MapAfter blocks.old blocks.new result }
    // On any volume the bytes are put as the definition says, or the answer has its cause.
    ensures written { V.PageView.tells → IfOk result (IsWritten (V.PageView.block_count view.old) (page_of (V.PageView.image view.old)) inodes.now path.now offset bytes.now limit now blocks.old blocks.new) }
    ensures stopped { V.PageView.tells → IfErr result (IsStopped (V.PageView.block_count view.old) (page_of (V.PageView.image view.old)) inodes.now path.now offset (length bytes.now) limit blocks.old) }
    // On a consistent volume both together take the plain step, and what is written before the transaction changes no object, and no byte that the call doesn't write over.
    ensures steps { V.PageView.tells → StepsInRoom (V.PageView.block_count view.old) (page_of (V.PageView.image view.old)) blocks.old inodes.now limit path.now (λ room t. write room t path.now offset bytes.now now) result }
    ensures starts { V.PageView.tells → IfOk result (StartsWrite (V.PageView.block_count view.old) (page_of (V.PageView.image view.old)) blocks.old inodes.now path.now offset bytes.now) }
{
    let at = match look(view, blocks, inodes, path, offset, bytes.len(), limit) {
        Ok(at) => at,
        Err(e) => return Err(Stop::Refused(e)),
    };
    let change = Change {
        size: at.inode.size,
        offset,
        bytes,
    };
    write_at(alloc, view, blocks, &at, &change, now)
}

/// Puts `count` times the same byte into the file at the end of a path: `write`.
pub fn fill<V: PageView>(
    alloc: Global,
    view: &mut V,
    blocks: &mut BlockMap,
    inodes: &InodeMap,
    path: &[Name],
    offset: u64,
    count: u32,
    byte: u8,
    limit: u64,
    now: Moment,
) -> Result<Written, Stop>
    requires map { blocks_in blocks.old ≡ V.PageView.block_count view.old }
    requires names { (i : ℕ) → i < length path.now → length (get_or path.now i []) ≤ 255 }
    requires some { 0 < count }
    requires few { count ≤ 65536 }
    ensures image { V.PageView.tells → V.PageView.image view.new ≡ V.PageView.image view.old }
    ensures count_of_blocks { V.PageView.block_count view.new ≡ V.PageView.block_count view.old }
    ensures device { V.PageView.device view.new ≡ V.PageView.device view.old }
    ensures fault { CarriesStop (V.PageView.faults view.old) (V.PageView.faults view.new) result }
    ensures within { IfOk result (λ out. LieWithin (V.PageView.block_count view.old) out.blocks) }
    ensures whole { IfOk result (λ out. AreWholePages out.blocks) }
    ensures map { MapAfter blocks.old blocks.new result }
    // On any volume the bytes are put as the definition says, or the answer has its cause.
    ensures written { V.PageView.tells → IfOk result (IsWritten (V.PageView.block_count view.old) (page_of (V.PageView.image view.old)) inodes.now path.now offset (replicate count byte) limit now blocks.old blocks.new) }
    ensures stopped { V.PageView.tells → IfErr result (IsStopped (V.PageView.block_count view.old) (page_of (V.PageView.image view.old)) inodes.now path.now offset count limit blocks.old) }
    ensures steps { V.PageView.tells → StepsInRoom (V.PageView.block_count view.old) (page_of (V.PageView.image view.old)) blocks.old inodes.now limit path.now (λ room t. write room t path.now offset (replicate count byte) now) result }
    ensures starts { V.PageView.tells → IfOk result (StartsFill (V.PageView.block_count view.old) (page_of (V.PageView.image view.old)) blocks.old inodes.now path.now offset count byte) }
{
    let Ok(bytes) = repeated(alloc, byte, count as usize) else {
        return Err(Stop::Refused(Refusal::OutOfMemory));
    };
    write(
        alloc,
        view,
        blocks,
        inodes,
        path,
        offset,
        bytes.as_slice(),
        limit,
        now,
    )
}

/// So many times the same byte.
fn repeated(alloc: Global, byte: u8, count: usize) -> Result<Vec<u8>, AllocError>
    ensures { IfOk result (λ bytes. bytes.items ≡ replicate count byte) }
{
    let mut bytes = Vec::new(alloc);
    bytes.resize(count, byte)?;
    Ok(bytes)
}

/// The file at the end of a path, where so many bytes may be put from an offset on. A refusal is the first of: the walk's; `IsDir` or `NotFile`; `FileTooBig`; `NoSpace`.
fn look<V: PageView>(
    view: &mut V,
    blocks: &BlockMap,
    inodes: &InodeMap,
    path: &[Name],
    offset: u64,
    count: usize,
    limit: u64,
) -> Result<Held, Refusal>
    requires names { (i : ℕ) → i < length path.now → length (get_or path.now i []) ≤ 255 }
    requires some { 0 < count }
    requires few { count ≤ 65536 }
    ensures image { V.PageView.tells → V.PageView.image view.new ≡ V.PageView.image view.old }
    ensures count_of_blocks { V.PageView.block_count view.new ≡ V.PageView.block_count view.old }
    ensures device { V.PageView.device view.new ≡ V.PageView.device view.old }
    ensures fault { Carries (V.PageView.faults view.old) (V.PageView.faults view.new) result }
    ensures held { IfOk result (IsHeld (V.PageView.block_count view.old) inodes.now) }
    ensures bytes { IfOk result (λ at. FitsBytes offset count) }
    ensures shown { V.PageView.tells → IfOk result (IsShown (page_of (V.PageView.image view.old))) }
    ensures meets { V.PageView.tells → Answers (allowed_of (V.PageView.block_count view.old) (page_of (V.PageView.image view.old)) blocks.now inodes.now path.now offset count limit) result }
    ensures looks { V.PageView.tells → LooksAs (V.PageView.block_count view.old) (page_of (V.PageView.image view.old)) blocks.now inodes.now path.now offset count limit result }
{
    let at = match walk(view, inodes, path) {
        Ok(at) => at,
        Err(e) => return Err(e),
    };
    match check_end(&at.inode, offset, count, limit) {
        Ok(()) => {}
        Err(e) => return Err(e),
    }
    let need = blocks_in(offset, count) + TREE_BLOCKS;
    match look_for_space(blocks, need) {
        Ok(()) => Ok(at),
        Err(e) => Err(e),
    }
}

/// A regular file is wanted, whose size is at most the limit, before and after.
fn check_end(d: &Dinode, offset: u64, count: usize, limit: u64) -> Result<(), Refusal>
    ensures { IsAllowed d.now (offset + count) limit result }
{
    let regular = is_regular(d);
    if has_names(d) {
        return Err(Refusal::IsDir);
    }
    if !regular {
        return Err(Refusal::NotFile);
    }
    let Some(end) = offset.checked_add(count as u64) else {
        return Err(Refusal::FileTooBig);
    };
    if limit.min(MOST_BYTES) < d.size.max(end) {
        return Err(Refusal::FileTooBig);
    }
    Ok(())
}

fn is_regular(d: &Dinode) -> bool
    ensures { result ≡ is_regular d.now }
{
    d.mode & Dinode::TYPE == Dinode::REGULAR
}
