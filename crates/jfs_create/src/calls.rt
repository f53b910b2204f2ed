//! The calls that make an object. (POSIX: open with O_CREAT and O_EXCL, mkdir, symlink.)

ghost use Rattle.std.specs.Prelude.{◌≡◌, ◌<◌, ◌≤◌, ℕ, [], length, get_or, IfOk, IfErr};
ghost use Rattle.jfs_disk.specs.Image.{page_of};
ghost use Rattle.jfs_plain.specs.Step.{create, mkdir, symlink};
ghost use Rattle.jfs_link.specs.room.specs.Laws.{blocks_in};
ghost use Rattle.jfs_create.specs.New.{FitsNew};
ghost use Rattle.jfs_create.specs.Makes.{plain_of};
ghost use Rattle.jfs_create.specs.declared.new.NewObject.TheVariants.{File, Directory, Link};
ghost use Rattle.jfs_create.specs.Reserved.{IsMade, IsStopped, StepsInRoom, CarriesStop, MapAfter};

use crate::looks::look;
use crate::new::NewObject;
use crate::plan::Draft;
use crate::reserve::{Stop, make_reserved};
use crate::seats::site_of;
use jfs_bits::Moment;
use jfs_bmap::BlockMap;
use jfs_imap::InodeMap;
use jfs_name::Name;
use jfs_ranges::{PageView, Tx};
use std::alloc::Global;

/// The transaction that makes an object under the last name of a path, and where no inode is free an inode extent for it. Exactly the blocks that it takes are reserved then beside those
/// before; after an `Err` the map is as before. The inode map stays: an append tells it of the extent and the inode.
/// A refusal is the first of: those of `look`; those of `site_of`; and those of `gain_name`, with `Damaged` where the name clashes.
pub fn make_object<V: PageView>(
    alloc: Global,
    view: &mut V,
    blocks: &mut BlockMap,
    inodes: &InodeMap,
    path: &[Name],
    object: NewObject<'_>,
    now: Moment,
) -> Result<Tx, Stop>
    requires map { blocks_in blocks.old ≡ V.PageView.block_count view.old }
    requires names { (i : ℕ) → i < length path.now → length (get_or path.now i []) ≤ 255 }
    requires object { FitsNew object }
    ensures image { V.PageView.tells → V.PageView.image view.new ≡ V.PageView.image view.old }
    ensures count_of_blocks { V.PageView.block_count view.new ≡ V.PageView.block_count view.old }
    ensures device { V.PageView.device view.new ≡ V.PageView.device view.old }
    ensures fault { CarriesStop (V.PageView.faults view.old) (V.PageView.faults view.new) result }
    ensures map { MapAfter blocks.old blocks.new result }
    // On any volume the object is made as its definition says, or the answer has its cause.
    ensures made { V.PageView.tells → IfOk result (IsMade (V.PageView.block_count view.old) (page_of (V.PageView.image view.old)) inodes.now path.now object.entry now blocks.old blocks.new) }
    ensures stopped { V.PageView.tells → IfErr result (IsStopped (V.PageView.block_count view.old) (page_of (V.PageView.image view.old)) inodes.now path.now object.entry now blocks.old) }
    // On a consistent volume the transaction takes the plain step.
    ensures steps { V.PageView.tells → StepsInRoom (V.PageView.block_count view.old) (page_of (V.PageView.image view.old)) blocks.old inodes.now (λ room t. plain_of object.entry room t path.now now) result }
{
    let seen = match look(view, blocks, inodes, path, object) {
        Ok(seen) => seen,
        Err(e) => return Err(Stop::Refused(e)),
    };
    let site = match site_of(view, inodes, &seen.dir, seen.fresh) {
        Ok(site) => site,
        Err(e) => return Err(Stop::Refused(e)),
    };
    let draft = Draft { object, site, now };
    let name = &path[path.len() - 1];
    make_reserved(alloc, view, blocks, &seen.dir, name, draft)
}

/// The transaction that makes a regular file with these permission bits: `make_object`.
pub fn create<V: PageView>(
    alloc: Global,
    view: &mut V,
    blocks: &mut BlockMap,
    inodes: &InodeMap,
    path: &[Name],
    mode: u32,
    now: Moment,
) -> Result<Tx, Stop>
    requires map { blocks_in blocks.old ≡ V.PageView.block_count view.old }
    requires names { (i : ℕ) → i < length path.now → length (get_or path.now i []) ≤ 255 }
    requires mode { mode < 4096 }
    ensures image { V.PageView.tells → V.PageView.image view.new ≡ V.PageView.image view.old }
    ensures count_of_blocks { V.PageView.block_count view.new ≡ V.PageView.block_count view.old }
    ensures device { V.PageView.device view.new ≡ V.PageView.device view.old }
    ensures fault { CarriesStop (V.PageView.faults view.old) (V.PageView.faults view.new) result }
    ensures map { MapAfter blocks.old blocks.new result }
    ensures made { V.PageView.tells → IfOk result (IsMade (V.PageView.block_count view.old) (page_of (V.PageView.image view.old)) inodes.now path.now (File mode) now blocks.old blocks.new) }
    ensures stopped { V.PageView.tells → IfErr result (IsStopped (V.PageView.block_count view.old) (page_of (V.PageView.image view.old)) inodes.now path.now (File mode) now blocks.old) }
    ensures steps { V.PageView.tells → StepsInRoom (V.PageView.block_count view.old) (page_of (V.PageView.image view.old)) blocks.old inodes.now (λ room t. create room t path.now mode now) result }
{
    let object = NewObject::File { mode };
    make_object(alloc, view, blocks, inodes, path, object, now)
}

/// The transaction that makes a directory with these permission bits: `make_object`.
pub fn make_directory<V: PageView>(
    alloc: Global,
    view: &mut V,
    blocks: &mut BlockMap,
    inodes: &InodeMap,
    path: &[Name],
    mode: u32,
    now: Moment,
) -> Result<Tx, Stop>
    requires map { blocks_in blocks.old ≡ V.PageView.block_count view.old }
    requires names { (i : ℕ) → i < length path.now → length (get_or path.now i []) ≤ 255 }
    requires mode { mode < 4096 }
    ensures image { V.PageView.tells → V.PageView.image view.new ≡ V.PageView.image view.old }
    ensures count_of_blocks { V.PageView.block_count view.new ≡ V.PageView.block_count view.old }
    ensures device { V.PageView.device view.new ≡ V.PageView.device view.old }
    ensures fault { CarriesStop (V.PageView.faults view.old) (V.PageView.faults view.new) result }
    ensures map { MapAfter blocks.old blocks.new result }
    ensures made { V.PageView.tells → IfOk result (IsMade (V.PageView.block_count view.old) (page_of (V.PageView.image view.old)) inodes.now path.now (Directory mode) now blocks.old blocks.new) }
    ensures stopped { V.PageView.tells → IfErr result (IsStopped (V.PageView.block_count view.old) (page_of (V.PageView.image view.old)) inodes.now path.now (Directory mode) now blocks.old) }
    ensures steps { V.PageView.tells → StepsInRoom (V.PageView.block_count view.old) (page_of (V.PageView.image view.old)) blocks.old inodes.now (λ room t. mkdir room t path.now mode now) result }
{
    let object = NewObject::Directory { mode };
    make_object(alloc, view, blocks, inodes, path, object, now)
}

/// The transaction that makes a symbolic link with this target of 1 to 255 bytes, which stands in its inode: `make_object`.
pub fn make_link<V: PageView>(
    alloc: Global,
    view: &mut V,
    blocks: &mut BlockMap,
    inodes: &InodeMap,
    path: &[Name],
    target: &[u8],
    now: Moment,
) -> Result<Tx, Stop>
    requires map { blocks_in blocks.old ≡ V.PageView.block_count view.old }
    requires names { (i : ℕ) → i < length path.now → length (get_or path.now i []) ≤ 255 }
    requires target { (0 < length target.now) × (length target.now ≤ 255) }
    ensures image { V.PageView.tells → V.PageView.image view.new ≡ V.PageView.image view.old }
    ensures count_of_blocks { V.PageView.block_count view.new ≡ V.PageView.block_count view.old }
    ensures device { V.PageView.device view.new ≡ V.PageView.device view.old }
    ensures fault { CarriesStop (V.PageView.faults view.old) (V.PageView.faults view.new) result }
    ensures map { MapAfter blocks.old blocks.new result }
    ensures made { V.PageView.tells → IfOk result (IsMade (V.PageView.block_count view.old) (page_of (V.PageView.image view.old)) inodes.now path.now (Link target.entry) now blocks.old blocks.new) }
    ensures stopped { V.PageView.tells → IfErr result (IsStopped (V.PageView.block_count view.old) (page_of (V.PageView.image view.old)) inodes.now path.now (Link target.entry) now blocks.old) }
    ensures steps { V.PageView.tells → StepsInRoom (V.PageView.block_count view.old) (page_of (V.PageView.image view.old)) blocks.old inodes.now (λ room t. symlink room t path.now target.now now) result }
{
    let object = NewObject::Link { target };
    make_object(alloc, view, blocks, inodes, path, object, now)
}
