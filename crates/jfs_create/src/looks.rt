//! What is looked at before an object is made.

ghost use Rattle.std.specs.Prelude.{◌≡◌, ◌≤◌, ◌<◌, ℕ, [], true, length, get_or, Ok, IfOk, IfErr};
ghost use Rattle.jfs_bits.specs.declared.descriptor.Moment.{Moment};
ghost use Rattle.jfs_disk.specs.Image.{page_of};
ghost use Rattle.jfs_link.specs.objects.specs.Objects.{has_names};
ghost use Rattle.jfs_link.specs.claim.specs.Look.{LooksFor};
ghost use Rattle.jfs_link.specs.way.specs.Answer.{Carries};
ghost use Rattle.jfs_link.specs.way.specs.Walk.{IsHeld, IsShown};
ghost use Rattle.jfs_create.specs.Look.{Passes, Barred, InRoom, LooksAs, too_many};

use crate::new::NewObject;
use jfs_bmap::BlockMap;
use jfs_dtree::{DtError, is_deep};
use jfs_imap::InodeMap;
use jfs_link::claim::{FreshInode, look_for_inode, look_for_space};
use jfs_link::reader::root_in;
use jfs_link::steps::{from_names, new_place};
use jfs_link::way::Held;
use jfs_name::Name;
use jfs_plain::Refusal;
use jfs_ranges::PageView;

/// The directory in which an object may be made, and the number of its inode.
#[derive(Clone, Copy)]
pub struct Seen {
    pub dir: Held,
    pub fresh: FreshInode,
}

/// How many blocks an object with its name may need.
const OBJECT_BLOCKS: u32 = 12;

/// The greatest number of links.
const MOST_LINKS: u32 = 65535;

/// Whether an object may be made under the last name of a path. A refusal is the first of: that of the place; `TooManyLinks`, of a directory; `NoSpace`; `NoInodes`; `TooDeep`. Nothing
/// is reserved.
pub fn look<V: PageView>(
    view: &mut V,
    blocks: &BlockMap,
    inodes: &InodeMap,
    path: &[Name],
    object: NewObject<'_>,
) -> Result<Seen, Refusal>
    requires names { (i : ℕ) → i < length path.now → length (get_or path.now i []) ≤ 255 }
    ensures image { V.PageView.tells → V.PageView.image view.new ≡ V.PageView.image view.old }
    ensures count_of_blocks { V.PageView.block_count view.new ≡ V.PageView.block_count view.old }
    ensures device { V.PageView.device view.new ≡ V.PageView.device view.old }
    ensures fault { Carries (V.PageView.faults view.old) (V.PageView.faults view.new) result }
    ensures some { IfOk result (λ seen. 0 < length path.now) }
    ensures held { IfOk result (λ seen. IsHeld (V.PageView.block_count view.old) inodes.now seen.dir) }
    ensures directory { IfOk result (λ seen. has_names seen.dir.inode ≡ true) }
    ensures shown { V.PageView.tells → IfOk result (λ seen. IsShown (page_of (V.PageView.image view.old)) seen.dir) }
    // Its number is the one that the maps give.
    ensures fresh { IfOk result (λ seen. LooksFor blocks.now inodes.now (Ok seen.fresh)) }
    // On a consistent volume it is the plain step's.
    ensures room { V.PageView.tells → InRoom (V.PageView.block_count view.old) (page_of (V.PageView.image view.old)) blocks.now inodes.now (λ room t. (now : Moment) → LooksAs object.entry path.now now room t result) }
    // On any volume it has a cause, and none before it holds.
    ensures passes { V.PageView.tells → IfOk result (Passes (V.PageView.block_count view.old) (page_of (V.PageView.image view.old)) blocks.now inodes.now path.now object.entry) }
    ensures barred { V.PageView.tells → IfErr result (Barred (V.PageView.block_count view.old) (page_of (V.PageView.image view.old)) blocks.now inodes.now path.now object.entry) }
{
    let dir = match new_place(view, inodes, path) {
        Ok(dir) => dir,
        Err(e) => return Err(e),
    };
    if has_too_many(object, dir.inode.nlink) {
        return Err(Refusal::TooManyLinks);
    }
    match look_for_space(blocks, OBJECT_BLOCKS) {
        Ok(()) => {}
        Err(e) => return Err(e),
    }
    let fresh = match look_for_inode(blocks, inodes) {
        Ok(fresh) => fresh,
        Err(e) => return Err(e),
    };
    match is_deep(view, root_in(&dir.inode), &path[path.len() - 1]) {
        Ok(true) => Err(Refusal::TooDeep { inode: dir.number }),
        Ok(false) => Ok(Seen { dir, fresh }),
        Err(e) => Err(from_names(dir.number, dir.page, DtError::View(e))),
    }
}

/// Only a directory in it raises a directory's links.
fn has_too_many(object: NewObject<'_>, links: u32) -> bool
    ensures { result ≡ too_many object.entry links }
{
    match object {
        NewObject::Directory { .. } => links >= MOST_LINKS,
        _ => false,
    }
}
