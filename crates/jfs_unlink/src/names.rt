//! A name of a file goes. (POSIX: unlink.)

ghost use Rattle.std.specs.Prelude.{◌≡◌, ◌≤◌, ◌<◌, ℕ, [], length, get_or, Err, IfOk, IfErr};
ghost use Rattle.jfs_disk.specs.Image.{page_of};
ghost use Rattle.jfs_plain.specs.Step.{Room, unlink};
ghost use Rattle.jfs_loss.specs.way.specs.Answer.{Carries, Answers};
ghost use Rattle.jfs_unlink.specs.Call.{is_last_of_big, unlink_of, Unlinks, StepsOn, FreesOnceOn};

use crate::ends::find_ends;
use crate::gone::{drop_named, leave_named};
use jfs_bits::Moment;
use jfs_imap::InodeMap;
use jfs_inode::Dinode;
use jfs_loss::reader::has_names;
use jfs_name::Name;
use jfs_plain::Refusal;
use jfs_ranges::{PageView, Tx};
use std::alloc::Global;

/// The transaction that takes the last name of a path away. The object that it names has one link less, and this time as that of its last change; with its last
/// name the object goes, and all that it has is freed. `IsDir` for a directory; `FileTooBig` for a regular file that goes and is larger than `limit` bytes;
/// `Damaged` at the first page that breaks a rule on the path, or of the tree of an object that goes; the pages stay as they are.
pub fn unlink<V: PageView>(
    alloc: Global,
    view: &mut V,
    inodes: &InodeMap,
    path: &[Name],
    limit: u64,
    now: Moment,
) -> Result<Tx, Refusal>
    requires names { (i : ℕ) → i < length path.now → length (get_or path.now i []) ≤ 255 }
    ensures image { V.PageView.tells → V.PageView.image view.new ≡ V.PageView.image view.old }
    ensures count_of_blocks { V.PageView.block_count view.new ≡ V.PageView.block_count view.old }
    ensures device { V.PageView.device view.new ≡ V.PageView.device view.old }
    ensures fault { Carries (V.PageView.faults view.old) (V.PageView.faults view.new) result }
    // On any volume the transaction takes the name from the directory that the path leads to, and a link from the object, or the object; a refusal is that of the first cause.
    ensures takes { V.PageView.tells → IfOk result (Unlinks (V.PageView.block_count view.old) (page_of (V.PageView.image view.old)) inodes.now path.now limit now) }
    ensures meets { V.PageView.tells → IfErr result (λ why. Answers (unlink_of (V.PageView.block_count view.old) (page_of (V.PageView.image view.old)) inodes.now path.now limit) (Err why)) }
    // On a consistent volume the transaction takes the plain step: with the last name all that the object had is free, each block once.
    ensures steps { V.PageView.tells → (room : Room) → room.limit ≡ limit → StepsOn (V.PageView.block_count view.old) (page_of (V.PageView.image view.old)) inodes.now (λ t. unlink room t path.now now) result }
    ensures once { V.PageView.tells → IfOk result (FreesOnceOn (V.PageView.block_count view.old) (page_of (V.PageView.image view.old)) inodes.now) }
{
    if path.is_empty() {
        return Err(Refusal::IsDir);
    }
    let ends = match find_ends(view, inodes, path) {
        Ok(ends) => ends,
        Err(e) => return Err(e),
    };
    if has_names(&ends.at.inode) {
        return Err(Refusal::IsDir);
    }
    if is_last_of_big(limit, &ends.at.inode) {
        return Err(Refusal::FileTooBig);
    }
    let name = &path[path.len() - 1];
    if ends.at.inode.nlink <= 1 {
        drop_named(alloc, view, &ends, name, ends.dir.inode.nlink, now)
    } else {
        leave_named(alloc, view, &ends, name, now)
    }
}

/// Whether a regular file has its last name and is larger than the limit.
fn is_last_of_big(limit: u64, d: &Dinode) -> bool
    ensures { result ≡ is_last_of_big limit d.now }
{
    d.mode & Dinode::TYPE == Dinode::REGULAR && d.nlink <= 1 && limit < d.size
}
