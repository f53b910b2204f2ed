//! The size of a file. (POSIX: truncate.)

ghost use Rattle.std.specs.Prelude.{◌≡◌, ◌≤◌, ◌<◌, ℕ, [], length, get_or, Err, IfOk, IfErr};
ghost use Rattle.jfs_disk.specs.Image.{page_of};
ghost use Rattle.jfs_read.specs.meaning.specs.Contents.{is_regular};
ghost use Rattle.jfs_plain.specs.Step.{Room, truncate};
ghost use Rattle.jfs_read.specs.way.specs.Answer.{Carries, Answers};
ghost use Rattle.jfs_data_steps.specs.After.{AreWholePages, LieWithin};
ghost use Rattle.jfs_truncate.specs.Call.{IsAllowed, truncate_of, Truncates, TakesNone, StepsWith, FreesOnceOn, StartsOn};

use crate::change::{Truncated, resize};
use jfs_bits::Moment;
use jfs_imap::InodeMap;
use jfs_inode::Dinode;
use jfs_name::Name;
use jfs_plain::Refusal;
use jfs_ranges::PageView;
use jfs_read::reader::has_names;
use jfs_read::way::walk;
use std::alloc::Global;

/// What gives the file at the end of a path this size: blocks that are written, each with its whole page, and then a transaction. The bytes before the nearer of both ends stay, and
/// what the file gains reads as zeros; whatever size it had, all is done by one transaction, which takes no block. `IsDir` or `NotFile` where that is no regular file, `FileTooBig`
/// where it is larger than `limit` bytes or would be, `Damaged` at the first page that breaks a rule on the path or where the file's tree is read; the pages stay as they are.
pub fn truncate<V: PageView>(
    alloc: Global,
    view: &mut V,
    inodes: &InodeMap,
    path: &[Name],
    size: u64,
    limit: u64,
    now: Moment,
) -> Result<Truncated, Refusal>
    requires names { (i : ℕ) → i < length path.now → length (get_or path.now i []) ≤ 255 }
    ensures image { V.PageView.tells → V.PageView.image view.new ≡ V.PageView.image view.old }
    ensures count_of_blocks { V.PageView.block_count view.new ≡ V.PageView.block_count view.old }
    ensures device { V.PageView.device view.new ≡ V.PageView.device view.old }
    ensures fault { Carries (V.PageView.faults view.old) (V.PageView.faults view.new) result }
    // The blocks that are written lie within the file system part, each with a whole page.
    ensures within { IfOk result (λ out. LieWithin (V.PageView.block_count view.old) out.blocks) }
    ensures whole { IfOk result (λ out. AreWholePages out.blocks) }
    // On any volume the tree of the file at the end of the path is cut, its inode is put, and the block in which its bytes end is zeroed behind them; a refusal is that of the first cause.
    ensures cuts { V.PageView.tells → IfOk result (Truncates (V.PageView.block_count view.old) (page_of (V.PageView.image view.old)) inodes.now path.now size limit now) }
    ensures meets { V.PageView.tells → IfErr result (λ why. Answers (truncate_of (V.PageView.block_count view.old) (page_of (V.PageView.image view.old)) inodes.now path.now size limit) (Err why)) }
    ensures takes { V.PageView.tells → IfOk result (λ out. TakesNone out.tx) }
    // On a consistent volume both together take the plain step; the transaction frees blocks in use alone, each once.
    ensures steps { V.PageView.tells → (room : Room) → room.limit ≡ limit → StepsWith (V.PageView.block_count view.old) (page_of (V.PageView.image view.old)) inodes.now (λ t. truncate room t path.now size now) result }
    // And what is written before the transaction changes no object, and no byte before the new end or in another block.
    ensures starts { V.PageView.tells → IfOk result (StartsOn (V.PageView.block_count view.old) (page_of (V.PageView.image view.old)) inodes.now path.now size) }
    ensures once { V.PageView.tells → IfOk result (FreesOnceOn (V.PageView.block_count view.old) (page_of (V.PageView.image view.old)) inodes.now) }
{
    let at = match walk(view, inodes, path) {
        Ok(at) => at,
        Err(e) => return Err(e),
    };
    match check_size(&at.inode, size, limit) {
        Ok(()) => resize(alloc, view, &at, size, now),
        Err(e) => Err(e),
    }
}

/// A regular file is wanted, whose size is at most the limit, before and after.
fn check_size(d: &Dinode, size: u64, limit: u64) -> Result<(), Refusal>
    ensures { IsAllowed d.now size limit result }
{
    let regular = is_regular(d);
    if has_names(d) {
        return Err(Refusal::IsDir);
    }
    if !regular {
        return Err(Refusal::NotFile);
    }
    if limit < d.size.max(size) {
        return Err(Refusal::FileTooBig);
    }
    Ok(())
}

fn is_regular(d: &Dinode) -> bool
    ensures { result ≡ is_regular d.now }
{
    d.mode & Dinode::TYPE == Dinode::REGULAR
}
