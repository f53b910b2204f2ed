//! The permission bits of an object. (POSIX: chmod.)

ghost use Rattle.std.specs.Prelude.{◌≡◌, ◌<◌, ◌≤◌, ℕ, [], length, get_or, Err, IfOk, IfErr};
ghost use Rattle.jfs_disk.specs.Image.{page_of};
ghost use Rattle.jfs_plain.specs.Step.{chmod};
ghost use Rattle.jfs_steps.specs.way.specs.Answer.{Carries, Answers};
ghost use Rattle.jfs_steps.specs.way.specs.Way.{path_of};
ghost use Rattle.jfs_steps.specs.Call.{Steps};
ghost use Rattle.jfs_chmod.specs.Call.{SetsMode, with_mode};

use jfs_bits::Moment;
use jfs_imap::InodeMap;
use jfs_inode::Dinode;
use jfs_name::Name;
use jfs_plain::Refusal;
use jfs_ranges::{PageView, Tx};
use jfs_steps::put_inode;
use jfs_steps::way::walk;
use std::alloc::Global;

/// The transaction that gives the object at the end of a path these twelve permission bits, and this time as that of its last change. `Err` is the walk's refusal, or a
/// fault or want of memory; the pages stay as they are.
pub fn change_mode<V: PageView>(
    alloc: Global,
    view: &mut V,
    inodes: &InodeMap,
    path: &[Name],
    mode: u32,
    now: Moment,
) -> Result<Tx, Refusal>
    requires names { (i : ℕ) → i < length path.now → length (get_or path.now i []) ≤ 255 }
    requires mode { mode < 4096 }
    ensures image { V.PageView.tells → V.PageView.image view.new ≡ V.PageView.image view.old }
    ensures count_of_blocks { V.PageView.block_count view.new ≡ V.PageView.block_count view.old }
    ensures device { V.PageView.device view.new ≡ V.PageView.device view.old }
    ensures fault { Carries (V.PageView.faults view.old) (V.PageView.faults view.new) result }
    // On any volume the transaction puts the inode at the end of the path with these bits and this time, and a refusal is that of the walk.
    ensures sets { V.PageView.tells → IfOk result (SetsMode (V.PageView.block_count view.old) (page_of (V.PageView.image view.old)) inodes.now path.now mode now) }
    ensures meets { V.PageView.tells → IfErr result (λ why. Answers (path_of (V.PageView.block_count view.old) (page_of (V.PageView.image view.old)) inodes.now path.now) (Err why)) }
    // On a consistent volume the transaction takes the plain step.
    ensures steps { V.PageView.tells → Steps (V.PageView.block_count view.old) (page_of (V.PageView.image view.old)) inodes.now (λ t. chmod t path.now mode now) result }
{
    let at = match walk(view, inodes, path) {
        Ok(at) => at,
        Err(e) => return Err(e),
    };
    let mut tx = Tx::new(alloc);
    let d = with_mode(&at.inode, mode, now);
    match put_inode(alloc, view, at.page, at.number, &d, &mut tx) {
        Ok(()) => Ok(tx),
        Err(e) => Err(e),
    }
}

/// The inode with other permission bits, changed now.
fn with_mode(d: &Dinode, mode: u32, now: Moment) -> Dinode
    requires { mode < 4096 }
    ensures { result ≡ with_mode d.now mode now }
{
    let mut after = *d;
    after.mode = d.mode - d.mode % 4096 + mode;
    after.ctime = now;
    after
}
