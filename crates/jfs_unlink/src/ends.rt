//! The ends of a path.

ghost use Rattle.std.specs.Prelude.{◌≡◌, ◌≤◌, ◌<◌, ℕ, [], length, get_or, IfOk};
ghost use Rattle.jfs_disk.specs.Image.{page_of};
ghost use Rattle.jfs_loss.specs.way.specs.Answer.{Carries};
ghost use Rattle.jfs_loss.specs.way.specs.Walk.{IfConsistent};
ghost use Rattle.jfs_unlink.specs.Ends.{AreHeld, AreShown, FollowsEnds, MeetsEnds};

use jfs_imap::InodeMap;
use jfs_loss::way::{Held, enter, walk};
use jfs_name::Name;
use jfs_plain::Refusal;
use jfs_ranges::PageView;

/// The directory that holds a path's last name, and the object that the name leads to.
#[derive(Clone, Copy)]
pub struct Ends {
    pub dir: Held,
    pub at: Held,
}

/// The ends of a path of one name at least. A refusal is the walk's.
pub fn find_ends<V: PageView>(
    view: &mut V,
    inodes: &InodeMap,
    path: &[Name],
) -> Result<Ends, Refusal>
    requires names { (i : ℕ) → i < length path.now → length (get_or path.now i []) ≤ 255 }
    requires some { 1 ≤ length path.now }
    ensures image { V.PageView.tells → V.PageView.image view.new ≡ V.PageView.image view.old }
    ensures count_of_blocks { V.PageView.block_count view.new ≡ V.PageView.block_count view.old }
    ensures device { V.PageView.device view.new ≡ V.PageView.device view.old }
    ensures fault { Carries (V.PageView.faults view.old) (V.PageView.faults view.new) result }
    ensures held { IfOk result (AreHeld (V.PageView.block_count view.old) inodes.now) }
    ensures shown { V.PageView.tells → IfOk result (AreShown (page_of (V.PageView.image view.old))) }
    // On a consistent volume they are those of the tree.
    ensures follows { V.PageView.tells → IfConsistent (V.PageView.block_count view.old) (page_of (V.PageView.image view.old)) inodes.now (λ t. FollowsEnds t path.now result) }
    // On any volume they are what the pages on the way give, and the first of them that breaks a rule is named.
    ensures meets { V.PageView.tells → MeetsEnds (V.PageView.block_count view.old) (page_of (V.PageView.image view.old)) inodes.now path.now result }
{
    let last = path.len() - 1;
    let dir = match walk(view, inodes, &path[..last]) {
        Ok(dir) => dir,
        Err(e) => return Err(e),
    };
    match enter(view, inodes, &dir, &path[last]) {
        Ok(at) => Ok(Ends { dir, at }),
        Err(e) => Err(e),
    }
}
