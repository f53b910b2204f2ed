//! The ends of both paths.

ghost use Rattle.std.specs.Prelude.{◌≡◌, ◌≤◌, ◌<◌, ◌==◌, ◌||◌, ℕ, [], length, get_or, IfOk};
ghost use Rattle.jfs_disk.specs.Image.{page_of};
ghost use Rattle.jfs_link.specs.way.specs.Answer.{Carries, Answers};
ghost use Rattle.jfs_link.specs.way.specs.Walk.{IfConsistent};
ghost use Rattle.jfs_rename.specs.Ends.{AreHeld, AreShown, AreDirectories, HaveNames, FollowsEnds, moving_on};

use jfs_imap::InodeMap;
use jfs_link::steps::place;
use jfs_link::way::walk;
use jfs_name::Name;
use jfs_plain::Refusal;
use jfs_ranges::PageView;
use jfs_rename_steps::Moving;

/// The object at the end of `from`, the directory that has its name, and the one that has or could have the last name of `to`. The causes come in this order: the walk to the object;
/// `IntoItself` where a path has no name; what `place` refuses of the old path, and of the new one.
pub fn find_moving<V: PageView>(
    view: &mut V,
    inodes: &InodeMap,
    from: &[Name],
    to: &[Name],
) -> Result<Moving, Refusal>
    requires from { (i : ℕ) → i < length from.now → length (get_or from.now i []) ≤ 255 }
    requires to { (i : ℕ) → i < length to.now → length (get_or to.now i []) ≤ 255 }
    ensures image { V.PageView.tells → V.PageView.image view.new ≡ V.PageView.image view.old }
    ensures count_of_blocks { V.PageView.block_count view.new ≡ V.PageView.block_count view.old }
    ensures device { V.PageView.device view.new ≡ V.PageView.device view.old }
    ensures fault { Carries (V.PageView.faults view.old) (V.PageView.faults view.new) result }
    ensures some { IfOk result (λ moving. HaveNames from.now to.now) }
    ensures held { IfOk result (AreHeld (V.PageView.block_count view.old) inodes.now) }
    ensures directories { IfOk result AreDirectories }
    ensures shown { V.PageView.tells → IfOk result (AreShown (page_of (V.PageView.image view.old))) }
    // On a consistent volume they are those of the tree; a refusal is the plain step's.
    ensures follows { V.PageView.tells → IfConsistent (V.PageView.block_count view.old) (page_of (V.PageView.image view.old)) inodes.now (λ t. FollowsEnds t from.now to.now result) }
    // On any volume they are what the pages on both ways give, and the first of them that breaks a rule is named.
    ensures meets { V.PageView.tells → Answers (moving_on (V.PageView.block_count view.old) (page_of (V.PageView.image view.old)) inodes.now from.now to.now) result }
{
    let object = match walk(view, inodes, from) {
        Ok(object) => object,
        Err(e) => return Err(e),
    };
    if is_nameless(from, to) {
        return Err(Refusal::IntoItself);
    }
    let source = match place(view, inodes, from) {
        Ok(source) => source,
        Err(e) => return Err(e),
    };
    match place(view, inodes, to) {
        Ok(target) => Ok(Moving {
            object,
            source,
            target,
        }),
        Err(e) => Err(e),
    }
}

/// Whether one of two paths has no name.
fn is_nameless(from: &[Name], to: &[Name]) -> bool
    ensures { result ≡ (length from.now == 0 || length to.now == 0) }
{
    from.is_empty() || to.is_empty()
}
