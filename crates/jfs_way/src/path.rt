//! The walk of a path. (POSIX: path resolution.)

ghost use Rattle.std.specs.Prelude.{◌≡◌, ◌≤◌, ◌<◌, ℕ, [], length, get_or, IfOk};
ghost use Rattle.jfs_disk.specs.Image.{page_of};
ghost use Rattle.jfs_reader.specs.plain.specs.Tree.{enter, walk, root};
ghost use Rattle.jfs_way.specs.Answer.{Carries, Answers, Follows};
ghost use Rattle.jfs_way.specs.Way.{name_from, path_of};
ghost use Rattle.jfs_way.specs.Walk.{IsHeld, IsShown, IfConsistent, IsThere, IsOf};

use crate::answer::from_names;
use crate::object::{Held, load};
use jfs_imap::InodeMap;
use jfs_name::Name;
use jfs_ranges::PageView;
use jfs_reader::dtree::find;
use jfs_reader::plain::Refusal;
use jfs_reader::{has_names, root_in};
use jfs_tree::NO_PAGE;

/// What a name leads to from an inode. `NotDir` where that is no directory; `NotFound` where the leaf at the end of the name's way doesn't have the name;
/// `Damaged` where a page on that way breaks a rule, or the inode that is named does (as `load` says).
pub fn enter<V: PageView>(
    view: &mut V,
    inodes: &InodeMap,
    at: &Held,
    name: &Name,
) -> Result<Held, Refusal>
    requires held { IsHeld (V.PageView.block_count view.old) inodes.now at.now }
    requires shown { V.PageView.tells → IsShown (page_of (V.PageView.image view.old)) at.now }
    requires name { length name.now ≤ 255 }
    ensures image { V.PageView.tells → V.PageView.image view.new ≡ V.PageView.image view.old }
    ensures count_of_blocks { V.PageView.block_count view.new ≡ V.PageView.block_count view.old }
    ensures device { V.PageView.device view.new ≡ V.PageView.device view.old }
    ensures fault { Carries (V.PageView.faults view.old) (V.PageView.faults view.new) result }
    ensures held { IfOk result (IsHeld (V.PageView.block_count view.old) inodes.now) }
    ensures shown { V.PageView.tells → IfOk result (IsShown (page_of (V.PageView.image view.old))) }
    // On a consistent volume it is what the name leads to in the tree.
    ensures follows { V.PageView.tells → IfConsistent (V.PageView.block_count view.old) (page_of (V.PageView.image view.old)) inodes.now (λ t.
        IsThere t at.now.number → Follows (IsOf t) (enter t at.now.number name.now) result) }
    // On any volume it is what the pages of the name's way give, and the first of them that breaks a rule is named.
    ensures meets { V.PageView.tells → Answers (name_from (V.PageView.block_count view.old) (page_of (V.PageView.image view.old)) inodes.now at.now name.now) result }
{
    if !has_names(&at.inode) {
        return Err(Refusal::NotDir);
    }
    match find(view, root_in(&at.inode), name) {
        Ok(Some(n)) => load(view, inodes, at.page, n),
        Ok(None) => Err(Refusal::NotFound),
        Err(e) => Err(from_names(at.number, at.page, e)),
    }
}

/// The inode of the root directory.
const ROOT: u32 = 2;

/// The inode at the end of a path from the root. A refusal is that of the first name that is refused; the root itself may be `Damaged`, where it has no page
/// at `NO_PAGE`.
pub fn walk<V: PageView>(view: &mut V, inodes: &InodeMap, path: &[Name]) -> Result<Held, Refusal>
    requires names { (i : ℕ) → i < length path.now → length (get_or path.now i []) ≤ 255 }
    ensures image { V.PageView.tells → V.PageView.image view.new ≡ V.PageView.image view.old }
    ensures count_of_blocks { V.PageView.block_count view.new ≡ V.PageView.block_count view.old }
    ensures device { V.PageView.device view.new ≡ V.PageView.device view.old }
    ensures fault { Carries (V.PageView.faults view.old) (V.PageView.faults view.new) result }
    ensures held { IfOk result (IsHeld (V.PageView.block_count view.old) inodes.now) }
    ensures shown { V.PageView.tells → IfOk result (IsShown (page_of (V.PageView.image view.old))) }
    // On a consistent volume it is the object at the end of the path in the tree.
    ensures follows { V.PageView.tells → IfConsistent (V.PageView.block_count view.old) (page_of (V.PageView.image view.old)) inodes.now (λ t.
        Follows (IsOf t) (walk t root path.now) result) }
    // On any volume it is what the pages on the way give, and the first of them that breaks a rule is named.
    ensures meets { V.PageView.tells → Answers (path_of (V.PageView.block_count view.old) (page_of (V.PageView.image view.old)) inodes.now path.now) result }
{
    let mut at = match load(view, inodes, NO_PAGE, ROOT) {
        Ok(at) => at,
        Err(e) => return Err(e),
    };
    for name in path {
        at = match enter(view, inodes, &at, name) {
            Ok(next) => next,
            Err(e) => return Err(e),
        };
    }
    Ok(at)
}
