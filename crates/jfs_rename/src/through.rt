//! Whether a path leads through an inode.

ghost use Rattle.std.specs.Prelude.{◌≡◌, ◌≤◌, ◌<◌, ℕ, [], length, get_or};
ghost use Rattle.jfs_disk.specs.Image.{page_of};
ghost use Rattle.jfs_link.specs.way.specs.Answer.{Carries, Answers};
ghost use Rattle.jfs_link.specs.way.specs.Walk.{IfConsistent};
ghost use Rattle.jfs_rename.specs.Through.{FollowsThrough, FollowsInside, through_of, inside_of};

use jfs_imap::InodeMap;
use jfs_link::reader::has_names;
use jfs_link::way::{Held, enter, load};
use jfs_name::Name;
use jfs_plain::Refusal;
use jfs_ranges::PageView;
use jfs_tree::NO_PAGE;

/// The inode of the root directory.
const ROOT: u32 = 2;

/// Whether the way from the root along these names leads through inode `n`; the root and the end of the way count. A refusal is that of the first name that is refused before it is met.
pub fn leads_through<V: PageView>(
    view: &mut V,
    inodes: &InodeMap,
    names: &[Name],
    n: u32,
) -> Result<bool, Refusal>
    requires names { (i : ℕ) → i < length names.now → length (get_or names.now i []) ≤ 255 }
    ensures image { V.PageView.tells → V.PageView.image view.new ≡ V.PageView.image view.old }
    ensures count_of_blocks { V.PageView.block_count view.new ≡ V.PageView.block_count view.old }
    ensures device { V.PageView.device view.new ≡ V.PageView.device view.old }
    ensures fault { Carries (V.PageView.faults view.old) (V.PageView.faults view.new) result }
    // On a consistent volume the tree tells it.
    ensures follows { V.PageView.tells → IfConsistent (V.PageView.block_count view.old) (page_of (V.PageView.image view.old)) inodes.now (λ t. FollowsThrough t names.now n result) }
    // On any volume the pages on the way tell it.
    ensures meets { V.PageView.tells → Answers (through_of (V.PageView.block_count view.old) (page_of (V.PageView.image view.old)) inodes.now names.now n) result }
{
    let mut at = match load(view, inodes, NO_PAGE, ROOT) {
        Ok(at) => at,
        Err(e) => return Err(e),
    };
    for name in names {
        if at.number == n {
            return Ok(true);
        }
        at = match enter(view, inodes, &at, name) {
            Ok(next) => next,
            Err(e) => return Err(e),
        };
    }
    Ok(at.number == n)
}

/// Whether an object is a directory, and a path of one name at least leads through it on the way to its last name.
pub fn is_inside<V: PageView>(
    view: &mut V,
    inodes: &InodeMap,
    object: &Held,
    to: &[Name],
) -> Result<bool, Refusal>
    requires names { (i : ℕ) → i < length to.now → length (get_or to.now i []) ≤ 255 }
    requires some { 0 < length to.now }
    ensures image { V.PageView.tells → V.PageView.image view.new ≡ V.PageView.image view.old }
    ensures count_of_blocks { V.PageView.block_count view.new ≡ V.PageView.block_count view.old }
    ensures device { V.PageView.device view.new ≡ V.PageView.device view.old }
    ensures fault { Carries (V.PageView.faults view.old) (V.PageView.faults view.new) result }
    ensures follows { V.PageView.tells → IfConsistent (V.PageView.block_count view.old) (page_of (V.PageView.image view.old)) inodes.now (λ t. FollowsInside t object.now to.now result) }
    ensures meets { V.PageView.tells → Answers (inside_of (V.PageView.block_count view.old) (page_of (V.PageView.image view.old)) inodes.now object.now to.now) result }
{
    if !has_names(&object.inode) {
        return Ok(false);
    }
    leads_through(view, inodes, &to[..to.len() - 1], object.number)
}
