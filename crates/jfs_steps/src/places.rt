//! The place of a path's last name. (POSIX: path resolution.)

ghost use Rattle.std.specs.Prelude.{◌≡◌, ◌≤◌, ◌<◌, ℕ, [], true, length, get_or, IfOk};
ghost use Rattle.jfs_disk.specs.Image.{page_of};
ghost use Rattle.jfs_way.specs.objects.specs.Objects.{has_names};
ghost use Rattle.jfs_way.specs.plain.specs.Tree.{place, new_place};
ghost use Rattle.jfs_way.specs.Answer.{Carries, Answers, Follows};
ghost use Rattle.jfs_way.specs.Walk.{IsHeld, IsShown, IfConsistent};
ghost use Rattle.jfs_steps.specs.Place.{place_of, new_place_of, IsPlace};

use crate::answer::from_names;
use jfs_name::Name;
use jfs_ranges::PageView;
use jfs_way::dtree::find;
use jfs_way::imap::InodeMap;
use jfs_way::plain::Refusal;
use jfs_way::reader::{has_names, root_in};
use jfs_way::{Held, walk};

/// The directory in which the last name of a path stands, or could stand. A refusal is that of the walk along the names before it; `NotDir` where these lead to no
/// directory; `Exists` for the root, which has no such place.
pub fn place<V: PageView>(view: &mut V, inodes: &InodeMap, path: &[Name]) -> Result<Held, Refusal>
    requires names { (i : ℕ) → i < length path.now → length (get_or path.now i []) ≤ 255 }
    ensures image { V.PageView.tells → V.PageView.image view.new ≡ V.PageView.image view.old }
    ensures count_of_blocks { V.PageView.block_count view.new ≡ V.PageView.block_count view.old }
    ensures device { V.PageView.device view.new ≡ V.PageView.device view.old }
    ensures fault { Carries (V.PageView.faults view.old) (V.PageView.faults view.new) result }
    ensures some { IfOk result (λ dir. 0 < length path.now) }
    ensures held { IfOk result (IsHeld (V.PageView.block_count view.old) inodes.now) }
    ensures directory { IfOk result (λ dir. has_names dir.inode ≡ true) }
    ensures shown { V.PageView.tells → IfOk result (IsShown (page_of (V.PageView.image view.old))) }
    // On a consistent volume it is the place in the tree.
    ensures follows { V.PageView.tells → IfConsistent (V.PageView.block_count view.old) (page_of (V.PageView.image view.old)) inodes.now (λ t.
        Follows (IsPlace t path.now) (place t path.now) result) }
    // On any volume it is what the pages on the way give, and the first of them that breaks a rule is named.
    ensures meets { V.PageView.tells → Answers (place_of (V.PageView.block_count view.old) (page_of (V.PageView.image view.old)) inodes.now path.now) result }
{
    let count = path.len();
    if count == 0 {
        return Err(Refusal::Exists);
    }
    let at = match walk(view, inodes, &path[..count - 1]) {
        Ok(at) => at,
        Err(e) => return Err(e),
    };
    if has_names(&at.inode) {
        Ok(at)
    } else {
        Err(Refusal::NotDir)
    }
}

/// The directory that can get the last name of a path. A refusal is as that of `place`; `Exists` where the name is there; `Damaged` where a page on the name's way
/// breaks a rule.
pub fn new_place<V: PageView>(
    view: &mut V,
    inodes: &InodeMap,
    path: &[Name],
) -> Result<Held, Refusal>
    requires names { (i : ℕ) → i < length path.now → length (get_or path.now i []) ≤ 255 }
    ensures image { V.PageView.tells → V.PageView.image view.new ≡ V.PageView.image view.old }
    ensures count_of_blocks { V.PageView.block_count view.new ≡ V.PageView.block_count view.old }
    ensures device { V.PageView.device view.new ≡ V.PageView.device view.old }
    ensures fault { Carries (V.PageView.faults view.old) (V.PageView.faults view.new) result }
    ensures some { IfOk result (λ dir. 0 < length path.now) }
    ensures held { IfOk result (IsHeld (V.PageView.block_count view.old) inodes.now) }
    ensures directory { IfOk result (λ dir. has_names dir.inode ≡ true) }
    ensures shown { V.PageView.tells → IfOk result (IsShown (page_of (V.PageView.image view.old))) }
    // On a consistent volume it is the new place in the tree.
    ensures follows { V.PageView.tells → IfConsistent (V.PageView.block_count view.old) (page_of (V.PageView.image view.old)) inodes.now (λ t.
        Follows (IsPlace t path.now) (new_place t path.now) result) }
    // On any volume it is what the pages on the way give, and the first of them that breaks a rule is named.
    ensures meets { V.PageView.tells → Answers (new_place_of (V.PageView.block_count view.old) (page_of (V.PageView.image view.old)) inodes.now path.now) result }
{
    let dir = match place(view, inodes, path) {
        Ok(dir) => dir,
        Err(e) => return Err(e),
    };
    let name = &path[path.len() - 1];
    match find(view, root_in(&dir.inode), name) {
        Ok(None) => Ok(dir),
        Ok(Some(_)) => Err(Refusal::Exists),
        Err(e) => Err(from_names(dir.number, dir.page, e)),
    }
}
