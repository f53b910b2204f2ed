//! The place of a last name. (POSIX: path resolution, the last component.)

ghost use Rattle.std.specs.Prelude.{◌≡◌, ◌≤◌, ◌<◌, ℕ, [], true, length, get_or, IfOk, IfErr, IfSome};
ghost use Rattle.jfs_disk.specs.Image.{page_of};
ghost use Rattle.jfs_way.specs.objects.specs.Objects.{has_names};
ghost use Rattle.jfs_plain.specs.Tree.{place, place_as};
ghost use Rattle.jfs_way.specs.Answer.{Carries};
ghost use Rattle.jfs_way.specs.Walk.{IsHeld, IsShown, IfConsistent, IsThere};
ghost use Rattle.jfs_place.specs.Place.{place_on, OrOpen, occupant_at, IsPlaceOf, StandsAt, MeetsPlace, MeetsOccupant};

use jfs_imap::InodeMap;
use jfs_name::Name;
use jfs_plain::Refusal;
use jfs_ranges::PageView;
use jfs_way::reader::has_names;
use jfs_way::{Held, enter, walk};

/// The directory in which the last name of a path stands or could stand, and that name. `Exists` for the root, whose path has no name; else a refusal is that of the names before the
/// last one, or `NotDir` where they don't lead to a directory.
pub fn place<'a, V: PageView>(
    view: &mut V,
    inodes: &InodeMap,
    path: &'a [Name],
) -> Result<(Held, &'a Name), Refusal>
    requires names { (i : ℕ) → i < length path.now → length (get_or path.now i []) ≤ 255 }
    ensures image { V.PageView.tells → V.PageView.image view.new ≡ V.PageView.image view.old }
    ensures count_of_blocks { V.PageView.block_count view.new ≡ V.PageView.block_count view.old }
    ensures device { V.PageView.device view.new ≡ V.PageView.device view.old }
    ensures fault { Carries (V.PageView.faults view.old) (V.PageView.faults view.new) result }
    ensures held { IfOk result (λ at. IsHeld (V.PageView.block_count view.old) inodes.now at.0) }
    ensures shown { V.PageView.tells → IfOk result (λ at. IsShown (page_of (V.PageView.image view.old)) at.0) }
    ensures dir { IfOk result (λ at. has_names at.0.inode ≡ true) }
    ensures name { IfOk result (λ at. length at.1.now ≤ 255) }
    // On a consistent volume it is the place in the tree.
    ensures follows { V.PageView.tells → IfOk result (λ at. IfConsistent (V.PageView.block_count view.old) (page_of (V.PageView.image view.old)) inodes.now (λ t. IsPlaceOf t path.now at.0 at.1.now)) }
    ensures refuses { V.PageView.tells → IfErr result (λ why. IfConsistent (V.PageView.block_count view.old) (page_of (V.PageView.image view.old)) inodes.now (λ t. OrOpen (place t path.now) why)) }
    // On any volume it is where the pages on the way lead, and the first of them that breaks a rule is named.
    ensures meets { V.PageView.tells → IfOk result (λ at. MeetsPlace (place_on (V.PageView.block_count view.old) (page_of (V.PageView.image view.old)) inodes.now path.now) at.0 at.1.now) }
    ensures fails { V.PageView.tells → IfErr result (OrOpen (place_on (V.PageView.block_count view.old) (page_of (V.PageView.image view.old)) inodes.now path.now)) }
{
    let Some((name, front)) = path.split_last() else {
        return Err(Refusal::Exists);
    };
    let dir = match walk(view, inodes, front) {
        Ok(dir) => dir,
        Err(e) => return Err(e),
    };
    if !has_names(&dir.inode) {
        return Err(Refusal::NotDir);
    }
    Ok((dir, name))
}

/// What stands at a place: the object that the name leads to from its directory, if it has the name. Else a refusal is that of the way to the name, or of the inode that is named.
pub fn occupant<V: PageView>(
    view: &mut V,
    inodes: &InodeMap,
    dir: &Held,
    name: &Name,
) -> Result<Option<Held>, Refusal>
    requires held { IsHeld (V.PageView.block_count view.old) inodes.now dir.now }
    requires shown { V.PageView.tells → IsShown (page_of (V.PageView.image view.old)) dir.now }
    requires name { length name.now ≤ 255 }
    ensures image { V.PageView.tells → V.PageView.image view.new ≡ V.PageView.image view.old }
    ensures count_of_blocks { V.PageView.block_count view.new ≡ V.PageView.block_count view.old }
    ensures device { V.PageView.device view.new ≡ V.PageView.device view.old }
    ensures fault { Carries (V.PageView.faults view.old) (V.PageView.faults view.new) result }
    ensures held { IfOk result (λ found. IfSome found (IsHeld (V.PageView.block_count view.old) inodes.now)) }
    ensures shown { V.PageView.tells → IfOk result (λ found. IfSome found (IsShown (page_of (V.PageView.image view.old)))) }
    // On a consistent volume it is what stands there in the tree, where the directory is one of the tree.
    ensures follows { V.PageView.tells → has_names dir.now.inode ≡ true → IfConsistent (V.PageView.block_count view.old) (page_of (V.PageView.image view.old)) inodes.now (λ t.
        IsThere t dir.now.number → StandsAt t dir.now.number name.now result) }
    // On any volume it is what the pages of the name's way give.
    ensures meets { V.PageView.tells → MeetsOccupant (occupant_at (V.PageView.block_count view.old) (page_of (V.PageView.image view.old)) inodes.now dir.now name.now) result }
{
    match enter(view, inodes, dir, name) {
        Ok(found) => Ok(Some(found)),
        Err(Refusal::NotFound) => Ok(None),
        Err(e) => Err(e),
    }
}
