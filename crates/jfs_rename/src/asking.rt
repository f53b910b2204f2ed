//! What a rename is asked for, before anything is reserved.

ghost use Rattle.std.specs.Prelude.{◌≡◌, ◌≤◌, ◌<◌, ℕ, [], length, get_or, IfOk, IfErr};
ghost use Rattle.jfs_disk.specs.Image.{page_of};
ghost use Rattle.jfs_link.specs.way.specs.Answer.{Carries, Answers};
ghost use Rattle.jfs_link.specs.Link.{IfConsistentBy};
ghost use Rattle.jfs_rename.specs.Ends.{HaveNames};
ghost use Rattle.jfs_rename.specs.Asks.{asked, changes_nothing, IsAskedOf, IsAskedOn, MayRename, RefusesRename};

use crate::ends::find_moving;
use crate::permits::{Asked, permitted};
use crate::room::check_room;
use crate::through::is_inside;
use jfs_bmap::BlockMap;
use jfs_imap::InodeMap;
use jfs_link::place::occupant;
use jfs_name::Name;
use jfs_plain::Refusal;
use jfs_ranges::PageView;

/// What is asked for, where nothing refuses it; the greatest size of a file is `limit` bytes. The causes come in this order: those of `find_moving`; what stands at the new name, by `occupant`; those of `permitted`; and, where something changes, those of `check_room`.
pub fn ask<V: PageView>(
    view: &mut V,
    blocks: &BlockMap,
    inodes: &InodeMap,
    from: &[Name],
    to: &[Name],
    limit: u64,
) -> Result<Asked, Refusal>
    requires from { (i : ℕ) → i < length from.now → length (get_or from.now i []) ≤ 255 }
    requires to { (i : ℕ) → i < length to.now → length (get_or to.now i []) ≤ 255 }
    requires size { length blocks.now.states ≡ V.PageView.block_count view.old }
    ensures image { V.PageView.tells → V.PageView.image view.new ≡ V.PageView.image view.old }
    ensures count_of_blocks { V.PageView.block_count view.new ≡ V.PageView.block_count view.old }
    ensures device { V.PageView.device view.new ≡ V.PageView.device view.old }
    ensures fault { Carries (V.PageView.faults view.old) (V.PageView.faults view.new) result }
    ensures some { IfOk result (λ asked. HaveNames from.now to.now) }
    ensures held { IfOk result (IsAskedOf (V.PageView.block_count view.old) inodes.now) }
    ensures shown { V.PageView.tells → IfOk result (IsAskedOn (page_of (V.PageView.image view.old))) }
    // On a consistent volume it is what the plain step asks; a refusal is the plain step's.
    ensures allowed { V.PageView.tells → IfOk result (λ asked. IfConsistentBy (V.PageView.block_count view.old) (page_of (V.PageView.image view.old)) blocks.now inodes.now (MayRename from.now to.now limit asked)) }
    ensures refused { V.PageView.tells → IfErr result (λ why. IfConsistentBy (V.PageView.block_count view.old) (page_of (V.PageView.image view.old)) blocks.now inodes.now (RefusesRename from.now to.now limit why)) }
    // On any volume it is what the pages on all ways give, and the first of them that breaks a rule is named.
    ensures meets { V.PageView.tells → Answers (asked (V.PageView.block_count view.old) (page_of (V.PageView.image view.old)) blocks.now inodes.now limit from.now to.now) result }
{
    let moving = match find_moving(view, inodes, from, to) {
        Ok(moving) => moving,
        Err(e) => return Err(e),
    };
    let inside = match is_inside(view, inodes, &moving.object, to) {
        Ok(inside) => inside,
        Err(e) => return Err(e),
    };
    let new = &to[to.len() - 1];
    let found = match occupant(view, inodes, &moving.target, new) {
        Ok(found) => found,
        Err(e) => return Err(e),
    };
    let asked = match permitted(view.blocks(), &moving, inside, found, limit) {
        Ok(asked) => asked,
        Err(e) => return Err(e),
    };
    if changes_nothing(&asked) {
        return Ok(asked);
    }
    match check_room(view, blocks, &moving.target, new) {
        Ok(()) => Ok(asked),
        Err(e) => Err(e),
    }
}

/// Whether both names are one object's.
fn changes_nothing(asked: &Asked) -> bool
    ensures { result ≡ changes_nothing asked.now }
{
    match asked {
        Asked::Same => true,
        _ => false,
    }
}
