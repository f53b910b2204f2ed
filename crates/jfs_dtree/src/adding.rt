//! One name more.

ghost use Rattle.std.specs.Prelude.{◌≡◌, ◌<◌, ◌≤◌, ℕ, List, length, OnOk, OnErr, IfOk, IfErr};
ghost use Rattle.jfs_disk.specs.Image.{page_of};
ghost use Rattle.jfs_bits.specs.declared.rule.PageKind.TheVariants.{Dtree};
ghost use Rattle.jfs_tree.specs.Changes.{TellsTaken};
ghost use Rattle.jfs_tree.specs.Form.{AllBelow};
ghost use Rattle.jfs_tree.specs.Fresh.{blocks_of, TakenInOrder};
ghost use Rattle.jfs_dtree.specs.Frame.{NamesPages};
ghost use Rattle.jfs_dtree.specs.Parent.{parent_of};
ghost use Rattle.jfs_dtree.specs.Spells.{CarriesDt, broken_for, found_for};
ghost use Rattle.jfs_dtree.specs.Room.{FollowsRoom, deep_on_way};
ghost use Rattle.jfs_dtree.specs.Adding.{AddsName, TakesPages, KeepsLevels, RefusesName, ClashesFor, AddTellsWay, AddFollowsWay};

use crate::deep::is_deep;
use crate::entry::DirEntry;
use crate::error::DtError;
use crate::form::DtPages;
use crate::lookup::{find, handed_on};
use jfs_bits::{PageKind, PxdList};
use jfs_dtpage::DtForm;
use jfs_name::Name;
use jfs_ranges::{PageView, Tx};
use jfs_tree::add_and_tell;
use std::alloc::Global;

#[tactic(auto, using(crate::proofs::Roots::has_pages))]
/// Adds a name of at most 255 units to a directory whose root has these 288 bytes: `Exists` exactly where the directory has the name. Pages that it
/// needs are taken from `fresh` in its order; the transaction gets the changed lines and new pages, and then an `Alloc` of each. The parent stays. After an
/// `Err` root, `fresh` and transaction are as before. `TooDeep` comes, of a name that is new, exactly where the tree has 8
/// levels and each page below the root on the name's way has fewer than 18 free slots, which is what a longest name may take. `Bad` names the first page on
/// the name's way that breaks a rule by itself; where none does, with rule `order` a page at which the name clashes with what is stored. On any tree the leaf at the
/// end of the name's way decides between `Exists` and a name that is new, and a new one is `TooDeep` only where that way has 7 pages below the root without the slots.
pub fn add<V: PageView>(
    alloc: Global,
    view: &mut V,
    root: &mut [u8],
    name: &Name,
    inode: u32,
    fresh: &mut PxdList,
    tx: &mut Tx,
) -> Result<(), DtError>
    requires root { length root.old ≡ 288 }
    requires name { length name.now ≤ 255 }
    requires enough { 8 ≤ length (blocks_of fresh.old) }
    requires within { AllBelow (V.PageView.block_count view.old) (blocks_of fresh.old) }
    ensures image { V.PageView.tells → V.PageView.image view.new ≡ V.PageView.image view.old }
    ensures count_of_blocks { V.PageView.block_count view.new ≡ V.PageView.block_count view.old }
    ensures device { V.PageView.device view.new ≡ V.PageView.device view.old }
    ensures fault { CarriesDt (V.PageView.faults view.old) (V.PageView.faults view.new) result }
    ensures adds { V.PageView.tells → OnOk result (AddsName (V.PageView.block_count view.old) (page_of (V.PageView.image view.old)) (record { name = name.now; inode = inode }) root.old root.new (blocks_of fresh.old) (blocks_of fresh.new) tx.old tx.new) }
    ensures taken { OnOk result (TakenInOrder (blocks_of fresh.old) (blocks_of fresh.new) tx.old tx.new) }
    ensures edits { V.PageView.tells → OnOk result (TellsTaken (V.PageView.block_count view.old) Dtree (page_of (V.PageView.image view.old)) (blocks_of fresh.old) (blocks_of fresh.new) tx.old tx.new) }
    ensures parent { parent_of root.new ≡ parent_of root.old }
    ensures named { V.PageView.tells → OnOk result (NamesPages (V.PageView.block_count view.old) (page_of (V.PageView.image view.old)) (record { name = name.now; inode = inode }) root.old (blocks_of fresh.old) (blocks_of fresh.new) tx.old tx.new) }
    ensures kept { OnErr result ((root.new ≡ root.old) × (fresh.new ≡ fresh.old) × (tx.new ≡ tx.old)) }
    ensures room { V.PageView.tells → OnOk result (TakesPages (V.PageView.block_count view.old) (page_of (V.PageView.image view.old)) (record { name = name.now; inode = inode }) root.old (blocks_of fresh.old) (blocks_of fresh.new)) }
    ensures deep { V.PageView.tells → FollowsRoom (V.PageView.block_count view.old) (page_of (V.PageView.image view.old)) root.old name.now result }
    ensures levels { V.PageView.tells → OnOk result (KeepsLevels (V.PageView.block_count view.old) (page_of (V.PageView.image view.old)) (record { name = name.now; inode = inode }) root.old root.new (blocks_of fresh.old) tx.old tx.new) }
    ensures way { V.PageView.tells → AddTellsWay (broken_for (V.PageView.block_count view.old) (page_of (V.PageView.image view.old)) root.old name.now)
        (ClashesFor (V.PageView.block_count view.old) (page_of (V.PageView.image view.old)) (record { name = name.now; inode = inode }) root.old) result }
    ensures refused { V.PageView.tells → IfErr result (λ e. RefusesName (V.PageView.block_count view.old) (page_of (V.PageView.image view.old)) (record { name = name.now; inode = inode }) root.old (blocks_of fresh.old) e) }
    ensures on_way { V.PageView.tells → AddFollowsWay (found_for (V.PageView.block_count view.old) (page_of (V.PageView.image view.old)) root.old name.now)
        (deep_on_way (V.PageView.block_count view.old) (page_of (V.PageView.image view.old)) root.old name.now) result }
{
    match find(view, root, name) {
        Ok(None) => {}
        Ok(Some(_)) => return Err(DtError::Exists),
        Err(e) => return Err(e),
    }
    let blocks = view.blocks();
    let top = DtPages {
        form: DtForm::Root,
        blocks,
    };
    let pages = DtPages {
        form: DtForm::Full,
        blocks,
    };
    let x = DirEntry::new(name.as_slice(), inode);
    match is_deep(view, root, &x, blocks) {
        Ok(true) => return Err(DtError::TooDeep),
        Ok(false) => {}
        Err(e) => return Err(DtError::View(e)),
    }
    match add_and_tell(
        alloc,
        &top,
        &pages,
        view,
        root,
        &x,
        fresh,
        PageKind::Dtree,
        tx,
    ) {
        Ok(()) => Ok(()),
        Err(e) => Err(handed_on(e)),
    }
}
