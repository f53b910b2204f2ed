//! One name less.

ghost use Rattle.std.specs.Prelude.{◌≡◌, ◌<◌, ◌≤◌, ℕ, List, length, OnOk, OnErr, IfOk, IfErr};
ghost use Rattle.jfs_disk.specs.Image.{page_of};
ghost use Rattle.jfs_bits.specs.declared.rule.PageKind.TheVariants.{Dtree};
ghost use Rattle.jfs_tree.specs.Changes.{TellsGone};
ghost use Rattle.jfs_dtree.specs.Leftmost.{KeepsEmptyFirstKeys};
ghost use Rattle.jfs_dtree.specs.Frame.{KeepsPages};
ghost use Rattle.jfs_dtree.specs.Parent.{parent_of};
ghost use Rattle.jfs_dtree.specs.Spells.{CarriesDt, broken_for, found_for, TellsWay};
ghost use Rattle.jfs_dtree.specs.Removing.{RemovesName, MissesName};
ghost use Rattle.jfs_dtree.specs.Replacing.{FollowsWay};

use crate::entry::DirEntry;
use crate::error::DtError;
use crate::form::DtPages;
use crate::lookup::handed_on;
use jfs_bits::PageKind;
use jfs_dtpage::DtForm;
use jfs_name::Name;
use jfs_ranges::{PageView, Tx};
use jfs_tree::remove_and_tell;
use std::alloc::Global;

#[tactic(auto, using(crate::proofs::Roots::has_pages))]
/// Takes a name of at most 255 units out of a directory whose root has these 288 bytes, and answers the inode that it named: `Missing` exactly where the
/// directory doesn't have the name. The transaction gets the changed lines, then a `NoRedo` of each page that is empty now, and then a `Free` of each. The parent
/// stays, and the first keys on the leftmost way stay empty. After an `Err` root and transaction are as before. What it answers is what the leaf at the end of
/// the name's way has, whatever stands elsewhere.
pub fn remove<V: PageView>(
    alloc: Global,
    view: &mut V,
    root: &mut [u8],
    name: &Name,
    tx: &mut Tx,
) -> Result<u32, DtError>
    requires root { length root.old ≡ 288 }
    requires name { length name.now ≤ 255 }
    ensures image { V.PageView.tells → V.PageView.image view.new ≡ V.PageView.image view.old }
    ensures count_of_blocks { V.PageView.block_count view.new ≡ V.PageView.block_count view.old }
    ensures device { V.PageView.device view.new ≡ V.PageView.device view.old }
    ensures fault { CarriesDt (V.PageView.faults view.old) (V.PageView.faults view.new) result }
    ensures removes { V.PageView.tells → IfOk result (RemovesName (V.PageView.block_count view.old) (page_of (V.PageView.image view.old)) name.now root.old root.new tx.old tx.new) }
    ensures left { V.PageView.tells → OnOk result (KeepsEmptyFirstKeys (V.PageView.block_count view.old) (page_of (V.PageView.image view.old)) root.old root.new tx.old tx.new) }
    ensures edits { V.PageView.tells → OnOk result (TellsGone (V.PageView.block_count view.old) Dtree (page_of (V.PageView.image view.old)) tx.old tx.new) }
    ensures parent { parent_of root.new ≡ parent_of root.old }
    ensures named { V.PageView.tells → OnOk result (KeepsPages (V.PageView.block_count view.old) (page_of (V.PageView.image view.old)) tx.old tx.new) }
    ensures kept { OnErr result ((root.new ≡ root.old) × (tx.new ≡ tx.old)) }
    ensures way { V.PageView.tells → TellsWay (broken_for (V.PageView.block_count view.old) (page_of (V.PageView.image view.old)) root.old name.now) result }
    ensures missed { V.PageView.tells → IfErr result (MissesName (V.PageView.block_count view.old) (page_of (V.PageView.image view.old)) name.now root.old) }
    ensures on_way { V.PageView.tells → FollowsWay (found_for (V.PageView.block_count view.old) (page_of (V.PageView.image view.old)) root.old name.now) result }
{
    let blocks = view.blocks();
    let top = DtPages {
        form: DtForm::Root,
        blocks,
    };
    let pages = DtPages {
        form: DtForm::Full,
        blocks,
    };
    let x = DirEntry::new(name.as_slice(), 0);
    match remove_and_tell(alloc, &top, &pages, view, root, &x, PageKind::Dtree, tx) {
        Ok(Some(entry)) => Ok(entry.inode()),
        Ok(None) => Err(DtError::Missing),
        Err(e) => Err(handed_on(e)),
    }
}
