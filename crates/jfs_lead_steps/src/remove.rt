//! A directory loses a name, as a transaction leaves it.

ghost use Rattle.std.specs.Prelude.{◌≡◌, ◌≤◌, length, IfOk, IfErr, OnErr};
ghost use Rattle.jfs_disk.specs.Image.{page_of};
ghost use Rattle.jfs_ranges.specs.Laid.{laid, put_tx};
ghost use Rattle.jfs_bits.specs.declared.rule.PageKind.TheVariants.{Dtree};
ghost use Rattle.jfs_tree.specs.Changes.{TellsGone};
ghost use Rattle.jfs_meaning.specs.dtree.specs.Parent.{parent_of};
ghost use Rattle.jfs_meaning.specs.dtree.specs.Spells.{CarriesDt, broken_for, TellsWay};
ghost use Rattle.jfs_meaning.specs.dtree.specs.Removing.{RemovesName, MissesName};

use jfs_meaning::dtree::{DtError, remove};
use jfs_name::Name;
use jfs_ranges::{Over, PageView, Tx, ViewError};
use jfs_tree::copy_tx;
use std::alloc::Global;

/// What a name named, and a transaction that ends with the edits that take it away.
#[derive(Drop)]
pub struct Removed {
    pub inode: u32,
    pub tx: Tx,
}

/// Takes a name of at most 255 units out of a directory as a transaction leaves it, whose root has these 288 bytes: the answer's transaction begins with that one. `Missing` exactly where the
/// directory doesn't have the name then. After an `Err` the root is as before.
pub fn remove_on_top<V: PageView>(
    alloc: Global,
    view: &mut V,
    tx: &Tx,
    root: &mut [u8],
    name: &Name,
) -> Result<Removed, DtError>
    requires root { length root.old ≡ 288 }
    requires name { length name.now ≤ 255 }
    ensures image { V.PageView.tells → V.PageView.image view.new ≡ V.PageView.image view.old }
    ensures count_of_blocks { V.PageView.block_count view.new ≡ V.PageView.block_count view.old }
    ensures device { V.PageView.device view.new ≡ V.PageView.device view.old }
    ensures fault { CarriesDt (V.PageView.faults view.old) (V.PageView.faults view.new) result }
    ensures removes { V.PageView.tells → IfOk result (λ gone.
        RemovesName (V.PageView.block_count view.old) (put_tx (V.PageView.block_count view.old) tx.now (page_of (V.PageView.image view.old))) name.now root.old root.new tx.now gone.tx gone.inode) }
    ensures edits { V.PageView.tells → IfOk result (λ gone.
        TellsGone (V.PageView.block_count view.old) Dtree (put_tx (V.PageView.block_count view.old) tx.now (page_of (V.PageView.image view.old))) tx.now gone.tx) }
    ensures parent { parent_of root.new ≡ parent_of root.old }
    ensures width { length root.old ≡ 288 }
    ensures kept { OnErr result (root.new ≡ root.old) }
    ensures way { V.PageView.tells → TellsWay (broken_for (V.PageView.block_count view.old) (put_tx (V.PageView.block_count view.old) tx.now (page_of (V.PageView.image view.old))) root.old name.now) result }
    ensures missed { V.PageView.tells → IfErr result (MissesName (V.PageView.block_count view.old) (put_tx (V.PageView.block_count view.old) tx.now (page_of (V.PageView.image view.old))) name.now root.old) }
{
    let mut over = Over::new(view, tx);
    remove_on_loan(alloc, &mut over, tx, root, name)
}

/// The same of a view with a transaction on top; it keeps its loan.
fn remove_on_loan<'a, V: PageView>(
    alloc: Global,
    over: &mut Over<'a, V>,
    tx: &Tx,
    root: &mut [u8],
    name: &Name,
) -> Result<Removed, DtError>
    requires root { length root.old ≡ 288 }
    requires name { length name.now ≤ 255 }
    ensures loan { over.new.view.ghost_name ≡ over.old.view.ghost_name }
    ensures image { V.PageView.tells → V.PageView.image over.new.view.now ≡ V.PageView.image over.old.view.now }
    ensures count_of_blocks { V.PageView.block_count over.new.view.now ≡ V.PageView.block_count over.old.view.now }
    ensures device { V.PageView.device over.new.view.now ≡ V.PageView.device over.old.view.now }
    ensures fault { CarriesDt (V.PageView.faults over.old.view.now) (V.PageView.faults over.new.view.now) result }
    ensures removes { V.PageView.tells → IfOk result (λ gone.
        RemovesName (V.PageView.block_count over.old.view.now) (page_of (laid (V.PageView.block_count over.old.view.now) over.old.tx.now (V.PageView.image over.old.view.now))) name.now root.old root.new tx.now gone.tx gone.inode) }
    ensures edits { V.PageView.tells → IfOk result (λ gone.
        TellsGone (V.PageView.block_count over.old.view.now) Dtree (page_of (laid (V.PageView.block_count over.old.view.now) over.old.tx.now (V.PageView.image over.old.view.now))) tx.now gone.tx) }
    ensures parent { parent_of root.new ≡ parent_of root.old }
    ensures kept { OnErr result (root.new ≡ root.old) }
    ensures way { V.PageView.tells → TellsWay (broken_for (V.PageView.block_count over.old.view.now) (page_of (laid (V.PageView.block_count over.old.view.now) over.old.tx.now (V.PageView.image over.old.view.now))) root.old name.now) result }
    ensures missed { V.PageView.tells → IfErr result (MissesName (V.PageView.block_count over.old.view.now) (page_of (laid (V.PageView.block_count over.old.view.now) over.old.tx.now (V.PageView.image over.old.view.now))) name.now root.old) }
{
    remove_from(alloc, over, tx, root, name)
}

/// The same of a view: the edits stand behind a copy of a transaction.
fn remove_from<V: PageView>(
    alloc: Global,
    view: &mut V,
    tx: &Tx,
    root: &mut [u8],
    name: &Name,
) -> Result<Removed, DtError>
    requires root { length root.old ≡ 288 }
    requires name { length name.now ≤ 255 }
    ensures image { V.PageView.tells → V.PageView.image view.new ≡ V.PageView.image view.old }
    ensures count_of_blocks { V.PageView.block_count view.new ≡ V.PageView.block_count view.old }
    ensures device { V.PageView.device view.new ≡ V.PageView.device view.old }
    ensures fault { CarriesDt (V.PageView.faults view.old) (V.PageView.faults view.new) result }
    ensures removes { V.PageView.tells → IfOk result (λ gone.
        RemovesName (V.PageView.block_count view.old) (page_of (V.PageView.image view.old)) name.now root.old root.new tx.now gone.tx gone.inode) }
    ensures edits { V.PageView.tells → IfOk result (λ gone. TellsGone (V.PageView.block_count view.old) Dtree (page_of (V.PageView.image view.old)) tx.now gone.tx) }
    ensures parent { parent_of root.new ≡ parent_of root.old }
    ensures kept { OnErr result (root.new ≡ root.old) }
    ensures way { V.PageView.tells → TellsWay (broken_for (V.PageView.block_count view.old) (page_of (V.PageView.image view.old)) root.old name.now) result }
    ensures missed { V.PageView.tells → IfErr result (MissesName (V.PageView.block_count view.old) (page_of (V.PageView.image view.old)) name.now root.old) }
{
    let Ok(mut later) = copy_tx(alloc, tx) else {
        return Err(DtError::View(ViewError::Memory));
    };
    match remove(alloc, view, root, name, &mut later) {
        Ok(inode) => Ok(Removed { inode, tx: later }),
        Err(e) => Err(e),
    }
}
