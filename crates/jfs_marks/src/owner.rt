//! The inodes whose lines a transaction has, as its records name them.

ghost use Rattle.std.specs.Prelude.{◌≡◌, ◌<◌, IfOk};
ghost use Rattle.jfs_disk.specs.Image.{page_of};
ghost use Rattle.jfs_ranges.specs.View.{CarriesCount};
ghost use Rattle.jfs_marks.specs.Owners.{owner_in, owner_of, owner_on};

use crate::founded::is_extent;
use jfs_bits::PageKind;
use jfs_data_steps::reader::has_names;
use jfs_disk::Page;
use jfs_inode::{Dinode, inode_in};
use jfs_ranges::{Edit, PageView, Tx, ViewError, apply};

/// An inode whose lines an edit has.
#[derive(Clone, Copy, PartialEq, Eq, Debug)]
pub(crate) struct Owner {
    pub(crate) inode: u32,
    /// The first inode on its page.
    pub(crate) first: u32,
    pub(crate) is_directory: bool,
}

/// No inode.
pub(crate) const NO_OWNER: Owner = Owner {
    inode: 0,
    first: 0,
    is_directory: false,
};

/// The inode whose lines an edit has, as the transaction leaves it; `None` where the edit has no lines of an inode, or is a new inode extent.
pub(crate) fn owner_of<V: PageView>(
    view: &mut V,
    tx: &Tx,
    edit: &Edit,
) -> Result<Option<Owner>, ViewError>
    ensures image { V.PageView.tells → V.PageView.image view.new ≡ V.PageView.image view.old }
    ensures count_of_blocks { V.PageView.block_count view.new ≡ V.PageView.block_count view.old }
    ensures device { V.PageView.device view.new ≡ V.PageView.device view.old }
    ensures fault { CarriesCount (V.PageView.faults view.old) (V.PageView.faults view.new) result }
    ensures owner { V.PageView.tells → IfOk result (λ owner. owner ≡ owner_of (V.PageView.block_count view.old) (page_of (V.PageView.image view.old)) tx.now edit.now) }
{
    match edit {
        Edit::Lines {
            page,
            kind: PageKind::Inode,
            first,
            bytes,
        } if !is_extent(PageKind::Inode, *first, bytes.as_slice()) => {
            owner_on(view, tx, *page, *first / 4 % 8)
        }
        _ => Ok(None),
    }
}

/// The inode in a slot of page `p`, as the transaction leaves it.
fn owner_on<V: PageView>(
    view: &mut V,
    tx: &Tx,
    p: u32,
    slot: u32,
) -> Result<Option<Owner>, ViewError>
    requires { slot < 8 }
    ensures image { V.PageView.tells → V.PageView.image view.new ≡ V.PageView.image view.old }
    ensures count_of_blocks { V.PageView.block_count view.new ≡ V.PageView.block_count view.old }
    ensures device { V.PageView.device view.new ≡ V.PageView.device view.old }
    ensures fault { CarriesCount (V.PageView.faults view.old) (V.PageView.faults view.new) result }
    ensures owner { V.PageView.tells → IfOk result (λ owner. owner ≡ owner_on (V.PageView.block_count view.old) (page_of (V.PageView.image view.old)) tx.now p slot) }
{
    if p >= view.blocks() {
        return Ok(None);
    }
    let mut page = match view.page(p) {
        Ok(page) => Page(page.0),
        Err(e) => return Err(e),
    };
    apply(tx, p, &mut page);
    Ok(Some(owner_in(&inode_in(&page, slot), slot)))
}

/// An inode that stands in a slot.
fn owner_in(d: &Dinode, slot: u32) -> Owner
    ensures { result ≡ owner_in d.now slot }
{
    Owner {
        inode: d.number,
        first: d.number.saturating_sub(slot),
        is_directory: has_names(d),
    }
}
