//! An inode is put into its slot.

ghost use Rattle.std.specs.Prelude.{◌≡◌, ◌<◌, ◌++◌, ℕ, true, OnOk, IfOk, IfErr};
ghost use Rattle.jfs_disk.specs.Image.{page_of};
ghost use Rattle.jfs_inode.specs.Inode.{FitsDinode};
ghost use Rattle.jfs_ranges.specs.Apply.{apply_tx};
ghost use Rattle.jfs_way.specs.Answer.{is_open, Carries};
ghost use Rattle.jfs_steps.specs.Put.{AddsInode, TellsLines};

use jfs_bits::PageKind;
use jfs_disk::Page;
use jfs_inode::{Dinode, write_dinode};
use jfs_ranges::{PageView, Tx, ViewError, apply};
use jfs_way::page_tree::tell_page;
use jfs_way::plain::Refusal;
use std::alloc::Global;

/// Puts inode `n` into its slot on a page: the transaction gets the lines that change, on top of what it did to the page before.
pub fn put_inode<V: PageView>(
    alloc: Global,
    view: &mut V,
    page: u32,
    n: u32,
    d: &Dinode,
    tx: &mut Tx,
) -> Result<(), Refusal>
    requires page { page < V.PageView.block_count view.old }
    requires fits { FitsDinode d.now }
    ensures image { V.PageView.tells → V.PageView.image view.new ≡ V.PageView.image view.old }
    ensures count_of_blocks { V.PageView.block_count view.new ≡ V.PageView.block_count view.old }
    ensures device { V.PageView.device view.new ≡ V.PageView.device view.old }
    ensures fault { Carries (V.PageView.faults view.old) (V.PageView.faults view.new) result }
    ensures only { IfErr result (λ why. is_open why ≡ true) }
    ensures puts { V.PageView.tells → OnOk result (AddsInode (V.PageView.block_count view.old) (page_of (V.PageView.image view.old)) page n d.now tx.old tx.new) }
    // It tells exactly the lines of the page that change.
    ensures lines { V.PageView.tells → OnOk result (TellsLines (V.PageView.block_count view.old) (page_of (V.PageView.image view.old)) page tx.old tx.new) }
{
    let old = match page_after(view, tx, page) {
        Ok(old) => old,
        Err(e) => return Err(e),
    };
    let mut new = Page(old.0);
    write_dinode(&mut new, n % 8, d);
    match tell_page(alloc, tx, page, PageKind::Inode, &old, &new) {
        Ok(()) => Ok(()),
        Err(_) => Err(Refusal::OutOfMemory),
    }
}

/// A copy of a page as the transaction leaves it.
fn page_after<V: PageView>(view: &mut V, tx: &Tx, n: u32) -> Result<Page, Refusal>
    requires { n < V.PageView.block_count view.old }
    ensures image { V.PageView.tells → V.PageView.image view.new ≡ V.PageView.image view.old }
    ensures count_of_blocks { V.PageView.block_count view.new ≡ V.PageView.block_count view.old }
    ensures device { V.PageView.device view.new ≡ V.PageView.device view.old }
    ensures fault { Carries (V.PageView.faults view.old) (V.PageView.faults view.new) result }
    ensures only { IfErr result (λ why. is_open why ≡ true) }
    ensures page { V.PageView.tells → IfOk result (λ page. page.0 ≡ apply_tx n tx.now (page_of (V.PageView.image view.old) n)) }
{
    let mut after = match view.page(n) {
        Ok(page) => Page(page.0),
        Err(ViewError::Read(fault)) => return Err(Refusal::IoFault { fault }),
        Err(ViewError::Memory) => return Err(Refusal::OutOfMemory),
    };
    apply(tx, n, &mut after);
    Ok(after)
}
