//! All that an object has is freed.

ghost use Rattle.std.specs.Prelude.{◌≡◌, ◌++◌, [], IfOk, OnOk};
ghost use Rattle.jfs_bits.specs.Extent.{FitsDxd};
ghost use Rattle.jfs_disk.specs.Image.{page_of};
ghost use Rattle.jfs_inode.specs.Inode.{FitsDinode};
ghost use Rattle.jfs_lead_steps.specs.objects.specs.Objects.{has_extents};
ghost use Rattle.jfs_lead_steps.specs.meaning.specs.Readers.{root_of};
ghost use Rattle.jfs_lead_steps.specs.xtree.specs.Cutting.{run_frees};
ghost use Rattle.jfs_steps.specs.way.specs.Answer.{Carries};
ghost use Rattle.jfs_loss.specs.Frees.{CutsIf, FreesObject, run_of, attribute_runs};
ghost use Rattle.jfs_loss.specs.Causes.{MeetsTree};

use crate::answer::from_extents;
use jfs_bits::{Dxd, get_array};
use jfs_inode::Dinode;
use jfs_lead_steps::xtree::cut_to;
use jfs_plain::Refusal;
use jfs_ranges::{Edit, PageView, Tx};
use jfs_steps::reader::has_extents;
use jfs_steps::way::Held;
use std::alloc::{AllocError, Global};

/// The transaction that frees the tree pages, the data and the attributes of an object. A directory is taken to have no names, and so no page. It is `Damaged`
/// where a page of its tree breaks a rule, the first one in the order of the file; no page is then freed. No page stands twice among those that are freed.
pub fn free_object<V: PageView>(alloc: Global, view: &mut V, at: &Held) -> Result<Tx, Refusal>
    requires fits { FitsDinode at.now.inode }
    ensures image { V.PageView.tells → V.PageView.image view.new ≡ V.PageView.image view.old }
    ensures count_of_blocks { V.PageView.block_count view.new ≡ V.PageView.block_count view.old }
    ensures device { V.PageView.device view.new ≡ V.PageView.device view.old }
    ensures fault { Carries (V.PageView.faults view.old) (V.PageView.faults view.new) result }
    ensures frees { V.PageView.tells → IfOk result (FreesObject (V.PageView.block_count view.old) (page_of (V.PageView.image view.old)) at.now.inode) }
    // The whole tree is met, and the first page that breaks a rule is named.
    ensures meets { V.PageView.tells → MeetsTree (V.PageView.block_count view.old) (page_of (V.PageView.image view.old)) at.now result }
{
    let mut tx = Tx::new(alloc);
    match cut_all(alloc, view, at, &mut tx) {
        Ok(()) => {}
        Err(e) => return Err(e),
    }
    let blocks = view.blocks();
    match free_attributes(blocks, &at.inode, &mut tx) {
        Ok(()) => Ok(tx),
        Err(_) => Err(Refusal::OutOfMemory),
    }
}

/// Frees what the extents of an object have, where it has extents, and the pages of their tree.
fn cut_all<V: PageView>(alloc: Global, view: &mut V, at: &Held, tx: &mut Tx) -> Result<(), Refusal>
    requires empty { tx.old ≡ [] }
    ensures image { V.PageView.tells → V.PageView.image view.new ≡ V.PageView.image view.old }
    ensures count_of_blocks { V.PageView.block_count view.new ≡ V.PageView.block_count view.old }
    ensures device { V.PageView.device view.new ≡ V.PageView.device view.old }
    ensures fault { Carries (V.PageView.faults view.old) (V.PageView.faults view.new) result }
    ensures cuts { V.PageView.tells → OnOk result (CutsIf (has_extents at.now.inode) (V.PageView.block_count view.old) (page_of (V.PageView.image view.old)) (root_of at.now.inode) tx.new) }
    ensures meets { V.PageView.tells → MeetsTree (V.PageView.block_count view.old) (page_of (V.PageView.image view.old)) at.now result }
{
    if !has_extents(&at.inode) {
        return Ok(());
    }
    let mut root: [u8; 288] = get_array(&at.inode.rest, 96);
    match cut_to(alloc, view, &mut root, 0, tx) {
        Ok(()) => Ok(()),
        Err(e) => Err(from_extents(at.page, e)),
    }
}

/// Frees the runs of both descriptors of attributes.
fn free_attributes(blocks: u32, d: &Dinode, tx: &mut Tx) -> Result<(), AllocError>
    requires { FitsDinode d.now }
    ensures { OnOk result (tx.new ≡ tx.old ++ run_frees (attribute_runs blocks d.now)) }
{
    free_run(blocks, &d.acl, tx)?;
    free_run(blocks, &d.ea, tx)
}

/// Frees the run of a descriptor of attributes, where it has one.
fn free_run(blocks: u32, d: &Dxd, tx: &mut Tx) -> Result<(), AllocError>
    requires { FitsDxd d.now }
    ensures { OnOk result (tx.new ≡ tx.old ++ run_frees (run_of blocks d.now)) }
{
    let at = d.at;
    if d.flag & Dxd::EXTENT == Dxd::EXTENT
        && at.len >= 1
        && at.addr + u64::from(at.len) <= u64::from(blocks)
    {
        tx.push(Edit::Free(at))?;
    }
    Ok(())
}
