//! A name that leads to another inode.

ghost use Rattle.std.specs.Prelude.{◌≡◌, ◌<◌, ◌≤◌, ℕ, List, length, OnOk, OnErr, IfOk, IfErr, IfSome};
ghost use Rattle.jfs_disk.specs.Image.{page_of};
ghost use Rattle.jfs_ranges.specs.View.{CarriesCount};
ghost use Rattle.jfs_dtree.specs.Node.{name_scale};
ghost use Rattle.jfs_dtree.specs.Parent.{parent_of};
ghost use Rattle.jfs_dtree.specs.Spells.{page_nodes, CarriesDt, broken_for, found_for, TellsWay};
ghost use Rattle.jfs_dtree.specs.Removing.{MissesName};
ghost use Rattle.jfs_dtree.specs.Replacing.{ReplacesName, ChangesOnePlace, FollowsWay, LeadsPage, LeadsBelow, EndsNowhere, end_below};

use crate::entry::DirEntry;
use crate::error::DtError;
use crate::lead::way_of;
use crate::leaf::lead_name;
use crate::lookup::find;
use jfs_bits::PageKind;
use jfs_disk::Page;
use jfs_dtpage::DtForm;
use jfs_name::Name;
use jfs_ranges::{PageView, Tx, ViewError};
use jfs_tree::{Way, copy_tx, tell_page};
use std::alloc::{AllocError, Global};

/// Leads a name of at most 255 units, in a directory whose root has these 288 bytes, to another inode, and answers the old one: `Missing` exactly where the
/// directory doesn't have the name. The entry keeps its place and its slots: four bytes change, in the root or in one page, whose changed lines the transaction
/// gets. No page is taken or freed. The pages on the name's way are read twice. After an `Err` root and transaction are as before.
pub fn replace<V: PageView>(
    alloc: Global,
    view: &mut V,
    root: &mut [u8],
    name: &Name,
    inode: u32,
    tx: &mut Tx,
) -> Result<u32, DtError>
    requires root { length root.old ≡ 288 }
    requires name { length name.now ≤ 255 }
    ensures image { V.PageView.tells → V.PageView.image view.new ≡ V.PageView.image view.old }
    ensures count_of_blocks { V.PageView.block_count view.new ≡ V.PageView.block_count view.old }
    ensures device { V.PageView.device view.new ≡ V.PageView.device view.old }
    ensures fault { CarriesDt (V.PageView.faults view.old) (V.PageView.faults view.new) result }
    ensures replaces { V.PageView.tells → IfOk result (ReplacesName (V.PageView.block_count view.old) (page_of (V.PageView.image view.old)) name.now inode root.old root.new tx.old tx.new) }
    ensures edits { V.PageView.tells → OnOk result (ChangesOnePlace (V.PageView.block_count view.old) (page_of (V.PageView.image view.old)) root.old root.new tx.old tx.new) }
    ensures parent { parent_of root.new ≡ parent_of root.old }
    ensures kept { OnErr result ((root.new ≡ root.old) × (tx.new ≡ tx.old)) }
    ensures way { V.PageView.tells → TellsWay (broken_for (V.PageView.block_count view.old) (page_of (V.PageView.image view.old)) root.old name.now) result }
    ensures on_way { V.PageView.tells → FollowsWay (found_for (V.PageView.block_count view.old) (page_of (V.PageView.image view.old)) root.old name.now) result }
    ensures missed { V.PageView.tells → IfErr result (MissesName (V.PageView.block_count view.old) (page_of (V.PageView.image view.old)) name.now root.old) }
{
    let old = match find(view, root, name) {
        Ok(Some(old)) => old,
        Ok(None) => return Err(DtError::Missing),
        Err(e) => return Err(e),
    };
    let blocks = view.blocks();
    let x = DirEntry::new(name.as_slice(), 0);
    match way_of(root, DtForm::Root, blocks, &x) {
        Ok(Way::Here) => {
            lead_name(root, DtForm::Root, &x, inode);
            Ok(old)
        }
        Ok(
            Way::Down {
                place: _,
                page,
                last: _,
            },
        ) => match lead_below(alloc, view, page, &x, inode, tx) {
            Ok(()) => Ok(old),
            Err(e) => Err(e),
        },
        Err(_) => Err(DtError::Missing),
    }
}

/// Leads the name of `x` in the leaf at the end of its way to an inode. `Missing` comes only where the way ends nowhere; the transaction is then as before, and so it
/// is after each other `Err`.
fn lead_below<V: PageView>(
    alloc: Global,
    view: &mut V,
    page: u32,
    x: &DirEntry,
    inode: u32,
    tx: &mut Tx,
) -> Result<(), DtError>
    requires page { page < V.PageView.block_count view.old }
    ensures image { V.PageView.tells → V.PageView.image view.new ≡ V.PageView.image view.old }
    ensures count_of_blocks { V.PageView.block_count view.new ≡ V.PageView.block_count view.old }
    ensures device { V.PageView.device view.new ≡ V.PageView.device view.old }
    ensures fault { CarriesDt (V.PageView.faults view.old) (V.PageView.faults view.new) result }
    ensures leads { V.PageView.tells → OnOk result (LeadsBelow (V.PageView.block_count view.old) (page_of (V.PageView.image view.old)) x.now.name inode page tx.old tx.new) }
    ensures nowhere { V.PageView.tells → IfErr result (EndsNowhere (end_below name_scale (page_nodes (V.PageView.block_count view.old) (page_of (V.PageView.image view.old))) x.now.name 7 page)) }
    ensures kept { OnErr result (tx.new ≡ tx.old) }
{
    let blocks = view.blocks();
    let mut leaf = Page::zeros();
    match end_of_way(view, blocks, 7, page, x, &mut leaf) {
        Ok(Some(n)) => match tell_led(alloc, n, &leaf, x, inode, tx) {
            Ok(later) => {
                *tx = later;
                Ok(())
            }
            Err(_) => Err(DtError::View(ViewError::Memory)),
        },
        Ok(None) => Err(DtError::Missing),
        Err(e) => Err(DtError::View(e)),
    }
}

/// The leaf at the end of a name's way, from a page on that is at most so many levels above it, and a copy of it; `None` where the way breaks a rule.
fn end_of_way<V: PageView>(
    view: &mut V,
    blocks: u32,
    left: u32,
    page: u32,
    x: &DirEntry,
    leaf: &mut Page,
) -> Result<Option<u32>, ViewError>
    requires page { page < V.PageView.block_count view.old }
    requires bound { blocks ≡ V.PageView.block_count view.old }
    ensures image { V.PageView.tells → V.PageView.image view.new ≡ V.PageView.image view.old }
    ensures count_of_blocks { V.PageView.block_count view.new ≡ V.PageView.block_count view.old }
    ensures device { V.PageView.device view.new ≡ V.PageView.device view.old }
    ensures fault { CarriesCount (V.PageView.faults view.old) (V.PageView.faults view.new) result }
    ensures ends { V.PageView.tells → IfOk result (λ end. end ≡ end_below name_scale (page_nodes blocks (page_of (V.PageView.image view.old))) x.now.name left page) }
    ensures within { IfOk result (λ end. IfSome end (λ n. n < V.PageView.block_count view.old)) }
    ensures bytes { V.PageView.tells → IfOk result (λ end. IfSome end (λ n. leaf.new.0 ≡ page_of (V.PageView.image view.old) n)) }
{
    if left == 0 {
        return Ok(None);
    }
    let bytes = match view.page(page) {
        Ok(bytes) => bytes,
        Err(e) => return Err(e),
    };
    match way_of(bytes.bytes(), DtForm::Full, blocks, x) {
        Err(_) => Ok(None),
        Ok(Way::Here) => {
            leaf.0.copy_from_slice(bytes.bytes());
            Ok(Some(page))
        }
        Ok(
            Way::Down {
                place: _,
                page: child,
                last: _,
            },
        ) => end_of_way(view, blocks, left - 1, child, x, leaf),
    }
}

/// The transaction with the lines of page `n` that change where the name of `x` is led to an inode there.
fn tell_led(
    alloc: Global,
    n: u32,
    leaf: &Page,
    x: &DirEntry,
    inode: u32,
    tx: &Tx,
) -> Result<Tx, AllocError>
    ensures { IfOk result (LeadsPage n leaf.now.0 x.now.name inode tx.now) }
{
    let mut led = Page(leaf.0);
    lead_name(&mut led.0, DtForm::Full, x, inode);
    let mut later = copy_tx(alloc, tx)?;
    tell_page(alloc, &mut later, n, PageKind::Dtree, leaf, &led)?;
    Ok(later)
}
