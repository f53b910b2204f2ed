//! Objects: an inode, and what its trees spell.

ghost use Rattle.std.specs.Prelude.{◌≡◌, ◌<◌, ◌%◌, Some, IfOk, IfErr};
ghost use Rattle.jfs_disk.specs.Image.{page_of};
ghost use Rattle.jfs_meaning.specs.xtree.specs.Node.{xt_scale};
ghost use Rattle.jfs_meaning.specs.xtree.specs.Spells.{CarriesXt};
ghost use Rattle.jfs_meaning.specs.dtree.specs.Node.{name_scale};
ghost use Rattle.jfs_meaning.specs.dtree.specs.Spells.{CarriesDt};
ghost use Rattle.jfs_meaning.specs.objects.specs.Volume.{slot_of};
ghost use Rattle.jfs_meaning.specs.objects.specs.Objects.{has_names, has_extents, names_of, extents_of, listed};
ghost use Rattle.jfs_meaning.specs.Readers.{readers};
ghost use Rattle.jfs_reader.specs.Reading.{ExtentsAre, NamesAre, OutsideIsPast, CarriesRead};

use crate::error::ReadError;
use crate::files::root_in;
use jfs_bits::XadList;
use jfs_inode::{Dinode, inode_in};
use jfs_meaning::dtree::{DtError, list};
use jfs_meaning::xtree::{XtError, extents};
use jfs_name::NameList;
use jfs_ranges::PageView;
use std::alloc::Global;

/// Inode `n` as it stands on its page, whatever rules it breaks.
pub fn read_inode<V: PageView>(view: &mut V, page: u64, n: u32) -> Result<Dinode, ReadError>
    ensures image { V.PageView.tells → V.PageView.image view.new ≡ V.PageView.image view.old }
    ensures count_of_blocks { V.PageView.block_count view.new ≡ V.PageView.block_count view.old }
    ensures device { V.PageView.device view.new ≡ V.PageView.device view.old }
    ensures fault { CarriesRead (V.PageView.faults view.old) (V.PageView.faults view.new) result }
    ensures outside { IfErr result (OutsideIsPast (V.PageView.block_count view.old) (Some page)) }
    ensures inode { V.PageView.tells → IfOk result (λ d. d ≡ slot_of (page_of (V.PageView.image view.old) page) (n % 8)) }
{
    if page >= u64::from(view.blocks()) {
        return Err(ReadError::Outside);
    }
    match view.page(page as u32) {
        Ok(page) => Ok(inode_in(page, n % 8)),
        Err(e) => Err(ReadError::View(e)),
    }
}

/// The names of an object, in rising order, each with its inode: `Ok` exactly where its tree spells a list, which is this one; else the first broken rule, with
/// its page. Only a directory has names.
pub fn names_of<V: PageView>(alloc: Global, view: &mut V, d: &Dinode) -> Result<NameList, DtError>
    ensures image { V.PageView.tells → V.PageView.image view.new ≡ V.PageView.image view.old }
    ensures count_of_blocks { V.PageView.block_count view.new ≡ V.PageView.block_count view.old }
    ensures device { V.PageView.device view.new ≡ V.PageView.device view.old }
    ensures fault { CarriesDt (V.PageView.faults view.old) (V.PageView.faults view.new) result }
    ensures list { V.PageView.tells →
        NamesAre (listed name_scale (names_of (readers (V.PageView.block_count view.old)) (page_of (V.PageView.image view.old)) d.now)) result }
{
    if !has_names(d) {
        return Ok(NameList::new(alloc));
    }
    list(alloc, view, root_in(d))
}

/// The extents of an object, in rising order: `Ok` exactly where its tree spells a list, which is this one; else the first broken rule, with its page. A file has
/// extents, and a symbolic link of 256 bytes or more.
pub fn extents_of<V: PageView>(alloc: Global, view: &mut V, d: &Dinode) -> Result<XadList, XtError>
    ensures image { V.PageView.tells → V.PageView.image view.new ≡ V.PageView.image view.old }
    ensures count_of_blocks { V.PageView.block_count view.new ≡ V.PageView.block_count view.old }
    ensures device { V.PageView.device view.new ≡ V.PageView.device view.old }
    ensures fault { CarriesXt (V.PageView.faults view.old) (V.PageView.faults view.new) result }
    ensures list { V.PageView.tells →
        ExtentsAre (listed xt_scale (extents_of (readers (V.PageView.block_count view.old)) (page_of (V.PageView.image view.old)) d.now)) result }
{
    if !has_extents(d) {
        return Ok(XadList::new(alloc));
    }
    extents(alloc, view, root_in(d))
}

/// Only a directory has names.
pub fn has_names(d: &Dinode) -> bool
    ensures { result ≡ has_names d.now }
{
    d.mode & Dinode::TYPE == Dinode::DIRECTORY
}

/// A file has extents, and a symbolic link whose target doesn't stand in its inode.
pub fn has_extents(d: &Dinode) -> bool
    ensures { result ≡ has_extents d.now }
{
    let mode = d.mode;
    let size = d.size;
    let kind = mode & Dinode::TYPE;
    kind == Dinode::REGULAR || (kind == Dinode::LINK && size >= 256)
}
