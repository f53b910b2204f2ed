//! The files of the two maps, read.

ghost use Rattle.std.specs.Prelude.{◌≡◌, ◌<◌, ◌≤◌, true, [], IfOk};
ghost use Rattle.jfs_disk.specs.Image.{page_of};
ghost use Rattle.jfs_ranges.specs.View.{CarriesCount};
ghost use Rattle.jfs_super.specs.Rules.{blocks_of};
ghost use Rattle.jfs_super.specs.declared.fields.Super.{Super};
ghost use Rattle.jfs_reader.specs.xtree.specs.Node.{all_within};
ghost use Rattle.jfs_reader.specs.objects.specs.Image.{file_extents};
ghost use Rattle.jfs_reader.specs.meaning.specs.Readers.{readers};
ghost use Rattle.jfs_mount.specs.Files.{LieWithin};
ghost use Rattle.jfs_mount.specs.Subject.{subject_of};
ghost use Rattle.jfs_mount.specs.Steps.{AreRead};

use crate::blocks::all_within;
use crate::maps::Maps;
use jfs_bits::XadList;
use jfs_ranges::{PageView, ViewError};
use jfs_reader::xtree::XtError;
use jfs_reader::{InodeMap, ReadError, file_extents};
use std::alloc::Global;

/// The two maps' files. One whose tree breaks a rule has no extents.
pub(crate) fn read_maps<V: PageView>(alloc: Global, view: &mut V) -> Result<Maps, ViewError>
    requires { 15 ≤ V.PageView.block_count view.old }
    ensures image { V.PageView.tells → V.PageView.image view.new ≡ V.PageView.image view.old }
    ensures count_of_blocks { V.PageView.block_count view.new ≡ V.PageView.block_count view.old }
    ensures device { V.PageView.device view.new ≡ V.PageView.device view.old }
    ensures fault { CarriesCount (V.PageView.faults view.old) (V.PageView.faults view.new) result }
    ensures blocks { IfOk result (λ maps. maps.blocks ≡ V.PageView.block_count view.old) }
    ensures read { V.PageView.tells → IfOk result (λ maps. (s : Super) → blocks_of s ≡ V.PageView.block_count view.old →
        AreRead (subject_of s (page_of (V.PageView.image view.old))) maps) }
{
    let block_map = extents_in(alloc, view, 2)?;
    let extents = extents_in(alloc, view, 16)?;
    let inodes = match InodeMap::read(view, extents) {
        Ok(inodes) => inodes,
        Err(ReadError::View(e)) => return Err(e),
        Err(ReadError::Outside) => unreachable!(),
    };
    Ok(Maps {
        blocks: view.blocks(),
        block_map,
        inodes,
    })
}

/// The extents of inode `k` of the aggregate, none where its tree breaks a rule.
fn extents_in<V: PageView>(alloc: Global, view: &mut V, k: u32) -> Result<XadList, ViewError>
    requires number { k < 32 }
    requires size { 15 ≤ V.PageView.block_count view.old }
    ensures image { V.PageView.tells → V.PageView.image view.new ≡ V.PageView.image view.old }
    ensures count_of_blocks { V.PageView.block_count view.new ≡ V.PageView.block_count view.old }
    ensures device { V.PageView.device view.new ≡ V.PageView.device view.old }
    ensures fault { CarriesCount (V.PageView.faults view.old) (V.PageView.faults view.new) result }
    ensures within { IfOk result (LieWithin (V.PageView.block_count view.old)) }
    ensures extents { V.PageView.tells → IfOk result (λ es. es ≡ file_extents (readers (V.PageView.block_count view.old)) (page_of (V.PageView.image view.old)) k) }
{
    match file_extents(alloc, view, k) {
        Ok(extents) => Ok(if_within(alloc, extents, view.blocks())),
        Err(XtError::View(e)) => Err(e),
        Err(XtError::Bad { page: _, rule: _ }) => Ok(XadList::new(alloc)),
    }
}

/// The extents, where all of them lie within so many blocks, as those of a tree that breaks no rule do.
fn if_within(alloc: Global, extents: XadList, blocks: u32) -> XadList
    ensures within { LieWithin blocks result }
    ensures same { all_within blocks extents ≡ true → result ≡ extents }
{
    if all_within(extents.as_slice(), blocks) {
        extents
    } else {
        XadList::new(alloc)
    }
}
