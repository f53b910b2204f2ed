//! The rule on the root directory.

ghost use Rattle.std.specs.Prelude.{◌≡◌, ◌<◌, ◌==◌, if◌then◌else◌, Some, None, IfOk};
ghost use Rattle.jfs_disk.specs.Image.{page_of};
ghost use Rattle.jfs_inode.specs.Rules.{type_of};
ghost use Rattle.jfs_reader.specs.objects.specs.Volume.{home, slot_of};
ghost use Rattle.jfs_each.specs.Each.{AllFit};
ghost use Rattle.jfs_bits.specs.declared.rule.Rule.TheVariants.{Root};
ghost use Rattle.jfs_ranges.specs.View.{CarriesCount};
ghost use Rattle.jfs_mount.specs.Steps.{FindsRoot};

use crate::bad::BadMount;
use crate::blocks::page_or_zero;
use crate::maps::Maps;
use jfs_bits::Rule;
use jfs_inode::{Dinode, inode_in};
use jfs_ranges::{PageView, ViewError};

/// Inode 2, the root, is a directory.
pub(crate) fn bad_root<V: PageView>(
    view: &mut V,
    maps: &Maps,
    places: &[Option<u32>],
) -> Result<Option<BadMount>, ViewError>
    requires blocks { maps.now.blocks ≡ V.PageView.block_count view.old }
    requires fit { AllFit maps.now.blocks places.now }
    ensures image { V.PageView.tells → V.PageView.image view.new ≡ V.PageView.image view.old }
    ensures count_of_blocks { V.PageView.block_count view.new ≡ V.PageView.block_count view.old }
    ensures device { V.PageView.device view.new ≡ V.PageView.device view.old }
    ensures fault { CarriesCount (V.PageView.faults view.old) (V.PageView.faults view.new) result }
    ensures finds { V.PageView.tells → IfOk result (FindsRoot (V.PageView.image view.old) maps.now places.now) }
{
    match root_page(places) {
        Some(page) => bad_directory(view, page),
        None => Ok(Some(BadMount {
            rule: Rule::Root,
            page: page_or_zero(maps.inodes.extents.as_slice(), maps.blocks, 1),
            value: 0,
        })),
    }
}

/// The page of inode 2, the first one of the first inode extent.
fn root_page(places: &[Option<u32>]) -> Option<u32>
    ensures { result ≡ home places.now 2 }
{
    *places.first()?
}

/// The inode in slot 2 of this page is a directory.
fn bad_directory<V: PageView>(view: &mut V, page: u32) -> Result<Option<BadMount>, ViewError>
    requires { page < V.PageView.block_count view.old }
    ensures image { V.PageView.tells → V.PageView.image view.new ≡ V.PageView.image view.old }
    ensures count_of_blocks { V.PageView.block_count view.new ≡ V.PageView.block_count view.old }
    ensures device { V.PageView.device view.new ≡ V.PageView.device view.old }
    ensures fault { CarriesCount (V.PageView.faults view.old) (V.PageView.faults view.new) result }
    ensures finds { V.PageView.tells → IfOk result (λ bad.
        bad ≡ (if type_of (slot_of (page_of (V.PageView.image view.old) page) 2) == 0x4000 then None
        else Some (record { rule = Root; page = page; value = (slot_of (page_of (V.PageView.image view.old) page) 2).mode }))) }
{
    let inode = match view.page(page) {
        Ok(bytes) => inode_in(bytes, 2),
        Err(e) => return Err(e),
    };
    if inode.mode & Dinode::TYPE == Dinode::DIRECTORY {
        return Ok(None);
    }
    Ok(Some(BadMount {
        rule: Rule::Root,
        page,
        value: u64::from(inode.mode),
    }))
}
