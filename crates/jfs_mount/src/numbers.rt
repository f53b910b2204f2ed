//! Rules on the pages of the maps' files and on the maps' numbers.

ghost use Rattle.std.specs.Prelude.{◌≡◌, ◌≤◌, ◌==◌, if◌then◌else◌, ℕ, true, is_some, Some, None, IfOk};
ghost use Rattle.jfs_bits.specs.declared.rule.Rule.TheVariants.{Mapsize};
ghost use Rattle.jfs_reader.specs.objects.specs.Contents.{block_of};
ghost use Rattle.jfs_ranges.specs.View.{CarriesCount};
ghost use Rattle.jfs_mount.specs.Subject.{Subject};
ghost use Rattle.jfs_mount.specs.Mount.{bmap_row, imap_row, mapsize_row, nextiag_row};
ghost use Rattle.jfs_mount.specs.Steps.{AreRead, Finds, broken};

use crate::bad::BadMount;
use crate::blocks::{covered, page_at, page_or_zero};
use crate::maps::Maps;
use jfs_bits::{Rule, get_u64};
use jfs_ranges::{PageView, ViewError};

/// The most inode allocation groups (IAGs) that there may be.
const MOST_IAGS: u32 = 65536;

/// The extents of the block map's file cover all its pages: four, and one for each 8,192 blocks.
pub(crate) fn bad_bmap(maps: &Maps) -> Option<BadMount>
    ensures { (s : Subject) → AreRead s maps.now → result ≡ broken (bmap_row s) }
{
    let pages = 4 + (u64::from(maps.blocks) + 8191) / 8192;
    let covered = covered(maps.block_map.as_slice(), pages);
    if covered == pages {
        return None;
    }
    Some(BadMount {
        rule: Rule::Bmap,
        page: 11,
        value: covered,
    })
}

/// The extents of the inode map's file cover all its pages: one, and one for each IAG.
pub(crate) fn bad_imap(maps: &Maps) -> Option<BadMount>
    ensures finds { (s : Subject) → AreRead s maps.now → result ≡ broken (imap_row s) }
    ensures covered { result ≡ None → (j : ℕ) → j ≤ maps.now.inodes.iags → is_some (block_of maps.now.inodes.extents j) ≡ true }
{
    let pages = u64::from(maps.inodes.iags) + 1;
    let covered = covered(maps.inodes.extents.as_slice(), pages);
    if covered == pages {
        return None;
    }
    Some(BadMount {
        rule: Rule::Imap,
        page: 13,
        value: covered,
    })
}

/// The block map is of as many blocks as the volume has.
pub(crate) fn bad_mapsize<V: PageView>(
    view: &mut V,
    maps: &Maps,
) -> Result<Option<BadMount>, ViewError>
    requires { maps.now.blocks ≡ V.PageView.block_count view.old }
    ensures image { V.PageView.tells → V.PageView.image view.new ≡ V.PageView.image view.old }
    ensures count_of_blocks { V.PageView.block_count view.new ≡ V.PageView.block_count view.old }
    ensures device { V.PageView.device view.new ≡ V.PageView.device view.old }
    ensures fault { CarriesCount (V.PageView.faults view.old) (V.PageView.faults view.new) result }
    ensures finds { V.PageView.tells → IfOk result (Finds mapsize_row (V.PageView.image view.old) maps.now) }
{
    let Some(n) = page_at(maps.block_map.as_slice(), maps.blocks, 0) else {
        return Ok(bad_size(0, 0, maps.blocks));
    };
    match view.page(n) {
        Ok(page) => Ok(bad_size(n, get_u64(page.bytes(), 0), maps.blocks)),
        Err(e) => Err(e),
    }
}

fn bad_size(page: u32, value: u64, blocks: u32) -> Option<BadMount>
    ensures { result ≡ (if value == blocks then None else Some (record { rule = Mapsize; page = page; value = value })) }
{
    if value == u64::from(blocks) {
        return None;
    }
    Some(BadMount {
        rule: Rule::Mapsize,
        page,
        value,
    })
}

/// There are 1 to 65,536 IAGs.
pub(crate) fn bad_nextiag(maps: &Maps) -> Option<BadMount>
    ensures finds { (s : Subject) → AreRead s maps.now → result ≡ broken (nextiag_row s) }
    ensures few { result ≡ None → maps.now.inodes.iags ≤ 65536 }
{
    let iags = maps.inodes.iags;
    if iags >= 1 && iags <= MOST_IAGS {
        return None;
    }
    Some(BadMount {
        rule: Rule::Nextiag,
        page: page_or_zero(maps.inodes.extents.as_slice(), maps.blocks, 0),
        value: u64::from(iags),
    })
}
