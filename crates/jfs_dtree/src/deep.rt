//! Whether a directory's tree can take one name more.

ghost use Rattle.std.specs.Prelude.{◌≡◌, ◌<◌, List, length, IfOk};
ghost use Rattle.jfs_disk.specs.Image.{page_of};
ghost use Rattle.jfs_ranges.specs.View.{CarriesCount};
ghost use Rattle.jfs_dtree.specs.Room.{DeepIs, TightFrom, deep_on_way, tight_below};

use crate::entry::DirEntry;
use crate::lead::way_of;
use jfs_dtpage::{DtForm, free_of};
use jfs_ranges::{PageView, ViewError};
use jfs_tree::Way;

/// The slots that a longest name takes.
const MOST_SLOTS: u8 = 18;

/// Whether the tree of a root, which has these 288 bytes, has 8 levels, and each page below the root on the name's way has too few free slots for a longest name. It reads
/// one page a level, down to the first one that has enough.
pub(crate) fn is_deep<V: PageView>(
    view: &mut V,
    root: &[u8],
    x: &DirEntry,
    blocks: u32,
) -> Result<bool, ViewError>
    requires root { length root.now ≡ 288 }
    requires bound { blocks ≡ V.PageView.block_count view.old }
    ensures image { V.PageView.tells → V.PageView.image view.new ≡ V.PageView.image view.old }
    ensures count_of_blocks { V.PageView.block_count view.new ≡ V.PageView.block_count view.old }
    ensures device { V.PageView.device view.new ≡ V.PageView.device view.old }
    ensures fault { CarriesCount (V.PageView.faults view.old) (V.PageView.faults view.new) result }
    ensures deep { V.PageView.tells → IfOk result (DeepIs blocks (page_of (V.PageView.image view.old)) root.now x.now.name) }
    ensures tight { V.PageView.tells → IfOk result (TightFrom blocks (page_of (V.PageView.image view.old)) root.now x.now.name) }
    ensures on_way { V.PageView.tells → IfOk result (λ deep. deep ≡ deep_on_way blocks (page_of (V.PageView.image view.old)) root.now x.now.name) }
{
    match way_of(root, DtForm::Root, blocks, x) {
        Ok(
            Way::Down {
                place: _,
                page,
                last: _,
            },
        ) => is_deep_below(view, blocks, 7, page, x),
        Ok(Way::Here) => Ok(false),
        Err(_) => Ok(false),
    }
}

/// Whether the way from a page on has so many pages, each with too few free slots.
fn is_deep_below<V: PageView>(
    view: &mut V,
    blocks: u32,
    left: u32,
    page: u32,
    x: &DirEntry,
) -> Result<bool, ViewError>
    requires page { page < V.PageView.block_count view.old }
    requires bound { blocks ≡ V.PageView.block_count view.old }
    ensures image { V.PageView.tells → V.PageView.image view.new ≡ V.PageView.image view.old }
    ensures count_of_blocks { V.PageView.block_count view.new ≡ V.PageView.block_count view.old }
    ensures device { V.PageView.device view.new ≡ V.PageView.device view.old }
    ensures fault { CarriesCount (V.PageView.faults view.old) (V.PageView.faults view.new) result }
    ensures tight { V.PageView.tells → IfOk result (λ deep. tight_below blocks (page_of (V.PageView.image view.old)) x.now.name left page ≡ deep) }
{
    if left == 0 {
        return Ok(false);
    }
    let bytes = match view.page(page) {
        Ok(bytes) => bytes,
        Err(e) => return Err(e),
    };
    if free_of(bytes.bytes()) >= MOST_SLOTS {
        return Ok(false);
    }
    match way_of(bytes.bytes(), DtForm::Full, blocks, x) {
        Err(_) => Ok(false),
        Ok(Way::Here) => Ok(left == 1),
        Ok(
            Way::Down {
                place: _,
                page: child,
                last: _,
            },
        ) => is_deep_below(view, blocks, left - 1, child, x),
    }
}
