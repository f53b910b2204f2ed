//! The room that a directory has for a name.

ghost use Rattle.std.specs.Prelude.{◌≡◌, ◌≤◌, length, IfOk};
ghost use Rattle.jfs_disk.specs.Image.{page_of};
ghost use Rattle.jfs_ranges.specs.View.{CarriesCount};
ghost use Rattle.jfs_dtree.specs.Room.{DeepIs, deep_on_way};

use crate::deep;
use crate::entry::DirEntry;
use jfs_name::Name;
use jfs_ranges::{PageView, ViewError};

/// Whether a directory, whose root has these 288 bytes, is too deep for a name of at most 255 units: `add` refuses a new name so exactly then. The name's way has
/// 7 pages below the root, and each has fewer than 18 free slots. It reads one page a level, down to the first one that has enough; a way that breaks a rule isn't
/// too deep. An error is one of the view alone.
pub fn is_deep<V: PageView>(view: &mut V, root: &[u8], name: &Name) -> Result<bool, ViewError>
    requires root { length root.now ≡ 288 }
    requires name { length name.now ≤ 255 }
    ensures image { V.PageView.tells → V.PageView.image view.new ≡ V.PageView.image view.old }
    ensures count_of_blocks { V.PageView.block_count view.new ≡ V.PageView.block_count view.old }
    ensures device { V.PageView.device view.new ≡ V.PageView.device view.old }
    ensures fault { CarriesCount (V.PageView.faults view.old) (V.PageView.faults view.new) result }
    ensures deep { V.PageView.tells → IfOk result (DeepIs (V.PageView.block_count view.old) (page_of (V.PageView.image view.old)) root.now name.now) }
    ensures on_way { V.PageView.tells → IfOk result (λ deep. deep ≡ deep_on_way (V.PageView.block_count view.old) (page_of (V.PageView.image view.old)) root.now name.now) }
{
    let blocks = view.blocks();
    let x = DirEntry::new(name.as_slice(), 0);
    deep::is_deep(view, root, &x, blocks)
}
