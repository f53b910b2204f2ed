//! Whether there is room for a new name.

ghost use Rattle.std.specs.Prelude.{◌≡◌, ◌≤◌, true, length};
ghost use Rattle.jfs_disk.specs.Image.{page_of};
ghost use Rattle.jfs_link.specs.objects.specs.Objects.{has_names};
ghost use Rattle.jfs_link.specs.way.specs.Answer.{Carries, Answers};
ghost use Rattle.jfs_link.specs.way.specs.Walk.{IsHeld, IsShown, IsThere};
ghost use Rattle.jfs_link.specs.Link.{IfConsistentBy};
ghost use Rattle.jfs_rename.specs.Asks.{room_for, TellsRoom};

use jfs_bmap::BlockMap;
use jfs_dtree::is_deep;
use jfs_link::claim::look_for_space;
use jfs_link::reader::root_in;
use jfs_link::way::Held;
use jfs_name::Name;
use jfs_plain::Refusal;
use jfs_ranges::{PageView, ViewError};

/// The blocks that a name may need.
const NEED: u32 = 8;

/// Whether a directory may get a name of at most 255 units: `NoSpace` where fewer than 8 blocks have no owner beside the 64 that are always kept; `TooDeep` where its tree can't take the name.
pub fn check_room<V: PageView>(
    view: &mut V,
    blocks: &BlockMap,
    target: &Held,
    name: &Name,
) -> Result<(), Refusal>
    requires name { length name.now ≤ 255 }
    requires size { length blocks.now.states ≡ V.PageView.block_count view.old }
    ensures image { V.PageView.tells → V.PageView.image view.new ≡ V.PageView.image view.old }
    ensures count_of_blocks { V.PageView.block_count view.new ≡ V.PageView.block_count view.old }
    ensures device { V.PageView.device view.new ≡ V.PageView.device view.old }
    ensures fault { Carries (V.PageView.faults view.old) (V.PageView.faults view.new) result }
    // On a consistent volume whose directory it is, it is what the room tells.
    ensures room { V.PageView.tells → TellsRoom (V.PageView.block_count view.old) (page_of (V.PageView.image view.old)) blocks.now target.now name.now result }
    ensures meets { V.PageView.tells → Answers (room_for (V.PageView.block_count view.old) (page_of (V.PageView.image view.old)) blocks.now target.now name.now) result }
{
    match look_for_space(blocks, NEED) {
        Ok(()) => {}
        Err(e) => return Err(e),
    }
    match is_deep(view, root_in(&target.inode), name) {
        Ok(false) => Ok(()),
        Ok(true) => Err(Refusal::TooDeep {
            inode: target.number,
        }),
        Err(ViewError::Read(fault)) => Err(Refusal::IoFault { fault }),
        Err(ViewError::Memory) => Err(Refusal::OutOfMemory),
    }
}
