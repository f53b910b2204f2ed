//! Which map an entry changes.

ghost use Rattle.std.specs.Prelude.{◌≡◌, ◌||◌, ◌==◌, not, length, is_some};
ghost use Rattle.jfs_volume.specs.Stale.{changes_blocks, changes_inodes, stale_after};

use crate::draft::Draft;
use jfs_map_files::{MapFiles, Maps};
use jfs_marks::InodeMarks;

/// The files of the maps that an entry changes get stale: the block map's where it takes or frees a run, the inode map's where it has a mark.
pub(crate) fn mark_files(files: &mut MapFiles, draft: &Draft, marks: InodeMarks)
    ensures { files.new ≡ stale_after draft.now.taken draft.now.freed marks files.old }
{
    if !draft.taken.is_empty() || !draft.freed.is_empty() {
        files.blocks.mark_stale();
    }
    if marks.extent.is_some() || marks.taken.is_some() || marks.freed.is_some() {
        files.inodes.mark_stale();
    }
}
