//! The bytes of an inode's blocks.

ghost use Rattle.std.specs.Prelude.{◌≡◌, ◌≤◌, ◌<◌, ◌+◌, ◌^◌, IfErr};
ghost use Rattle.jfs_disk.specs.Image.{page_of};
ghost use Rattle.jfs_way.specs.Answer.{Carries, Answers};
ghost use Rattle.jfs_read.specs.Read.{stored_on, OpenWhereSpelled};

use crate::block::push_part;
use jfs_bits::Blob;
use jfs_plain::Refusal;
use jfs_ranges::PageView;
use jfs_way::Held;
use std::alloc::Global;

/// So many bytes of a file, or of a long symbolic link, from an offset on, wherever its inode says that it ends: zeros in a hole, in an extent that isn't recorded and
/// past the last extent. `Damaged` names the first page on the ways to their blocks that breaks a rule.
pub fn stored_bytes<V: PageView>(
    alloc: Global,
    view: &mut V,
    at: &Held,
    offset: u64,
    count: u32,
) -> Result<Blob, Refusal>
    requires fits { offset + count < 2 ^ 64 }
    ensures image { V.PageView.tells → V.PageView.image view.new ≡ V.PageView.image view.old }
    ensures count_of_blocks { V.PageView.block_count view.new ≡ V.PageView.block_count view.old }
    ensures device { V.PageView.device view.new ≡ V.PageView.device view.old }
    ensures fault { Carries (V.PageView.faults view.old) (V.PageView.faults view.new) result }
    ensures meets { V.PageView.tells → Answers (stored_on (V.PageView.block_count view.old) (page_of (V.PageView.image view.old)) at.now offset count) result }
    // Where the root spells extents, nothing is damaged.
    ensures sound { V.PageView.tells → IfErr result (OpenWhereSpelled (V.PageView.block_count view.old) (page_of (V.PageView.image view.old)) at.now.inode) }
{
    let mut bytes = Blob::new(alloc);
    let mut done = 0;
    while done < count {
        let i = offset + u64::from(done);
        let part = (4096 - (i % 4096) as u32).min(count - done);
        match push_part(view, at, i, part as usize, &mut bytes) {
            Ok(()) => {}
            Err(e) => return Err(e),
        }
        done += part;
    }
    Ok(bytes)
}
