//! The shape of allocation groups of many sizes on the map's control page, worked out by hand.

ghost use Rattle.std.specs.Prelude.{◌<◌, ◌≤◌};

use crate::volume::map_in_groups;
use jfs_disk::Page;
use jfs_dmapctl::{MapControl, read_map_control};
use std::alloc::{AllocError, Global};

/// A volume's blocks, all of them free, and the l2 of a group's; then the page's numbers: the blocks of a group; numag, maxag, aglevel,
/// agheight, agwidth, agstart; and the free blocks of the first three groups.
type Groups = (u32, u32, u64, [u32; 6], [u64; 3]);

static ROWS: [Groups; 12] = [
    (4096, 13, 8192, [1, 0, 0, 0, 1, 341], [4096, 0, 0]),
    (8192, 13, 8192, [1, 0, 0, 0, 1, 341], [8192, 0, 0]),
    (8193, 13, 8192, [2, 1, 0, 0, 1, 341], [8192, 1, 0]),
    (20000, 13, 8192, [3, 2, 0, 0, 1, 341], [8192, 8192, 3616]),
    (20000, 14, 16384, [2, 1, 0, 0, 2, 341], [16384, 3616, 0]),
    (20000, 15, 32768, [1, 0, 0, 1, 1, 85], [20000, 0, 0]),
    (20000, 20, 1048576, [1, 0, 0, 3, 2, 5], [20000, 0, 0]),
    (20000, 22, 4194304, [1, 0, 0, 4, 2, 1], [20000, 0, 0]),
    (20000, 23, 8388608, [1, 0, 0, 5, 1, 0], [20000, 0, 0]),
    (20000, 24, 16777216, [1, 0, 1, 0, 2, 341], [20000, 0, 0]),
    (20000, 30, 1073741824, [1, 0, 1, 3, 2, 5], [20000, 0, 0]),
    (4096, 31, 2147483648, [1, 0, 1, 4, 1, 1], [4096, 0, 0]),
];

/// The numbers of the map's control page of a volume whose blocks are all free.
fn numbers_of(alloc: Global, blocks: u32, l2: u32) -> Result<MapControl, AllocError>
    requires some { 0 < blocks }
    requires most { blocks ≤ 20000 }
    requires least { 13 ≤ l2 }
    requires greatest { l2 < 32 }
{
    let map = map_in_groups(alloc, [0u8; 2500].as_slice(), blocks, l2)?;
    let mut page = Page([0x55; 4096]);
    map.write_page(0, &mut page);
    Ok(read_map_control(&page))
}

/// Whether the free blocks of the groups are these, and of all others none.
fn are_free(agfree: &[u64; 128], free: &[u64; 3]) -> bool {
    for k in 0..128 {
        if agfree[k] != free.get(k).copied().unwrap_or(0) {
            return false;
        }
    }
    true
}

fn shape_of(numbers: &MapControl) -> [u32; 6] {
    [
        numbers.numag,
        numbers.maxag,
        numbers.aglevel,
        numbers.agheight,
        numbers.agwidth,
        numbers.agstart,
    ]
}

/// Whether the control page has these numbers; nothing where the row is of no such volume, or there is no memory.
fn is_so(alloc: Global, row: &Groups) -> Option<bool> {
    let (blocks, l2, agsize, shape, free) = row;
    let (blocks, l2) = (*blocks, *l2);
    if blocks < 1 || 20000 < blocks || l2 < 13 || 32 <= l2 {
        return None;
    }
    let numbers = numbers_of(alloc, blocks, l2).ok()?;
    let is_size = numbers.agl2size == l2 && numbers.agsize == *agsize;
    Some(is_size && shape_of(&numbers) == *shape && are_free(&numbers.agfree, free))
}

#[test]
fn groups_of_many_sizes(rt: HostRuntime) {
    for row in ROWS.iter() {
        assert!(rt; is_so(rt.alloc(), row) == Some(true), "{row:?}");
    }
}
