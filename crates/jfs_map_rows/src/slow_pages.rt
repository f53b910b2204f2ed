//! The pages that a block map writes, beside those of the plain slow map.

ghost use Rattle.std.specs.Prelude.{◌<◌, ◌≤◌, ℕ, IfSome};
ghost use Rattle.jfs_dmapctl.specs.Control.{value_at, IsValue};

use crate::slow::State;
use jfs_bits::set_run;
use jfs_bmap::BlockMap;
use jfs_disk::Page;
use jfs_dmap::{dmap_canonical, dmap_root};
use jfs_dmapctl::{ctl_canonical, read_map_control};

pub const BLOCKS: u32 = 20000;

/// Page `n` of the map, written over other bytes.
fn page_of(map: &BlockMap, n: u32) -> Page {
    let mut page = Page([0x55; 4096]);
    map.write_page(n, &mut page);
    page
}

pub fn same_pages(one: &Page, other: &Page) -> bool {
    for at in 0..4096 {
        if one.0[at] != other.0[at] {
            return false;
        }
    }
    true
}

/// The root of the canonical dmap `k` of a set, where the map writes that page.
fn canonical_root(map: &BlockMap, bits: &[u8; 3072], k: u32) -> Option<i8>
    requires { k < 3 }
    ensures { IfSome result (IsValue 0) }
{
    let mut wanted = Page::zeros();
    let at = 1024 * k as usize;
    let blocks = (BLOCKS - 8192 * k).min(8192);
    dmap_canonical(
        &bits[at..at + 1024],
        8192 * u64::from(k),
        blocks,
        &mut wanted,
    );
    if same_pages(&page_of(map, 4 + k), &wanted) {
        Some(dmap_root(&wanted))
    } else {
        None
    }
}

/// Gives a leaf a value.
fn put_leaf(leaves: &mut [i8; 1024], k: usize, value: i8)
    requires place { k < 1024 }
    requires value { IsValue 0 value }
    requires values { (v : ℕ) → IsValue 0 (value_at leaves.old v) }
    ensures { (v : ℕ) → IsValue 0 (value_at leaves.new v) }
{
    leaves[k] = value;
}

/// Whether the pages that the map writes are the canonical ones of the owned blocks.
pub fn are_canonical(map: &BlockMap, states: &[State]) -> bool {
    let mut bits = [0u8; 3072];
    for b in 0..BLOCKS {
        if let Some(State::Owned) = states.get(b as usize) {
            set_run(&mut bits, b, 1);
        }
    }
    let mut leaves = no_leaves();
    for k in 0..3u32 {
        match canonical_root(map, &bits, k) {
            Some(root) => put_leaf(&mut leaves, k as usize, root),
            None => return false,
        }
    }
    let mut wanted = Page::zeros();
    ctl_canonical(&leaves, 0, &mut wanted);
    let root = wanted.0[17].cast_signed();
    same_pages(&page_of(map, 3), &wanted)
        && is_first_page(map, states, root)
        && is_unused(map, 1, 2)
        && is_unused(map, 2, 1)
        && is_past_the_last(map)
}

/// Leaves without a free block.
fn no_leaves() -> [i8; 1024]
    ensures { (level v : ℕ) → IsValue level (value_at result v) }
{
    [-1; 1024]
}

/// Whether page `n` is the control page of a level that isn't in use.
fn is_unused(map: &BlockMap, n: u32, level: u32) -> bool
    requires { level ≤ 2 }
{
    let mut wanted = Page::zeros();
    ctl_canonical(&no_leaves(), level, &mut wanted);
    same_pages(&page_of(map, n), &wanted)
}

/// Whether the page past the last dmap has no block.
fn is_past_the_last(map: &BlockMap) -> bool {
    let mut wanted = Page::zeros();
    dmap_canonical(&[0; 1024], 24576, 0, &mut wanted);
    same_pages(&page_of(map, 7), &wanted)
}

/// Whether the map's control page has the numbers of these blocks, and zeros behind them.
fn is_first_page(map: &BlockMap, states: &[State], root: i8) -> bool {
    let page = page_of(map, 0);
    for at in 1089..4096 {
        if page.0[at] != 0 {
            return false;
        }
    }
    let numbers = read_map_control(&page);
    let mut groups = [0u64; 128];
    let mut free = 0u64;
    for b in 0..states.len() {
        if states[b] != State::Owned {
            groups[(b / 8192) % 128] = groups[(b / 8192) % 128].saturating_add(1);
            free = free.saturating_add(1);
        }
    }
    for k in 0..128 {
        if numbers.agfree[k] != groups[k] {
            return false;
        }
    }
    let shape = [
        numbers.l2nbperpage,
        numbers.numag,
        numbers.maxlevel,
        numbers.maxag,
        numbers.agpref,
        numbers.aglevel,
        numbers.agheight,
        numbers.agwidth,
        numbers.agstart,
        numbers.agl2size,
    ];
    numbers.mapsize == 20000
        && numbers.nfree == free
        && numbers.agsize == 8192
        && numbers.maxfreebud == root
        && shape == [0, 3, 0, 2, 0, 0, 0, 1, 341, 13]
}
