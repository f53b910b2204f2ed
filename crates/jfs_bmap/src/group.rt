//! The numbers of the map's control page, most of them of its allocation groups.

ghost use Rattle.std.specs.Prelude.{◌≡◌, ◌<◌, ◌≤◌, ◌+◌, ◌-◌, ◌*◌, ◌/◌, ◌%◌, not, length, slice_index, ℕ, Bool};
ghost use Rattle.jfs_bits.specs.Bits.{greatest_run, count_below};
ghost use Rattle.jfs_bmap.specs.Set.{taken_at};
ghost use Rattle.jfs_bmap.specs.MapFile.{AreGroups, IsMapControlOf};
ghost use Rattle.jfs_bmap.specs.Pages.{leaf_ranks};
ghost use Rattle.jfs_dmapctl.specs.Control.{IsControl};
ghost use Rattle.jfs_buddy.specs.Tree.{first_of};

use crate::map_pages::MapPages;
use jfs_disk::Page;
use jfs_dmap::dmap_free;
use jfs_dmapctl::{MapControl, ctl_root};

/// The numbers of the control page of a map of so many blocks in groups of `agsize`: of which so many are free, so many of each
/// group, and with that l2 of the greatest free aligned run.
pub fn map_numbers(
    blocks: u32,
    agsize: u32,
    free: u32,
    agfree: [u64; 128],
    maxfreebud: i8,
) -> MapControl
    requires { AreGroups blocks agsize }
    ensures { (taken : ℕ → Bool) → free ≡ count_below blocks (λ b. not (taken b))
        → ((k : ℕ) → k < 128 → slice_index agfree k ≡ count_below agsize (λ i. not (taken (agsize * k + i))))
        → maxfreebud ≡ greatest_run taken 23 23 → IsMapControlOf blocks agsize taken result }
{
    let agl2size = agsize.ilog2();
    let aglevel = if agl2size <= 23 { 0 } else { 1 };
    let l2_leaves = agl2size - 13 - 10 * aglevel;
    let numag = blocks.div_ceil(agsize);
    MapControl {
        mapsize: u64::from(blocks),
        nfree: u64::from(free),
        l2nbperpage: 0,
        numag,
        maxlevel: 0,
        maxag: numag - 1,
        agpref: 0,
        aglevel,
        agheight: l2_leaves / 2,
        agwidth: 1 << (l2_leaves % 2),
        agstart: first_of_level(5 - l2_leaves / 2),
        agl2size,
        agfree,
        agsize: u64::from(agsize),
        maxfreebud,
    }
}

/// The l2 of the greatest free aligned run, -1 where no block is free, by the control page of level 0.
pub fn greatest_run_under(control: &Page) -> i8
    ensures { (taken : ℕ → Bool) → IsControl 0 (leaf_ranks taken) control.now.0 → result ≡ greatest_run taken 23 23 }
{
    ctl_root(control)
}

impl MapPages {
    /// The numbers of the map's control page.
    pub fn numbers(&self, agsize: u32) -> MapControl
        requires { AreGroups (length self.now) agsize }
        ensures { IsMapControlOf (length self.now) agsize (taken_at self.now) result }
    {
        map_numbers(
            self.blocks(),
            agsize,
            self.free(),
            self.free_of_groups(agsize),
            self.greatest_run(),
        )
    }

    /// The number of free blocks of each group.
    fn free_of_groups(&self, agsize: u32) -> [u64; 128]
        requires { AreGroups (length self.now) agsize }
        ensures { (k : ℕ) → k < 128 → slice_index result k ≡ count_below agsize (λ i. not (taken_at self.now (agsize * k + i))) }
    {
        let dmaps_of_group = (agsize / 8192) as usize;
        let mut groups = [0u64; 128];
        for k in 0..self.dmaps.len() {
            groups[k / dmaps_of_group] += u64::from(dmap_free(&self.dmaps[k]));
        }
        groups
    }

    /// The l2 of the greatest free aligned run, -1 where no block is free.
    fn greatest_run(&self) -> i8
        ensures { result ≡ greatest_run (taken_at self.now) 23 23 }
    {
        greatest_run_under(&self.control)
    }
}

/// The first of the nodes that stand so many levels below a root: the sum of so many powers of 4.
fn first_of_level(depth: u32) -> u32
    requires { depth ≤ 5 }
    ensures { result ≡ first_of depth }
{
    let mut first = 0;
    for _level in 0..depth {
        first = 4 * first + 1;
    }
    first
}
