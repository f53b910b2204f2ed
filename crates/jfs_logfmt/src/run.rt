//! Runs of blocks in records.

ghost use Rattle.std.specs.Prelude.{◌≡◌, ◌+◌, ◌*◌, ◌≤◌, ◌&&◌, nat_lt, nat_le, length, IfOk};
ghost use Rattle.std.specs.List.{list_all};
ghost use Rattle.jfs_bits.specs.Descriptor.{FitsPxd};
ghost use Rattle.jfs_logfmt.specs.Text.{runs_of};
ghost use Rattle.jfs_logfmt.specs.Rules.{is_inside, is_page};

use jfs_bits::{Pxd, PxdList, get_pxd};
use std::alloc::{AllocError, Global};

/// Whether the run lies within so many blocks; an empty one has its address there.
pub fn lies_inside(blocks: u32, at: Pxd) -> bool
    requires { FitsPxd at }
    ensures { result ≡ is_inside blocks at }
{
    let blocks = u64::from(blocks);
    at.addr < blocks && at.addr + u64::from(at.len) <= blocks
}

/// Whether the run is of pages that records may change.
pub fn is_of_pages(blocks: u32, at: Pxd) -> bool
    requires { FitsPxd at }
    ensures { result ≡ is_page blocks at }
{
    16 <= at.addr && lies_inside(blocks, at)
}

/// So many runs from the start of the data on.
pub fn read_runs(alloc: Global, body: &[u8], count: u16) -> Result<PxdList, AllocError>
    requires { 8 * count ≤ length body.now }
    ensures { IfOk result (λ list. list ≡ runs_of body.now 0 count) }
{
    let mut list = PxdList::new(alloc);
    for i in 0..usize::from(count) {
        list.push(get_pxd(body, 8 * i))?;
    }
    Ok(list)
}

/// Whether all runs lie within so many blocks.
pub fn all_inside(blocks: u32, body: &[u8], count: u16) -> bool
    requires { 8 * count ≤ length body.now }
    ensures { result ≡ list_all (is_inside blocks) (runs_of body.now 0 count) }
{
    for i in 0..usize::from(count) {
        if !lies_inside(blocks, get_pxd(body, 8 * i)) {
            return false;
        }
    }
    true
}
