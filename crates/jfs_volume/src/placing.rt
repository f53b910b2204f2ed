//! Blocks that data is to go into.

ghost use Rattle.std.specs.Prelude.{◌≡◌, ◌<◌, ◌||◌, length};
ghost use Rattle.jfs_bits.specs.Bits.{is_in_run};
ghost use Rattle.jfs_bmap.specs.States.{is_in_list, is_owned};
ghost use Rattle.jfs_marks.specs.data_steps.specs.After.{LieWithin};
ghost use Rattle.jfs_volume.specs.Called.{have_places};

use jfs_bits::Pxd;
use jfs_bmap::BlockMap;
use jfs_disk::Page;
use jfs_dmap::dmap_is_taken;
use jfs_marks::data_steps::DataList;

/// Whether each of these pages is to go into a block of these runs, or into one that has an owner. It takes no memory.
pub(crate) fn have_places(blocks: &BlockMap, taken: &[Pxd], pages: &DataList) -> bool
    requires { LieWithin (length blocks.now.states) pages.now }
    ensures { result ≡ have_places blocks.now taken.now pages.now }
{
    for page in pages.as_slice() {
        if !has_place(blocks, taken, page.block) {
            return false;
        }
    }
    true
}

/// The same of the block of one page.
fn has_place(blocks: &BlockMap, taken: &[Pxd], b: u32) -> bool
    requires { b < length blocks.now.states }
    ensures { result ≡ (is_in_list taken.now b || is_owned blocks.now b) }
{
    is_in_list(taken, b) || is_owned(blocks, b)
}

/// Whether a block is in one of these runs.
fn is_in_list(runs: &[Pxd], b: u32) -> bool
    ensures { result ≡ is_in_list runs.now b }
{
    for run in runs {
        if is_in_run(run, b) {
            return true;
        }
    }
    false
}

fn is_in_run(run: &Pxd, b: u32) -> bool
    ensures { result ≡ is_in_run run.now.addr run.now.len b }
{
    let (first, n) = (run.addr, run.len);
    let at = u64::from(b);
    first <= at && at - first < u64::from(n)
}

/// Whether a block has an owner, as the page of the map's file tells that has its bit.
fn is_owned(blocks: &BlockMap, b: u32) -> bool
    requires { b < length blocks.now.states }
    ensures { result ≡ is_owned blocks.now b }
{
    let mut page = Page::zeros();
    blocks.write_page(4 + b / 8192, &mut page);
    dmap_is_taken(&page, b % 8192)
}
