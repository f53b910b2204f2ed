//! The blocks of a file in their order.

ghost use Rattle.std.specs.Prelude.{◌≡◌, ◌≤◌, ◌<◌, ◌+◌, ℕ, true, false, nat_le, is_some, unwrap_or};
ghost use Rattle.std.specs.List.{range_with_len, prefix_len};
ghost use Rattle.jfs_reader.specs.xtree.specs.Node.{is_within, all_within};
ghost use Rattle.jfs_reader.specs.objects.specs.Contents.{block_in, block_of};
ghost use Rattle.jfs_reader.specs.Reading.{IsBelow};
ghost use Rattle.jfs_mount.specs.Files.{IsWithin, EndsBehind, IsRun};

use jfs_bits::Xad;
use jfs_reader::page_of_block;

/// The page of block `j`, where the file has one.
pub(crate) fn page_at(extents: &[Xad], blocks: u32, j: u64) -> Option<u32>
    requires { IsWithin blocks (block_of extents.now j) }
    ensures page { result ≡ block_of extents.now j }
    ensures below { IsBelow blocks result }
{
    match page_of_block(extents, blocks, j) {
        Ok(page) => page,
        Err(_) => unreachable!(),
    }
}

/// The page of block `j`, or 0.
pub(crate) fn page_or_zero(extents: &[Xad], blocks: u32, j: u64) -> u32
    requires { IsWithin blocks (block_of extents.now j) }
    ensures { result ≡ unwrap_or (block_of extents.now j) 0 }
{
    match page_at(extents, blocks, j) {
        Some(page) => page,
        None => 0,
    }
}

/// The extents of a file without the first ones that end at or before its block `j`: each block from `j` on stands where it stood. A caller that asks for blocks in
/// rising order, each time of the extents that were given last, passes each extent once. The first one given ends behind block `j`, and may begin behind it.
pub fn from_block(extents: &[Xad], j: u64) -> &[Xad]
    ensures same { (k : ℕ) → j ≤ k → block_of result.now k ≡ block_of extents.now k }
    ensures behind { EndsBehind j result.now }
{
    for (i, x) in extents.iter().enumerate() {
        if !ends_by(x, j) {
            return &extents[i..];
        }
    }
    &extents[extents.len()..]
}

/// Whether the extent ends at or before block `j` of the file.
fn ends_by(x: &Xad, j: u64) -> bool
    ensures { result ≡ nat_le (x.now.offset + x.now.at.len) j }
{
    let offset = x.offset;
    let len = u64::from(x.at.len);
    offset <= j && len <= j - offset
}

/// How many of a file's first `n` blocks stand on a page, up to the first one that doesn't. It goes by runs of blocks, since a few extents of a broken
/// volume may claim 2^32 blocks.
pub(crate) fn covered(extents: &[Xad], n: u64) -> u64
    ensures { result ≡ prefix_len (λ j. is_some (block_of extents.now j)) (range_with_len 0 n) }
{
    let mut rest = extents;
    let mut j = 0;
    while j < n {
        rest = from_block(rest, j);
        let run = run_at(rest, j, n - j);
        if run == 0 {
            return j;
        }
        j += run;
    }
    n
}

/// A number of blocks from `j` on that all stand on pages, at most `most`; 0 where block `j` stands on none. It ends with the extent that has block `j`, or before,
/// where an extent begins that stands before that one in the list.
fn run_at(extents: &[Xad], j: u64, most: u64) -> u64
    requires { 0 < most }
    ensures run { IsRun extents.now j result }
    ensures most { result ≤ most }
{
    let mut limit = most;
    for x in extents {
        let offset = x.offset;
        if offset > j {
            limit = limit.min(offset - j);
        } else if !ends_by(x, j) {
            return run_in(x, j, limit);
        }
    }
    0
}

/// How many blocks the extent has from its block `j` on, at most `most`; none where it isn't recorded.
fn run_in(x: &Xad, j: u64, most: u64) -> u64
    requires some { 0 < most }
    requires from { x.now.offset ≤ j }
    requires to { j < x.now.offset + x.now.at.len }
    ensures stand { (k : ℕ) → j ≤ k → k < j + result → is_some (block_in x.now k) ≡ true }
    ensures none { result ≡ 0 → is_some (block_in x.now j) ≡ false }
    ensures within { j + result ≤ x.now.offset + x.now.at.len }
    ensures most { result ≤ most }
{
    let flag = x.flag;
    let len = u64::from(x.at.len);
    let into = j - x.offset;
    if flag & Xad::NOT_RECORDED == Xad::NOT_RECORDED {
        return 0;
    }
    most.min(len - into)
}

/// Whether all extents lie within so many blocks.
pub(crate) fn all_within(extents: &[Xad], blocks: u32) -> bool
    ensures { result ≡ all_within blocks extents.now }
{
    for x in extents {
        if !is_within(x, blocks) {
            return false;
        }
    }
    true
}

fn is_within(x: &Xad, blocks: u32) -> bool
    ensures { result ≡ is_within blocks x.now }
{
    let addr = x.at.addr;
    let len = u64::from(x.at.len);
    len >= 1 && ends_within(addr, len, u64::from(blocks))
}

/// Whether a run of blocks ends within so many.
pub(crate) fn ends_within(addr: u64, len: u64, blocks: u64) -> bool
    ensures { result ≡ nat_le (addr + len) blocks }
{
    addr <= blocks && len <= blocks - addr
}
