//! Parts of extents, put behind others.

ghost use Rattle.std.specs.Prelude.{◌≡◌, ◌≤◌, ◌<◌, ◌+◌, ◌^◌, ◌==◌, ◌++◌, ◌∷◌, [], OnOk};
ghost use Rattle.std.specs.Option.{option_to_list};
ghost use Rattle.jfs_bits.specs.Extent.{FitsXad};
ghost use Rattle.jfs_xtpage.specs.Page.{end_of};
ghost use Rattle.jfs_xtree.specs.Cutting.{kept_below};
ghost use Rattle.jfs_xtree.specs.Writing.{kept_from, continues, merged, joined};
ghost use Rattle.jfs_written.specs.Walk.{all_joined};

use jfs_bits::{Pxd, Xad};
use std::alloc::AllocError;

/// Pushes what an extent has from a block of its file on and below another.
pub(crate) fn push_part(list: &mut Vec<Xad>, x: &Xad, from: u64, to: u64) -> Result<(), AllocError>
    requires fits { FitsXad x.now }
    requires some { 1 ≤ x.now.at.len }
    ensures { OnOk result (list.new.items ≡ list.old.items ++ kept_below to (kept_from from (x.now ∷ []))) }
{
    if let Some(part) = part_of(x, from, to) {
        list.push(part)?;
    }
    Ok(())
}

/// Pushes the same in a hole: where it continues the recorded extent at the list's end, the two become one.
pub(crate) fn join_part(list: &mut Vec<Xad>, x: &Xad, from: u64, to: u64) -> Result<(), AllocError>
    requires fits { FitsXad x.now }
    requires some { 1 ≤ x.now.at.len }
    ensures { OnOk result (list.new.items ≡ all_joined list.old.items (kept_below to (kept_from from (x.now ∷ [])))) }
{
    match part_of(x, from, to) {
        Some(part) => push_joined(list, part),
        None => Ok(()),
    }
}

/// What an extent has from a block of its file on and below another.
fn part_of(x: &Xad, from: u64, to: u64) -> Option<Xad>
    requires fits { FitsXad x.now }
    requires some { 1 ≤ x.now.at.len }
    ensures { option_to_list result ≡ kept_below to (kept_from from (x.now ∷ [])) }
{
    let offset = x.offset;
    let addr = x.at.addr;
    let start = offset.max(from);
    let end = end_of(x).min(to);
    if start >= end {
        return None;
    }
    Some(Xad {
        flag: x.flag,
        offset: start,
        at: Pxd {
            len: (end - start) as u32,
            addr: addr + (start - offset),
        },
    })
}

/// Pushes an extent, or adds it to the recorded one at the list's end, where it continues that.
fn push_joined(list: &mut Vec<Xad>, x: Xad) -> Result<(), AllocError>
    ensures { OnOk result (list.new.items ≡ joined list.old.items x) }
{
    let Some(last) = list.pop() else {
        list.push(x)?;
        return Ok(());
    };
    if continues(&last, &x) {
        list.push(merged(&last, &x))?;
        return Ok(());
    }
    list.push(last)?;
    list.push(x)?;
    Ok(())
}

/// Whether an extent goes on where a recorded one ends, in the file and on the volume, and one entry has room for both.
fn continues(e: &Xad, x: &Xad) -> bool
    ensures { result ≡ continues e.now x.now }
{
    let blocks = u64::from(e.at.len);
    e.flag & Xad::NOT_RECORDED != Xad::NOT_RECORDED
        && is_next(e.offset, length_of(e), x.offset)
        && is_next(e.at.addr, blocks, x.at.addr)
        && blocks + u64::from(x.at.len) < 1 << 24
}

/// Whether a block is the next one behind others.
fn is_next(first: u64, blocks: u64, block: u64) -> bool
    ensures { result ≡ (first + blocks == block) }
{
    block >= first && block - first == blocks
}

fn merged(e: &Xad, x: &Xad) -> Xad
    requires room { e.now.at.len + x.now.at.len < 2 ^ 24 }
    ensures { result ≡ merged e.now x.now }
{
    Xad {
        flag: e.flag,
        offset: e.offset,
        at: Pxd {
            len: e.at.len + x.at.len,
            addr: e.at.addr,
        },
    }
}

/// The first block of the file behind an extent.
pub(crate) fn end_of(x: &Xad) -> u64
    requires { FitsXad x.now }
    ensures { result ≡ end_of x.now }
{
    let offset = x.offset;
    offset + length_of(x)
}

/// The blocks of its file that an extent takes.
fn length_of(x: &Xad) -> u64
    ensures { x.now.offset + result ≡ end_of x.now }
{
    let len = x.at.len;
    u64::from(if len == 0 { 1 } else { len })
}
