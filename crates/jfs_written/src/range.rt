//! A range that is written into a list of extents.

ghost use Rattle.std.specs.Prelude.{◌≡◌, ◌≤◌, ◌<◌, ◌++◌, true, length, take, OnOk, IfOk};
ghost use Rattle.std.specs.List.{All};
ghost use Rattle.jfs_bits.specs.Extent.{FitsXad};
ghost use Rattle.jfs_xtpage.specs.Page.{end_of, rises_from};
ghost use Rattle.jfs_xtree.specs.Cutting.{kept_below};
ghost use Rattle.jfs_xtree.specs.Writing.{kept_from, AllLong, AllTo};
ghost use Rattle.jfs_written.specs.Range.{with_range};
ghost use Rattle.jfs_written.specs.Walk.{all_joined, under};

use crate::parts::{end_of, join_part, push_part};
use jfs_bits::Xad;
use std::alloc::{AllocError, Global};

/// What a list of extents becomes once the blocks of a range, the extents `xs`, are written: `xs` stands in place of what the list had of these blocks, cut where an entry
/// begins or ends. An entry that reaches past the blocks keeps its other parts, and what is written into a hole is merged with a recorded left neighbour that it continues.
/// Both lists rise. It goes over each once.
pub fn written(alloc: Global, entries: &[Xad], xs: &[Xad]) -> Result<Vec<Xad>, AllocError>
    requires entries { All FitsXad entries.now }
    requires entries_long { AllLong entries.now }
    requires entries_rise { rises_from 0 entries.now ≡ true }
    requires range { All FitsXad xs.now }
    requires range_long { AllLong xs.now }
    requires range_rises { rises_from 0 xs.now ≡ true }
    ensures { IfOk result (λ list. list.items ≡ with_range xs.now entries.now) }
{
    let mut list = Vec::new(alloc);
    let mut next = 0;
    let mut from = 0;
    for e in entries {
        next = write_hole(&mut list, xs, next, from, e.offset)?;
        next = write_entry(&mut list, xs, next, e)?;
        from = end_of(e);
    }
    write_hole(&mut list, xs, next, from, u64::MAX)?;
    Ok(list)
}

/// Pushes what the range has in a hole between two blocks of the file. The range's extents before `next` end before it; the answer is the next one for what follows it.
fn write_hole(
    list: &mut Vec<Xad>,
    xs: &[Xad],
    next: usize,
    from: u64,
    to: u64,
) -> Result<usize, AllocError>
    requires range { All FitsXad xs.now }
    requires range_long { AllLong xs.now }
    requires range_rises { rises_from 0 xs.now ≡ true }
    requires next { next ≤ length xs.now }
    requires done { AllTo from (take next xs.now) }
    requires order { from ≤ to }
    ensures list { OnOk result (list.new.items ≡ all_joined list.old.items (kept_below to (kept_from from xs.now))) }
    ensures next { IfOk result (λ n. n ≤ length xs.now) }
    ensures done { IfOk result (λ n. AllTo to (take n xs.now)) }
{
    for i in next..xs.len() {
        let x = &xs[i];
        join_part(list, x, from, to)?;
        if end_of(x) > to {
            return Ok(i);
        }
    }
    Ok(xs.len())
}

/// Pushes an entry with what the range has in it. The range's extents before `next` end before the entry; the answer is the next one for what follows it.
fn write_entry(list: &mut Vec<Xad>, xs: &[Xad], next: usize, e: &Xad) -> Result<usize, AllocError>
    requires entry { FitsXad e.now }
    requires entry_long { 1 ≤ e.now.at.len }
    requires range { All FitsXad xs.now }
    requires range_long { AllLong xs.now }
    requires range_rises { rises_from 0 xs.now ≡ true }
    requires next { next ≤ length xs.now }
    requires done { AllTo e.now.offset (take next xs.now) }
    ensures list { OnOk result (list.new.items ≡ list.old.items ++ under 0 xs.now e.now) }
    ensures next { IfOk result (λ n. n ≤ length xs.now) }
    ensures done { IfOk result (λ n. AllTo (end_of e.now) (take n xs.now)) }
{
    let end = end_of(e);
    let mut from = 0;
    for i in next..xs.len() {
        let x = &xs[i];
        push_part(list, e, from, x.offset)?;
        push_part(list, x, e.offset, end)?;
        from = end_of(x);
        if from > end {
            return Ok(i);
        }
    }
    push_part(list, e, from, end)?;
    Ok(xs.len())
}
