//! The ranges of lines in a page's record.

ghost use Rattle.std.specs.Prelude.{◌≡◌, ℕ, ◌+◌, ◌*◌, ◌^◌, ◌<◌, ◌≤◌, ◌++◌, List, reverse, length, drop, IfOk, IfSome, IfNone};
ghost use Rattle.jfs_bits.specs.declared.list.LineRange.{LineRange};
ghost use Rattle.jfs_logfmt.specs.Text.{IsRangeText, SpellsRanges};
ghost use Rattle.jfs_logfmt.specs.Rules.{is_within, AreWithin, IfBad};

use crate::log_record::{RecordError, bad};
use jfs_bits::{Blob, LineRange, Ranges, Rule, get_u16};
use std::alloc::{AllocError, Global};

/// The bytes as a list.
fn blob_of(alloc: Global, bytes: &[u8]) -> Result<Blob, AllocError>
    ensures { IfOk result (λ b. b ≡ bytes.now) }
{
    let mut blob = Blob::new(alloc);
    blob.extend_from_slice(bytes)?;
    Ok(blob)
}

/// A range at the end of the data, and where it starts.
#[derive(Drop)]
struct Found {
    range: LineRange,
    start: usize,
}

/// The range that ends where the data ends, `None` exactly where there is none.
fn last_range(alloc: Global, body: &[u8], size: usize) -> Result<Option<Found>, AllocError>
    requires { size ≤ 128 }
    ensures found { IfOk result (λ o. IfSome o (λ x. (x.start + 4 ≤ length body.now) × IsRangeText size (drop x.start body.now) x.range)) }
    ensures fits { IfOk result (λ o. IfSome o (λ x. (x.range.first < 2 ^ 16) × (length x.range.bytes ≤ length body.now))) }
    ensures none { IfOk result (λ o. IfNone o ((front text : List ℕ) (r : LineRange) → body.now ≡ front ++ text → IsRangeText size text r → ⊥)) }
{
    if body.len() < 4 {
        return Ok(None);
    }
    let (front, place) = body.split_at(body.len() - 4);
    let first = u32::from(get_u16(place, 0));
    let bytes = usize::from(get_u16(place, 2)) * size;
    if front.len() < bytes {
        return Ok(None);
    }
    let start = front.len() - bytes;
    let (_, lines) = front.split_at(start);
    let bytes = blob_of(alloc, lines)?;
    Ok(Some(Found {
        range: LineRange { first, bytes },
        start,
    }))
}

/// Whether the range has a line and ends within so many pages.
fn lies_within(range: &LineRange, size: usize, pages: u32) -> bool
    requires size { size ≤ 128 }
    requires first { range.now.first < 2 ^ 16 }
    requires bytes { length range.now.bytes < 2 ^ 16 }
    ensures { result ≡ is_within size pages range.now }
{
    let bytes = range.bytes.len();
    0 < bytes && (range.first as usize) * size + bytes <= (pages as usize) * 4096
}

/// The ranges that fill the data, the last one first.
fn ranges_back(
    alloc: Global,
    body: &[u8],
    size: usize,
    pages: u32,
) -> Result<Vec<LineRange>, RecordError>
    requires size { size ≤ 128 }
    requires bytes { length body.now < 2 ^ 16 }
    ensures found { IfOk result (λ back. SpellsRanges size body.now (reverse back.items) × AreWithin size pages (reverse back.items)) }
    ensures bad { IfBad result (λ _. ((rs : List LineRange) × SpellsRanges size body.now rs × AreWithin size pages rs) → ⊥) }
    ensures rule { IfBad result (λ rule. rule ≡ Rule.Range) }
{
    let mut back = Vec::new(alloc);
    let mut end = body.len();
    while end > 0 {
        let (rest, _) = body.split_at(end);
        let Some(found) = last_range(alloc, rest, size)? else {
            return Err(bad(Rule::Range));
        };
        if !lies_within(&found.range, size, pages) {
            return Err(bad(Rule::Range));
        }
        back.push(found.range)?;
        end = found.start;
    }
    Ok(back)
}

/// The ranges that fill the data, each with lines of `size` bytes within so many pages.
/// Rule `range` where there are none.
pub fn ranges_of(alloc: Global, body: &[u8], size: usize, pages: u32) -> Result<Ranges, RecordError>
    requires size { size ≤ 128 }
    requires bytes { length body.now < 2 ^ 16 }
    ensures found { IfOk result (λ rs. SpellsRanges size body.now rs × AreWithin size pages rs) }
    ensures bad { IfBad result (λ _. ((rs : List LineRange) × SpellsRanges size body.now rs × AreWithin size pages rs) → ⊥) }
    ensures rule { IfBad result (λ rule. rule ≡ Rule.Range) }
{
    let mut back = ranges_back(alloc, body, size, pages)?;
    back.reverse();
    Ok(Ranges::from(back))
}
