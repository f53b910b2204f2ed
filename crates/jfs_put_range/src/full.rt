//! Pages that stay full where a list is too long for them.

ghost use Rattle.std.specs.Prelude.{◌≡◌, ◌&&◌, ◌-◌, true, length, slice_get};
ghost use Rattle.std.specs.List.{All};
ghost use Rattle.jfs_bits.specs.Extent.{FitsXad};
ghost use Rattle.jfs_put_range.specs.Parts.{behind, passes_end};

use crate::part::{Part, end_of};
use jfs_bits::Xad;
use jfs_refill::ENTRIES;

/// Whether what doesn't fit a page starts a new one: where the page is the last one of its level, and all of it lies past the entries that the page had.
pub(crate) fn starts_new(part: &Part, entries: &[Xad], list: &[Xad]) -> bool
    requires fits { All FitsXad entries.now }
    ensures is { result ≡ (part.now.last && passes_end entries.now list.now) }
    ensures last { result ≡ true → part.now.last ≡ true }
{
    part.last && passes_end(entries, list)
}

/// Whether what doesn't fit a page lies past the entries that the page had.
fn passes_end(entries: &[Xad], list: &[Xad]) -> bool
    requires fits { All FitsXad entries.now }
    ensures { result ≡ passes_end entries.now list.now }
{
    match list.get(ENTRIES) {
        Some(x) => end_of_last(entries) <= x.offset,
        None => false,
    }
}

/// The first block behind the last of these entries.
fn end_of_last(entries: &[Xad]) -> u64
    requires fits { All FitsXad entries.now }
    ensures { result ≡ behind (slice_get entries.now (length entries.now - 1)) }
{
    if entries.is_empty() {
        return 0;
    }
    end_of(&entries[entries.len() - 1])
}
