//! What a transaction does to one page.

ghost use Rattle.std.specs.Prelude.{◌≡◌, length, take, drop, ◌+◌, ◌*◌, ◌^◌, ◌<◌, ◌≤◌};
ghost use Rattle.jfs_bits.specs.Field.{put_bytes};
ghost use Rattle.jfs_bits.specs.Line.{line_size};
ghost use Rattle.jfs_ranges.specs.Apply.{place_of_line, overlaid, apply_edit, apply_tx, touches_edit, touches_tx};

use crate::edit::{Edit, Tx};
use jfs_bits::PageKind;
use jfs_disk::Page;

/// Puts those bytes of a transaction into page `n` that lie in it, in the transaction's order. An edit costs the bytes that it
/// puts there.
pub fn apply(tx: &Tx, n: u32, page: &mut Page)
    ensures { page.new.0 ≡ apply_tx n tx.now page.old.0 }
{
    for edit in tx.as_slice() {
        apply_edit(edit, n, page);
    }
}

/// Whether a transaction puts a byte into page `n`.
pub fn touches(tx: &Tx, n: u32) -> bool
    ensures { result ≡ touches_tx n tx.now }
{
    for edit in tx.as_slice() {
        if touches_edit(edit, n) {
            return true;
        }
    }
    false
}

/// Puts those bytes of an edit into page `n` that lie in it.
pub fn apply_edit(edit: &Edit, n: u32, page: &mut Page)
    ensures { page.new.0 ≡ apply_edit n edit.now page.old.0 }
{
    if let Edit::Lines {
        page: lines,
        kind,
        first,
        bytes,
    } = edit
    {
        put_lines(
            place_of_line(*lines, *kind, *first),
            bytes.as_slice(),
            n,
            page,
        );
    }
}

fn touches_edit(edit: &Edit, n: u32) -> bool
    ensures { result ≡ touches_edit n edit.now }
{
    match edit {
        Edit::Lines {
            page,
            kind,
            first,
            bytes,
        } => {
            let at = place_of_line(*page, *kind, *first);
            let start = 4096 * u64::from(n);
            at < start + 4096 && start.saturating_sub(at) < bytes.len() as u64
        }
        _ => false,
    }
}

/// Puts those of the bytes, which stand from place `at` of the disk on, that lie in page `n`.
fn put_lines(at: u64, bytes: &[u8], n: u32, page: &mut Page)
    ensures { page.new.0 ≡ overlaid at bytes.now (4096 * n) page.old.0 }
{
    let start = 4096 * u64::from(n);
    let passed = start.saturating_sub(at);
    let from = at.saturating_sub(start);
    let _bytes: &[u8] = &page.0;
    if from >= 4096 || passed >= bytes.len() as u64 {
        return;
    }
    let piece = piece_of(bytes, passed as usize, 4096 - from as usize);
    put_slice(&mut page.0, from as usize, piece);
}

/// The bytes from a place on, so many at most.
fn piece_of(bytes: &[u8], passed: usize, most: usize) -> &[u8]
    requires { passed ≤ length bytes.now }
    ensures { result.now ≡ take most (drop passed bytes.now) }
{
    let rest = &bytes[passed..];
    &rest[..most.min(rest.len())]
}

fn put_slice(bytes: &mut [u8], from: usize, piece: &[u8])
    requires { from + length piece.now ≤ length bytes.old }
    ensures { bytes.new ≡ put_bytes from piece.now bytes.old }
{
    bytes[from..from + piece.len()].copy_from_slice(piece);
}

/// The place of a line's first byte, counted from the start of the disk.
#[tactic(auto, unfolding(crate::specs::Apply::place_of_line))]
pub(crate) fn place_of_line(page: u32, kind: PageKind, first: u32) -> u64
    ensures place { result ≡ place_of_line page kind first }
    ensures fits { result < 2 ^ 45 }
{
    4096 * u64::from(page) + offset_of_line(kind, first)
}

fn offset_of_line(kind: PageKind, first: u32) -> u64
    ensures offset { result ≡ line_size kind * first }
    ensures fits { result < 2 ^ 39 + 1 }
{
    kind.line_size() as u64 * u64::from(first)
}
