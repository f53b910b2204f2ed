//! One page of the ring.

ghost use Rattle.std.specs.Prelude.{◌≡◌, ◌<◌, ◌≤◌, ◌+◌, ◌*◌, ◌^◌, ◌++◌, ℕ, List, length};
ghost use Rattle.jfs_bits.specs.Field.{put_bytes};
ghost use Rattle.jfs_bits.specs.Piece.{puts};
ghost use Rattle.jfs_logpages.specs.Ring.{ring_pieces, last_end, AreEnds, ends_with, IsWritten, HasFront};

use jfs_bits::{put_u16, put_u32};
use jfs_disk::Page;

/// Puts bytes at `at`.
fn put_slice(bytes: &mut [u8], at: usize, piece: &[u8])
    requires { at + length piece.now ≤ length bytes.old }
    ensures bytes { bytes.new ≡ put_bytes at piece.now bytes.old }
{
    bytes[at..at + piece.len()].copy_from_slice(piece);
}

/// Puts a piece of the body, header and trailer.
pub fn put_page(page: &mut Page, number: u32, eor: u16, at: usize, piece: &[u8])
    requires { at + length piece.now ≤ 4080 }
    ensures bytes { page.new.0 ≡ puts (ring_pieces number eor) (put_bytes (8 + at) piece.now page.old.0) }
    ensures size { length page.old.0 ≡ 4096 }
    ensures fits { eor < 2 ^ 16 }
{
    let bytes: &mut [u8] = &mut page.0;
    put_slice(bytes, 8 + at, piece);
    put_u32(bytes, 0, number);
    put_u16(bytes, 6, eor);
    put_u32(bytes, 4088, number);
    put_u16(bytes, 4094, eor);
}

/// The greatest end up to a place, and 0 where there is none.
pub fn last_end_of(ends: &[u32], upto: usize) -> usize
    ensures value { result ≡ last_end ends.now upto }
    ensures within { result ≤ upto }
{
    let mut last = 0;
    for end in ends {
        let end = *end as usize;
        if end <= upto {
            last = last.max(end);
        }
    }
    last
}

/// Fills page `number` from body offset `at` on with the group's bytes from `from` on.
pub fn fill_page(page: &mut Page, number: u32, at: usize, from: usize, group: &[u8], ends: &[u32])
    requires at { at ≤ 4080 }
    requires from { from ≤ length group.now }
    requires small { length group.now < 2 ^ 30 }
    ensures size { length page.old.0 ≡ 4096 }
    ensures written { (text old_ends : List ℕ) → 4080 * number + at ≡ length text + from → AreEnds 0 (length text) old_ends → AreEnds 0 (length group.now) ends.now
        → HasFront text number at page.old.0
        → IsWritten (text ++ group.now) (ends_with (length text) old_ends ends.now) number page.new.0 }
{
    let upto = from + (4080 - at);
    let to = upto.min(group.len());
    let end = last_end_of(ends, upto);
    let eor = 8 + (at + end).saturating_sub(from);
    put_page(page, number, eor as u16, at, &group[from..to]);
}
