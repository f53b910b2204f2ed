//! The inode extents after redo.

ghost use Rattle.std.specs.Prelude.{◌≡◌, ◌≤◌, [], ◌∷◌, length};
ghost use Rattle.jfs_records.specs.Redo.{all_of};
ghost use Rattle.jfs_steps.specs.After.{place_in, extents_after};

use crate::blocks::is_extent;
use jfs_bits::get_u32;
use jfs_ranges::{Edit, Tx};

/// Puts each inode extent that transactions make into its place, by its first page. The place is that of its first inode's number; one past the list's end is passed over.
pub fn redo_extents(transactions: &[Tx], extents: &mut [Option<u32>])
    ensures { extents.new ≡ extents_after (all_of transactions.now) extents.old }
{
    for tx in transactions {
        put_tx(tx, extents);
    }
}

fn put_tx(tx: &Tx, extents: &mut [Option<u32>])
    ensures { extents.new ≡ extents_after tx.now extents.old }
{
    for edit in tx.as_slice() {
        put_edit(edit, extents);
    }
}

fn put_edit(edit: &Edit, extents: &mut [Option<u32>])
    ensures { extents.new ≡ extents_after (edit.now ∷ []) extents.old }
{
    if let Edit::Lines {
        page,
        kind,
        first,
        bytes,
    } = edit
    {
        if is_extent(*kind, *first, bytes.as_slice()) {
            let place = place_in(bytes.as_slice());
            if place < extents.len() {
                extents[place] = Some(*page);
            }
        }
    }
}

/// The place of an inode extent with these bytes: that of its first inode's number, 32 numbers a place.
fn place_in(bytes: &[u8]) -> usize
    requires { 12 ≤ length bytes.now }
    ensures { result ≡ place_in bytes.now }
{
    get_u32(bytes, 8) as usize / 32
}
