//! The sorted table of the entries' first slots.

ghost use Rattle.std.specs.Prelude.{◌≡◌, ◌<◌, ◌≤◌, ◌+◌, ◌-◌, ◌*◌, ℕ, length};
ghost use Rattle.std.specs.List.{insert, remove};
ghost use Rattle.jfs_dtpage.specs.Slots.{slots_at, Kept};

use crate::write::put_byte;
use jfs_bits::get_u8;

/// Puts a slot at a place of the table.
pub fn insert_slot(bytes: &mut [u8], at: usize, place: u8, count: u8, slot: u8)
    requires within { at + count + 1 ≤ length bytes.old }
    requires place { place ≤ count }
    ensures table { slots_at bytes.new at (count + 1) ≡ insert (slots_at bytes.old at count) place slot }
    ensures kept { Kept at (count + 1) bytes.old bytes.new }
{
    let mut carried = slot;
    for i in usize::from(place)..usize::from(count) + 1 {
        let next = get_u8(bytes, at + i);
        put_byte(bytes, at + i, carried);
        carried = next;
    }
}

/// Takes the slot at a place out of the table.
pub fn remove_slot(bytes: &mut [u8], at: usize, place: u8, count: u8)
    requires within { at + count ≤ length bytes.old }
    requires place { place < count }
    ensures table { slots_at bytes.new at (count - 1) ≡ remove (slots_at bytes.old at count) place }
    ensures kept { Kept at count bytes.old bytes.new }
{
    for i in usize::from(place)..usize::from(count) - 1 {
        let next = get_u8(bytes, at + i + 1);
        put_byte(bytes, at + i, next);
    }
}
