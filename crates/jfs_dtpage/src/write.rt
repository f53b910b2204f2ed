//! Fields of slots, written.

ghost use Rattle.std.specs.Prelude.{◌≡◌, ◌<◌, ◌≤◌, ◌+◌, ◌-◌, ◌*◌, ◌/◌, ◌^◌, ℕ, length, take};
ghost use Rattle.jfs_bits.specs.Field.{field_of};
ghost use Rattle.jfs_bits.specs.Descriptor.{pxd_of, FitsPxd};
ghost use Rattle.jfs_dtpage.specs.Slots.{chain_end, next_of, follow, behind, units_at, gather, slots_for, times, AreWithin, Kept, KeptBut};

use crate::read::{FURTHER_UNITS, next_of, start_of};
use jfs_bits::{Pxd, put_pxd, put_u8, put_u16, put_u32, put_u64};

/// What ends a chain of slots.
pub const END: u8 = 255;

pub fn put_byte(bytes: &mut [u8], at: usize, value: u8)
    requires { at + 1 ≤ length bytes.old }
    ensures value { field_of bytes.new at 1 ≡ value }
    ensures kept { Kept at 1 bytes.old bytes.new }
{
    put_u8(bytes, at, value);
}

pub fn put_unit(bytes: &mut [u8], at: usize, value: u16)
    requires { at + 2 ≤ length bytes.old }
    ensures value { field_of bytes.new at 2 ≡ value }
    ensures kept { Kept at 2 bytes.old bytes.new }
{
    put_u16(bytes, at, value);
}

pub fn put_inode(bytes: &mut [u8], at: usize, value: u32)
    requires { at + 4 ≤ length bytes.old }
    ensures value { field_of bytes.new at 4 ≡ value }
    ensures kept { Kept at 4 bytes.old bytes.new }
{
    put_u32(bytes, at, value);
}

pub fn put_neighbour(bytes: &mut [u8], at: usize, value: u64)
    requires { at + 8 ≤ length bytes.old }
    ensures value { field_of bytes.new at 8 ≡ value }
    ensures kept { Kept at 8 bytes.old bytes.new }
{
    put_u64(bytes, at, value);
}

pub fn put_child(bytes: &mut [u8], at: usize, value: Pxd)
    requires within { at + 8 ≤ length bytes.old }
    requires fits { FitsPxd value }
    ensures value { pxd_of bytes.new at ≡ value }
    ensures kept { Kept at 8 bytes.old bytes.new }
{
    put_pxd(bytes, at, value);
}

/// Puts units one after another.
pub fn put_units(bytes: &mut [u8], at: usize, units: &[u16])
    requires { at + 2 * length units.now ≤ length bytes.old }
    ensures units { units_at bytes.new at (length units.now) ≡ units.now }
    ensures kept { Kept at (2 * length units.now) bytes.old bytes.new }
{
    for (i, unit) in units.iter().enumerate() {
        put_unit(bytes, at + 2 * i, *unit);
    }
}

/// Puts a name's last units into the slots of a chain, and ends the chain behind them; the slot that followed.
pub fn put_further(bytes: &mut [u8], slot: u8, units: &[u16]) -> u8
    requires some { 0 < length units.now }
    requires within { AreWithin bytes.old (follow bytes.old slot (slots_for (length units.now))) }
    requires once { (k : ℕ) → times k (follow bytes.old slot (slots_for (length units.now))) ≤ 1 }
    ensures next { result ≡ behind bytes.old slot (slots_for (length units.now)) }
    ensures chain { follow bytes.new slot (slots_for (length units.now)) ≡ follow bytes.old slot (slots_for (length units.now)) }
    ensures ends { behind bytes.new slot (slots_for (length units.now)) ≡ chain_end }
    ensures units { gather bytes.new slot (slots_for (length units.now)) (length units.now) ≡ units.now }
    ensures kept { KeptBut (follow bytes.old slot (slots_for (length units.now))) bytes.old bytes.new }
{
    let next = next_of(bytes, slot);
    let (here, further) = units.split_at(units.len().min(FURTHER_UNITS));
    put_units(bytes, start_of(slot) + 2, here);
    if further.is_empty() {
        put_byte(bytes, start_of(slot), END);
        return next;
    }
    put_further(bytes, next, further)
}
