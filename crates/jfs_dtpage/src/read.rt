//! Slots and chains of slots, read.

ghost use Rattle.std.specs.Prelude.{◌≡◌, ◌<◌, ◌≤◌, ◌+◌, ◌-◌, ◌*◌, ◌/◌, ◌^◌, ℕ, length, take};
ghost use Rattle.jfs_dtpage.specs.Form.{link_at, first_units, more_slots};
ghost use Rattle.jfs_dtpage.specs.Slots.{next_of, follow, units_at, gather, slots_for, AreWithin};
ghost use Rattle.jfs_dtpage.specs.Page.{link_of, length_of, chain_of, name_of};

use jfs_bits::{get_u8, get_u16};

/// The units that stand in a name's further slots, each.
pub const FURTHER_UNITS: usize = 15;

/// The number of slots that a name of so many units takes in a leaf or an inner page.
pub fn dt_slots(units: u32, leaf: bool) -> u32
    ensures value { result ≡ 1 + more_slots leaf units }
    ensures most { units ≤ 255 → result ≤ 18 }
{
    let more = units.saturating_sub(first_units(leaf) as u32);
    1 + more / 15 + u32::from(more % 15 != 0)
}

/// Where the number of the next slot stands in an entry's first slot; the name's length stands behind it.
pub fn link_at(leaf: bool) -> usize
    ensures value { result ≡ link_at leaf }
    ensures most { result ≤ 8 }
{
    if leaf { 4 } else { 8 }
}

/// How many units of a name stand in an entry's first slot.
pub fn first_units(leaf: bool) -> usize
    ensures value { result ≡ first_units leaf }
    ensures most { result ≤ 13 }
{
    if leaf { 13 } else { 11 }
}

/// How many further slots a name of so many units takes.
pub fn more_slots(leaf: bool, units: usize) -> usize
    requires { units ≤ 255 }
    ensures { result ≡ more_slots leaf units }
{
    units
        .saturating_sub(first_units(leaf))
        .div_ceil(FURTHER_UNITS)
}

/// Where a slot begins.
pub fn start_of(slot: u8) -> usize
    ensures { result ≡ 32 * slot }
{
    32 * usize::from(slot)
}

/// The slot behind a free slot or a name's further slot.
pub fn next_of(bytes: &[u8], slot: u8) -> u8
    requires { 32 * slot + 32 ≤ length bytes.now }
    ensures { result ≡ next_of bytes.now slot }
{
    get_u8(bytes, start_of(slot))
}

/// The slot behind an entry's first one.
pub fn link_of(bytes: &[u8], leaf: bool, slot: u8) -> u8
    requires { 32 * slot + 32 ≤ length bytes.now }
    ensures { result ≡ link_of leaf bytes.now slot }
{
    get_u8(bytes, start_of(slot) + link_at(leaf))
}

/// The number of units of an entry's name.
pub fn length_of(bytes: &[u8], leaf: bool, slot: u8) -> u8
    requires { 32 * slot + 32 ≤ length bytes.now }
    ensures { result ≡ length_of leaf bytes.now slot }
{
    get_u8(bytes, start_of(slot) + link_at(leaf) + 1)
}

/// Copies an entry's name; its number of units.
pub fn read_name(bytes: &[u8], leaf: bool, slot: u8, into: &mut [u16]) -> usize
    requires within { AreWithin bytes.now (chain_of leaf bytes.now slot) }
    requires room { 255 ≤ length into.old }
    ensures count { result ≡ length_of leaf bytes.now slot }
    ensures most { result ≤ 255 }
    ensures name { take result into.new ≡ name_of leaf bytes.now slot }
{
    let units = usize::from(length_of(bytes, leaf, slot));
    let (name, _rest) = into.split_at_mut(units);
    let (first, further) = name.split_at_mut(units.min(first_units(leaf)));
    copy_units(bytes, start_of(slot) + link_at(leaf) + 2, first);
    gather(bytes, link_of(bytes, leaf, slot), further);
    units
}

/// Copies units from a chain of further slots.
fn gather(bytes: &[u8], slot: u8, into: &mut [u16])
    requires { AreWithin bytes.now (follow bytes.now slot (slots_for (length into.old))) }
    ensures { into.new ≡ gather bytes.now slot (slots_for (length into.old)) (length into.old) }
{
    if into.is_empty() {
        return;
    }
    let here = into.len().min(FURTHER_UNITS);
    let (part, rest) = into.split_at_mut(here);
    copy_units(bytes, start_of(slot) + 2, part);
    gather(bytes, next_of(bytes, slot), rest);
}

/// Copies units that stand one after another.
fn copy_units(bytes: &[u8], at: usize, into: &mut [u16])
    requires { at + 2 * length into.old ≤ length bytes.now }
    ensures { into.new ≡ units_at bytes.now at (length into.old) }
{
    for (i, unit) in into.iter_mut().enumerate() {
        *unit = get_u16(bytes, at + 2 * i);
    }
}
