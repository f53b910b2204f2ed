//! The order of two entries' names.

ghost use Rattle.std.specs.Prelude.{◌≡◌, ◌≤◌, ◌+◌, ◌*◌, length, true, false};
ghost use Rattle.std.specs.declared.cmp.Ordering.TheVariants.{Less, Greater};
ghost use Rattle.jfs_dtpage.specs.Order.{IsBefore};
ghost use Rattle.jfs_dtpage.specs.Slots.{AreWithin};
ghost use Rattle.jfs_dtpage.specs.Page.{chain_of, name_of};

use crate::read::{first_units, length_of, link_at, read_name, start_of};
use jfs_bits::get_u16;
use std::cmp::Ordering;

/// Whether the name of the entry that begins in one slot is before that of another.
pub fn is_before(bytes: &[u8], leaf: bool, one: u8, other: u8) -> bool
    requires one { AreWithin bytes.now (chain_of leaf bytes.now one) }
    requires other { AreWithin bytes.now (chain_of leaf bytes.now other) }
    ensures yes { result ≡ true → IsBefore (name_of leaf bytes.now one) (name_of leaf bytes.now other) }
    ensures no { result ≡ false → ¬ (IsBefore (name_of leaf bytes.now one) (name_of leaf bytes.now other)) }
{
    // most names differ in their first slots, so none is copied
    match by_first_units(bytes, leaf, one, other) {
        Ordering::Less => true,
        Ordering::Equal => is_before_whole(bytes, leaf, one, other),
        Ordering::Greater => false,
    }
}

/// How two entries' names compare by the units that both have in their first slots; `Equal` where these don't tell.
fn by_first_units(bytes: &[u8], leaf: bool, one: u8, other: u8) -> Ordering
    requires one { 32 * one + 32 ≤ length bytes.now }
    requires other { 32 * other + 32 ≤ length bytes.now }
    ensures less { result ≡ Less → IsBefore (name_of leaf bytes.now one) (name_of leaf bytes.now other) }
    ensures greater { result ≡ Greater → IsBefore (name_of leaf bytes.now other) (name_of leaf bytes.now one) }
{
    let at = start_of(one) + link_at(leaf) + 2;
    let beside = start_of(other) + link_at(leaf) + 2;
    let units = length_of(bytes, leaf, one).min(length_of(bytes, leaf, other));
    for i in 0..first_units(leaf).min(usize::from(units)) {
        let unit = get_u16(bytes, at + 2 * i);
        let with = get_u16(bytes, beside + 2 * i);
        if unit < with {
            return Ordering::Less;
        }
        if with < unit {
            return Ordering::Greater;
        }
    }
    Ordering::Equal
}

fn is_before_whole(bytes: &[u8], leaf: bool, one: u8, other: u8) -> bool
    requires one { AreWithin bytes.now (chain_of leaf bytes.now one) }
    requires other { AreWithin bytes.now (chain_of leaf bytes.now other) }
    ensures yes { result ≡ true → IsBefore (name_of leaf bytes.now one) (name_of leaf bytes.now other) }
    ensures no { result ≡ false → ¬ (IsBefore (name_of leaf bytes.now one) (name_of leaf bytes.now other)) }
{
    let mut first = [0u16; 255];
    let mut second = [0u16; 255];
    let units = read_name(bytes, leaf, one, &mut first);
    let more = read_name(bytes, leaf, other, &mut second);
    are_rising(&first[..units], &second[..more])
}

fn are_rising(one: &[u16], other: &[u16]) -> bool
    ensures yes { result ≡ true → IsBefore one.now other.now }
    ensures no { result ≡ false → ¬ (IsBefore one.now other.now) }
{
    match one.cmp(&other) {
        Ordering::Less => true,
        Ordering::Equal | Ordering::Greater => false,
    }
}
