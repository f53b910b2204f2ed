//! Entries put into free slots.

ghost use Rattle.std.specs.Prelude.{◌≡◌, ◌<◌, ◌≤◌, ◌+◌, ◌-◌, ◌*◌, min, take, ℕ, suc, length};
ghost use Rattle.jfs_dtpage.specs.Form.{link_at, first_units, more_slots};
ghost use Rattle.jfs_dtpage.specs.Slots.{follow, behind, times, units_at, AreWithin, Kept, KeptBut};
ghost use Rattle.jfs_dtpage.specs.Page.{link_of, length_of, chain_of, Ends, entry_of, name_in};
ghost use Rattle.jfs_dtpage.specs.Given.{given, is_named, ChildFits, HasNumber};

use crate::head::DtEntry;
use crate::read::{first_units, link_at, next_of, start_of};
use crate::write::{END, put_byte, put_child, put_further, put_inode, put_units};

impl<'a> DtEntry<'a> {
    /// The name, or the key.
    pub fn name(self) -> &'a [u16]
        ensures { result.now ≡ name_in (given self.entry) }
    {
        match self {
            DtEntry::Leaf { name, .. } | DtEntry::Inner { name, .. } => name,
        }
    }

    /// Whether it is a leaf's.
    pub fn is_leaf(self) -> bool
        ensures { result ≡ is_named (given self.entry) }
    {
        match self {
            DtEntry::Leaf { .. } => true,
            DtEntry::Inner { .. } => false,
        }
    }
}

/// Puts an entry into the first slots of the free chain; the slot that followed these.
pub fn put_entry(bytes: &mut [u8], slot: u8, e: DtEntry<'_>) -> u8
    requires name { length (name_in (given e)) ≤ 255 }
    requires child { ChildFits (given e) }
    requires within { AreWithin bytes.old (follow bytes.old slot (suc (more_slots (is_named (given e)) (length (name_in (given e)))))) }
    requires once { (k : ℕ) → times k (follow bytes.old slot (suc (more_slots (is_named (given e)) (length (name_in (given e)))))) ≤ 1 }
    ensures next { result ≡ behind bytes.old slot (suc (more_slots (is_named (given e.entry)) (length (name_in (given e.entry))))) }
    ensures chain { chain_of (is_named (given e.entry)) bytes.new slot ≡ follow bytes.old slot (suc (more_slots (is_named (given e.entry)) (length (name_in (given e.entry))))) }
    ensures ends { Ends (is_named (given e.entry)) bytes.new slot }
    ensures entry { entry_of (is_named (given e.entry)) bytes.new slot ≡ given e.entry }
    ensures kept { KeptBut (follow bytes.old slot (suc (more_slots (is_named (given e.entry)) (length (name_in (given e.entry)))))) bytes.old bytes.new }
{
    let name = e.name();
    let next = next_of(bytes, slot);
    let (first, further) = name.split_at(name.len().min(first_units(e.is_leaf())));
    if further.is_empty() {
        put_first(bytes, slot, e, first, END);
        return next;
    }
    put_first(bytes, slot, e, first, next);
    put_further(bytes, next, further)
}

/// Puts an entry's first slot, with the first units of its name and the slot that follows.
fn put_first(bytes: &mut [u8], slot: u8, e: DtEntry<'_>, first: &[u16], link: u8)
    requires within { 32 * slot + 32 ≤ length bytes.old }
    requires name { length (name_in (given e)) ≤ 255 }
    requires few { length first.now ≤ first_units (is_named (given e)) }
    requires child { ChildFits (given e) }
    ensures number { HasNumber bytes.new (32 * slot) (given e.entry) }
    ensures link { link_of (is_named (given e.entry)) bytes.new slot ≡ link }
    ensures length { length_of (is_named (given e.entry)) bytes.new slot ≡ length (name_in (given e.entry)) }
    ensures units { units_at bytes.new (32 * slot + link_at (is_named (given e.entry)) + 2) (length first.now) ≡ first.now }
    ensures kept { Kept (32 * slot) 32 bytes.old bytes.new }
{
    let at = start_of(slot) + link_at(e.is_leaf());
    put_number(bytes, start_of(slot), e);
    put_byte(bytes, at, link);
    put_byte(bytes, at + 1, e.name().len() as u8);
    put_units(bytes, at + 2, first);
}

fn put_number(bytes: &mut [u8], at: usize, e: DtEntry<'_>)
    requires within { at + 8 ≤ length bytes.old }
    requires child { ChildFits (given e) }
    ensures number { HasNumber bytes.new at (given e.entry) }
    ensures kept { Kept at (link_at (is_named (given e.entry))) bytes.old bytes.new }
{
    match e {
        DtEntry::Leaf { inode, .. } => put_inode(bytes, at, inode),
        DtEntry::Inner { at: child, .. } => put_child(bytes, at, child),
    }
}
