//! Calls that are refused, each for the same reason.

use crate::calls::{add_fails, find_fails, finds, remove_fails};
use crate::leading::lead_fails;
use crate::units::Kind;
use crate::volume::Dir;
use jfs_bits::Rule;
use jfs_disk::{Fault, Part};
use jfs_dtree::DtError;
use jfs_ranges::ViewError;
use std::alloc::Global;

/// A root that stands for itself where it is at fault.
pub const ROOT: u32 = 4294967295;

/// Whether each call on the long name refuses it for this reason.
pub fn refuses(alloc: Global, dir: &mut Dir, number: u32, why: DtError) -> bool {
    find_fails(alloc, dir, &Kind::Long, number, why)
        && add_fails(alloc, dir, &Kind::Long, number, why)
        && remove_fails(alloc, dir, &Kind::Long, number, why)
        && lead_fails(alloc, dir, &Kind::Long, number, why)
}

/// Whether each call on long name 3, and the list of all names, is refused since this page breaks a rule.
pub fn breaks(alloc: Global, dir: &mut Dir, page: u32, rule: Rule) -> bool {
    let why = DtError::Bad { page, rule };
    refuses(alloc, dir, 3, why) && dir.list_fails(alloc, why)
}

/// Whether it is so where a byte of a page is another, and name 3 is found where the byte is as it was.
pub fn breaks_by(alloc: Global, dir: &mut Dir, page: u8, at: u16, byte: u8, rule: Rule) -> bool {
    let (n, place) = (usize::from(page), usize::from(at));
    let before = dir.byte(n, place);
    dir.puts(n, place, byte);
    let refused = breaks(alloc, dir, u32::from(page), rule);
    dir.puts(n, place, before);
    refused && finds(alloc, dir, &Kind::Long, 3, Some(3))
}

/// The same of a byte of the root.
pub fn root_breaks_by(alloc: Global, dir: &mut Dir, at: u8, byte: u8, rule: Rule) -> bool {
    let place = usize::from(at);
    let before = dir.root[place];
    dir.root[place] = byte;
    let refused = breaks(alloc, dir, ROOT, rule);
    dir.root[place] = before;
    refused && finds(alloc, dir, &Kind::Long, 3, Some(3))
}

/// Why a call fails by the fault of this number.
pub fn fault(count: u64) -> DtError {
    DtError::View(read_fault(count))
}

/// The fault of this number.
pub fn read_fault(count: u64) -> ViewError {
    ViewError::Read(Fault {
        part: Part::Low,
        count,
    })
}

/// Whether looking for a name, adding another, removing the first and leading it to another inode fail, by this fault and the three behind it.
pub fn faults(alloc: Global, dir: &mut Dir, first: u64) -> bool {
    find_fails(alloc, dir, &Kind::Long, 3, fault(first))
        && add_fails(alloc, dir, &Kind::Other, 3, fault(first.saturating_add(1)))
        && remove_fails(alloc, dir, &Kind::Long, 3, fault(first.saturating_add(2)))
        && lead_fails(alloc, dir, &Kind::Long, 3, fault(first.saturating_add(3)))
}
