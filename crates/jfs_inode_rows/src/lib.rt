//! Inodes, extents and pages of inode maps by bytes worked out by hand from the format, and the first rule that an inode breaks.
#![tactic(auto)]

ghost use Rattle.std.specs.Prelude.{◌≡◌, ◌*◌, ◌<◌, ◌≤◌, ℕ, length, get_or, IfOk};
ghost use Rattle.jfs_bits.specs.Descriptor.{FitsPxd};
ghost use Rattle.jfs_iag.specs.Iag.{no_run};

use jfs_bits::{Pxd, PxdList};
use jfs_iag::NO_EXTENT;
use std::alloc::{AllocError, Global};

#[cfg(test)]
mod extents;
#[cfg(test)]
mod groups;
#[cfg(test)]
mod inodes;
#[cfg(test)]
mod maps;

/// The extent at a place, of those with 4 blocks at these places and addresses.
fn extent_of(places: &[(u32, u64)], e: u32) -> Pxd
    ensures { FitsPxd result }
{
    for place in places {
        if place.0 == e {
            return Pxd {
                len: 4,
                addr: place.1 % (1 << 40),
            };
        }
    }
    NO_EXTENT
}

/// The extent places of so many inode allocation groups, with extents of 4 blocks at these places and addresses.
pub fn places_of(alloc: Global, places: &[(u32, u64)], iags: u32) -> Result<PxdList, AllocError>
    requires { iags ≤ 65536 }
    ensures size { IfOk result (λ list. length list ≡ 128 * iags) }
    ensures fits { IfOk result (λ list. (e : ℕ) → e < 128 * iags → FitsPxd (get_or list e no_run)) }
{
    let mut list = PxdList::new(alloc);
    for e in 0..128 * iags {
        list.push(extent_of(places, e))?;
    }
    Ok(list)
}
