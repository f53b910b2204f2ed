//! How fast inodes are given back, found and taken, in small and in great inode maps.

ghost use Rattle.std.specs.Prelude.{◌≡◌, ◌≤◌, ◌*◌, ℕ, length, replicate, get_or, IfOk};
ghost use Rattle.jfs_bits.specs.Descriptor.{FitsPxd};
ghost use Rattle.jfs_iag.specs.Iag.{no_run};

use jfs_bits::{Pxd, PxdList};
use jfs_imap::{InodeMap, Pick};
use std::alloc::{AllocError, Global};
use std::io;
use std::time::Instant;

/// The rounds that are timed.
const TIMED: u32 = 1000000;

/// An inode extent for each of so many places.
fn extents(alloc: Global, places: u32) -> Result<PxdList, AllocError>
    ensures count { IfOk result (λ list. length list ≡ places) }
    ensures fits { IfOk result (λ list. (e : ℕ) → FitsPxd (get_or list e no_run)) }
{
    let mut list = PxdList::new(alloc);
    for _place in 0..places {
        list.push(Pxd { len: 4, addr: 64 })?;
    }
    Ok(list)
}

/// A map of so many IAGs, each of whose inodes is in use.
fn full_map(alloc: Global, iags: u32) -> Result<InodeMap, AllocError>
    requires { (1 ≤ iags) × (iags ≤ 65536) }
{
    let set = vec![in alloc; 255u8; 512 * iags as usize]?;
    let extents = extents(alloc, 128 * iags)?;
    InodeMap::from_parts(alloc, set.as_slice(), &extents, iags, 8192, 128)
}

/// Gives an inode anywhere back, and takes the lowest free one, which is that one: so many times. How often it was.
fn take_often(map: &mut InodeMap, iags: u32) -> u32
    requires { (1 ≤ iags) × (iags ≤ 65536) }
{
    let mut seed = 1u64;
    let mut found = 0;
    for _round in 0..TIMED {
        seed = seed
            .wrapping_mul(6364136223846793005)
            .wrapping_add(1442695040888963407);
        let given = (seed >> 33) as u32 % (4096 * iags);
        map.put_back(given);
        if let Pick::Number(n) = map.pick() {
            map.take(n);
            if n == given {
                found += 1;
            }
        }
    }
    found
}

/// Prints a line for a small and for the greatest map.
pub fn time_inodes(rt: &HostRuntime) -> io::Result<()> {
    for iags in [16, 65536] {
        let mut map = full_map(rt.alloc(), iags)?;
        let start = Instant::now(rt)?;
        let found = take_often(&mut map, iags);
        let micros = start.elapsed(rt)?.as_micros();
        println!(rt;
            "{iags} IAGs: {found} of {TIMED} inodes given back, found and taken in {micros} us"
        )?;
    }
    Ok(())
}
