//! What an extent costs in a file, by how many it has: every second block, so that none can be merged.

ghost use Rattle.std.specs.Prelude.{◌≡◌, ◌<◌, ◌≤◌, ◌+◌, [], ◌∷◌, IfOk, length};
ghost use Rattle.jfs_xtree.specs.Node.{IsGood};

use crate::store::Store;
use jfs_bits::{Pxd, Xad};
use jfs_ranges::Tx;
use jfs_xtree::{add, lookup, new_root};
use std::alloc::{AllocError, Global};
use std::io;
use std::time::Instant;

fn extent(i: u32) -> Xad
    ensures { IsGood 32768 result }
{
    Xad {
        flag: 0,
        offset: 2 * u64::from(i),
        at: Pxd {
            len: 1,
            addr: 32_000,
        },
    }
}

/// Appends so many extents; how many were taken.
fn append(
    alloc: Global,
    store: &mut Store,
    root: &mut [u8; 288],
    extents: u32,
) -> Result<u32, AllocError> {
    let mut added = 0u32;
    for i in 0..extents {
        if !store.has_eight() {
            return Ok(added);
        }
        let mut fresh = store.fresh(alloc)?;
        let mut tx = Tx::new(alloc);
        if add(alloc, store, root, extent(i), &mut fresh, &mut tx).is_ok() {
            added = added.saturating_add(1);
            store.take(&tx, fresh.len());
        }
    }
    Ok(added)
}

/// How many of their blocks are found.
fn look_up(store: &mut Store, root: &[u8; 288], extents: u32) -> u32 {
    let mut found = 0u32;
    for i in 0..extents {
        if lookup(store, root, 2 * u64::from(i)) == Ok(Some(extent(i))) {
            found = found.saturating_add(1);
        }
    }
    found
}

/// Prints a line for each size of a file.
pub fn time_extents(rt: &HostRuntime) -> io::Result<()> {
    for extents in [1_000, 10_000, 100_000] {
        let alloc = rt.alloc();
        let mut store = Store::new(alloc)?;
        let mut root = [0; 288];
        new_root(&mut root);
        let start = Instant::now(rt)?;
        let added = append(alloc, &mut store, &mut root, extents)?;
        let adding = start.elapsed(rt)?.as_micros();
        let pages = store.taken();
        let start = Instant::now(rt)?;
        let found = look_up(&mut store, &root, extents);
        let finding = start.elapsed(rt)?.as_micros();
        println!(rt;
            "{added} of {extents} extents appended in {adding} us, {pages} pages; {found} looked up in {finding} us"
        )?;
    }
    Ok(())
}
