//! What a name costs in a directory, by how many it has: added in mixed order, and found again.

ghost use Rattle.std.specs.Prelude.{◌≡◌, ◌<◌, ◌≤◌, ◌+◌, [], ◌∷◌, IfOk, length};

use crate::store::Store;
use jfs_dtree::{add, find, new_root};
use jfs_name::Name;
use jfs_ranges::Tx;
use std::alloc::{AllocError, Global};
use std::io;
use std::time::Instant;

/// A name of eight units, `f` and seven digits; the numbers below 2^20 come in mixed order, each once.
fn name_of(alloc: Global, i: u32) -> Result<Name, AllocError>
    ensures { IfOk result (λ name. length name ≤ 255) }
{
    let mixed = (u64::from(i) * 700_001 % 1_048_576) as u32;
    let mut units = [102u16; 8];
    let mut rest = mixed;
    for unit in units.iter_mut().skip(1) {
        *unit = (48 + rest % 10) as u16;
        rest /= 10;
    }
    let mut name = Name::new(alloc);
    name.extend_from_slice(&units)?;
    Ok(name)
}

/// Adds the names from 0 to this one; how many were taken.
fn add_names(
    alloc: Global,
    store: &mut Store,
    root: &mut [u8],
    names: u32,
) -> Result<u32, AllocError>
    requires { length root.old ≡ 288 }
{
    let mut added = 0u32;
    for i in 0..names {
        if !store.has_eight() {
            return Ok(added);
        }
        let name = name_of(alloc, i)?;
        let mut fresh = store.fresh(alloc)?;
        let mut tx = Tx::new(alloc);
        if add(alloc, store, root, &name, i, &mut fresh, &mut tx).is_ok() {
            added = added.saturating_add(1);
            store.take(&tx, fresh.len());
        }
    }
    Ok(added)
}

/// How many of them are found with their numbers.
fn find_names(alloc: Global, store: &mut Store, root: &[u8], names: u32) -> Result<u32, AllocError>
    requires { length root.now ≡ 288 }
{
    let mut found = 0u32;
    for i in 0..names {
        let name = name_of(alloc, i)?;
        if find(store, root, &name) == Ok(Some(i)) {
            found = found.saturating_add(1);
        }
    }
    Ok(found)
}

/// Prints a line for each size of a directory.
pub fn time_names(rt: &HostRuntime) -> io::Result<()> {
    for names in [10_000, 100_000, 1_000_000] {
        let alloc = rt.alloc();
        let mut store = Store::new(alloc)?;
        let mut root = [0; 288];
        new_root(&mut root, 2);
        let start = Instant::now(rt)?;
        let added = add_names(alloc, &mut store, &mut root, names)?;
        let adding = start.elapsed(rt)?.as_micros();
        let pages = store.taken();
        let before = store.reads();
        let start = Instant::now(rt)?;
        let found = find_names(alloc, &mut store, &root, names)?;
        let finding = start.elapsed(rt)?.as_micros();
        let reads = store.reads().saturating_sub(before);
        println!(rt;
            "{added} of {names} names added in {adding} us, {pages} pages; {found} found in {finding} us by {reads} reads"
        )?;
    }
    Ok(())
}
