//! Blocks of files that are written before an entry joins.

ghost use Rattle.std.specs.Prelude.{◌≡◌, ◌<◌, length, slice_get, Some, OnOk};
ghost use Rattle.jfs_marks.specs.data_steps.specs.After.{LieWithin};
ghost use Rattle.jfs_marks.specs.data_steps.specs.declared.pages.DataPage.{DataPage};
ghost use Rattle.jfs_pages.specs.Device.{HasFault};
ghost use Rattle.jfs_pages.specs.Kept.{dirty_in, held_in};
ghost use Rattle.jfs_volume.specs.Data.{PutsAll, PutsOne, store_of};

use jfs_disk::{Disk, Fault};
use jfs_marks::data_steps::{DataList, DataPage};
use jfs_pages::PageCache;

/// Writes each of the blocks, in their order, past the log. It takes no memory.
pub(crate) fn put_all<D: Disk>(cache: &mut PageCache<D>, contents: &DataList) -> Result<(), Fault>
    requires within { LieWithin cache.old.blocks contents.now }
    ensures puts { PutsAll D.tells D.tells_crashes contents.now (dirty_in cache.old.kept) (store_of D.Disk cache.old) (store_of D.Disk cache.new) result }
    ensures dirty { dirty_in cache.new.kept ≡ dirty_in cache.old.kept }
    ensures held { OnOk result (held_in cache.new.kept ≡ held_in cache.old.kept) }
    ensures parts { (cache.new.blocks ≡ cache.old.blocks) × (D.page_count cache.new.disk ≡ D.page_count cache.old.disk) × (D.room cache.new.disk ≡ D.room cache.old.disk) }
    ensures cause { HasFault (D.fault_count cache.old.disk) (D.fault_count cache.new.disk) result }
{
    for i in 0..contents.len() {
        match put_at(cache, contents, i) {
            Ok(()) => {}
            Err(fault) => return Err(fault),
        }
    }
    Ok(())
}

/// Writes the `i`-th block.
fn put_at<D: Disk>(cache: &mut PageCache<D>, contents: &DataList, i: usize) -> Result<(), Fault>
    requires there { i < length contents.now }
    requires within { (x : DataPage) → slice_get contents.now i ≡ Some x → x.block < cache.old.blocks }
    ensures puts { (x : DataPage) → slice_get contents.now i ≡ Some x → PutsOne D.tells D.tells_crashes x (dirty_in cache.old.kept) (store_of D.Disk cache.old) (store_of D.Disk cache.new) result }
    ensures dirty { dirty_in cache.new.kept ≡ dirty_in cache.old.kept }
    ensures held { OnOk result (held_in cache.new.kept ≡ held_in cache.old.kept) }
    ensures parts { (cache.new.blocks ≡ cache.old.blocks) × (D.page_count cache.new.disk ≡ D.page_count cache.old.disk) × (D.room cache.new.disk ≡ D.room cache.old.disk) }
    ensures cause { HasFault (D.fault_count cache.old.disk) (D.fault_count cache.new.disk) result }
{
    match contents.get(i) {
        Some(one) => put_one(cache, one),
        None => unreachable!(),
    }
}

/// Writes one block.
fn put_one<D: Disk>(cache: &mut PageCache<D>, one: &DataPage) -> Result<(), Fault>
    requires { one.now.block < cache.old.blocks }
    ensures puts { PutsOne D.tells D.tells_crashes one.now (dirty_in cache.old.kept) (store_of D.Disk cache.old) (store_of D.Disk cache.new) result }
    ensures dirty { dirty_in cache.new.kept ≡ dirty_in cache.old.kept }
    ensures held { OnOk result (held_in cache.new.kept ≡ held_in cache.old.kept) }
    ensures parts { (cache.new.blocks ≡ cache.old.blocks) × (D.page_count cache.new.disk ≡ D.page_count cache.old.disk) × (D.room cache.new.disk ≡ D.room cache.old.disk) }
    ensures cause { HasFault (D.fault_count cache.old.disk) (D.fault_count cache.new.disk) result }
{
    cache.put(one.block, &one.page)
}
