//! How fast a disk in memory reads and writes, when it has made few writes and when it has made many, and when it syncs.

ghost use Rattle.std.specs.Prelude.{◌≡◌};

use jfs_disk::{Disk, MemDisk, Page};
use std::io;
use std::time::Instant;

/// The pages of the disk, all of which are written.
const PAGES: u32 = 1000;

/// The calls that are timed.
const TIMED: u32 = 10000;

/// The writes between two syncs.
const GROUP: u32 = 100;

/// The writes that are synced by groups.
const SYNCED: u32 = 100000;

/// Writes so many pages, one after another.
fn write_pages<D: Disk>(disk: &mut D, calls: u32)
    requires { D.page_count disk.old ≡ PAGES }
    ensures { D.page_count disk.new ≡ D.page_count disk.old }
{
    let page = Page([1; 4096]);
    for call in 0..calls {
        let _ = disk.write(call % PAGES, &page);
    }
}

/// Writes so many pages, one after another, and syncs after each group of them.
fn write_groups<D: Disk>(disk: &mut D, calls: u32)
    requires { D.page_count disk.old ≡ PAGES }
    ensures { D.page_count disk.new ≡ D.page_count disk.old }
{
    let page = Page([1; 4096]);
    for call in 0..calls {
        let _ = disk.write(call % PAGES, &page);
        if call % GROUP == GROUP - 1 {
            let _ = disk.sync();
        }
    }
}

/// Reads so many pages, spread over the disk.
fn read_pages<D: Disk>(disk: &mut D, calls: u32)
    requires { D.page_count disk.old ≡ PAGES }
    ensures { D.page_count disk.new ≡ D.page_count disk.old }
{
    let mut page = Page::zeros();
    for call in 0..calls {
        let _ = disk.read(call % PAGES, &mut page);
    }
}

/// Prints a line for each number of writes before the timed calls.
pub fn time_disk(rt: &HostRuntime) -> io::Result<()> {
    for writes in [1000, 100000] {
        let mut disk = MemDisk::new(rt.alloc(), PAGES);
        write_pages(&mut disk, writes);
        let start = Instant::now(rt)?;
        read_pages(&mut disk, TIMED);
        let reads = start.elapsed(rt)?.as_micros();
        let start = Instant::now(rt)?;
        write_pages(&mut disk, TIMED);
        let more = start.elapsed(rt)?.as_micros();
        println!(rt;
            "after {writes} writes: {TIMED} reads in {reads} us, {TIMED} writes in {more} us"
        )?;
    }
    let mut disk = MemDisk::new(rt.alloc(), PAGES);
    let start = Instant::now(rt)?;
    write_groups(&mut disk, SYNCED);
    let synced = start.elapsed(rt)?.as_micros();
    println!(rt; "{SYNCED} writes with a sync each {GROUP}: {synced} us")?;
    Ok(())
}
