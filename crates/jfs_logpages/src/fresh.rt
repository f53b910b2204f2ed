//! A fresh log: its superblock, and a ring with one record.

ghost use Rattle.std.specs.Prelude.{◌≡◌, ◌≢◌, ◌<◌, ◌≤◌, ◌+◌, ◌-◌, ◌⊎◌, ◌^◌, ℕ, List, length, drop, OnOk, IfOk, IfErr, IsErrOf};
ghost use Rattle.jfs_bits.specs.Count.{Rose};
ghost use Rattle.jfs_disk.specs.Fault.{HasCause};
ghost use Rattle.jfs_disk.specs.declared.disk.Part.TheVariants.{Whole};
ghost use Rattle.jfs_disk.specs.Crash.{last_of, AllSince};
ghost use Rattle.jfs_disk.specs.Image.{Image, page_of, ArePages};
ghost use Rattle.jfs_disk.specs.Moment.{IsResting, now_of};
ghost use Rattle.jfs_logfmt.specs.Written.{text_of};
ghost use Rattle.jfs_logpages.specs.Fresh.{first_record, super_page, IsOutside, OthersStay, HistoriesStay, IsPartlyFresh, IsBegun, IsFreshLog};
ghost use Rattle.jfs_logpages.specs.Ring.{IsLast, IsRing, fresh_text, fresh_ends};

use crate::page::put_page;
use jfs_bits::{Pxd, put_u16};
use jfs_disk::{Disk, DiskError, Fault, Page, Part};
use jfs_logfmt::{LogSuper, write_log_super};
use uuid::Uuid;

/// The label of a log that this project writes.
pub const LABEL: [u8; 16] = *b"jfsd profile 1\0\0";

/// The text of a SYNCPT that names itself.
fn first_text() -> [u8; 36]
    ensures text { result ≡ text_of first_record }
    ensures size { length result ≡ 36 }
{
    let mut text = [0u8; 36];
    put_u16(&mut text, 8, 0x4000);
    text
}

/// Writes the superblock of a log that begins at page `base`.
fn write_super<D: Disk>(disk: &mut D, base: u32, pages: u32, uuid: Uuid) -> Result<(), DiskError>
    requires place { base + pages ≤ D.page_count disk.old }
    requires some { 2 ≤ pages }
    requires small { base + pages < 2 ^ 32 }
    ensures pages { D.page_count disk.new ≡ D.page_count disk.old }
    ensures image { OnOk result (D.tells → page_of (D.image disk.new) (base + 1) ≡ super_page pages uuid) }
    ensures others { D.tells → OthersStay (base + 1) 1 (D.image disk.old) (D.image disk.new) }
    ensures past { D.tells_crashes → HistoriesStay (IsOutside (base + 1) 1) (D.past disk.old) (D.past disk.new) }
    ensures all { D.tells → D.tells_crashes → (old : Image) (t done : ℕ) → ArePages (D.page_count disk.old) old → IsBegun base pages uuid old t done (D.past disk.old)
        → AllSince (IsPartlyFresh base pages uuid old) (D.past disk.new) t }
    ensures cause { HasCause (D.fault_count disk.old) (D.fault_count disk.new) result }
    ensures no_memory { result ≢ Err DiskError.Memory }
{
    let mut page = Page::zeros();
    let s = LogSuper {
        serial: 0,
        size: pages,
        state: 0,
        uuid,
        label: LABEL,
    };
    write_log_super(&s, &mut page);
    let _size = page.bytes();
    disk.write(base + 1, &page)?;
    Ok(())
}

/// Writes every page of the ring of a log that begins at page `base`, and answers the last one.
fn write_ring<D: Disk>(disk: &mut D, base: u32, ring: u32) -> Result<Page, DiskError>
    requires place { base + (2 + ring) ≤ D.page_count disk.old }
    requires ring { 2 ≤ ring }
    requires ring_small { ring < 2 ^ 16 }
    requires small { base + (2 + ring) < 2 ^ 32 }
    ensures pages { D.page_count disk.new ≡ D.page_count disk.old }
    ensures last { IfOk result (λ page. IsLast ring (ring - 1) 36 page.0 (fresh_text ring (text_of first_record)) (fresh_ends ring)) }
    ensures image { OnOk result (D.tells → IsRing ring (fresh_text ring (text_of first_record)) (fresh_ends ring) (ring - 1) (drop base (D.image disk.new))) }
    ensures others { D.tells → OthersStay (base + 2) ring (D.image disk.old) (D.image disk.new) }
    ensures past { D.tells_crashes → HistoriesStay (IsOutside (base + 2) ring) (D.past disk.old) (D.past disk.new) }
    ensures begun { IfOk result (λ _. D.tells → D.tells_crashes → (pages : ℕ) (uuid : List ℕ) (old : Image) (t : ℕ) → pages - 2 ≡ ring → ArePages (D.page_count disk.old) old
        → IsBegun base pages uuid old t 0 (D.past disk.old) → IsBegun base pages uuid old t ring (D.past disk.new)) }
    ensures all { D.tells → D.tells_crashes → (pages : ℕ) (uuid : List ℕ) (old : Image) (t : ℕ) → pages - 2 ≡ ring → ArePages (D.page_count disk.old) old
        → IsBegun base pages uuid old t 0 (D.past disk.old) → AllSince (IsPartlyFresh base pages uuid old) (D.past disk.new) t }
    ensures cause { HasCause (D.fault_count disk.old) (D.fault_count disk.new) result }
    ensures no_memory { IsErrOf result DiskError.Memory → ⊥ }
{
    let mut page = Page::zeros();
    for q in 0..ring - 1 {
        put_page(&mut page, q, 8, 0, &[]);
        disk.write(base + 2 + q, &page)?;
    }
    put_page(&mut page, ring - 1, 44, 0, &first_text());
    disk.write(base + 2 + (ring - 1), &page)?;
    Ok(page)
}

/// Writes the ring and then the superblock of a log of `pages` pages that begins at page `base`,
/// and answers the ring's last page.
pub fn write_log<D: Disk>(
    disk: &mut D,
    base: u32,
    pages: u32,
    uuid: Uuid,
) -> Result<Page, DiskError>
    requires place { base + pages ≤ D.page_count disk.old }
    requires small { base + pages < 2 ^ 32 }
    requires pages { (256 ≤ pages) × (pages ≤ 32768) }
    ensures pages { D.page_count disk.new ≡ D.page_count disk.old }
    ensures last { IfOk result (λ page. IsLast (pages - 2) (pages - 3) 36 page.0 (fresh_text (pages - 2) (text_of first_record)) (fresh_ends (pages - 2))) }
    ensures image { OnOk result (D.tells → IsFreshLog pages uuid (drop base (D.image disk.new))) }
    ensures others { D.tells → OthersStay (base + 1) (pages - 1) (D.image disk.old) (D.image disk.new) }
    ensures past { D.tells_crashes → HistoriesStay (IsOutside (base + 1) (pages - 1)) (D.past disk.old) (D.past disk.new) }
    ensures moments { D.tells → D.tells_crashes → IsResting (last_of (D.past disk.old))
        → AllSince (IsPartlyFresh base pages uuid (D.image disk.old)) (D.past disk.new) (now_of (D.past disk.old)) }
    ensures cause { HasCause (D.fault_count disk.old) (D.fault_count disk.new) result }
    ensures no_memory { IsErrOf result DiskError.Memory → ⊥ }
{
    let page = write_ring(disk, base, pages - 2)?;
    write_super(disk, base, pages, uuid)?;
    Ok(page)
}

/// Writes the ring and then the superblock of a log at `log`. It doesn't sync, and takes no memory.
///
/// # Errors
///
/// A write failed; the disk's count of faults rose.
pub fn write_fresh<D: Disk>(disk: &mut D, log: Pxd, uuid: Uuid) -> Result<(), Fault>
    requires place { log.addr + log.len ≤ D.page_count disk.old }
    requires pages { (256 ≤ log.len) × (log.len ≤ 32768) }
    ensures pages { D.page_count disk.new ≡ D.page_count disk.old }
    // At Ok the log is fresh; other pages never change, nor does the log's first one, which isn't used.
    ensures image { OnOk result (D.tells → IsFreshLog log.len uuid (drop log.addr (D.image disk.new))) }
    ensures others { D.tells → OthersStay (log.addr + 1) (log.len - 1) (D.image disk.old) (D.image disk.new) }
    // The same of what a crash leaves of other pages, at each moment since the start.
    ensures past { D.tells_crashes → HistoriesStay (IsOutside (log.addr + 1) (log.len - 1)) (D.past disk.old) (D.past disk.new) }
    // And of the log's pages it leaves old ones, fresh ones, or fresh front sectors over old ones.
    ensures moments { D.tells → D.tells_crashes → IsResting (last_of (D.past disk.old))
        → AllSince (IsPartlyFresh log.addr log.len uuid (D.image disk.old)) (D.past disk.new) (now_of (D.past disk.old)) }
    ensures cause { IfErr result (λ fault. Rose (D.fault_count disk.old) (D.fault_count disk.new) × (fault ≡ record { part = Whole; count = D.fault_count disk.new })) }
    ensures quiet { OnOk result (D.fault_count disk.new ≡ D.fault_count disk.old) }
    ensures later { D.fault_count disk.old ≤ D.fault_count disk.new }
{
    let _pages = disk.pages();
    match write_log(disk, log.addr as u32, log.len, uuid) {
        Ok(_) => Ok(()),
        Err(_) => Err(Fault {
            part: Part::Whole,
            count: disk.faults(),
        }),
    }
}
