//! Reading a log.

ghost use Rattle.std.specs.Prelude.{◌≡◌, ◌<◌, ◌≤◌, ◌+◌, ◌-◌, ◌*◌, ◌/◌, ◌^◌, ⊤, ℕ, List, ◌∷◌, length, drop, IfOk, IfErr, OnOk, OnErr};
ghost use Rattle.jfs_bits.specs.Count.{Rose};
ghost use Rattle.jfs_disk.specs.Fault.{HasCause};
ghost use Rattle.jfs_disk.specs.Image.{Image, page_of};
ghost use Rattle.jfs_logpages.specs.Fresh.{own_label};
ghost use Rattle.jfs_logpages.specs.Outcome.{IsReadFault, IsBadLogOrFault, TellsNothing, IsRefusal};
ghost use Rattle.jfs_logpages.specs.ReadLog.{HasSuper, label_of, IsNotOwn, BreaksRing, IsReadLog};
ghost use Rattle.jfs_logpages.specs.Ring.{Reads};
ghost use Rattle.jfs_logpages.specs.Shown.{OfSome};

use crate::backwards::read_records;
use crate::error::RingError;
use crate::fresh::LABEL;
use crate::place::Window;
use crate::reading::last_run;
use crate::ring_text::RingText;
use crate::text::{read_marks, read_text};
use jfs_bits::{Pxd, Rule};
use jfs_disk::{Disk, DiskError, Fault, Page, Part};
use jfs_logfmt::read_log_super;
use std::alloc::Global;

/// Why a page was not read, where the disk's count now stands at `count`.
fn read_error(error: DiskError, count: u64) -> RingError
    ensures cause { (before : ℕ) → (error ≡ DiskError.Failed → Rose before count) → IsReadFault before count result }
    ensures nothing { TellsNothing result }
{
    match error {
        DiskError::Failed => RingError::Read(Fault {
            part: Part::Whole,
            count,
        }),
        DiskError::Memory => RingError::Memory,
    }
}

/// Reads the superblock of a log of `pages` pages that begins at page `base`: whether the log is
/// this project's.
fn read_super<D: Disk>(disk: &mut D, base: u32, pages: u32) -> Result<(), RingError>
    requires place { base + pages ≤ D.page_count disk.old }
    requires small { base + pages < 2 ^ 32 }
    requires some { 2 ≤ pages }
    ensures pages { D.page_count disk.new ≡ D.page_count disk.old }
    ensures image { D.tells → D.image disk.new ≡ D.image disk.old }
    ensures past { D.tells_crashes → D.past disk.new ≡ D.past disk.old }
    ensures later { D.fault_count disk.old ≤ D.fault_count disk.new }
    ensures own { OnOk result ((image : Image) × (D.tells → image ≡ D.image disk.old) × HasSuper pages (drop base image) × (label_of (drop base image) ≡ own_label)) }
    ensures other { IfErr result (λ error. (image : Image) × (D.tells → image ≡ D.image disk.old) × IsNotOwn pages (drop base image) error) }
    ensures quiet { OnOk result (D.fault_count disk.new ≡ D.fault_count disk.old) }
    ensures refused { IfErr result (λ error. IsRefusal error → D.fault_count disk.new ≡ D.fault_count disk.old) }
    ensures cause { IfErr result (IsReadFault (D.fault_count disk.old) (D.fault_count disk.new)) }
{
    let mut page = Page::zeros();
    match disk.read(base + 1, &mut page) {
        Ok(()) => {}
        Err(error) => return Err(read_error(error, disk.faults())),
    }
    let _size = page.bytes();
    let bad = RingError::BadLog {
        address: 4096,
        rule: Rule::Super,
    };
    match read_log_super(&page) {
        Ok(s) => {
            if s.size != pages {
                return Err(bad);
            }
            if s.label.as_slice() != LABEL.as_slice() {
                return Err(RingError::ForeignLog { label: s.label });
            }
            Ok(())
        }
        Err(_) => Err(bad),
    }
}

/// The number of the first page of a ring's newest half, and its text.
fn read_newest<D: Disk>(
    alloc: Global,
    disk: &mut D,
    base: u32,
    ring: u32,
) -> Result<(u64, Vec<u8>), RingError>
    requires place { base + (2 + ring) ≤ D.page_count disk.old }
    requires ring { 2 ≤ ring }
    requires ring_small { ring < 2 ^ 16 }
    requires small { base + (2 + ring) < 2 ^ 32 }
    ensures pages { D.page_count disk.new ≡ D.page_count disk.old }
    ensures image { D.tells → D.image disk.new ≡ D.image disk.old }
    ensures past { D.tells_crashes → D.past disk.new ≡ D.past disk.old }
    ensures later { D.fault_count disk.old ≤ D.fault_count disk.new }
    ensures text { IfOk result (λ read. OfSome D.tells (D.image disk.old) (base + 1) (λ _ image. Reads ring (drop base image) read.0 read.1.items)) }
    ensures size { IfOk result (λ read. (length read.1.items ≤ 4080 * (ring / 2)) × (read.0 < 2 ^ 40)) }
    ensures none { IfErr result (λ error. OfSome D.tells (D.image disk.old) (base + 1) (λ _ image. IsBadLogOrFault (BreaksRing ring (drop base image)) error)) }
    ensures quiet { OnOk result (D.fault_count disk.new ≡ D.fault_count disk.old) }
    ensures refused { IfErr result (λ error. IsRefusal error → D.fault_count disk.new ≡ D.fault_count disk.old) }
    ensures cause { IfErr result (IsReadFault (D.fault_count disk.old) (D.fault_count disk.new)) }
{
    let marks = match read_marks(alloc, disk, base, ring) {
        Ok(marks) => marks,
        Err(error) => return Err(read_error(error, disk.faults())),
    };
    let half = u64::from(ring / 2);
    match last_run(&marks, half) {
        None => Err(RingError::BadLog {
            address: 0,
            rule: Rule::Ring,
        }),
        Some(last) => {
            let first = last + 1 - half;
            match read_text(alloc, disk, base, ring, first) {
                Ok(text) => Ok((first, text)),
                Err(error) => Err(read_error(error, disk.faults())),
            }
        }
    }
}

/// Reads the log at `log` of a volume of `blocks` blocks: the text of its ring, and its records from
/// the end backwards as far as the place that the newest SYNCPT gives.
///
/// # Errors
///
/// `ForeignLog` and `BadLog` exactly where the log is another's, or breaks that rule first; `Read`
/// where the device failed; or want of memory.
pub fn read_ring<D: Disk>(
    alloc: Global,
    disk: &mut D,
    log: Pxd,
    blocks: u32,
) -> Result<RingText, RingError>
    requires place { log.addr + log.len ≤ D.page_count disk.old }
    requires pages { (256 ≤ log.len) × (log.len ≤ 32768) }
    ensures pages { D.page_count disk.new ≡ D.page_count disk.old }
    ensures image { D.tells → D.image disk.new ≡ D.image disk.old }
    ensures past { D.tells_crashes → D.past disk.new ≡ D.past disk.old }
    ensures later { D.fault_count disk.old ≤ D.fault_count disk.new }
    // Of a disk that doesn't tell, there is some image by which the answer is right.
    ensures read { (image : Image) × (D.tells → image ≡ D.image disk.old) × IsReadLog log.len blocks (drop log.addr image) result }
    ensures quiet { OnOk result (D.fault_count disk.new ≡ D.fault_count disk.old) }
    ensures refused { IfErr result (λ error. IsRefusal error → D.fault_count disk.new ≡ D.fault_count disk.old) }
    ensures cause { IfErr result (IsReadFault (D.fault_count disk.old) (D.fault_count disk.new)) }
{
    let _pages = disk.pages();
    let base = log.addr as u32;
    let ring = log.len - 2;
    match read_super(disk, base, log.len) {
        Ok(()) => {}
        Err(error) => return Err(error),
    }
    let (first, bytes) = match read_newest(alloc, disk, base, ring) {
        Ok(read) => read,
        Err(error) => return Err(error),
    };
    let window = Window {
        ring,
        first,
        size: bytes.len(),
    };
    match read_records(alloc, &bytes, window, blocks) {
        Ok(ends) => Ok(RingText::new(bytes, ends, ring, first)),
        Err(error) => Err(error),
    }
}
