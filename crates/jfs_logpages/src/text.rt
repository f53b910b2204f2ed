//! Reading the ring's text from a disk.

ghost use Rattle.std.specs.Prelude.{◌≡◌, ◌<◌, ◌≤◌, ◌+◌, ◌*◌, ◌/◌, ◌^◌, ℕ, length, slice_index, IfOk};
ghost use Rattle.jfs_disk.specs.Fault.{HasCause};
ghost use Rattle.jfs_disk.specs.Image.{Image};
ghost use Rattle.jfs_logpages.specs.Marks.{mark_of};
ghost use Rattle.jfs_logpages.specs.Shown.{OfSome, OfText, AreMarksOf, IsTextOf};

use jfs_bits::{get_u16, get_u32};
use jfs_disk::{Disk, DiskError, Page};
use std::alloc::Global;

/// What is noted of a page: its number and one more, or 0 where it isn't whole and in its place.
fn mark(ring: u32, place: u32, page: &Page) -> u64
    requires ring { 0 < ring }
    ensures value { result ≡ mark_of ring place page.now.0 }
    ensures small { result < 2 ^ 33 }
    ensures size { length page.now.0 ≡ 4096 }
{
    let bytes: &[u8] = &page.0;
    let number = get_u32(bytes, 0);
    if number == get_u32(bytes, 4088) && number % ring == place {
        return u64::from(number) + 1;
    }
    0
}

/// Notes each page of the ring of a log that begins at page `base`.
pub fn read_marks<D: Disk>(
    alloc: Global,
    disk: &mut D,
    base: u32,
    ring: u32,
) -> Result<Vec<u64>, DiskError>
    requires place { base + (2 + ring) ≤ D.page_count disk.old }
    requires ring { 0 < ring }
    requires ring_small { ring < 2 ^ 16 }
    requires small { base + (2 + ring) < 2 ^ 32 }
    ensures pages { D.page_count disk.new ≡ D.page_count disk.old }
    ensures image { D.tells → D.image disk.new ≡ D.image disk.old }
    ensures past { D.tells_crashes → D.past disk.new ≡ D.past disk.old }
    ensures size { IfOk result (λ marks. length marks.items ≡ ring) }
    ensures small { IfOk result (λ marks. (p : ℕ) → slice_index marks.items p < 2 ^ 33) }
    ensures marks { IfOk result (λ marks. OfSome D.tells (D.image disk.old) (base + 1) (λ _ image. AreMarksOf base ring marks.items image)) }
    ensures cause { HasCause (D.fault_count disk.old) (D.fault_count disk.new) result }
{
    let mut marks = Vec::new(alloc);
    let mut page = Page::zeros();
    for place in 0..ring {
        disk.read(base + 2 + place, &mut page)?;
        match marks.push(mark(ring, place, &page)) {
            Ok(()) => {}
            Err(_) => return Err(DiskError::Memory),
        }
    }
    Ok(marks)
}

/// Reads half a ring of pages from number `first` on, up to the end of the last record on them.
pub fn read_text<D: Disk>(
    alloc: Global,
    disk: &mut D,
    base: u32,
    ring: u32,
    first: u64,
) -> Result<Vec<u8>, DiskError>
    requires place { base + (2 + ring) ≤ D.page_count disk.old }
    requires ring { 0 < ring }
    requires ring_small { ring < 2 ^ 16 }
    requires small { base + (2 + ring) < 2 ^ 32 }
    requires first_small { first < 2 ^ 40 }
    ensures pages { D.page_count disk.new ≡ D.page_count disk.old }
    ensures image { D.tells → D.image disk.new ≡ D.image disk.old }
    ensures past { D.tells_crashes → D.past disk.new ≡ D.past disk.old }
    ensures text { IfOk result (λ text. OfText D.tells (D.image disk.old) base ring (IsTextOf base ring first text.items)) }
    ensures size { IfOk result (λ text. length text.items ≤ 4080 * (ring / 2)) }
    ensures cause { HasCause (D.fault_count disk.old) (D.fault_count disk.new) result }
{
    let mut text: Vec<u8> = Vec::new(alloc);
    let mut end = 0usize;
    let mut page = Page::zeros();
    for n in 0..ring / 2 {
        disk.read(
            base + 2 + ((first + u64::from(n)) % u64::from(ring)) as u32,
            &mut page,
        )?;
        let _size = page.bytes();
        let bytes: &[u8] = &page.0;
        let eor = get_u16(bytes, 6).min(get_u16(bytes, 4094));
        if eor > 8 {
            end = text.len() + (usize::from(eor) - 8).min(4080);
        }
        match text.extend_from_slice(&bytes[8..4088]) {
            Ok(()) => {}
            Err(_) => return Err(DiskError::Memory),
        }
    }
    text.truncate(end);
    Ok(text)
}
