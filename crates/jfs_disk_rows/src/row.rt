//! Pages as the rows write and read them.

ghost use Rattle.std.specs.Prelude.{◌≡◌, ◌<◌, IfSome};
ghost use Rattle.jfs_disk.specs.Memory.{page_count_of};

use jfs_disk::{Choice, Disk, DiskError, Fail, MemDisk, Page};
use std::alloc::Global;

/// Whether a page has so many bytes `front`, and then bytes `rest`.
pub fn is_torn(page: &Page, front: u8, at: usize, rest: u8) -> bool {
    let bytes: &[u8] = &page.0;
    for number in 0..4096 {
        let wanted = if number < at { front } else { rest };
        if bytes[number] != wanted {
            return false;
        }
    }
    true
}

/// Writes page `n` with one byte.
pub fn fill<D: Disk>(disk: &mut D, n: u32, byte: u8) -> Result<(), DiskError>
    requires { n < D.page_count disk.old }
    ensures pages { D.page_count disk.new ≡ D.page_count disk.old }
    ensures room { D.room disk.new ≡ D.room disk.old }
{
    disk.write(n, &Page([byte; 4096]))
}

/// Whether a read of page `n` gives so many bytes `front`, and then bytes `rest`.
pub fn reads<D: Disk>(disk: &mut D, n: u32, front: u8, at: usize, rest: u8) -> bool
    requires { n < D.page_count disk.old }
    ensures pages { D.page_count disk.new ≡ D.page_count disk.old }
    ensures room { D.room disk.new ≡ D.room disk.old }
{
    let mut page = Page::zeros();
    disk.read(n, &mut page).is_ok() && is_torn(&page, front, at, rest)
}

/// Whether a read of page `n` gives that byte alone.
pub fn is_filled<D: Disk>(disk: &mut D, n: u32, byte: u8) -> bool
    requires { n < D.page_count disk.old }
    ensures pages { D.page_count disk.new ≡ D.page_count disk.old }
    ensures room { D.room disk.new ≡ D.room disk.old }
{
    reads(disk, n, byte, 4096, byte)
}

/// A disk of so many pages that fails so.
pub fn failing(alloc: Global, pages: u32, fail: Fail) -> Option<MemDisk>
    ensures { IfSome result (λ disk. page_count_of disk ≡ pages) }
{
    let mut fails = Vec::new(alloc);
    fails.push(fail).ok()?;
    Some(MemDisk::new(alloc, pages).with_fails(fails))
}

/// A disk once a crash chose so of its pages.
pub fn crash(disk: MemDisk, choices: &[Choice]) -> MemDisk
    ensures { page_count_of result ≡ page_count_of disk }
{
    disk.crashed(choices)
}
