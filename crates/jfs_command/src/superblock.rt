//! The look at the superblock with which commands begin.

ghost use Rattle.std.specs.Prelude.{◌≡◌, ◌≤◌, IfOk};
ghost use Rattle.jfs_disk.specs.Image.{ArePages};
ghost use Rattle.jfs_super.specs.Super.{FitsSuper};
ghost use Rattle.jfs_command.specs.Superblock.{Looks};

use crate::outcome::End;
use crate::status::{Status, Stop};
use jfs_disk::{Disk, DiskError, Page};
use jfs_super::{Super, read_super};

/// The page of the primary superblock.
pub const SUPERBLOCK: u32 = 8;

/// Reads the superblock; page 8 is read once, and not at all where there is none.
pub fn look<D: Disk>(disk: &mut D) -> Result<Super, End>
    ensures cause { Looks D.tells (D.page_count disk.old) (D.image disk.old)
        (record { before = D.fault_count disk.old; now = D.fault_count disk.new }) result }
    ensures fits { IfOk result FitsSuper }
    ensures later { D.fault_count disk.old ≤ D.fault_count disk.new }
    ensures pages { D.page_count disk.new ≡ D.page_count disk.old }
    ensures image { D.tells → D.image disk.new ≡ D.image disk.old }
    ensures past { D.tells_crashes → D.past disk.new ≡ D.past disk.old }
    ensures whole { D.tells → ArePages (D.page_count disk.old) (D.image disk.old) }
{
    let pages = disk.pages();
    let mut page = Page::zeros();
    if pages > SUPERBLOCK {
        match disk.read(SUPERBLOCK, &mut page) {
            Ok(()) => {}
            Err(DiskError::Failed) => return Err(End::Stopped(Stop::Disk)),
            Err(DiskError::Memory) => return Err(End::Stopped(Stop::Memory)),
        }
    }
    // so that the page's size is known
    let _bytes = page.bytes();
    match read_super(&page, pages) {
        Ok(s) => Ok(s),
        Err(bad) => Err(End::Own(Status::BadImage {
            page: SUPERBLOCK,
            rule: bad.rule,
            value: bad.value,
        })),
    }
}
