//! A log that is written group by group.

ghost use Rattle.std.specs.Prelude.{◌≡◌, ◌≤◌, None};

use jfs_disk::{Disk, MemDisk};
use jfs_logpages::{GroupText, LogSide};
use uuid::Uuid;

/// A log that no write of failed, and a number that its last page's isn't past.
#[derive(Drop)]
pub struct Trial {
    log: LogSide<MemDisk>,
    most: u32,
    ghost running: { log.halted ≡ None },
    ghost number: { log.last.number ≤ most },
}

impl Trial {
    /// A fresh log of so many pages. `Err` has the part where that failed, or it is too small.
    pub fn new(part: MemDisk, pages: u32) -> Result<Trial, MemDisk>
        requires { (256 ≤ pages) × (pages ≤ 32768) }
    {
        if part.pages() < pages {
            return Err(part);
        }
        match LogSide::fresh(part, pages, Uuid::nil()) {
            Ok(log) => Ok(Trial { log, most: pages }),
            Err(refused) => Err(refused.part),
        }
    }

    /// Writes a group. `Err` has the part where that failed, or the group has no room.
    pub fn write(self, text: &GroupText) -> Result<Trial, MemDisk> {
        let Trial { log, most } = self;
        let mut log = log;
        if text.pages() > log.room() || log.durable() > text.last() || most > 1_000_000_000 {
            return Err(log.into_part());
        }
        match log.write_group(text) {
            Ok(()) => Ok(Trial {
                log,
                most: most + 100_000,
            }),
            Err(_) => Err(log.into_part()),
        }
    }

    /// The log's part.
    pub fn into_part(self) -> MemDisk {
        let Trial { log, most: _ } = self;
        log.into_part()
    }
}
