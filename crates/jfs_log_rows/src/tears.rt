//! Groups of which a crash leaves each page torn in each way.

ghost use Rattle.std.specs.Prelude.{◌<◌};

use crate::failing::one_fail;
use crate::groups::{group, read};
use crate::plain::Plain;
use crate::trial::Trial;
use jfs_disk::{Choice, Kind, MemDisk};
use std::alloc::{AllocError, Global};

/// The part of a log of 256 pages on which a group of 16,252 bytes was written, up to a sync that failed: a SYNCPT, four
/// lists and a COMMIT, behind the 36 bytes on page number 253.
fn unsynced(alloc: Global, sync: u64) -> Result<MemDisk, AllocError> {
    let fails = one_fail(alloc, Kind::Sync, sync)?;
    let plain = Plain::fresh(alloc, 254)?;
    let trial = match Trial::new(MemDisk::new(alloc, 256).with_fails(fails), 256) {
        Ok(trial) => trial,
        Err(part) => return Ok(part),
    };
    if plain.size() > 1_000_000_000 {
        return Ok(trial.into_part());
    }
    match trial.write(&group(alloc, 254, plain.size(), 1, 4)?) {
        Ok(trial) => Ok(trial.into_part()),
        Err(part) => Ok(part),
    }
}

/// So many front sectors of a page's last write.
fn tear(page: u32, sectors: u32) -> Choice {
    Choice {
        page,
        base: 0,
        top: 1,
        sectors,
    }
}

// Where the log ends with so many whole pages behind page number 253, and how many records there are from the SYNCPT on.
const ENDS: [(u32, usize); 4] = [(1_044_560, 1), (12_264, 3), (16_316, 4), (20_404, 6)];

/// How many pages are whole, from the first on.
fn whole(tears: [u32; 3]) -> usize
    ensures { result < 4 }
{
    if tears[0] < 8 {
        0
    } else if tears[1] < 8 {
        1
    } else if tears[2] < 8 {
        2
    } else {
        3
    }
}

/// Whether the log ends before the first page that is torn so.
fn ends_before(alloc: Global, tears: [u32; 3]) -> Result<bool, AllocError> {
    let mut crashed = unsynced(alloc, 3)?.crashed(&[
        tear(2, tears[0]),
        tear(3, tears[1]),
        tear(4, tears[2]),
    ]);
    let (end, records) = ENDS[whole(tears)];
    match read(alloc, &mut crashed, 256) {
        Ok(read) => Ok(read.end() == end && read.ends().len() == records),
        Err(_) => Ok(false),
    }
}

// The page numbers 254 to 256 stand at the log's pages 2 to 4. A page that is torn stands nowhere: one page after any of its sectors; and each page lost, torn
// or whole, whatever the others are.
#[test]
fn a_log_ends_before_the_first_torn_page(rt: HostRuntime) {
    for sectors in 0..=8 {
        assert!(rt;
            ends_before(rt.alloc(), [sectors, 8, 8]) == Ok(true),
            "first {sectors}"
        );
        assert!(rt;
            ends_before(rt.alloc(), [8, sectors, 8]) == Ok(true),
            "second {sectors}"
        );
        assert!(rt;
            ends_before(rt.alloc(), [8, 8, sectors]) == Ok(true),
            "third {sectors}"
        );
    }
    for tears in 0..27 {
        let sectors = [4 * (tears / 9), 4 * (tears / 3 % 3), 4 * (tears % 3)];
        assert!(rt;
            ends_before(rt.alloc(), sectors) == Ok(true),
            "tears {tears}"
        );
    }
}

/// Whether the log ends there, where the last page was written again with 36 bytes more, and so many of its front sectors are left.
fn rewrite_ends(alloc: Global, sectors: u32) -> Result<bool, AllocError> {
    let mut crashed = unsynced(alloc, 2)?.crashed(&[tear(255, sectors)]);
    let end = if sectors < 8 { 1_044_524 } else { 1_044_560 };
    match read(alloc, &mut crashed, 256) {
        Ok(read) => Ok(read.end() == end),
        Err(_) => Ok(false),
    }
}

// Torn, the last page has the smaller end.
#[test]
fn a_torn_rewrite_reads_as_the_old_page(rt: HostRuntime) {
    for sectors in 0..=8 {
        assert!(rt;
            rewrite_ends(rt.alloc(), sectors) == Ok(true),
            "{sectors} sectors"
        );
    }
}
