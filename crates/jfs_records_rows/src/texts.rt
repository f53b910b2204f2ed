//! The records of a log that was read.

ghost use Rattle.std.specs.Prelude.{◌≤◌};

use jfs_bits::Pxd;
use jfs_disk::{Disk, SureDisk};
use jfs_logfmt::Record;
use jfs_logpages::{read_ring, write_fresh};
use jfs_records::{read_records, transactions};
use std::alloc::Global;
use std::test::*;
use uuid::Uuid;

/// The records of a fresh log of a disk's first 256 pages, and how many transactions they say.
fn fresh_records<D: Disk>(alloc: Global, disk: &mut D) -> Option<(Vec<Record>, usize)>
    requires { 256 ≤ D.page_count disk.old }
{
    let log = Pxd { len: 256, addr: 0 };
    write_fresh(disk, log, Uuid::from_bytes([7; 16])).ok()?;
    let Ok(read) = read_ring(alloc, disk, log, 3008) else {
        return None;
    };
    let Ok(records) = read_records(alloc, &read, 3008) else {
        return None;
    };
    let said = transactions(alloc, records.as_slice()).ok()?.len();
    Some((records, said))
}

// A fresh log has one record, a SYNCPT that gives itself.
#[test]
fn a_fresh_log_says_no_transaction(rt: HostRuntime) {
    let mut disk = SureDisk::new(rt.alloc(), 256).expect(&rt, "memory");
    let (records, said) = fresh_records(rt.alloc(), &mut disk).expect(&rt, "a log");
    assert!(rt; matches!(records.as_slice(), [Record::SyncPt { sync: 0 }]));
    assert_eq!(rt; said, 0);
}
