//! What a mount writes.

use crate::volume::{PAGES, begin_on, faulty, formatted, super_of};
use jfs_disk::{Disk, Fault, Kind, Part};
use jfs_mount_disk::{BeginError, Begun, NotBegun};
use jfs_super::{Super, VolumeState};
use std::test::*;

/// Whether page 8 says that the volume is mounted, and nothing else is changed there.
fn is_marked<D: Disk>(low: &mut D, s: &Super) -> bool {
    match super_of(low) {
        Some(marked) => marked.state == VolumeState::MOUNTED && marked.uuid == s.uuid,
        None => false,
    }
}

/// Whether the log has one SYNCPT at the start of its last page.
fn is_ready<D: Disk + Drop>(s: &Super, begun: Begun<D>) -> bool {
    let Begun { low, log } = begun;
    let mut low = low;
    s.state == VolumeState::CLEAN
        && s.logpxd.len == 1024
        && u64::from(low.pages()) == s.logpxd.addr
        && is_marked(&mut low, s)
        && log.durable() == 0
        && log.halted() == None
        && log.position() == 4_165_716
}

#[test]
fn a_disk_is_made_ready(rt: HostRuntime) {
    let disk = formatted(rt.alloc()).expect(&rt, "a disk");
    let (s, answer) = begin_on(disk).expect(&rt, "a superblock");
    let is_so = match answer {
        Ok(begun) => is_ready(&s, begun),
        Err(_) => false,
    };
    assert!(rt; is_so);
}

const FAULT: Fault = Fault {
    part: Part::High,
    count: 1,
};

/// Whether the disk is handed back whole.
fn is_handed_back<D: Disk + Drop>(not: NotBegun<D>) -> bool {
    let mut disk = not.disk;
    let is_clean = match super_of(&mut disk) {
        Some(kept) => kept.state == VolumeState::CLEAN,
        None => false,
    };
    is_clean && not.why == BeginError::Disk(FAULT) && disk.pages() == PAGES
}

// The first write of the log fails: the disk is handed back whole.
#[test]
fn a_log_that_fails(rt: HostRuntime) {
    let disk = faulty(rt.alloc(), Part::High, Kind::Write, 1, 1).expect(&rt, "a disk");
    let (_, answer) = begin_on(disk).expect(&rt, "a superblock");
    let is_so = match answer {
        Ok(_) => false,
        Err(not) => is_handed_back(not),
    };
    assert!(rt; is_so);
}
