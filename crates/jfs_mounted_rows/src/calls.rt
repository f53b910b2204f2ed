//! Calls of a volume alone.

use crate::volume::{faulty, formatted, join, mount_on};
use jfs_bits::{Pxd, get_u32};
use jfs_data_steps::{DataList, DataPage};
use jfs_disk::{Disk, Fault, Kind, Page, Part};
use jfs_marks::InodeMarks;
use jfs_plain::{Call, Entry, Reply};
use jfs_ranges::{Edit, Tx};
use jfs_records::Notes;
use jfs_volume::{Called, Joined, Outcome, Volume};
use std::alloc::Global;
use std::test::*;

/// Whether a new volume has no entry, no dirty page and a ring of 1,022 pages.
fn is_new<D: Disk>(volume: &Volume<D>) -> bool {
    volume.appended() == 0
        && volume.dirty() == 0
        && volume.ring() == 1022
        && volume.halted() == None
        && volume.since() == 2
}

/// Whether a call that changes nothing joins as the entry of its line's number.
fn joins<D: Disk>(alloc: Global, volume: &mut Volume<D>, line: u32) -> bool {
    let entry = u64::from(line);
    join(alloc, volume, line) == Some(Outcome::Replied { entry }) && !volume.is_idle()
}

/// Whether all up to this entry is taken without a record, and acknowledged.
fn is_told<D: Disk>(volume: &mut Volume<D>, entry: u64) -> bool {
    let group = volume.take_group();
    let is_so = group.bytes().is_empty() && group.last() == entry;
    volume.told_all();
    let is_home = volume.home_all() == Ok(()) && volume.sync_low() == Ok(());
    is_so && is_home && volume.is_idle() && volume.taken() == entry
}

/// Whether the entry of a line alone is handed out, and once.
fn is_handed_out<D: Disk>(volume: &mut Volume<D>, line: u32) -> bool {
    let entries = volume.take_entries();
    let [entry] = entries.as_slice() else {
        return false;
    };
    entry.client == 3 && entry.line == line && volume.take_entries().is_empty()
}

// An entry that changes nothing is numbered, taken without a record, acknowledged, and handed out once.
#[test]
fn a_reply_joins(rt: HostRuntime) {
    let alloc = rt.alloc();
    let disk = formatted(alloc).expect(&rt, "a disk");
    let mut volume = mount_on(alloc, disk).expect(&rt, "a volume");
    assert!(rt; is_new(&volume));
    for line in 1..3 {
        assert!(rt; joins(alloc, &mut volume, line));
        assert!(rt; is_told(&mut volume, u64::from(line)));
        assert!(rt; is_handed_out(&mut volume, line));
    }
}

const FIRST: Fault = Fault {
    part: Part::High,
    count: 4,
};

const SECOND: Fault = Fault {
    part: Part::Low,
    count: 5,
};

/// What a volume is halted by, after two faults.
fn halted_by<D: Disk>(volume: &mut Volume<D>) -> Option<Fault> {
    volume.halt(FIRST);
    volume.halt(SECOND);
    volume.halted()
}

// A volume keeps the first fault that halts it.
#[test]
fn a_volume_halts(rt: HostRuntime) {
    let alloc = rt.alloc();
    let disk = formatted(alloc).expect(&rt, "a disk");
    let mut volume = mount_on(alloc, disk).expect(&rt, "a volume");
    assert!(rt; halted_by(&mut volume) == Some(FIRST));
}

/// A page of one byte.
fn page_of(byte: u8) -> Page {
    let mut page = Page::zeros();
    page.0.fill(byte);
    page
}

/// An entry that writes block 100, gives inode 4 back and changes no page.
fn append_on<D: Disk>(alloc: Global, volume: &mut Volume<D>) -> Option<Joined> {
    if volume.halted().is_some() || volume.appended() > 1000 {
        return None;
    }
    if !volume.has_whole_map() || volume.blocks() <= 100 {
        return None;
    }
    let mut data = DataList::new(alloc);
    let block = 100;
    let page = page_of(9);
    data.push(DataPage { block, page }).ok()?;
    let marks = InodeMarks {
        extent: None,
        taken: None,
        freed: Some(4),
    };
    let entry = Entry {
        client: 3,
        line: 1,
        call: Call::Sync,
        lazy: false,
        reply: Reply::Done,
    };
    let (tx, notes) = (Tx::new(alloc), Notes::new(alloc));
    Some(volume.append(entry, &tx, &notes, marks, &data))
}

/// All entries are acknowledged, and pages and maps are home.
fn settle<D: Disk>(volume: &mut Volume<D>) -> Option<()> {
    let _ = volume.take_group();
    volume.told_all();
    volume.home_all().ok()?;
    if volume.halted().is_some() {
        return None;
    }
    volume.home_maps().ok()
}

/// The word at a place of a page of a disk.
fn word_at<D: Disk>(disk: &mut D, n: u32, at: usize) -> Option<u32> {
    let mut page = Page::zeros();
    if n >= disk.pages() || at > 4092 || disk.read(n, &mut page).is_err() {
        return None;
    }
    Some(get_u32(&page.0, at))
}

// Data is on the disk once its entry joined, and the inode that it gave back isn't among the bits of page 28 once the maps are home. The block map didn't change, and isn't written.
#[test]
fn data_and_maps_are_written(rt: HostRuntime) {
    let alloc = rt.alloc();
    let disk = formatted(alloc).expect(&rt, "a disk");
    let mut volume = mount_on(alloc, disk).expect(&rt, "a volume");
    let joined = append_on(alloc, &mut volume).expect(&rt, "an answer");
    assert!(rt; joined == Joined::Entered { entry: 1 });
    assert!(rt; settle(&mut volume).is_some());
    let mut low = volume.into_low();
    assert!(rt; word_at(&mut low, 100, 0) == Some(0x0909_0909));
    assert!(rt; word_at(&mut low, 28, 2560) == Some(0xf000_0000));
    assert!(rt; word_at(&mut low, 20, 3072) == Some(0xffff_ffff));
}

// Nothing is written of maps that haven't changed. A write of data fails: the entry doesn't join, and the volume has halted.
#[test]
fn a_write_of_data_fails(rt: HostRuntime) {
    let alloc = rt.alloc();
    let disk = faulty(alloc, Part::Low, Kind::Write, 2, 9).expect(&rt, "a disk");
    let mut volume = mount_on(alloc, disk).expect(&rt, "a volume");
    assert!(rt; settle(&mut volume).is_some());
    let fault = Fault {
        part: Part::Low,
        count: 1,
    };
    let joined = append_on(alloc, &mut volume).expect(&rt, "an answer");
    assert!(rt; joined == Joined::Failed { fault });
    assert!(rt; volume.appended() == 0 && volume.halted() == Some(fault));
}

/// An entry with this transaction and no data joins, where it can.
fn call_on<D: Disk>(alloc: Global, volume: &mut Volume<D>, tx: &Tx) -> Option<Called> {
    if volume.halted().is_some() || volume.appended() > 1000 || !volume.has_whole_map() {
        return None;
    }
    let entry = Entry {
        client: 3,
        line: 1,
        call: Call::Sync,
        lazy: false,
        reply: Reply::Done,
    };
    let data = DataList::new(alloc);
    Some(volume.append_call(entry, tx, &data))
}

/// A transaction of one edit.
fn one(alloc: Global, edit: Edit) -> Option<Tx> {
    let mut tx = Tx::new(alloc);
    tx.push(edit).ok()?;
    Some(tx)
}

// A transaction is tested before its entry joins: that it takes blocks that are reserved, and frees the blocks of a page that it gives up.
#[test]
fn transactions_are_tested(rt: HostRuntime) {
    let alloc = rt.alloc();
    let disk = formatted(alloc).expect(&rt, "a disk");
    let mut volume = mount_on(alloc, disk).expect(&rt, "a volume");
    let nothing = Tx::new(alloc);
    let joined = call_on(alloc, &mut volume, &nothing);
    assert!(rt; joined == Some(Called::Entered { entry: 1 }));
    let takes = one(alloc, Edit::Alloc(Pxd { len: 1, addr: 2000 })).expect(&rt, "a transaction");
    assert!(rt; call_on(alloc, &mut volume, &takes) == Some(Called::Unfit));
    let gives_up = one(alloc, Edit::NoRedo { page: 2000 }).expect(&rt, "a transaction");
    assert!(rt; call_on(alloc, &mut volume, &gives_up) == Some(Called::Unfit));
    assert!(rt; volume.appended() == 1 && volume.dirty() == 0);
    assert!(rt; volume.halted() == None);
}
