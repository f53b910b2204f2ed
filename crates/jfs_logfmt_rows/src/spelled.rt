ghost use Rattle.std.specs.Prelude.{IfOk};
ghost use Rattle.jfs_logfmt.specs.Written.{Fits};
ghost use Rattle.jfs_logfmt.specs.Rules.{IsRecordOf};

use crate::written::{blob_of, there_and_back};
use jfs_bits::{LineRange, PageKind, Pxd, PxdList, Ranges};
use jfs_logfmt::{Record, read_record_before, write_record};
use std::alloc::{AllocError, Global};
use std::test::*;

const BLOCKS: u32 = 3008;

const COMMIT: [u8; 36] = [
    1, 0, 0, 0, 0xd4, 0xf0, 0x3f, 0, 0, 0x80, 0, 0, 0, 0, 0, 0, 0, 0, 0, 0, 0, 0, 0, 0, 0, 0, 0, 0,
    0, 0, 0, 0, 0, 0, 0, 0,
];

const SYNCPT: [u8; 36] = [
    0, 0, 0, 0, 0, 0, 0, 0, 0, 0x40, 0, 0, 0, 0, 0, 0, 0x2c, 0x20, 0, 0, 0, 0, 0, 0, 0, 0, 0, 0, 0,
    0, 0, 0, 0, 0, 0, 0,
];

// Page 20 of inode 4's directory tree.
const NO_REDO: [u8; 36] = [
    2, 0, 0, 0, 0, 0, 0, 0, 0x80, 0, 0, 0, 0, 0, 0, 0, 16, 0, 0, 0, 4, 0, 0, 0, 4, 0, 0, 0, 1, 0,
    0, 0, 20, 0, 0, 0,
];

// Lines 2 and 3 and line 255 of the new page 2900 of inode 300's extent tree.
const REDO: [u8; 92] = [
    1, 2, 3, 4, 5, 6, 7, 8, 9, 10, 11, 12, 13, 14, 15, 16, 17, 18, 19, 20, 21, 22, 23, 24, 25, 26,
    27, 28, 29, 30, 31, 32, 2, 0, 2, 0, 41, 42, 43, 44, 45, 46, 47, 48, 49, 50, 51, 52, 53, 54, 55,
    56, 255, 0, 1, 0, 3, 0, 0, 0, 9, 0, 0, 0, 0, 8, 56, 0, 0, 0, 0, 0, 16, 0, 0, 0, 0x2c, 1, 0, 0,
    2, 1, 4, 0, 1, 0, 0, 0, 0x54, 0x0b, 0, 0,
];

// Blocks 100 to 103 and block 3007 are allocated for inode 5.
const UPDATE: [u8; 52] = [
    4, 0, 0, 0, 100, 0, 0, 0, 1, 0, 0, 0, 0xbf, 0x0b, 0, 0, 4, 0, 0, 0, 9, 0, 0, 0, 8, 0, 16, 0, 0,
    0, 0, 0, 16, 0, 0, 0, 5, 0, 0, 0, 0x40, 0, 2, 0, 0, 0, 0, 0, 0, 0, 0, 0,
];

/// The record that the bytes of `REDO` spell.
fn redo(alloc: Global) -> Result<Record, AllocError>
    ensures { IfOk result (λ r. Fits r × IsRecordOf 3008 r) }
{
    let mut ranges = Ranges::new(alloc);
    ranges.push(LineRange {
        first: 2,
        bytes: blob_of(alloc, &REDO[..32])?,
    })?;
    ranges.push(LineRange {
        first: 255,
        bytes: blob_of(alloc, &REDO[36..52])?,
    })?;
    Ok(Record::Redo {
        tid: 3,
        back: 9,
        fileset: 16,
        inode: 300,
        kind: PageKind::Xtree,
        new_page: true,
        at: Pxd { len: 1, addr: 2900 },
        ranges,
    })
}

/// Three bytes, and then these.
fn behind(alloc: Global, text: &[u8]) -> Result<Vec<u8>, AllocError> {
    let mut bytes = Vec::new(alloc);
    bytes.extend_from_slice(&[7, 0, 0x80])?;
    bytes.extend_from_slice(text)?;
    Ok(bytes)
}

#[test]
fn reads_each_type(rt: HostRuntime) {
    let alloc = rt.alloc();
    let commit = read_record_before(
        alloc,
        behind(alloc, &COMMIT).expect(&rt, "memory").as_slice(),
        BLOCKS,
    );
    assert!(rt;
        matches!(
            &commit,
            Ok((
                Record::Commit {
                    tid: 1,
                    back: 4_190_420
                },
                3
            ))
        )
    );
    let syncpt = read_record_before(
        alloc,
        behind(alloc, &SYNCPT).expect(&rt, "memory").as_slice(),
        BLOCKS,
    );
    assert!(rt; matches!(&syncpt, Ok((Record::SyncPt { sync: 8236 }, 3))));
    let no_redo = read_record_before(
        alloc,
        behind(alloc, &NO_REDO).expect(&rt, "memory").as_slice(),
        BLOCKS,
    );
    assert!(rt;
        matches!(
            &no_redo,
            Ok((
                Record::NoRedo {
                    tid: 2,
                    back: 0,
                    fileset: 16,
                    inode: 4,
                    kind: PageKind::Dtree,
                    at: Pxd { len: 1, addr: 20 },
                },
                3
            ))
        )
    );
}

#[test]
fn reads_ranges(rt: HostRuntime) {
    let alloc = rt.alloc();
    let read = read_record_before(
        alloc,
        behind(alloc, &REDO).expect(&rt, "memory").as_slice(),
        BLOCKS,
    );
    let Ok(
        (
            Record::Redo {
                tid: 3,
                back: 9,
                fileset: 16,
                inode: 300,
                kind: PageKind::Xtree,
                new_page: true,
                at: Pxd { len: 1, addr: 2900 },
                ranges,
            },
            3,
        ),
    ) = read
    else {
        panic!(rt; "these are lines of a page");
    };
    let first = ranges.get(0).expect(&rt, "there are two ranges");
    let second = ranges.get(1).expect(&rt, "there are two ranges");
    assert_eq!(rt; ranges.len(), 2);
    assert_eq!(rt; (first.first, first.bytes.len()), (2, 32));
    assert_eq!(rt; (second.first, second.bytes.len()), (255, 16));
    assert_eq!(rt;
        (first.bytes.get(0), first.bytes.get(31)),
        (Some(&1), Some(&32))
    );
    assert_eq!(rt;
        (second.bytes.get(0), second.bytes.get(15)),
        (Some(&41), Some(&56))
    );
}

#[test]
fn reads_runs(rt: HostRuntime) {
    let alloc = rt.alloc();
    let read = read_record_before(
        alloc,
        behind(alloc, &UPDATE).expect(&rt, "memory").as_slice(),
        BLOCKS,
    );
    let Ok(
        (
            Record::Update {
                tid: 4,
                back: 9,
                fileset: 16,
                inode: 5,
                alloc: true,
                list,
            },
            3,
        ),
    ) = read
    else {
        panic!(rt; "these are blocks");
    };
    assert_eq!(rt; list.len(), 2);
    assert_eq!(rt; list.get(0), Some(&Pxd { len: 4, addr: 100 }));
    assert_eq!(rt; list.get(1), Some(&Pxd { len: 1, addr: 3007 }));
}

/// A record's text.
fn written(alloc: Global, r: &Record) -> Result<Vec<u8>, AllocError>
    requires { Fits r.now }
{
    let mut text = Vec::new(alloc);
    write_record(r, &mut text)?;
    Ok(text)
}

#[test]
fn writes_each_type(rt: HostRuntime) {
    let alloc = rt.alloc();
    let commit = Record::Commit {
        tid: 1,
        back: 4_190_420,
    };
    assert_eq!(rt;
        written(alloc, &commit).expect(&rt, "memory").as_slice(),
        COMMIT.as_slice()
    );
    let syncpt = Record::SyncPt { sync: 8236 };
    assert_eq!(rt;
        written(alloc, &syncpt).expect(&rt, "memory").as_slice(),
        SYNCPT.as_slice()
    );
    let no_redo = Record::NoRedo {
        tid: 2,
        back: 0,
        fileset: 16,
        inode: 4,
        kind: PageKind::Dtree,
        at: Pxd { len: 1, addr: 20 },
    };
    assert_eq!(rt;
        written(alloc, &no_redo).expect(&rt, "memory").as_slice(),
        NO_REDO.as_slice()
    );
}

#[test]
fn writes_runs(rt: HostRuntime) {
    let alloc = rt.alloc();
    let mut list = PxdList::new(alloc);
    list.push(Pxd { len: 4, addr: 100 }).expect(&rt, "memory");
    list.push(Pxd { len: 1, addr: 3007 }).expect(&rt, "memory");
    let update = Record::Update {
        tid: 4,
        back: 9,
        fileset: 16,
        inode: 5,
        alloc: true,
        list,
    };
    assert_eq!(rt;
        written(alloc, &update).expect(&rt, "memory").as_slice(),
        UPDATE.as_slice()
    );
}

#[test]
fn writes_ranges(rt: HostRuntime) {
    let alloc = rt.alloc();
    let r = redo(alloc).expect(&rt, "memory");
    let mut text = Vec::new(alloc);
    write_record(&r, &mut text).expect(&rt, "memory");
    assert_eq!(rt; text.as_slice(), REDO.as_slice());
    let (_, start) = there_and_back(alloc, text, &r, BLOCKS)
        .ok()
        .expect(&rt, "it is read back");
    assert_eq!(rt; start, 92);
}
