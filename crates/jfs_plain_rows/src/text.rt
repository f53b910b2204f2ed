//! The line of an entry for each reply.

use jfs_bits::{Blob, Moment, Rule};
use jfs_disk::{Fault, Part};
use jfs_name::{Name, NameEntry, NameList};
use jfs_plain::{Call, Entry, NodeKind, Refusal, Reply, Stat};
use jfs_script::write_entry;
use std::alloc::{AllocError, Global};
use std::test::*;

// The line of the seventh entry, of client 2's line 3.
fn line_of(alloc: Global, reply: Reply, durable: bool) -> Result<Vec<u8>, AllocError> {
    let entry = Entry {
        client: 2,
        line: 3,
        call: Call::Sync,
        lazy: false,
        reply,
    };
    let mut text = Vec::new(alloc);
    write_entry(alloc, &entry, 7, durable, &mut text)?;
    Ok(text)
}

fn blob(alloc: Global, bytes: &[u8]) -> Result<Blob, AllocError> {
    let mut blob = Blob::new(alloc);
    blob.extend_from_slice(bytes)?;
    Ok(blob)
}

static LISTED: [([u16; 2], u32); 2] = [([0x61, 0x25], 5), ([0xe4, 0x62], 6)];

fn names(alloc: Global) -> Result<NameList, AllocError> {
    let mut names = NameList::new(alloc);
    for (units, inode) in LISTED.iter() {
        let mut name = Name::new(alloc);
        name.extend_from_slice(units)?;
        names.push(NameEntry {
            name,
            inode: *inode,
        })?;
    }
    Ok(names)
}

fn stat(kind: NodeKind, mode: u32) -> Stat {
    Stat {
        kind,
        mode,
        nlink: 2,
        uid: 3,
        gid: 4,
        size: 18_446_744_073_709_551_615,
        inode: 5,
        mtime: Moment {
            sec: 1000,
            nano: 99,
        },
    }
}

// Whether an entry with this reply has this line.
fn is_line(alloc: Global, reply: Reply, durable: bool, wanted: &str) -> Result<bool, AllocError> {
    let text = line_of(alloc, reply, durable)?;
    Ok(text.as_slice() == wanted.as_bytes())
}

fn is_bytes(alloc: Global, bytes: &[u8], wanted: &str) -> Result<bool, AllocError> {
    is_line(alloc, Reply::Bytes(blob(alloc, bytes)?), false, wanted)
}

fn is_target(alloc: Global, bytes: &[u8], wanted: &str) -> Result<bool, AllocError> {
    is_line(alloc, Reply::Target(blob(alloc, bytes)?), false, wanted)
}

#[test]
fn replies(rt: HostRuntime) {
    let alloc = rt.alloc();
    assert!(rt; is_line(alloc, Reply::Done, true, "7 2.3 ok +\n").expect(&rt, "memory"));
    assert!(rt; is_line(alloc, Reply::Done, false, "7 2.3 ok -\n").expect(&rt, "memory"));
    assert!(rt; is_bytes(alloc, b"\0\x4f\xff", "7 2.3 bytes 004fff -\n").expect(&rt, "memory"));
    assert!(rt; is_bytes(alloc, b"", "7 2.3 bytes - -\n").expect(&rt, "memory"));
    assert!(rt;
        is_target(alloc, b"a b%\x7f/", "7 2.3 target a%20b%25%7F/ -\n").expect(&rt, "memory")
    );
    let listed = Reply::Names(names(alloc).expect(&rt, "memory"));
    assert!(rt;
        is_line(alloc, listed, false, "7 2.3 names 2 a%u0025 %u00E4b -\n").expect(&rt, "memory")
    );
    let listed = Reply::Names(NameList::new(alloc));
    assert!(rt; is_line(alloc, listed, false, "7 2.3 names 0 -\n").expect(&rt, "memory"));
}

static STATS: [(NodeKind, u32, &str); 4] = [
    (
        NodeKind::Dir,
        0,
        "7 2.3 stat dir 0000 2 3 4 18446744073709551615 5 1000 -\n",
    ),
    (
        NodeKind::File,
        420,
        "7 2.3 stat file 0644 2 3 4 18446744073709551615 5 1000 -\n",
    ),
    (
        NodeKind::Link,
        511,
        "7 2.3 stat link 0777 2 3 4 18446744073709551615 5 1000 -\n",
    ),
    (
        NodeKind::Other,
        4095,
        "7 2.3 stat other 7777 2 3 4 18446744073709551615 5 1000 -\n",
    ),
];

#[test]
fn stats(rt: HostRuntime) {
    for (kind, mode, wanted) in STATS.iter() {
        let reply = Reply::Attr(stat(*kind, *mode));
        assert!(rt;
            is_line(rt.alloc(), reply, false, wanted).expect(&rt, "memory"),
            "{wanted}"
        );
    }
}

const LOW: Fault = Fault {
    part: Part::Low,
    count: 3,
};

const LOG: Fault = Fault {
    part: Part::High,
    count: 1,
};

static REFUSALS: [(Refusal, &str); 16] = [
    (Refusal::NotFound, "7 2.3 refused 1 NotFound -\n"),
    (Refusal::NotDir, "7 2.3 refused 2 NotDir -\n"),
    (Refusal::IsDir, "7 2.3 refused 3 IsDir -\n"),
    (Refusal::NotFile, "7 2.3 refused 4 NotFile -\n"),
    (Refusal::Exists, "7 2.3 refused 5 Exists -\n"),
    (Refusal::NotEmpty, "7 2.3 refused 6 NotEmpty -\n"),
    (Refusal::TooManyLinks, "7 2.3 refused 7 TooManyLinks -\n"),
    (Refusal::FileTooBig, "7 2.3 refused 8 FileTooBig -\n"),
    (Refusal::IntoItself, "7 2.3 refused 9 IntoItself -\n"),
    (
        Refusal::NoSpace { free: 79 },
        "7 2.3 refused 10 NoSpace 79 -\n",
    ),
    (Refusal::NoInodes, "7 2.3 refused 11 NoInodes -\n"),
    (
        Refusal::ReadOnly { fault: LOG },
        "7 2.3 refused 12 ReadOnly log 1 -\n",
    ),
    (
        Refusal::IoFault { fault: LOW },
        "7 2.3 refused 13 IoFault low 3 -\n",
    ),
    (Refusal::OutOfMemory, "7 2.3 refused 14 OutOfMemory -\n"),
    (
        Refusal::Damaged {
            page: 36,
            rule: Rule::Order,
        },
        "7 2.3 refused 15 Damaged 36 order -\n",
    ),
    (
        Refusal::TooDeep { inode: 2 },
        "7 2.3 refused 16 TooDeep 2 -\n",
    ),
];

#[test]
fn refusals(rt: HostRuntime) {
    for (refusal, wanted) in REFUSALS.iter() {
        let reply = Reply::Refused(*refusal);
        assert!(rt;
            is_line(rt.alloc(), reply, false, wanted).expect(&rt, "memory"),
            "{wanted}"
        );
    }
}
