//! The lines of generated scripts.

use jfs_gen::workload;
use jfs_io::SureSource;
use jfs_plain::Line;
use jfs_script::read_script;
use std::alloc::{AllocError, Global};
use std::test::*;

/// A number, a client, how many calls, and the lines as a script spells them.
type Row = (u64, u32, u32, &'static [&'static [u8]]);

#[rattlefmt::skip]
static ROWS: [Row; 4] = [
    (
        7,
        1,
        12,
        &[
            b"mkdir /g1 0755",
            b"truncate /g1/f8 16384",
            b"stat /g1/f13",
            b"fill /g1/f14 0 4096 0e",
            b"truncate /g1/f3 16384",
            b"fill /g1/f15 28672 4096 0f",
            b"fill /g1/f5 28672 4096 05",
            b"stat /g1/f0",
            b"fill /g1/f12 20480 4096 0c",
            b"unlink /g1/f2",
            b"truncate /g1/f10 24576",
            b"truncate /g1/f10 8192",
            b"unlink /g1/f2",
            b"sync",
        ],
    ),
    (
        7,
        12,
        6,
        &[
            b"mkdir /g12 0755",
            b"create /g12/f7 0644",
            b"fill /g12/f0 20480 4096 00",
            b"truncate /g12/f3 0",
            b"create /g12/f11 0644",
            b"stat /g12/f3",
            b"fill /g12/f12 16384 4096 0c",
            b"sync",
        ],
    ),
    (
        18446744073709551615,
        16,
        8,
        &[
            b"mkdir /g16 0755",
            b"stat /g16/f7",
            b"truncate /g16/f4 12288",
            b"stat /g16/f3",
            b"stat /g16/f12",
            b"fill /g16/f5 20480 4096 05",
            b"unlink /g16/f8",
            b"create /g16/f6 0644",
            b"fill /g16/f3 28672 4096 03",
            b"sync",
        ],
    ),
    (
        0,
        1,
        0,
        &[
            b"mkdir /g1 0755",
            b"sync",
        ],
    ),
];

// What these lines ask for, as it is shown.
fn shown(alloc: Global, lines: &[Line]) -> Result<String, AllocError> {
    format!(in alloc; "{lines:?}")
}

// The same of a script that spells them.
fn shown_of(alloc: Global, spelled: &[&'static [u8]]) -> Option<String> {
    let mut text = Vec::new(alloc);
    for line in spelled {
        text.extend_from_slice(line).ok()?;
        text.push(b'\n').ok()?;
    }
    let mut source = SureSource::new(text);
    let lines = read_script(alloc, &mut source).ok()?;
    shown(alloc, lines.as_slice()).ok()
}

#[test]
fn lines_are_those_of_the_rule(rt: HostRuntime) {
    let alloc = rt.alloc();
    for (number, client, calls, spelled) in ROWS.iter() {
        assert!(rt; *client < 100 && *calls <= 4094);
        let lines = workload(alloc, *number, *client, *calls)
            .ok()
            .expect(&rt, "memory");
        let found = shown(alloc, lines.as_slice()).ok();
        assert!(rt; found.is_some(), "memory");
        assert_eq!(rt;
            found,
            shown_of(alloc, spelled),
            "{number} {client} {calls}"
        );
    }
}
