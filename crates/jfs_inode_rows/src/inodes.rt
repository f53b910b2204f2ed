//! An inode as bytes, and its rules.

ghost use Rattle.jfs_inode.specs.Inode.{FitsDinode};

use jfs_bits::{Dxd, Moment, Pxd, Rule};
use jfs_disk::Page;
use jfs_inode::{BadInode, Dinode, read_dinode, write_dinode};

/// The root directory of a new volume, with a value of its own in each field that a new volume leaves at 0.
fn root() -> Dinode
    ensures { FitsDinode result }
{
    Dinode {
        inostamp: 0x0102_0304,
        fileset: 16,
        number: 2,
        generation: 7,
        ixpxd: Pxd { len: 4, addr: 29 },
        size: 0x1122_3344_5566_7788,
        nblocks: 0x10,
        nlink: 2,
        uid: 1000,
        gid: 100,
        mode: 0x0001_41ed,
        atime: Moment { sec: 1, nano: 2 },
        ctime: Moment { sec: 3, nano: 4 },
        mtime: Moment { sec: 5, nano: 6 },
        otime: Moment { sec: 7, nano: 8 },
        acl: Dxd {
            flag: Dxd::EXTENT,
            size: 4096,
            at: Pxd { len: 1, addr: 33 },
        },
        ea: Dxd {
            flag: Dxd::INLINE,
            size: 16,
            at: Pxd { len: 0, addr: 0 },
        },
        next_index: 2,
        acltype: 0x0102_0304,
        rest: [0xee; 384],
    }
}

/// The first 128 bytes of `root`, in a slot whose bytes were 0x55.
static BYTES: [u8; 128] = [
    0x04, 0x03, 0x02, 0x01, 16, 0, 0, 0, 2, 0, 0, 0, 7, 0, 0, 0, // stamp, fileset, number, generation
    4, 0, 0, 0, 29, 0, 0, 0, 0x88, 0x77, 0x66, 0x55, 0x44, 0x33, 0x22, 0x11, // extent, size
    0x10, 0, 0, 0, 0, 0, 0, 0, 2, 0, 0, 0, 0xe8, 0x03, 0, 0, // blocks, links, user
    100, 0, 0, 0, 0xed, 0x41, 0x01, 0, 1, 0, 0, 0, 2, 0, 0, 0, // group, mode, read
    3, 0, 0, 0, 4, 0, 0, 0, 5, 0, 0, 0, 6, 0, 0, 0, // inode changed, contents changed
    7, 0, 0, 0, 8, 0, 0, 0, 0x20, 0x55, 0x55, 0x55, 0, 0x10, 0, 0, // made, control list
    1, 0, 0, 0, 33, 0, 0, 0, 0x40, 0x55, 0x55, 0x55, 16, 0, 0, 0, // and attributes
    0, 0, 0, 0, 0, 0, 0, 0, 2, 0, 0, 0, 0x04, 0x03, 0x02, 0x01, // next index, kind of list
];

/// Whether the root is written so in slot 3 of a page of bytes 0x55.
fn is_written(page: &Page) -> bool {
    &page.0[..1536] == [0x55; 1536].as_slice()
        && &page.0[1536..1664] == BYTES.as_slice()
        && &page.0[1664..2048] == [0xee; 384].as_slice()
        && &page.0[2048..] == [0x55; 2048].as_slice()
}

#[test]
fn an_inode_as_bytes(rt: HostRuntime) {
    let mut page = Page([0x55; 4096]);
    write_dinode(&mut page, 3, &root());
    assert!(rt; is_written(&page));
    assert!(rt; read_dinode(&page, 3, 2) == Ok(root()));
}

/// Whether an inode like the root with this number, mode and number of links is read at the place of inode 2, or what rule it breaks, and by what value.
fn answer(number: u32, mode: u32, nlink: u32) -> Option<(Rule, u64)> {
    let mut page = Page::zeros();
    let d = Dinode {
        number,
        mode,
        nlink,
        ..root()
    };
    write_dinode(&mut page, 0, &d);
    match read_dinode(&page, 0, 2) {
        Ok(_) => None,
        Err(BadInode { rule, value }) => Some((rule, value)),
    }
}

/// A number, a mode and a number of links, and what is answered.
static ROWS: [(u32, u32, u32, Option<(Rule, u64)>); 13] = [
    (3, 0x41ed, 2, Some((Rule::Fields, 3))),
    (3, 0, 65536, Some((Rule::Fields, 3))),
    (2, 0x0001_01ed, 65536, Some((Rule::Kind, 0x0001_01ed))),
    (2, 0x0001_e1ed, 1, Some((Rule::Kind, 0x0001_e1ed))),
    (2, 0x41ed, 65536, Some((Rule::Links, 65536))),
    (2, 0x41ed, 65535, None),
    (2, 0x1000, 0, None),
    (2, 0x2000, 0, None),
    (2, 0x4000, 0, None),
    (2, 0x6000, 0, None),
    (2, 0x8000, 0, None),
    (2, 0xa000, 0, None),
    (2, 0xc000, 0, None),
];

#[test]
fn the_first_broken_rule(rt: HostRuntime) {
    for (number, mode, nlink, wanted) in ROWS.iter() {
        assert!(rt;
            answer(*number, *mode, *nlink) == *wanted,
            "{number} {mode} {nlink}"
        );
    }
}
