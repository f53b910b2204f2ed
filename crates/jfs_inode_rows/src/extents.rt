//! Extents and their bytes.

ghost use Rattle.jfs_bits.specs.Extent.{FitsXad};

use jfs_bits::{Dxd, Pxd, Xad, XadList, get_dxd, get_xad, put_dxd, put_xad};

/// Flag, two reserved bytes, the offset's high byte, its low word, the length with the address's high byte, its low word.
static XADS: [(u8, u64, u32, u64, [u8; 16]); 3] = [
    (
        0,
        0,
        6,
        16,
        [0, 0x55, 0x55, 0, 0, 0, 0, 0, 6, 0, 0, 0, 16, 0, 0, 0],
    ),
    (
        0x08,
        0x01_0000_0002,
        1,
        0x03_0000_0004,
        [8, 0x55, 0x55, 1, 2, 0, 0, 0, 1, 0, 0, 3, 4, 0, 0, 0],
    ),
    (
        0xff,
        0xff_ffff_ffff,
        0xff_ffff,
        0xff_ffff_ffff,
        [
            0xff, 0x55, 0x55, 0xff, 0xff, 0xff, 0xff, 0xff, 0xff, 0xff, 0xff, 0xff, 0xff, 0xff,
            0xff, 0xff,
        ],
    ),
];

/// Whether an extent is written so behind two bytes 0x55, of twenty, and read back.
fn is_both_ways(x: Xad, bytes: &[u8; 16]) -> bool
    requires { FitsXad x }
{
    let mut page = [0x55u8; 20];
    put_xad(&mut page, 2, x);
    &page[..2] == [0x55; 2].as_slice()
        && &page[2..18] == bytes.as_slice()
        && &page[18..] == [0x55; 2].as_slice()
        && get_xad(&page, 2) == x
}

#[test]
fn extents_of_files(rt: HostRuntime) {
    for (flag, offset, len, addr, bytes) in XADS.iter() {
        let at = Pxd {
            len: *len % (1 << 24),
            addr: *addr % (1 << 40),
        };
        let x = Xad {
            flag: *flag,
            offset: *offset % (1 << 40),
            at,
        };
        assert!(rt; is_both_ways(x, bytes));
    }
}

const RUN: Dxd = Dxd {
    flag: 0x20,
    size: 0x0001_0002,
    at: Pxd {
        len: 3,
        addr: 0x04_0000_0005,
    },
};

#[test]
fn runs_with_a_size(rt: HostRuntime) {
    let mut page = [0x55u8; 18];
    put_dxd(&mut page, 1, RUN);
    let want = [
        0x55, 0x20, 0x55, 0x55, 0x55, 2, 0, 1, 0, 3, 0, 0, 4, 5, 0, 0, 0, 0x55,
    ];
    assert!(rt; page.as_slice() == want.as_slice());
    assert!(rt; get_dxd(&page, 1) == RUN);
}

const HOLE: Xad = Xad {
    flag: Xad::NOT_RECORDED,
    offset: 17,
    at: Pxd { len: 4, addr: 29 },
};

#[test]
fn a_list_of_extents(rt: HostRuntime) {
    let mut list = XadList::new(rt.alloc());
    assert!(rt; list.push(HOLE).is_ok());
    assert!(rt; list.len() == 1);
    assert!(rt; list.get(0).copied() == Some(HOLE));
    assert!(rt; list.get(1).is_none());
}
