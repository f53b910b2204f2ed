//! Pages of inode maps, by the words of them that aren't zero.

ghost use Rattle.std.specs.Prelude.{◌≡◌, ◌<◌, ℕ, length, get_or};
ghost use Rattle.jfs_bits.specs.Descriptor.{FitsPxd};
ghost use Rattle.jfs_iag.specs.Iag.{no_run};

use jfs_bits::{Pxd, put_u32};
use jfs_disk::Page;
use jfs_iag::{
    END, Iag, InodeControl, InodeGroup, NO_EXTENT, iag_canonical, read_iag, read_inode_control,
    write_iag, write_inode_control,
};

/// The IAG that Linux's tools give a new volume, whose inodes 0 to 3 are in use in an extent at block 29; it is in a list
/// of its own, so that its list words end both lists.
static NEW_VOLUME: [(usize, u32); 17] = [
    (12, END),
    (16, END),
    (20, END),
    (24, END),
    (28, END),
    (32, 0x7fff_ffff),
    (36, END),
    (40, END),
    (44, END),
    (48, 0x8000_0000),
    (64, 28),
    (68, 127),
    (2048, 0xf000_0000),
    (2560, 0xf000_0000),
    (3072, 4),
    (3076, 29),
    (0, 0),
];

/// IAG 3 of a group that begins at block 24,576: extent 0 is full, extent 1 isn't there, extent 2 is empty at block
/// 0x1_0000_0020, extent 127 has inodes 4064 and 4095 in use.
static MIXED: [(usize, u32); 25] = [
    (0, 24576),
    (8, 3),
    (12, END),
    (16, END),
    (20, END),
    (24, END),
    (28, END),
    (32, 0xdfff_ffff),
    (36, END),
    (40, END),
    (44, 0xffff_fffe),
    (48, 0xa000_0000),
    (60, 0x0000_0001),
    (64, 62),
    (68, 125),
    (2048, END),
    (2556, 0x8000_0001),
    (2560, END),
    (3068, 0x8000_0001),
    (3072, 4),
    (3076, 33),
    (3088, 0x0100_0004),
    (3092, 0x20),
    (4088, 4),
    (4092, 41),
];

/// The extent places of an inode allocation group, with extents of 4 blocks at these places and addresses.
fn extents_at(places: &[(u32, u64)]) -> [Pxd; 128]
    ensures size { length result ≡ 128 }
    ensures fits { (e : ℕ) → e < 128 → FitsPxd (get_or result e no_run) }
{
    let mut extents = [NO_EXTENT; 128];
    for place in places {
        if place.0 < 128 {
            extents[place.0 as usize] = Pxd {
                len: 4,
                addr: place.1 % (1 << 40),
            };
        }
    }
    extents
}

/// A page of zeros with these words.
fn page_of(words: &[(usize, u32)]) -> Page {
    let mut page = Page::zeros();
    for (at, value) in words {
        if *at <= 4092 {
            put_u32(&mut page.0, *at, *value);
        }
    }
    page
}

/// Whether two pages have the same bytes.
fn same(page: &Page, other: &Page) -> bool {
    page.0 == other.0
}

#[test]
fn the_iag_of_a_new_volume(rt: HostRuntime) {
    let mut set = [0u8; 512];
    put_u32(&mut set, 0, 0xf000_0000);
    let extents = extents_at(&[(0, 29)]);
    let mut page = Page([0x55; 4096]);
    iag_canonical(&set, &extents, 0, 0, &mut page);
    assert!(rt; same(&page, &page_of(&NEW_VOLUME)));
}

#[test]
fn full_empty_and_missing_extents(rt: HostRuntime) {
    let mut set = [0u8; 512];
    put_u32(&mut set, 0, END);
    put_u32(&mut set, 508, 0x8000_0001);
    let extents = extents_at(&[(0, 33), (2, 0x0001_0000_0020), (127, 41)]);
    let mut page = Page([0x55; 4096]);
    iag_canonical(&set, &extents, 3, 24576, &mut page);
    assert!(rt; same(&page, &page_of(&MIXED)));
}

/// Whether this is the IAG of `MIXED`, as far as these fields go.
fn is_mixed(iag: &Iag) -> bool {
    iag.agstart == 24576
        && iag.iagnum == 3
        && iag.nfreeinos == 62
        && iag.nfreeexts == 125
        && iag.extsmap == [0, 0, 0, 0xa0, 0, 0, 0, 0, 0, 0, 0, 0, 1, 0, 0, 0]
        && iag.inoext[0] == Pxd { len: 4, addr: 33 }
}

#[test]
fn an_iag_both_ways(rt: HostRuntime) {
    let mut iag = read_iag(&page_of(&MIXED));
    assert!(rt; is_mixed(&iag));
    iag.inofreefwd = 1;
    iag.inofreeback = 2;
    iag.extfreefwd = 3;
    iag.extfreeback = 4;
    iag.iagfree = 5;
    let mut page = Page([0x55; 4096]);
    write_iag(&mut page, &iag);
    assert!(rt;
        &page.0[12..32] == b"\x01\0\0\0\x02\0\0\0\x03\0\0\0\x04\0\0\0\x05\0\0\0".as_slice()
    );
    assert!(rt; &page.0[72..2048] == [0x55; 1976].as_slice());
    assert!(rt; read_iag(&page) == iag);
}

/// A control page with another value in each field, and two groups that aren't alike.
fn control() -> InodeControl {
    let none = InodeGroup {
        inofree: END,
        extfree: END,
        numinos: 0,
        numfree: 0,
    };
    let mut control = InodeControl {
        freeiag: END,
        nextiag: 2,
        numinos: 3,
        numfree: 4,
        nbperiext: 5,
        l2nbperiext: 6,
        diskblock: 7,
        maxag: 8,
        groups: [none; 128],
    };
    control.groups[1] = InodeGroup {
        inofree: 9,
        extfree: 10,
        numinos: 11,
        numfree: 12,
    };
    control
}

/// Whether the control page is written so on a page of bytes 0x55.
fn is_control(page: &Page) -> bool {
    &page.0[..8] == b"\xff\xff\xff\xff\x02\0\0\0".as_slice()
        && &page.0[8..32]
            == b"\x03\0\0\0\x04\0\0\0\x05\0\0\0\x06\0\0\0\x07\0\0\0\x08\0\0\0".as_slice()
        && &page.0[32..2048] == [0x55; 2016].as_slice()
        && &page.0[2048..2064] == b"\xff\xff\xff\xff\xff\xff\xff\xff\0\0\0\0\0\0\0\0".as_slice()
        && &page.0[2064..2080] == b"\x09\0\0\0\x0a\0\0\0\x0b\0\0\0\x0c\0\0\0".as_slice()
}

#[test]
fn a_control_page_both_ways(rt: HostRuntime) {
    let control = control();
    let mut page = Page([0x55; 4096]);
    write_inode_control(&mut page, &control);
    assert!(rt; is_control(&page));
    assert!(rt; read_inode_control(&page) == control);
}
