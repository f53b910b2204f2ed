//! The control page of the block map, as bytes.

use jfs_bits::{get_u32, get_u64};
use jfs_disk::Page;
use jfs_dmapctl::{MapControl, read_map_control, write_map_control};

/// Numbers of no real volume: each field has one of its own, so that one in another's place shows.
fn told_apart() -> MapControl {
    let mut agfree = [0; 128];
    agfree[0] = 2971;
    agfree[127] = 7;
    MapControl {
        mapsize: 3008,
        nfree: 2975,
        l2nbperpage: 2,
        numag: 3,
        maxlevel: 4,
        maxag: 5,
        agpref: 6,
        aglevel: 8,
        agheight: 9,
        agwidth: 10,
        agstart: 341,
        agl2size: 13,
        agfree,
        agsize: 8192,
        maxfreebud: -1,
    }
}

/// Its numbers of eight bytes, and their places.
static WIDE: [(usize, u64); 6] = [
    (0, 3008),
    (8, 2975),
    (56, 2971),
    (64, 0),
    (1072, 7),
    (1080, 8192),
];

/// Its numbers of four bytes, and their places.
static NARROW: [(usize, u32); 10] = [
    (16, 2),
    (20, 3),
    (24, 4),
    (28, 5),
    (32, 6),
    (36, 8),
    (40, 9),
    (44, 10),
    (48, 341),
    (52, 13),
];

/// The first place of a page at which another number stands.
fn first_wrong(page: &Page) -> Option<usize> {
    let bytes: &[u8] = &page.0;
    for (at, value) in WIDE.iter() {
        if *at > 4088 || get_u64(bytes, *at) != *value {
            return Some(*at);
        }
    }
    for (at, value) in NARROW.iter() {
        if *at > 4092 || get_u32(bytes, *at) != *value {
            return Some(*at);
        }
    }
    None
}

#[test]
fn the_control_page_has_each_field_in_its_place(rt: HostRuntime) {
    let mut page = Page([0x55; 4096]);
    write_map_control(&mut page, &told_apart());
    assert!(rt; first_wrong(&page) == None);
    assert!(rt; page.0[1088] == 0xff && page.0[1089] == 0x55);
    assert!(rt; read_map_control(&page) == told_apart());
}
