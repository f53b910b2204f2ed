//! The inode map of a small volume, call by call, and its pages.

ghost use Rattle.std.specs.Prelude.{◌≡◌, ◌≤◌, IfOk};

use crate::places_of;
use jfs_bits::{Pxd, get_u32, put_u32};
use jfs_disk::Page;
use jfs_iag::END;
use jfs_imap::{InodeMap, Pick};
use std::alloc::{AllocError, Global};
use std::test::*;

/// A call or a question, and what is to be answered.
#[derive(Clone, Copy)]
enum Step {
    /// What is picked; a number is taken.
    Take(Pick),
    Pick(Pick),
    /// An extent at an address is added where one is needed; the answer is its first inode.
    Add(u64, Option<u32>),
    PutBack(u32),
    /// An inode, and the page that it stands on.
    Home(u32, Option<u64>),
}

/// Takes the inode that is picked.
fn take_next(map: &mut InodeMap) -> Pick {
    let pick = map.pick();
    if let Pick::Number(n) = pick {
        map.take(n);
    }
    pick
}

/// Adds an extent at an address where one is needed; the answer is its first inode.
fn add_next(map: &mut InodeMap, addr: u64) -> Option<u32> {
    match map.pick() {
        Pick::NeedsExtent { .. } => Some(map.add_extent(Pxd {
            len: 4,
            addr: addr % (1 << 40),
        })),
        _ => None,
    }
}

fn holds(map: &mut InodeMap, step: Step) -> bool {
    match step {
        Step::Take(pick) => take_next(map) == pick,
        Step::Pick(pick) => map.pick() == pick,
        Step::Add(addr, first) => add_next(map, addr) == first,
        Step::PutBack(n) => {
            map.put_back(n);
            true
        }
        Step::Home(n, page) => map.home(n) == page,
    }
}

/// The first step, from 0, that isn't answered so.
fn first_wrong(map: &mut InodeMap, steps: &[Step]) -> Option<usize> {
    for (i, step) in steps.iter().enumerate() {
        if !holds(map, *step) {
            return Some(i);
        }
    }
    None
}

/// Three IAGs in two groups: extent 0 of IAG 0 has its inodes but 5 and 9 in use, extent 0 of IAG 1 all, and IAG 2 has none.
fn three_iags(alloc: Global) -> Result<InodeMap, AllocError> {
    let mut set = [0u8; 1536];
    put_u32(&mut set, 0, 0xfbbf_ffff);
    put_u32(&mut set, 512, END);
    let places = places_of(alloc, &[(0, 29), (128, 40)], 3)?;
    InodeMap::from_parts(alloc, &set, &places, 3, 8192, 2)
}

static PICKS: [Step; 17] = [
    Step::Take(Pick::Number(5)),
    Step::PutBack(3),
    Step::PutBack(1000),
    Step::Take(Pick::Number(9)),
    Step::Take(Pick::NeedsExtent { place: 1 }),
    Step::Add(50, Some(32)),
    Step::Home(9, Some(30)),
    Step::Home(39, Some(50)),
    Step::Home(64, None),
    Step::Home(4104, Some(41)),
    Step::Home(12288, None),
    Step::Take(Pick::Number(32)),
    Step::PutBack(4100),
    Step::Add(60, None),
    Step::PutBack(7),
    Step::Take(Pick::Number(7)),
    Step::Take(Pick::Number(33)),
];

#[test]
fn picks_takes_and_gives_back(rt: HostRuntime) {
    let mut map = three_iags(rt.alloc()).expect(&rt, "memory");
    assert!(rt; first_wrong(&mut map, &PICKS) == None);
}

/// One IAG all of whose inodes are in use.
fn full_iag(alloc: Global) -> Result<InodeMap, AllocError> {
    let set = [0xffu8; 512];
    let mut places = [(0, 100); 128];
    for e in 0..128 {
        places[e] = (e as u32, 100 + 4 * e as u64);
    }
    let list = places_of(alloc, &places, 1)?;
    InodeMap::from_parts(alloc, &set, &list, 1, 8192, 1)
}

static NONE: [Step; 4] = [
    Step::Pick(Pick::NoInodes),
    Step::PutBack(4095),
    Step::Take(Pick::Number(4095)),
    Step::Take(Pick::NoInodes),
];

#[test]
fn no_inodes(rt: HostRuntime) {
    let mut map = full_iag(rt.alloc()).expect(&rt, "memory");
    assert!(rt; first_wrong(&mut map, &NONE) == None);
}

/// The word at a place of a page, or 0 behind its end.
fn word(page: &Page, at: usize) -> u32 {
    let bytes: &[u8] = &page.0;
    if at <= 4092 { get_u32(bytes, at) } else { 0 }
}

/// Whether a page has these words from a place on.
fn are_words(page: &Page, at: usize, words: &[u32]) -> bool {
    for i in 0..words.len() {
        if word(page, i.saturating_mul(4).saturating_add(at)) != words[i] {
            return false;
        }
    }
    true
}

/// A page of the map's file, with bytes 0x55 where none are written.
fn page_of(map: &InodeMap, n: u32) -> Page
    requires { n ≤ map.now.iags }
{
    let mut page = Page([0x55; 4096]);
    map.write_page(n, &mut page);
    page
}

/// The inode map of a new volume.
fn new_map(alloc: Global) -> Result<InodeMap, AllocError>
    ensures { IfOk result (λ map. map.iags ≡ 1) }
{
    let mut set = [0u8; 512];
    put_u32(&mut set, 0, 0xf000_0000);
    let list = places_of(alloc, &[(0, 29)], 1)?;
    InodeMap::from_parts(alloc, &set, &list, 1, 8192, 1)
}

static NEW_HEAD: [u32; 8] = [END, 1, 32, 28, 4, 2, 0, 0];

static NEW_GROUPS: [u32; 12] = [0, 0, 32, 28, END, END, 0, 0, END, END, 0, 0];

/// The words of Linux's tools, and the lists of this profile.
#[test]
fn pages_of_a_new_volume(rt: HostRuntime) {
    let map = new_map(rt.alloc()).expect(&rt, "memory");
    let page = page_of(&map, 0);
    assert!(rt; are_words(&page, 0, &NEW_HEAD));
    assert!(rt; are_words(&page, 32, &[0; 504]));
    assert!(rt; are_words(&page, 2048, &NEW_GROUPS));
    let page = page_of(&map, 1);
    assert!(rt; are_words(&page, 12, &[END; 5]));
    assert!(rt; word(&page, 64) == 28 && word(&page, 3076) == 29);
}

/// Five IAGs in two groups: 0, 2 and 4 in group 0, 1 and 3 in group 1. Only extents of IAGs 0, 3 and 4 are there, that of
/// IAG 3 is full, and no place of IAG 2 is free, whose extents are all full.
fn five_iags(alloc: Global) -> Result<InodeMap, AllocError>
    ensures { IfOk result (λ map. map.iags ≡ 5) }
{
    let mut set = [0u8; 2560];
    put_u32(&mut set, 1536, END);
    for i in 0..128 {
        put_u32(&mut set, 1024 + 4 * i, END);
    }
    let mut places = [(0, 29); 131];
    for e in 0..128 {
        places[e] = (256 + e as u32, 100 + 4 * e as u64);
    }
    places[128] = (0, 29);
    places[129] = (384, 33);
    places[130] = (512, 37);
    let list = places_of(alloc, &places, 5)?;
    InodeMap::from_parts(alloc, &set, &list, 5, 8192, 2)
}

static FIVE_GROUPS: [u32; 12] = [0, 0, 4160, 64, END, 1, 32, 0, END, END, 0, 0];

static FIVE_HEAD: [u32; 8] = [END, 5, 4192, 64, 4, 2, 0, 1];

/// Of each IAG its group's first block, and its neighbours in both lists.
static FIVE_IAGS: [(u32, [u32; 4]); 5] = [
    (0, [4, END, 4, END]),
    (8192, [END, END, 3, END]),
    (0, [END, END, END, END]),
    (8192, [END, END, END, 1]),
    (0, [END, 0, END, 0]),
];

#[test]
fn lists_of_two_groups(rt: HostRuntime) {
    let map = five_iags(rt.alloc()).expect(&rt, "memory");
    let page = page_of(&map, 0);
    assert!(rt; are_words(&page, 0, &FIVE_HEAD) && are_words(&page, 2048, &FIVE_GROUPS));
    for k in 0..5u32 {
        let page = page_of(&map, k + 1);
        let (start, links) = &FIVE_IAGS[k as usize];
        assert!(rt; word(&page, 0) == *start && word(&page, 8) == k);
        assert!(rt; are_words(&page, 12, links));
    }
}
