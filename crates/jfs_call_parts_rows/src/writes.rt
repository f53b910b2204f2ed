//! The blocks that a write takes, and what it puts into them: of the file's block 1 and of two blocks behind its end, by a file of two blocks.

ghost use Rattle.std.specs.Prelude.{◌≡◌, ◌∷◌, [], IfOk};

use crate::volume::{BLOCKS, fill_of, volume_of_objects};
use jfs_bits::{Pxd, PxdList, Xad, set_run};
use jfs_bmap::BlockMap;
use jfs_data_steps::DataList;
use jfs_disk::{Disk, Part, SureDisk};
use jfs_file_blocks::{FileWant, reserve_blocks};
use jfs_reader::DiskView;
use jfs_write_pages::{
    Change, Spot, are_within, extents_for, hint_behind, holes_in, placed, push_between, push_page,
    push_pages, spots_from,
};
use std::alloc::{AllocError, Global};
use std::test::*;

/// The file's two blocks, of which the second one isn't recorded.
const TWO: [Xad; 2] = [
    Xad {
        flag: 0,
        offset: 0,
        at: Pxd { len: 1, addr: 300 },
    },
    Xad {
        flag: Xad::NOT_RECORDED,
        offset: 1,
        at: Pxd { len: 1, addr: 301 },
    },
];

/// The blocks 1 to 3 of the file once the two holes behind it have the blocks 302 and 303.
const PLACED: [Spot; 3] = [
    Spot {
        index: 1,
        block: 301,
        recorded: false,
    },
    Spot {
        index: 2,
        block: 302,
        recorded: false,
    },
    Spot {
        index: 3,
        block: 303,
        recorded: false,
    },
];

/// A map in which the first 44 blocks have owners, and so do 300 and 301.
fn map_of(alloc: Global) -> Result<BlockMap, AllocError> {
    let mut set = [0u8; 376];
    set_run(&mut set, 0, 44);
    set_run(&mut set, 300, 2);
    BlockMap::from_set(alloc, &set, 3008, 8192)
}

/// The first block of the list's first run, and how long that is.
fn first(runs: &PxdList) -> (u64, u32) {
    match runs.get(0) {
        Some(run) => (run.addr, run.len),
        None => (0, 0),
    }
}

/// What is reserved: the first run, and the first block for pages; how many blocks are free then, once those for pages are given back, and once all are.
fn reserved(
    alloc: Global,
    map: &mut BlockMap,
    want: FileWant,
) -> Option<((u64, u32), (u64, u32), [u32; 2])> {
    let before = map.free();
    let blocks = reserve_blocks(alloc, map, want).ok()?;
    let taken = before.saturating_sub(map.free());
    blocks.settle(map);
    let kept = before.saturating_sub(map.free());
    Some((
        first(&blocks.runs),
        first(&blocks.claim.blocks),
        [taken, kept],
    ))
}

/// How many blocks are free once what was reserved is given back, or 0.
fn undone(alloc: Global, map: &mut BlockMap, want: FileWant) -> u32 {
    match reserve_blocks(alloc, map, want) {
        Ok(blocks) => {
            blocks.undo(map);
            map.free()
        }
        Err(_) => 0,
    }
}

/// A hint, how many blocks are wanted for the file, and the first run and the first block for pages that are reserved. From the hint on; with a hint that is taken the lowest aligned run. Blocks for
/// pages are the lowest that are free.
static WANTS: [(u32, u32, (u64, u32), (u64, u32)); 3] = [
    (302, 2, (302, 2), (44, 1)),
    (300, 3, (44, 3), (47, 1)),
    (0, 5, (48, 5), (44, 1)),
];

/// What is reserved of a map of its own, of which all 2,962 blocks are free again where the same was given back before.
fn reserved_alone(
    alloc: Global,
    hint: u32,
    blocks: u32,
) -> Option<((u64, u32), (u64, u32), [u32; 2])> {
    let want = FileWant {
        hint,
        blocks,
        pages: 8,
    };
    let mut map = map_of(alloc).ok()?;
    if undone(alloc, &mut map, want) != 2962 {
        return None;
    }
    reserved(alloc, &mut map, want)
}

#[test]
fn blocks_are_reserved(rt: HostRuntime) {
    for (hint, blocks, run, page) in WANTS.iter() {
        let counts = [blocks.saturating_add(8), *blocks];
        assert!(rt; reserved_alone(rt.alloc(), *hint, *blocks) == Some((*run, *page, counts)));
    }
}

/// The run of two blocks from 302 on.
fn two(alloc: Global) -> Result<PxdList, AllocError>
    ensures { IfOk result (λ runs. runs ≡ record { len = 2; addr = 302 } ∷ []) }
{
    let mut runs = PxdList::new(alloc);
    runs.push(Pxd { len: 2, addr: 302 })?;
    Ok(runs)
}

/// Block 1 of the file, and two holes.
const HOLES: [Option<Spot>; 3] = [
    Some(Spot {
        index: 1,
        block: 301,
        recorded: false,
    }),
    None,
    None,
];

/// Block 0 of the file.
const RECORDED: Spot = Spot {
    index: 0,
    block: 300,
    recorded: true,
};

/// Blocks 1 to 3 of the file.
const WHOLE: Xad = Xad {
    flag: 0,
    offset: 1,
    at: Pxd { len: 3, addr: 301 },
};

fn are_holes(alloc: Global) -> bool {
    match spots_from(alloc, &TWO, BLOCKS, 1, 3) {
        Ok(spots) => spots.as_slice() == HOLES.as_slice() && holes_in(&HOLES) == 2,
        Err(_) => false,
    }
}

fn are_placed(alloc: Global) -> bool {
    let Ok(runs) = two(alloc) else {
        return false;
    };
    match placed(alloc, &HOLES, 1, &runs, BLOCKS) {
        Ok(all) => all.as_slice() == PLACED.as_slice(),
        Err(_) => false,
    }
}

fn are_one_extent(alloc: Global) -> bool {
    match extents_for(alloc, &PLACED) {
        Ok(extents) => extents.as_slice() == [WHOLE].as_slice(),
        Err(_) => false,
    }
}

fn is_one_between(alloc: Global) -> bool {
    let mut before = Vec::new(alloc);
    push_between(&mut before, &TWO, BLOCKS, 0, 4).is_ok()
        && before.as_slice() == [RECORDED].as_slice()
}

// Blocks 1 to 3 of the file: the second one of its blocks, which isn't recorded, and two holes. The blocks that hold nothing yet are one extent. Of those before, block 0 alone is recorded.
#[test]
fn blocks_are_placed(rt: HostRuntime) {
    let alloc = rt.alloc();
    assert!(rt; are_within(&TWO, BLOCKS) && !are_within(&TWO, 301));
    assert!(rt; hint_behind(&TWO, BLOCKS) == 302);
    assert!(rt; are_holes(alloc));
    assert!(rt; are_placed(alloc));
    assert!(rt; are_one_extent(alloc));
    assert!(rt; is_one_between(alloc));
}

/// Of the data: blocks, and bytes 99, 100, 103 and 104 of each.
fn seen(data: &DataList) -> [(u32, [u8; 4]); 4] {
    let mut all = [(0, [0; 4]); 4];
    for i in 0..4 {
        if let Some(d) = data.as_slice().get(i) {
            let page = &d.page.0;
            all[i] = (d.block, [page[99], page[100], page[103], page[104]]);
        }
    }
    all
}

/// What four bytes at byte 100 of block 0, and at byte 4,196 of the file, bring into blocks 0 and 1 to 3, by a file of so many bytes.
fn pushed(alloc: Global, disk: &mut SureDisk, size: u64) -> Option<[(u32, [u8; 4]); 4]> {
    if disk.pages() < BLOCKS {
        return None;
    }
    let mut view = DiskView::new(disk, Part::Whole, BLOCKS);
    let mut data = DataList::new(alloc);
    let mut change = Change {
        size,
        offset: 100,
        bytes: b"wxyz",
    };
    push_page(&mut view, &RECORDED, &change, &mut data).ok()?;
    change.offset = 4196;
    push_pages(&mut view, &PLACED, &change, &mut data).ok()?;
    Some(seen(&data))
}

/// A file's size, and what is then before and behind the bytes in block 0: its own bytes, or zeros.
static SIZES: [(u64, bool, bool); 3] = [(8192, true, true), (104, true, false), (50, false, false)];

/// Whether bytes of the file before its end stay, zeros follow it, and what isn't recorded holds zeros.
fn is_pushed(alloc: Global, disk: &mut SureDisk, size: u64, before: bool, behind: bool) -> bool {
    let byte = if before { fill_of(0) } else { 0 };
    let last = if behind { fill_of(0) } else { 0 };
    let wanted = [
        (300, [byte, 119, 122, last]),
        (301, [0, 119, 122, 0]),
        (302, [0; 4]),
        (303, [0; 4]),
    ];
    pushed(alloc, disk, size) == Some(wanted)
}

#[test]
fn pages_are_pushed(rt: HostRuntime) {
    let alloc = rt.alloc();
    let mut disk = volume_of_objects(alloc).expect(&rt, "a volume");
    for (size, before, behind) in SIZES.iter() {
        assert!(rt;
            is_pushed(alloc, &mut disk, *size, *before, *behind),
            "{size}"
        );
    }
}
