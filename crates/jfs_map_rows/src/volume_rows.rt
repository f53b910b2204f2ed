//! The map of a small volume, worked out by hand.

ghost use Rattle.std.specs.Prelude.{◌≤◌};

use crate::volume::{
    map_of, release_run, take, take_each, take_first_of_two, take_four, try_four, try_out,
};
use jfs_bits::{Pxd, PxdList, set_run};
use jfs_bmap::{BlockMap, NoSpace, ReserveError};
use std::alloc::{AllocError, Global};

/// Whether a list has these runs, each by its first block and length.
fn are_runs(list: &PxdList, runs: &[(u64, u32)]) -> bool {
    if list.len() != runs.len() {
        return false;
    }
    for i in 0..runs.len() {
        let (addr, len) = runs[i];
        match list.get(i) {
            Some(run) => {
                if run.addr != addr || run.len != len {
                    return false;
                }
            }
            None => return false,
        }
    }
    true
}

fn is_refused(answer: &Result<PxdList, ReserveError>, free: u32) -> bool {
    match answer {
        Err(ReserveError::NoSpace(NoSpace { free: count })) => *count == free,
        _ => false,
    }
}

fn are_given(answer: &Result<PxdList, ReserveError>, runs: &[(u64, u32)]) -> bool {
    match answer {
        Ok(list) => are_runs(list, runs),
        Err(_) => false,
    }
}

/// Runs, each by its first block and length.
type Runs = &'static [(u64, u32)];

/// A call or a question, and what is to be answered. Runs of four are told by their first block.
#[derive(Clone, Copy)]
enum Row {
    Free(u32),
    Busy(u32),
    Unowned(u32),
    Spare(u32),
    FourOnceSettled(bool),
    /// The place where blocks are wanted, how many, and the runs that are given.
    Take(u32, u32, Runs),
    /// The same, but they are given back.
    TryOut(u32, u32, Runs),
    /// How many blocks are wanted one by one, and the runs that are given; they get owners.
    TakeEach(u32, Runs),
    /// How many blocks are wanted, and how many are free.
    Refused(u32, u32),
    /// The same, of blocks one by one.
    RefusedEach(u32, u32),
    /// The lengths of two lists, of which the first gets owners.
    FirstOfTwo(u32, u32, Runs),
    TakeFour(Option<u64>),
    TryFour(Option<u64>),
    /// It stays reserved.
    RunOfFour(Option<u64>),
    /// The first block, the length and the entry.
    Release(u64, u32, u64),
    Settle(u64),
    MakeRoom(u32),
}

fn is_four(run: Option<Pxd>, first: Option<u64>) -> bool {
    match (run, first) {
        (Some(run), Some(first)) => run.len == 4 && run.addr == first,
        (None, None) => true,
        _ => false,
    }
}

fn is_taken(map: &mut BlockMap, alloc: Global, hint: u32, n: u32, runs: Runs) -> bool {
    are_given(&take(map, alloc, hint, n), runs)
}

fn is_tried(map: &mut BlockMap, alloc: Global, hint: u32, n: u32, runs: Runs) -> bool {
    are_given(&try_out(map, alloc, hint, n), runs)
}

fn is_short(map: &mut BlockMap, alloc: Global, n: u32, free: u32) -> bool {
    is_refused(&take(map, alloc, 0, n), free)
}

fn is_each_taken(map: &mut BlockMap, alloc: Global, n: u32, runs: Runs) -> bool {
    are_given(&take_each(map, alloc, n), runs)
}

fn is_each_short(map: &mut BlockMap, alloc: Global, n: u32, free: u32) -> bool {
    is_refused(&take_each(map, alloc, n), free)
}

fn is_first_taken(map: &mut BlockMap, alloc: Global, first: u32, second: u32, runs: Runs) -> bool {
    are_given(&take_first_of_two(map, alloc, first, second), runs)
}

fn is_released(map: &mut BlockMap, alloc: Global, addr: u64, len: u32, entry: u64) -> bool {
    release_run(map, alloc, Pxd { len, addr }, entry).is_ok()
}

/// Whether what is asked is answered so.
fn is_so(map: &mut BlockMap, alloc: Global, row: Row) -> bool {
    match row {
        Row::Free(count) => map.free() == count,
        Row::Busy(count) => map.busy() == count,
        Row::Unowned(count) => map.unowned() == count,
        Row::Spare(count) => map.spare() == count,
        Row::FourOnceSettled(is_there) => map.has_four_once_settled() == is_there,
        Row::Take(hint, n, runs) => is_taken(map, alloc, hint, n, runs),
        Row::TryOut(hint, n, runs) => is_tried(map, alloc, hint, n, runs),
        Row::TakeEach(n, runs) => is_each_taken(map, alloc, n, runs),
        Row::Refused(n, free) => is_short(map, alloc, n, free),
        Row::RefusedEach(n, free) => is_each_short(map, alloc, n, free),
        Row::FirstOfTwo(first, second, runs) => is_first_taken(map, alloc, first, second, runs),
        Row::TakeFour(first) => is_four(take_four(map), first),
        Row::TryFour(first) => is_four(try_four(map), first),
        Row::RunOfFour(first) => is_four(map.run_of_four(), first),
        Row::Release(addr, len, entry) => is_released(map, alloc, addr, len, entry),
        Row::Settle(told) => {
            map.settle(told);
            true
        }
        Row::MakeRoom(n) => map.make_room(n).is_ok(),
    }
}

/// The first row, from 0, that isn't answered so by a map of 64 blocks, of which the lowest ones have owners.
fn first_wrong(alloc: Global, owned: u32, rows: &[Row]) -> Result<Option<usize>, AllocError>
    requires { owned ≤ 64 }
{
    let mut set = [0u8; 8];
    set_run(&mut set, 0, owned);
    let mut map = map_of(alloc, &set, 64)?;
    if map.blocks() != 64 {
        return Ok(Some(0));
    }
    for (i, row) in rows.iter().enumerate() {
        if !is_so(&mut map, alloc, *row) {
            return Ok(Some(i));
        }
    }
    Ok(None)
}

// Blocks one by one, each the lowest: around those that are reserved, owned or busy.
static SINGLES: [Row; 14] = [
    Row::TakeEach(0, &[]),
    Row::TakeEach(3, &[(54, 1), (55, 1), (56, 1)]),
    Row::RunOfFour(Some(60)),
    Row::Release(7, 2, 3),
    Row::RefusedEach(4, 3),
    Row::Free(3),
    Row::Settle(3),
    Row::Release(20, 1, 4),
    Row::TakeEach(4, &[(7, 1), (8, 1), (57, 1), (58, 1)]),
    Row::Free(1),
    Row::Busy(1),
    Row::TakeEach(1, &[(59, 1)]),
    Row::RefusedEach(1, 0),
    Row::Unowned(5),
];

// 64 blocks, of which 0 to 53 have owners.
#[test]
fn blocks_one_by_one(rt: HostRuntime) {
    assert!(rt; first_wrong(rt.alloc(), 54, &SINGLES).expect(&rt, "memory") == None);
}

// The last of the taken blocks are the lowest: 50, 51 and 55 are left.
static BUSY: [Row; 18] = [
    Row::Free(10),
    Row::Release(50, 4, 7),
    Row::Busy(4),
    Row::Free(10),
    Row::Refused(11, 10),
    Row::Settle(6),
    Row::Refused(11, 10),
    Row::Settle(7),
    Row::Busy(0),
    Row::Free(14),
    Row::TryOut(0, 11, &[(56, 8), (52, 3)]),
    Row::Free(14),
    Row::Take(0, 11, &[(56, 8), (52, 3)]),
    Row::Free(3),
    Row::Take(55, 2, &[(55, 1), (50, 1)]),
    Row::RunOfFour(None),
    Row::Take(7, 0, &[]),
    Row::Free(1),
];

// 64 blocks, of which 0 to 53 have owners.
#[test]
fn busy_blocks(rt: HostRuntime) {
    assert!(rt; first_wrong(rt.alloc(), 54, &BUSY).expect(&rt, "memory") == None);
}

// The second list begins at the lowest aligned run of 16 behind the first one's 8 blocks. Later blocks 0 to 7 are busy already when they are
// released again, 12 to 15 and those past the end have no owner.
static LISTS: [Row; 23] = [
    Row::FirstOfTwo(8, 16, &[(0, 8)]),
    Row::Free(56),
    Row::TryFour(Some(8)),
    Row::TakeFour(Some(8)),
    Row::Take(60, 10, &[(60, 4), (16, 6)]),
    Row::Free(42),
    Row::Release(0, 8, 3),
    Row::Release(0, 2, 2),
    Row::Release(4, 12, 5),
    Row::Release(60, 4000, 6),
    Row::Busy(16),
    Row::Free(42),
    Row::Settle(2),
    Row::Busy(16),
    Row::Settle(3),
    Row::Busy(8),
    Row::TryOut(2, 7, &[(2, 6), (0, 1)]),
    Row::Settle(5),
    Row::Busy(4),
    Row::Settle(u64::MAX),
    Row::Free(58),
    Row::Refused(59, 58),
    Row::Take(u32::MAX, 58, &[(32, 32), (0, 16), (24, 8), (22, 2)]),
];

// 64 free blocks; what lies past them is never handed out, and a release passes over it.
#[test]
fn lists_and_releases(rt: HostRuntime) {
    assert!(rt; first_wrong(rt.alloc(), 0, &LISTS).expect(&rt, "memory") == None);
}

// 56 to 59 get owners, 60 to 63 are only reserved. No run of four lies in 6 to 10, also once they are settled; one does in 6 to 11, of which
// 11 waits for an earlier entry. In the end, room for runs: a release takes it, and what is there already isn't made again.
static QUESTIONS: [Row; 26] = [
    Row::Unowned(8),
    Row::FourOnceSettled(true),
    Row::TakeFour(Some(56)),
    Row::RunOfFour(Some(60)),
    Row::Unowned(4),
    Row::FourOnceSettled(false),
    Row::Release(6, 5, 9),
    Row::Unowned(9),
    Row::FourOnceSettled(false),
    Row::Release(11, 1, 8),
    Row::FourOnceSettled(true),
    Row::Settle(8),
    Row::Free(1),
    Row::Busy(5),
    Row::RunOfFour(None),
    Row::FourOnceSettled(true),
    Row::Settle(9),
    Row::RunOfFour(Some(8)),
    Row::Unowned(10),
    Row::FourOnceSettled(false),
    Row::MakeRoom(5),
    Row::Spare(5),
    Row::Release(0, 1, 10),
    Row::Spare(4),
    Row::MakeRoom(3),
    Row::Spare(4),
];

// 64 blocks, of which 0 to 55 have owners: one run of four after another is reserved, released or busy.
#[test]
fn questions(rt: HostRuntime) {
    assert!(rt; first_wrong(rt.alloc(), 56, &QUESTIONS).expect(&rt, "memory") == None);
}

// The file of 20,000 blocks: four control pages and three dmaps, of which the control pages of levels 2 and 1 aren't in use.
#[test]
fn pages_in_use(rt: HostRuntime) {
    let map = map_of(rt.alloc(), [0u8; 2500].as_slice(), 20000).expect(&rt, "memory");
    assert!(rt; map.pages() == 7);
    let mut in_use = [false; 8];
    for n in 0..8u32 {
        in_use[n as usize] = map.is_in_use(n);
    }
    assert!(rt; in_use == [true, false, false, true, true, true, true, false]);
}
