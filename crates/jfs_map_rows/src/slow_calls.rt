//! Calls of the block map and of the plain slow map beside it.

ghost use Rattle.jfs_bmap.specs.States.{AreReserved};
ghost use Rattle.jfs_map_rows.specs.Stays.{StaysReserved};

use crate::slow::{
    State, choose, count_busy, count_free, count_unowned, has_four_once_settled, lowest, put,
    put_runs, release, settle,
};
use crate::slow_pages::{BLOCKS, are_canonical};
use crate::volume::{map_of, release_all, release_run, take, take_four, try_four, try_out};
use jfs_bits::{Pxd, PxdList, set_run};
use jfs_bmap::{BlockMap, NoSpace, ReserveError};
use std::alloc::{AllocError, Global};

fn same_runs(one: &PxdList, other: &PxdList) -> bool {
    if one.len() != other.len() {
        return false;
    }
    for i in 0..one.len() {
        match (one.get(i), other.get(i)) {
            (Some(a), Some(b)) => {
                if a.addr != b.addr || a.len != b.len {
                    return false;
                }
            }
            _ => return false,
        }
    }
    true
}

/// Reserves the same blocks of the slow map, puts them in a state, and tells whether the map's answer was the right one.
fn is_right(
    alloc: Global,
    states: &mut [State],
    hint: u32,
    n: u32,
    answer: &Result<PxdList, ReserveError>,
    state: State,
) -> Result<bool, AllocError> {
    let free = count_free(states);
    match answer {
        Ok(list) => {
            let wanted = choose(alloc, states, hint, n)?;
            put_runs(states, &wanted, state);
            Ok(free >= n && same_runs(list, &wanted))
        }
        Err(ReserveError::NoSpace(NoSpace { free: count })) => Ok(free < n && *count == free),
        Err(ReserveError::Memory) => Ok(false),
    }
}

/// Takes blocks of both, and tells whether the answers are the same.
fn take_both(
    map: &mut BlockMap,
    alloc: Global,
    states: &mut [State],
    hint: u32,
    n: u32,
) -> Result<bool, AllocError>
    ensures { StaysReserved map.old map.new }
{
    let answer = take(map, alloc, hint, n);
    is_right(alloc, states, hint, n, &answer, State::Owned)
}

/// The same, but gives the blocks back. Then they are released, which passes over them.
fn try_both(
    map: &mut BlockMap,
    alloc: Global,
    states: &mut [State],
    hint: u32,
    n: u32,
    entry: u64,
) -> Result<bool, AllocError>
    ensures { StaysReserved map.old map.new }
{
    let answer = try_out(map, alloc, hint, n);
    if let Ok(list) = &answer {
        release_all(map, list, entry)?;
    }
    is_right(alloc, states, hint, n, &answer, State::Free)
}

/// Reserves blocks of both, and holds them.
fn hold_both(
    map: &mut BlockMap,
    alloc: Global,
    states: &mut [State],
    hint: u32,
    n: u32,
    held: &mut PxdList,
) -> Result<bool, AllocError>
    requires { AreReserved map.old held.old }
    ensures { AreReserved map.new held.new }
{
    let answer = map.reserve(alloc, hint, n);
    let same = is_right(alloc, states, hint, n, &answer, State::Reserved);
    if let Ok(list) = answer {
        *held = list;
    }
    same
}

/// Gives the held blocks of both owners, or gives them back.
fn let_go_both(
    map: &mut BlockMap,
    alloc: Global,
    states: &mut [State],
    held: &mut PxdList,
    owned: bool,
)
    requires { AreReserved map.old held.old }
    ensures { AreReserved map.new held.new }
{
    if owned {
        map.own(held);
        put_runs(states, held, State::Owned);
    } else {
        map.give_back(held);
        put_runs(states, held, State::Free);
    }
    *held = PxdList::new(alloc);
}

/// Takes the lowest run of four of both, or tries it, and tells whether the answers are the same.
fn four_both(map: &mut BlockMap, states: &mut [State], owned: bool) -> bool
    ensures { StaysReserved map.old map.new }
{
    let run = if owned { take_four(map) } else { try_four(map) };
    match (run, lowest(states, 4)) {
        (Some(run), Some(first)) => {
            if owned {
                put(states, first, 4, State::Owned);
            }
            run.addr == first as u64 && run.len == 4
        }
        (None, None) => true,
        _ => false,
    }
}

fn release_both(
    map: &mut BlockMap,
    alloc: Global,
    states: &mut [State],
    first: u32,
    n: u32,
    entry: u64,
) -> Result<(), AllocError>
    ensures { StaysReserved map.old map.new }
{
    release_run(
        map,
        alloc,
        Pxd {
            len: n,
            addr: u64::from(first),
        },
        entry,
    )?;
    release(states, first as usize, n as usize, entry);
    Ok(())
}

fn settle_both(map: &mut BlockMap, states: &mut [State], told: u64)
    ensures { StaysReserved map.old map.new }
{
    map.settle(told);
    settle(states, told);
}

/// Whether both answer the questions that change nothing alike.
fn answers_as(map: &BlockMap, states: &[State]) -> bool {
    map.unowned() == count_unowned(states)
        && map.has_four_once_settled() == has_four_once_settled(states)
        && map.spare() == 0
}

/// Where a call begins: often just below the held blocks, or at one of a few places, so that calls meet one another's blocks.
fn first_of(held: &PxdList, draw: u32, n: u32) -> u32 {
    match (held.get(0), draw >> 28) {
        (Some(run), 0..=3) => (run.addr.min(20000) as u32).saturating_sub(n / 2),
        (_, 0..=5) => draw / 16 % 8 * 2500,
        _ => draw / 16 % 20100,
    }
}

/// One call on both, picked by a number; tells whether the answers are the same.
fn step(
    map: &mut BlockMap,
    alloc: Global,
    states: &mut [State],
    held: &mut PxdList,
    draw: u32,
    call: u64,
) -> Result<bool, AllocError>
    requires { AreReserved map.old held.old }
    ensures { AreReserved map.new held.new }
{
    let n = draw / 64 % 400;
    let first = first_of(held, draw, n);
    let owned = draw & 1024 == 0;
    // not always a higher one than before, so that busy blocks are released again for lower entries and higher ones
    let entry = call.saturating_sub(u64::from(draw / 2048 % 32));
    match draw % 16 {
        0..=2 => take_both(map, alloc, states, first, n),
        3 => take_both(map, alloc, states, first, 30 * n),
        4 => try_both(map, alloc, states, first, n, entry),
        5 => Ok(four_both(map, states, owned)),
        6..=8 => {
            let same = take_both(map, alloc, states, first, n)?;
            release_both(map, alloc, states, first, n, entry)?;
            Ok(same)
        }
        9..=11 => {
            release_both(map, alloc, states, first, 2 * n, entry)?;
            Ok(true)
        }
        12..=13 => {
            settle_both(map, states, entry);
            Ok(true)
        }
        _ => {
            if held.len() == 0 {
                hold_both(map, alloc, states, first, n, held)
            } else {
                let_go_both(map, alloc, states, held, owned);
                Ok(true)
            }
        }
    }
}

/// Whether both count and answer the same.
fn agree(map: &BlockMap, states: &[State]) -> bool {
    map.free() == count_free(states) && map.busy() == count_busy(states) && answers_as(map, states)
}

/// The next number of a row without order.
fn next(seed: u64) -> u64 {
    seed.wrapping_mul(6364136223846793005)
        .wrapping_add(1442695040888963407)
}

/// Whether both agree after each of 400 calls, and the pages are canonical after each fortieth.
fn stay_same(alloc: Global, map: &mut BlockMap, states: &mut Vec<State>) -> Option<bool> {
    let mut held = PxdList::new(alloc);
    let mut seed = 1u64;
    for i in 0..400u64 {
        seed = next(seed);
        let draw = (seed >> 33) as u32;
        if !step(map, alloc, states, &mut held, draw, i).ok()? || !agree(map, states) {
            return Some(false);
        }
        if i % 40 == 39 && !are_canonical(map, states) {
            return Some(false);
        }
    }
    Some(true)
}

/// The map of 20,000 blocks, and their states: 40 runs have owners, each by seven blocks longer than the one before.
fn sown(alloc: Global) -> Option<(BlockMap, Vec<State>)> {
    let mut set = [0u8; 2504];
    let mut states = vec![in alloc; State::Free; 20000].ok()?;
    for k in 0..40u32 {
        set_run(&mut set, 501 * k, 7 * k);
        put(&mut states, 501 * k as usize, 7 * k as usize, State::Owned);
    }
    Some((map_of(alloc, &set, BLOCKS).ok()?, states))
}

#[test]
fn slow_set(rt: HostRuntime) {
    let (mut map, mut states) = sown(rt.alloc()).expect(&rt, "memory");
    assert!(rt; are_canonical(&map, &states));
    assert!(rt; stay_same(rt.alloc(), &mut map, &mut states) == Some(true));
}
