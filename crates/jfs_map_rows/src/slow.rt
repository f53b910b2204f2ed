//! A plain slow map: a state for each block, and whole walks.

ghost use Rattle.std.specs.Prelude.{◌<◌, ◌≤◌};

use jfs_bits::{Pxd, PxdList};
use std::alloc::{AllocError, Global};

#[derive(Clone, Copy, PartialEq, Eq)]
pub enum State {
    Free,
    Owned,
    Reserved,
    Busy(u64),
}

fn is_free_run(states: &[State], first: usize, n: usize) -> bool {
    for i in 0..n {
        match states.get(first.saturating_add(i)) {
            Some(State::Free) => {}
            _ => return false,
        }
    }
    true
}

/// The lowest free aligned run of so many blocks.
pub fn lowest(states: &[State], size: usize) -> Option<usize>
    requires { 0 < size }
{
    for first in 0..states.len() {
        if first % size == 0 && is_free_run(states, first, size) {
            return Some(first);
        }
    }
    None
}

pub fn put(states: &mut [State], first: usize, n: usize, state: State) {
    for b in 0..states.len() {
        if first <= b && b - first < n {
            states[b] = state;
        }
    }
}

pub fn put_runs(states: &mut [State], runs: &PxdList, state: State) {
    for i in 0..runs.len() {
        if let Some(run) = runs.get(i) {
            put(states, run.addr as usize, run.len as usize, state);
        }
    }
}

/// How many blocks from `hint` on are free, as far as `n` of them.
fn front_of(states: &[State], hint: u32, n: u32) -> u32
    ensures { result ≤ n }
{
    for front in 0..n {
        if !is_free_run(states, hint as usize, front as usize + 1) {
            return front;
        }
    }
    n
}

/// Reserves the runs of a reservation, with whole walks.
pub fn choose(
    alloc: Global,
    states: &mut [State],
    hint: u32,
    n: u32,
) -> Result<PxdList, AllocError> {
    let mut list = PxdList::new(alloc);
    let front = front_of(states, hint, n);
    if front > 0 {
        put(states, hint as usize, front as usize, State::Reserved);
        list.push(Pxd {
            len: front,
            addr: u64::from(hint),
        })?;
    }
    let mut left = n - front;
    for below in 0..32u32 {
        let size = 1u32 << (31 - below);
        for _run in 0..n {
            if size / 2 >= left {
                break;
            }
            match lowest(states, size as usize) {
                Some(first) => {
                    let len = left.min(size);
                    put(states, first, len as usize, State::Reserved);
                    list.push(Pxd {
                        len,
                        addr: first as u64,
                    })?;
                    left -= len;
                }
                None => break,
            }
        }
    }
    Ok(list)
}

/// Makes the owned blocks of a run busy, and no others.
pub fn release(states: &mut [State], first: usize, n: usize, entry: u64) {
    for b in 0..states.len() {
        if first <= b && b - first < n && states[b] == State::Owned {
            states[b] = State::Busy(entry);
        }
    }
}

/// Frees the busy blocks whose entries are durable.
pub fn settle(states: &mut [State], told: u64) {
    for b in 0..states.len() {
        if let State::Busy(entry) = states[b] {
            if entry <= told {
                states[b] = State::Free;
            }
        }
    }
}

pub fn count_free(states: &[State]) -> u32 {
    let mut free = 0u32;
    for state in states {
        if *state == State::Free {
            free = free.saturating_add(1);
        }
    }
    free
}

pub fn count_busy(states: &[State]) -> u32 {
    let mut busy = 0u32;
    for state in states {
        if let State::Busy(_) = state {
            busy = busy.saturating_add(1);
        }
    }
    busy
}

/// The blocks without owners.
pub fn count_unowned(states: &[State]) -> u32 {
    let mut unowned = 0u32;
    for state in states {
        if *state != State::Owned {
            unowned = unowned.saturating_add(1);
        }
    }
    unowned
}

fn are_free_or_busy(states: &[State], first: usize, n: usize) -> bool {
    for i in 0..n {
        match states.get(first.saturating_add(i)) {
            Some(State::Free | State::Busy(_)) => {}
            _ => return false,
        }
    }
    true
}

/// Whether an aligned run of four blocks is free once all busy blocks are settled.
pub fn has_four_once_settled(states: &[State]) -> bool {
    for first in 0..states.len() {
        if first % 4 == 0 && are_free_or_busy(states, first, 4) {
            return true;
        }
    }
    false
}
