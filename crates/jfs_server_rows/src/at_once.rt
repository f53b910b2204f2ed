//! Clients that call at once, held at each place in turn.

use crate::gates::Rounds;
use crate::history::{front_of, have_lines, is_legal};
use crate::scripts::{PAIRS, Work};
use crate::volume::{crashed, ran, redone_tree};
use jfs_disk::{Disk, Fail, Kind, MemDisk, Part};
use jfs_plain::Entry;
use jfs_run::{Ran, RunEnd};
use std::alloc::Global;
use std::sync::Wait;
use std::test::*;
use std::thread::Threads;

/// How many lines each client has: pairs, and `sync`.
const LINES: u32 = 33;

/// The first sync of the log that isn't made: the mount makes one. Each pair of lines has two groups and the last line one, and each of these 33 groups is synced twice at most.
const FIRST_NOT: u64 = 68;

/// Whether just the entries of even lines and of the last one are told, which are those that wait.
fn are_told(history: &[Entry], told: &[u64], clients: u32) -> bool {
    for number in told {
        match history.get((*number as usize).wrapping_sub(1)) {
            Some(entry) if entry.line % 2 == 0 || entry.line == LINES => {}
            _ => return false,
        }
    }
    told.len() == clients.wrapping_mul(PAIRS.wrapping_add(1)) as usize
}

/// A run of so many clients, a few of which wait for each sync of the log; `None` where one waited in vain, or the log was synced more often.
fn rounds<R: Threads + Wait + Sync>(rt: &R, alloc: Global, clients: u32) -> Option<Ran<MemDisk>> {
    let gate = Rounds::new(clients, true);
    let fail = Fail {
        part: Part::High,
        kind: Kind::Sync,
        first: FIRST_NOT,
        last: u64::MAX,
    };
    let ran = ran(rt, alloc, Work::Pairs, clients, &[fail], true, &gate)?;
    let is_so = gate.are_done(u64::from(LINES), u64::from(PAIRS)) && ran.disk.faults() == 0;
    (is_so && ran.end == RunEnd::Done).then_some(ran)
}

/// How many clients there are.
static CROWDS: [u32; 2] = [2, 16];

// Sixteen clients have 272 calls that wait, and the log is synced 67 times at most.
#[test]
fn clients_at_once(rt: HostRuntime) {
    let alloc = rt.alloc();
    for clients in CROWDS.iter() {
        let ran = rounds(&rt, alloc, *clients).expect(&rt, "a run");
        let history = ran.history.as_slice();
        assert!(rt; have_lines(history, *clients, LINES), "{clients}");
        assert!(rt; is_legal(alloc, history) == Some(true), "{clients}");
        assert!(rt;
            are_told(history, ran.told.as_slice(), *clients),
            "{clients}"
        );
        let last = ran.told.as_slice().last().copied().unwrap_or(0);
        let disk = crashed(alloc, ran.disk).expect(&rt, "memory");
        let tree = redone_tree(alloc, disk).expect(&rt, "a tree");
        assert!(rt;
            front_of(alloc, ran.history.as_slice(), last, &tree, true) == Some(last),
            "{clients}"
        );
    }
}
