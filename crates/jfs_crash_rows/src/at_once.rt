//! Runs of several clients that call at once.

ghost use Rattle.std.specs.Prelude.{IfSome};
ghost use Rattle.jfs_run.specs.Tasks.{plan_of, IsPlan};

use crate::runs::{has_counts, says};
use crate::volume::{formatted, lines_of, ran_at_once};
use jfs_disk::{Fail, Kind, MemDisk, Part};
use jfs_io::{Gate, Place};
use jfs_plain::{Entry, Line, Refusal, Reply};
use jfs_run::{Ran, RunEnd};
use jfs_super::VolumeState;
use std::alloc::Global;
use std::sync::Wait;
use std::sync::atomic::{AtomicU64, Ordering};
use std::test::*;
use std::thread;
use std::thread::Threads;

/// How often a client looks whether the others have come.
const TURNS: u32 = 10_000_000;

/// Holds each client behind its first entry until so many have one, and tells whether one waited in vain.
#[derive(Drop)]
struct Meeting {
    clients: u64,
    come: AtomicU64,
    missed: AtomicU64,
}

impl Meeting {
    fn new(clients: u64) -> Meeting {
        Meeting {
            clients,
            come: AtomicU64::new(0),
            missed: AtomicU64::new(0),
        }
    }
}

impl Gate for Meeting {
    fn pause<R: Threads + Wait + Sync>(&self, _rt: &R, place: Place, _client: u32) {
        if place != Place::AfterAppend {
            return;
        }
        self.come.fetch_add(1, Ordering::SeqCst);
        for _ in 0..TURNS {
            if self.come.load(Ordering::SeqCst) >= self.clients {
                return;
            }
            thread::yield_now();
        }
        self.missed.store(1, Ordering::SeqCst);
    }
}

static ONE: &'static [u8] =
    b"mkdir /a 0755\ncreate /a/f 0644\nlazy chmod /a/f 0600\nlist /a\nsync\n";

static TWO: &'static [u8] =
    b"mkdir /b 0755\nlazy create /b/g 0600\nwrite /b/g 0 4142\nread /b/g 0 2\n";

/// Whether a client's entries stand in the history in the order of its lines, so many, and each done.
fn has_all(history: &[Entry], client: u32, lines: u32) -> bool {
    let mut next = 1u32;
    for entry in history {
        if entry.client == client {
            if entry.line != next || matches!(entry.reply, Reply::Refused(_)) {
                return false;
            }
            next = next.wrapping_add(1);
        }
    }
    next == lines.wrapping_add(1)
}

/// Whether just the entries of these lines are told.
fn are_told(ran: &Ran<MemDisk>, lines: &[(u32, u32)]) -> bool {
    let mut count = 0usize;
    for number in ran.told.as_slice() {
        let Some(entry) = ran
            .history
            .as_slice()
            .get((*number as usize).wrapping_sub(1))
        else {
            return false;
        };
        if !lines.contains(&(entry.client, entry.line)) {
            return false;
        }
        count = count.wrapping_add(1);
    }
    count == lines.len()
}

/// A run of two scripts at once, where both clients have an entry before either goes on; `None` where one waited in vain.
fn both<R: Threads + Wait + Sync>(
    rt: &R,
    alloc: Global,
    one: &[u8],
    two: &[u8],
    fails: &[Fail],
) -> Option<Ran<MemDisk>> {
    let scripts = scripts_of(alloc, one, two)?;
    let gate = Meeting::new(2);
    let disk = formatted(alloc, fails)?;
    let ran = ran_at_once(rt, alloc, disk, &scripts, false, &gate)?;
    if gate.missed.load(Ordering::SeqCst) == 0 {
        Some(ran)
    } else {
        None
    }
}

/// Two scripts.
fn scripts_of(alloc: Global, one: &[u8], two: &[u8]) -> Option<Vec<Vec<Line>>>
    ensures { IfSome result (λ scripts. IsPlan (plan_of scripts.items)) }
{
    let one = lines_of(alloc, one)?;
    let two = lines_of(alloc, two)?;
    if one.len() > 4096 || two.len() > 4096 {
        return None;
    }
    let mut scripts = Vec::new(alloc);
    scripts.push(one).ok()?;
    scripts.push(two).ok()?;
    Some(scripts)
}

#[test]
fn two_clients_at_once(rt: HostRuntime) {
    let alloc = rt.alloc();
    let mut ran = both(&rt, alloc, ONE, TWO, &[]).expect(&rt, "a run");
    assert!(rt; ran.end == RunEnd::Done);
    assert!(rt; ran.history.len() == 9);
    assert!(rt; has_all(ran.history.as_slice(), 1, 5));
    assert!(rt; has_all(ran.history.as_slice(), 2, 4));
    assert!(rt; are_told(&ran, &[(1, 1), (1, 2), (1, 5), (2, 1), (2, 3)]));
    assert!(rt; says(&mut ran.disk, 0, VolumeState::CLEAN));
    assert!(rt; has_counts(alloc, &mut ran.disk, 2974, 8));
}

static FIRST: &'static [u8] = b"mkdir /a 0755\nmkdir /c 0755\n";

static SECOND: &'static [u8] = b"mkdir /b 0755\nlist /\n";

/// How many entries of a history were refused for a halted volume.
fn refused(history: &[Entry]) -> usize {
    history
        .iter()
        .filter(|entry| matches!(entry.reply, Reply::Refused(Refusal::ReadOnly { .. })))
        .count()
}

// The log's second sync is that of the group with both clients' first entries: neither is told, and the volume halts.
#[test]
fn the_commit_of_both_fails(rt: HostRuntime) {
    let alloc = rt.alloc();
    let fail = Fail {
        part: Part::High,
        kind: Kind::Sync,
        first: 2,
        last: 2,
    };
    let mut ran = both(&rt, alloc, FIRST, SECOND, &[fail]).expect(&rt, "a run");
    assert!(rt; ran.end == RunEnd::Disk);
    assert!(rt; ran.told.is_empty());
    assert!(rt; ran.history.len() == 4);
    assert!(rt; refused(ran.history.as_slice()) == 1);
    assert!(rt; says(&mut ran.disk, 1, VolumeState::MOUNTED));
}
