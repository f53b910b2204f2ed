//! A log whose sync is held: no call of its group is answered before it.

ghost use Rattle.std.specs.Prelude.{[]};

use crate::scripts::{Work, scripts_of};
use crate::volume::{PAGES, is_formatted, ran_on};
use jfs_disk::{Disk, DiskError, Page, Part, SureDisk};
use jfs_io::{Gate, Place};
use jfs_run::RunEnd;
use std::alloc::Global;
use std::sync::Wait;
use std::sync::atomic::{AtomicBool, AtomicU64, Ordering};
use std::test::*;
use std::thread::{self, Threads};

/// How often a client looks whether the others have come.
const TURNS: u32 = 10_000_000;

/// How often a sync looks whether a client goes on.
const LOOKS: u32 = 100_000;

/// Makes clients wait with their first entries: the first client until each of the others has one, and these until the first one's group is being synced. That sync is held for a while, in which the others could go on.
#[derive(Drop)]
struct Held {
    clients: u64,
    entries: AtomicU64,
    syncs: AtomicBool,
    missed: AtomicBool,
    early: AtomicBool,
}

impl Held {
    fn new(clients: u32) -> Held {
        Held {
            clients: u64::from(clients),
            entries: AtomicU64::new(0),
            syncs: AtomicBool::new(false),
            missed: AtomicBool::new(false),
            early: AtomicBool::new(false),
        }
    }

    /// A sync was held, no client waited in vain, and none went on before its end.
    fn is_kept(&self) -> bool {
        self.syncs.load(Ordering::SeqCst)
            && !self.missed.load(Ordering::SeqCst)
            && !self.early.load(Ordering::SeqCst)
    }

    // Whether a client may go on behind its first entry.
    fn may_go_on(&self, client: u32) -> bool {
        if client == 1 {
            self.entries.load(Ordering::SeqCst) >= self.clients
        } else {
            self.syncs.load(Ordering::SeqCst)
        }
    }

    // Behind an entry.
    fn meet(&self, client: u32) {
        if self.entries.fetch_add(1, Ordering::SeqCst) >= self.clients {
            return;
        }
        for _ in 0..TURNS {
            if self.may_go_on(client) {
                return;
            }
            thread::yield_now();
        }
        self.missed.store(true, Ordering::SeqCst);
    }

    // Before the log is synced. The first time that each client has an entry, it looks whether one gets a further one.
    fn hold(&self) {
        if self.entries.load(Ordering::SeqCst) < self.clients
            || self.syncs.swap(true, Ordering::SeqCst)
        {
            return;
        }
        for _ in 0..LOOKS {
            if self.entries.load(Ordering::SeqCst) > self.clients {
                self.early.store(true, Ordering::SeqCst);
                return;
            }
            thread::yield_now();
        }
    }
}

impl Gate for Held {
    fn pause<R: Threads + Wait + Sync>(&self, _rt: &R, place: Place, client: u32) {
        if place == Place::AfterAppend {
            self.meet(client);
        }
    }
}

/// A disk without faults that tells nothing of its contents, and holds its part with the log before a sync.
#[derive(Drop)]
struct HeldDisk<'a> {
    disk: SureDisk,
    part: Part,
    held: &'a Held,
}

impl Disk for HeldDisk<'_> {
    ghost page_count = { λ held. held.disk.count };

    ghost fault_count = { λ _. 0 };

    ghost room = { λ held. held.disk.room };

    ghost tells = { ⊥ };

    ghost image = { λ _. [] };

    ghost tells_crashes = { ⊥ };

    ghost past = { λ _. [] };

    fn pages(&self) -> u32 {
        self.disk.pages()
    }

    fn read(&mut self, n: u32, into: &mut Page) -> Result<(), DiskError> {
        self.disk.read(n, into)
    }

    fn write(&mut self, n: u32, from: &Page) -> Result<(), DiskError> {
        self.disk.write(n, from)
    }

    fn sync(&mut self) -> Result<(), DiskError> {
        if self.part == Part::High {
            self.held.hold();
        }
        self.disk.sync()
    }

    fn faults(&self) -> u64 {
        0
    }

    fn cut(self, at: u32) -> Result<(Self, Self), Self> {
        let HeldDisk { disk, part, held } = self;
        match disk.cut(at) {
            Ok((low, high)) => Ok((
                HeldDisk {
                    disk: low,
                    part: Part::Low,
                    held,
                },
                HeldDisk {
                    disk: high,
                    part: Part::High,
                    held,
                },
            )),
            Err(disk) => Err(HeldDisk { disk, part, held }),
        }
    }

    fn join(low: Self, high: Self) -> Self {
        HeldDisk {
            disk: SureDisk::join(low.disk, high.disk),
            part: Part::Whole,
            held: low.held,
        }
    }

    ghost has_pages = { λ _ tells. absurd tells };

    ghost reads_now = { λ _ tells. absurd tells };

    ghost reads_crash = { λ _ tells. absurd tells };

    ghost has_state = { λ _ tells. absurd tells };
}

/// Whether so many clients do two lines each on such a disk, and no call is answered before the sync of its group.
fn is_kept<R: Threads + Wait + Sync>(rt: &R, alloc: Global, clients: u32) -> Option<bool> {
    let held = Held::new(clients);
    let mut disk = HeldDisk {
        disk: SureDisk::new(alloc, PAGES).ok()?,
        part: Part::Whole,
        held: &held,
    };
    if !is_formatted(&mut disk) {
        return None;
    }
    let scripts = scripts_of(alloc, Work::Two, clients)?;
    let ran = ran_on(rt, alloc, &scripts, disk, false, &held)?;
    let is_whole = ran.end == RunEnd::Done && ran.told.len() == scripts.len().wrapping_mul(2);
    Some(is_whole && held.is_kept())
}

#[test]
fn no_call_is_answered_before_its_group(rt: HostRuntime) {
    for clients in [2, 16] {
        assert!(rt;
            is_kept(&rt, rt.alloc(), clients) == Some(true),
            "{clients}"
        );
    }
}
