//! Clients at once: gates that hold one client until another has come, and a disk that counts what reaches its log.

ghost use Rattle.std.specs.Prelude.{[]};

use crate::check::new_volume;
use crate::volume::run_at;
use jfs_command::{Ended, Status};
use jfs_disk::{Disk, DiskError, MemDisk, Page, Part, SureDisk};
use jfs_io::{Gate, Place, SureSink};
use std::alloc::Global;
use std::sync::Wait;
use std::sync::atomic::{AtomicBool, AtomicU64, Ordering};
use std::thread::{self, Threads};

// ---- one client waits for another

/// How often a client looks whether the other has come.
const TURNS: u32 = 10_000_000;

/// Client 1 waits with its group until client 2 has an entry, and client 2 with its entry until client 1 is about to write. Where one thread does all scripts, or one lock is held over a call and its commit, both can't be.
#[derive(Drop)]
struct Meeting {
    writes: AtomicBool,
    appended: AtomicBool,
    missed: AtomicBool,
}

impl Meeting {
    fn new() -> Meeting {
        Meeting {
            writes: AtomicBool::new(false),
            appended: AtomicBool::new(false),
            missed: AtomicBool::new(false),
        }
    }

    // Comes, and waits for the other for a bounded number of turns.
    fn meet(&self, own: &AtomicBool, other: &AtomicBool) {
        own.store(true, Ordering::SeqCst);
        for _ in 0..TURNS {
            if other.load(Ordering::SeqCst) {
                return;
            }
            thread::yield_now();
        }
        self.missed.store(true, Ordering::SeqCst);
    }

    /// Both came, and neither waited in vain.
    fn is_met(&self) -> bool {
        self.writes.load(Ordering::SeqCst)
            && self.appended.load(Ordering::SeqCst)
            && !self.missed.load(Ordering::SeqCst)
    }
}

impl Gate for Meeting {
    fn pause<R: Threads + Wait + Sync>(&self, _rt: &R, place: Place, client: u32) {
        match (place, client) {
            (Place::BeforeLogWrite, 1) => self.meet(&self.writes, &self.appended),
            (Place::AfterAppend, 2) => self.meet(&self.appended, &self.writes),
            _ => {}
        }
    }
}

/// What two clients print, by which of them was the first.
static TEXTS: [&str; 2] = [
    "1 1.1 ok +\n2 2.1 stat dir 0755 3 0 0 0 2 1000 -\ndone 2 entries, 1 durable\n",
    "1 2.1 stat dir 0755 2 0 0 0 2 1000 -\n2 1.1 ok +\ndone 2 entries, 1 durable\n",
];

#[test]
fn a_client_calls_while_another_writes(rt: HostRuntime) {
    let alloc = rt.alloc();
    let gate = Meeting::new();
    let words = ["run", "I", "S", "T"];
    let scripts = ["mkdir /a 0755", "stat /"];
    let mut out = SureSink::new(alloc);
    let disk = new_volume(&rt, alloc).expect(&rt, "memory");
    let ended = run_at(&rt, alloc, &words, &scripts, disk, &mut out, &gate).expect(&rt, "memory");
    assert!(rt; gate.is_met());
    assert!(rt; ended.status == Status::Done);
    assert!(rt; TEXTS.iter().any(|text| out.bytes() == text.as_bytes()));
}

// ---- each call reaches the log before it is told

/// A disk without faults that tells nothing of its contents, and counts how often its part with the log was synced.
#[derive(Drop)]
struct CountedDisk<'a> {
    disk: SureDisk,
    part: Part,
    syncs: &'a AtomicU64,
}

impl Disk for CountedDisk<'_> {
    ghost page_count = { λ counted. counted.disk.count };

    ghost fault_count = { λ _. 0 };

    ghost room = { λ counted. counted.disk.room };

    ghost tells = { ⊥ };

    ghost image = { λ _. [] };

    ghost tells_crashes = { ⊥ };

    ghost past = { λ _. [] };

    fn pages(&self) -> u32 {
        self.disk.pages()
    }

    fn read(&mut self, n: u32, into: &mut Page) -> Result<(), DiskError> {
        self.disk.read(n, into)
    }

    fn write(&mut self, n: u32, from: &Page) -> Result<(), DiskError> {
        self.disk.write(n, from)
    }

    fn sync(&mut self) -> Result<(), DiskError> {
        self.disk.sync()?;
        if self.part == Part::High {
            self.syncs.fetch_add(1, Ordering::SeqCst);
        }
        Ok(())
    }

    fn faults(&self) -> u64 {
        0
    }

    fn cut(self, at: u32) -> Result<(Self, Self), Self> {
        let CountedDisk { disk, part, syncs } = self;
        match disk.cut(at) {
            Ok((low, high)) => Ok((
                CountedDisk {
                    disk: low,
                    part: Part::Low,
                    syncs,
                },
                CountedDisk {
                    disk: high,
                    part: Part::High,
                    syncs,
                },
            )),
            Err(disk) => Err(CountedDisk { disk, part, syncs }),
        }
    }

    fn join(low: Self, high: Self) -> Self {
        CountedDisk {
            disk: SureDisk::join(low.disk, high.disk),
            part: Part::Whole,
            syncs: low.syncs,
        }
    }

    ghost has_pages = { λ _ tells. absurd tells };

    ghost reads_now = { λ _ tells. absurd tells };

    ghost reads_crash = { λ _ tells. absurd tells };

    ghost has_state = { λ _ tells. absurd tells };
}

/// Notes that count behind each entry, before its group is written.
#[derive(Drop)]
struct Notes<'a> {
    syncs: &'a AtomicU64,
    count: AtomicU64,
    last: AtomicU64,
    stood_still: AtomicBool,
}

impl<'a> Notes<'a> {
    fn new(syncs: &'a AtomicU64) -> Notes<'a> {
        Notes {
            syncs,
            count: AtomicU64::new(0),
            last: AtomicU64::new(0),
            stood_still: AtomicBool::new(false),
        }
    }

    /// There are so many notes, and each is greater than the one before.
    fn are_rising(&self, count: u64) -> bool {
        self.count.load(Ordering::SeqCst) == count && !self.stood_still.load(Ordering::SeqCst)
    }
}

impl Gate for Notes<'_> {
    fn pause<R: Threads + Wait + Sync>(&self, _rt: &R, place: Place, _client: u32) {
        if place != Place::AfterAppend {
            return;
        }
        let now = self.syncs.load(Ordering::SeqCst);
        let last = self.last.swap(now, Ordering::SeqCst);
        let before = self.count.fetch_add(1, Ordering::SeqCst);
        if before > 0 && now <= last {
            self.stood_still.store(true, Ordering::SeqCst);
        }
    }
}

/// A new volume on a disk that counts.
fn counted_volume<'a, R: Threads + Wait + Sync>(
    rt: &R,
    alloc: Global,
    syncs: &'a AtomicU64,
) -> Option<CountedDisk<'a>> {
    let disk = CountedDisk {
        disk: SureDisk::new(alloc, 4096).ok()?,
        part: Part::Whole,
        syncs,
    };
    let words = ["format", "I", "00112233-4455-6677-8899-aabbccddeeff"];
    let mut out = SureSink::new(alloc);
    let gate = Notes::new(syncs);
    let ended = run_at(rt, alloc, &words, &[], disk, &mut out, &gate)?;
    (ended.status == Status::Done && gate.are_rising(0)).then_some(ended.disk)
}

#[test]
fn each_call_is_in_the_log_before_the_next(rt: HostRuntime) {
    let alloc = rt.alloc();
    let syncs = AtomicU64::new(0);
    let gate = Notes::new(&syncs);
    let scripts = ["mkdir /a 0755\nmkdir /b 0755\nmkdir /c 0755"];
    let mut out = SureSink::new(alloc);
    let disk = counted_volume(&rt, alloc, &syncs).expect(&rt, "a volume");
    let words = ["run", "I", "S"];
    let ended = run_at(&rt, alloc, &words, &scripts, disk, &mut out, &gate).expect(&rt, "memory");
    assert!(rt; ended.status == Status::Done);
    assert!(rt; gate.are_rising(3));
}
