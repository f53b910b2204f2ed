//! Which calls of a disk in memory fail.

ghost use Rattle.std.specs.Prelude.{◌≡◌, ◌+◌, ◌-◌, ◌^◌, min};
ghost use Rattle.std.specs.List.{list_any};
ghost use Rattle.jfs_disk.specs.Plan.{same_part, same_kind, covers, number_of, counted, counters_on, tallied, untouched, fails_next};

use crate::disk::Part;
use std::alloc::Global;

/// A kind of device call.
#[derive(Clone, Copy)]
pub enum Kind {
    Read,
    Write,
    Sync,
}

/// The calls of this kind on this part numbered `first` to `last`, from 1, fail.
#[derive(Clone, Copy)]
pub struct Fail {
    pub part: Part,
    pub kind: Kind,
    pub first: u64,
    pub last: u64,
}

impl Part {
    fn is(self, other: Part) -> bool
        ensures { result ≡ same_part self other }
    {
        match (self, other) {
            (Part::Whole, Part::Whole) => true,
            (Part::Low, Part::Low) => true,
            (Part::High, Part::High) => true,
            _ => false,
        }
    }
}

impl Kind {
    fn is(self, other: Kind) -> bool
        ensures { result ≡ same_kind self other }
    {
        match (self, other) {
            (Kind::Read, Kind::Read) => true,
            (Kind::Write, Kind::Write) => true,
            (Kind::Sync, Kind::Sync) => true,
            _ => false,
        }
    }
}

impl Fail {
    fn covers(&self, part: Part, kind: Kind, number: u64) -> bool
        ensures { result ≡ covers part kind number self.now }
    {
        self.part.is(part) && self.kind.is(kind) && self.first <= number && number <= self.last
    }
}

/// How many calls of each kind there were.
#[derive(Clone, Copy, Drop)]
pub struct Counters {
    pub reads: u64,
    pub writes: u64,
    pub syncs: u64,
}

/// How many calls there were on the disk as a whole and on each of its parts.
#[derive(Clone, Copy, Drop)]
pub struct Tally {
    pub whole: Counters,
    pub low: Counters,
    pub high: Counters,
}

/// The fails of a disk, the part that it is, and how many calls there were.
#[derive(Drop)]
pub struct Plan {
    pub part: Part,
    pub fails: Vec<Fail>,
    pub tally: Tally,
    pub alloc: Global,
}

impl Counters {
    pub fn new() -> Self
        ensures { result ≡ record { reads = 0; writes = 0; syncs = 0 } }
    {
        Counters {
            reads: 0,
            writes: 0,
            syncs: 0,
        }
    }

    fn count(&mut self, kind: Kind) -> u64
        ensures counted { self.new ≡ counted kind self.old }
        ensures number { result ≡ number_of kind self.new }
    {
        match kind {
            Kind::Read => {
                self.reads = self.reads.saturating_add(1);
                self.reads
            }
            Kind::Write => {
                self.writes = self.writes.saturating_add(1);
                self.writes
            }
            Kind::Sync => {
                self.syncs = self.syncs.saturating_add(1);
                self.syncs
            }
        }
    }
}

impl Tally {
    pub fn new() -> Self
        ensures { result ≡ untouched }
    {
        Tally {
            whole: Counters::new(),
            low: Counters::new(),
            high: Counters::new(),
        }
    }

    fn count(&mut self, part: Part, kind: Kind) -> u64
        ensures tallied { self.new ≡ tallied part kind self.old }
        ensures number { result ≡ number_of kind (counters_on part self.new) }
    {
        match part {
            Part::Whole => self.whole.count(kind),
            Part::Low => self.low.count(kind),
            Part::High => self.high.count(kind),
        }
    }
}

impl Plan {
    /// Counts a call of this kind, and tells whether it fails.
    pub fn count(&mut self, kind: Kind) -> bool
        ensures fails { result ≡ fails_next self.old.fails.items self.old.part kind self.old.tally }
        ensures tallied { self.new ≡ record self.old { tally = tallied self.old.part kind self.old.tally } }
    {
        let number = self.tally.count(self.part, kind);
        self.fails
            .iter()
            .any(|fail| fail.covers(self.part, kind, number))
    }
}
