//! A gate at which clients meet.

use jfs_io::{Gate, Place};
use std::sync::Wait;
use std::sync::atomic::{AtomicBool, AtomicU64, Ordering};
use std::thread::{self, Threads};

/// How often a client looks whether the others have come.
const TURNS: u32 = 10_000_000;

/// Makes clients go through their scripts side by side, which have as many lines: no client goes on behind the entry of a line before each has one.
///
/// Where one leads, that is so of odd lines alone, which may not wait for the log. On each even line another client in turn leads: it goes on at once, and is held with its group, before that is written, until each of the others has
/// an entry too. They go on once the leader is there. So calls are done while a group is written, and the next group has the entries of all these calls.
#[derive(Drop)]
pub struct Rounds {
    clients: u64,
    one_leads: bool,
    /// How many entries there are.
    entries: AtomicU64,
    /// Of how many even lines the leader came to write its group.
    groups: AtomicU64,
    missed: AtomicBool,
}

impl Rounds {
    /// The gate of so many clients.
    pub fn new(clients: u32, one_leads: bool) -> Rounds {
        Rounds {
            clients: u64::from(clients.max(1)),
            one_leads,
            entries: AtomicU64::new(0),
            groups: AtomicU64::new(0),
            missed: AtomicBool::new(false),
        }
    }

    /// Whether the clients did so many lines, led so many groups, and none waited in vain.
    pub fn are_done(&self, lines: u64, groups: u64) -> bool {
        self.entries.load(Ordering::SeqCst) == self.clients.wrapping_mul(lines)
            && self.groups.load(Ordering::SeqCst) == groups
            && !self.missed.load(Ordering::SeqCst)
    }

    // Waits until a count has come so far, for a bounded number of turns.
    fn wait_for(&self, count: &AtomicU64, wanted: u64) {
        for _ in 0..TURNS {
            if count.load(Ordering::SeqCst) >= wanted {
                return;
            }
            thread::yield_now();
        }
        self.missed.store(true, Ordering::SeqCst);
    }

    // The line to which the entry of this number belongs, from 1. No client has an entry of the next line before each has one of this.
    fn line_of(&self, entry: u64) -> u64 {
        let clients = self.clients.max(1);
        (entry.wrapping_sub(1) / clients).wrapping_add(1)
    }

    // Whether a client leads on this line.
    fn leads(&self, line: u64, client: u32) -> bool {
        let clients = self.clients.max(1);
        let turn = (line / 2).wrapping_sub(1) % clients;
        self.one_leads && line % 2 == 0 && turn.wrapping_add(1) == u64::from(client)
    }

    // Behind an entry.
    fn meet(&self, client: u32) {
        let entry = self.entries.fetch_add(1, Ordering::SeqCst).wrapping_add(1);
        let line = self.line_of(entry);
        if self.leads(line, client) {
            return;
        }
        if self.one_leads && line % 2 == 0 {
            self.wait_for(&self.groups, line / 2);
        } else {
            self.wait_for(&self.entries, self.clients.wrapping_mul(line));
        }
    }

    // Before a group is written.
    fn lead(&self, client: u32) {
        let line = self.line_of(self.entries.load(Ordering::SeqCst));
        if self.leads(line, client) {
            self.groups.fetch_add(1, Ordering::SeqCst);
            self.wait_for(&self.entries, self.clients.wrapping_mul(line));
        }
    }
}

impl Gate for Rounds {
    fn pause<R: Threads + Wait + Sync>(&self, _rt: &R, place: Place, client: u32) {
        match place {
            Place::AfterAppend => self.meet(client),
            Place::BeforeLogWrite => self.lead(client),
        }
    }
}
