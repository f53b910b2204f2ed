//! A caller that writes down the lines that it is called for.
ghost use Rattle.std.specs.Prelude.{◌≡◌, ◌+◌};

use jfs_clients::Caller;
use jfs_plain::{Ack, Refusal, Reply, Request};
use std::sync::Wait;
use std::sync::atomic::{AtomicU64, Ordering};
use std::thread;
use std::thread::Threads;

/// How often a client looks whether another has come.
const TURNS: u32 = 10_000_000;

/// Where clients wait for one another, and whether one waited in vain.
#[derive(Drop)]
pub struct Meeting {
    pub come: AtomicU64,
    pub missed: AtomicU64,
}

impl Meeting {
    pub fn new() -> Meeting {
        Meeting {
            come: AtomicU64::new(0),
            missed: AtomicU64::new(0),
        }
    }

    /// Waits until two clients are here at once.
    fn wait(&self) {
        self.come.fetch_add(1, Ordering::SeqCst);
        for _ in 0..TURNS {
            if self.come.load(Ordering::SeqCst) >= 2 {
                return;
            }
            thread::yield_now();
        }
        self.missed.store(1, Ordering::SeqCst);
    }
}

/// Writes down each line's number. Its first call waits for another client's; the call of the line `last` finds no memory.
#[derive(Drop)]
pub struct Toy<'a> {
    pub meeting: &'a Meeting,
    pub left: u32,
    pub last: u32,
    pub lines: Vec<u32>,
}

impl<'a> Caller for Toy<'a> {
    ghost left = { λ toy. toy.left };

    ghost did = { λ toy line request reply ack after. after.left + 1 ≡ toy.left };

    fn call<R: Threads + Wait + Sync>(
        &mut self,
        _rt: &R,
        line: u32,
        _request: &Request,
    ) -> (Reply, Ack) {
        if self.lines.is_empty() {
            self.meeting.wait();
        }
        self.left -= 1;
        if self.lines.push(line).is_err() || line == self.last {
            return (Reply::Refused(Refusal::OutOfMemory), Ack::Pending);
        }
        (Reply::Done, Ack::Pending)
    }
}
