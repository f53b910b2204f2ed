//! What a person sees of a run while it goes on.

use jfs_io::{Gate, Place};
use std::rt::Clock;
use std::sync::Wait;
use std::sync::atomic::{AtomicBool, AtomicU64, Ordering};
use std::thread::Threads;

/// A gate that holds nobody. Where a person watches, one line says how many calls were done and how many groups were written to the log; it is written again at most once a second, and never before the first second is over.
/// The gate's own calls are passed no handle to print with or to read the clock, so it has one.
#[derive(Drop)]
pub struct Progress<'a, P> {
    /// The terminal, if there is one.
    screen: Option<&'a P>,
    calls: AtomicU64,
    groups: AtomicU64,
    /// The second of the clock in which the line was written last; at first that in which it all began.
    second: AtomicU64,
    /// Whether a line stands there.
    stands: AtomicBool,
}

impl<'a, P: Eprint + Clock> Progress<'a, P> {
    /// Nothing was done yet. Without a terminal nothing is ever written.
    pub fn new(screen: Option<&'a P>) -> Progress<'a, P> {
        Progress {
            screen,
            calls: AtomicU64::new(0),
            groups: AtomicU64::new(0),
            second: AtomicU64::new(screen.and_then(second_of).unwrap_or(0)),
            stands: AtomicBool::new(false),
        }
    }

    /// Takes the line away, so that other text has its place.
    pub fn clear(&self) {
        if let Some(screen) = self.screen {
            if self.stands.swap(false, Ordering::SeqCst) {
                let _ = eprint!(screen; "\r\u{1b}[K");
            }
        }
    }

    // Writes the line, unless a thread has done so within this second.
    fn show(&self, screen: &P) {
        let Some(now) = second_of(screen) else {
            return;
        };
        let second = self.second.load(Ordering::SeqCst);
        if now <= second {
            return;
        }
        if self
            .second
            .compare_exchange(second, now, Ordering::SeqCst, Ordering::SeqCst)
            .is_err()
        {
            return;
        }
        let calls = self.calls.load(Ordering::SeqCst);
        let groups = self.groups.load(Ordering::SeqCst);
        self.stands.store(true, Ordering::SeqCst);
        let _ = eprint!(screen; "\rjfsd: {calls} calls, {groups} groups\u{1b}[K");
    }
}

// The whole seconds of the clock, if it can be read.
fn second_of<P: Clock>(clock: &P) -> Option<u64> {
    Some(clock.monotonic().ok()?.as_secs())
}

impl<P: Eprint + Clock> Gate for Progress<'_, P> {
    fn pause<R: Threads + Wait + Sync>(&self, _rt: &R, place: Place, _client: u32) {
        let count = match place {
            Place::AfterAppend => &self.calls,
            Place::BeforeLogWrite => &self.groups,
        };
        count.fetch_add(1, Ordering::SeqCst);
        if let Some(screen) = self.screen {
            self.show(screen);
        }
    }
}
