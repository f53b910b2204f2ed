//! How often the line of progress is written.

use crate::progress::Progress;
use jfs_io::{Gate, Place};
use std::fmt::Display;
use std::io;
use std::rt::Clock;
use std::sync::atomic::{AtomicU64, Ordering};
use std::time::Duration;

/// A terminal that counts what is written to it, and a clock that stands where it is set.
#[derive(Drop)]
struct Screen {
    writes: AtomicU64,
    second: AtomicU64,
}

impl Screen {
    fn written(&self) -> u64 {
        self.writes.load(Ordering::SeqCst)
    }

    fn set(&self, second: u64) {
        self.second.store(second, Ordering::SeqCst);
    }
}

impl Eprint for Screen {
    fn eprint<D: Display + Drop>(&self, _value: D) -> io::Result<()> {
        self.writes.fetch_add(1, Ordering::SeqCst);
        Ok(())
    }

    fn eprintln<D: Display + Drop>(&self, value: D) -> io::Result<()> {
        self.eprint(value)
    }
}

impl Clock for Screen {
    fn monotonic(&self) -> io::Result<Duration> {
        Ok(Duration::from_secs(self.second.load(Ordering::SeqCst)))
    }

    fn since_1970(&self) -> io::Result<Duration> {
        self.monotonic()
    }
}

#[test]
fn once_a_second(rt: HostRuntime) {
    let screen = Screen {
        writes: AtomicU64::new(0),
        second: AtomicU64::new(5),
    };
    let progress = Progress::new(Some(&screen));
    // nothing within the first second, and then at most one line for each
    for (second, wanted) in [(5, 0), (6, 1), (6, 1), (9, 2)].iter() {
        screen.set(*second);
        for _ in 0..100 {
            progress.pause(&rt, Place::AfterAppend, 1);
            progress.pause(&rt, Place::BeforeLogWrite, 1);
        }
        assert!(rt; screen.written() == *wanted);
    }
    // it is taken away once
    progress.clear();
    progress.clear();
    assert!(rt; screen.written() == 3);
}

#[test]
fn never_without_a_terminal(rt: HostRuntime) {
    let progress: Progress<'_, Screen> = Progress::new(None);
    progress.pause(&rt, Place::AfterAppend, 1);
    progress.clear();
}
