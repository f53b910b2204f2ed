//! A sink over the program's output. It tells nothing of what was taken.

ghost use Rattle.std.specs.Prelude.{[]};

use crate::progress::Progress;
use jfs_io::{Sink, SinkError};
use std::io::Write;
use std::rt::Clock;

/// The output, which takes the line of progress away before it writes, and how often a call failed.
#[derive(Drop)]
pub struct OutSink<'a, W, P> {
    out: W,
    progress: &'a Progress<'a, P>,
    faults: u64,
}

impl<'a, W: Write, P: Eprint + Clock> OutSink<'a, W, P> {
    pub fn new(out: W, progress: &'a Progress<'a, P>) -> OutSink<'a, W, P> {
        OutSink {
            out,
            progress,
            faults: 0,
        }
    }
}

impl<W: Write, P: Eprint + Clock> Sink for OutSink<'_, W, P> {
    ghost fault_count = { λ s. s.faults };

    ghost tells = { ⊥ };

    ghost taken = { λ _. [] };

    fn put(&mut self, bytes: &[u8]) -> Result<usize, SinkError> {
        self.progress.clear();
        if let Ok(count) = self.out.write(bytes) {
            if count > 0 || bytes.is_empty() {
                return Ok(count);
            }
        }
        self.faults = self.faults.saturating_add(1);
        Err(SinkError::Failed)
    }

    fn faults(&self) -> u64 {
        self.faults
    }
}
