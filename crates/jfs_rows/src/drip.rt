//! A sink that takes one byte a call.

ghost use Rattle.std.specs.Prelude.{ℕ, List};

use jfs_io::{MemSink, Sink, SinkError};

/// Hands one byte of each piece on.
#[derive(Drop)]
pub struct DripSink {
    pub inner: MemSink,
}

impl Sink for DripSink {
    ghost fault_count = { λ s. s.inner.failing.faults };

    ghost tells = { Unit {0} };

    ghost taken = { λ s. s.inner.taken };

    fn put(&mut self, bytes: &[u8]) -> Result<usize, SinkError> {
        let count = bytes.len().min(1);
        self.inner.put(&bytes[..count])
    }

    fn faults(&self) -> u64 {
        self.inner.faults()
    }
}
