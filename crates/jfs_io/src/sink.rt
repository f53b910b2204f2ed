//! Sinks of bytes.

ghost use Rattle.std.specs.Prelude.{◌≡◌, ◌≢◌, ◌<◌, ◌≤◌, [], ◌++◌, ℕ, List, length, take, IfOk, IsOk, OnOk, OnErr, IsErr, IsTrue, ◌↔◌, ◌⊎◌, if◌then◌else◌, false};
ghost use Rattle.jfs_bits.specs.Count.{Rose};

use crate::failing::Failing;
use std::alloc::Global;
use std::marker::Model;

/// Why a sink took nothing.
#[derive(Clone, Copy, PartialEq, Eq, Debug)]
pub enum SinkError {
    /// The sink failed; its count of faults rose, or stands at the last `u64` value.
    Failed,
    /// Memory ran out.
    Memory,
}

/// Takes bytes.
pub trait Sink {
    /// How often a call failed.
    ghost fault_count: { Self → ℕ };

    /// Whether the sink tells what it took; one over a real file doesn't.
    ghost tells: { Type 0 };

    /// The bytes that were taken.
    ghost taken: { Self → List ℕ };

    /// Takes some front bytes of `bytes` and answers how many. It answers 0 to a piece that isn't empty only where the
    /// count of faults rose. Where it took something or found no memory, the count stays.
    fn put(&mut self, bytes: &[u8]) -> Result<usize, SinkError>
        ensures count { IfOk result (λ n. n ≤ length bytes.now) }
        ensures bytes { IfOk result (λ n. tells → taken self.new ≡ taken self.old ++ take n bytes.now) }
        ensures stuck { IfOk result (λ n. n ≡ 0 → 0 < length bytes.now → Rose (fault_count self.old) (fault_count self.new)) }
        ensures failed { OnErr result (tells → taken self.new ≡ taken self.old) }
        ensures later { fault_count self.old ≤ fault_count self.new }
        ensures same { IfOk result (λ n. 0 < n → fault_count self.new ≡ fault_count self.old) }
        ensures same_memory { result ≡ Err SinkError.Memory → fault_count self.new ≡ fault_count self.old }
        ensures cause { result ≡ Err SinkError.Failed → Rose (fault_count self.old) (fault_count self.new) };

    /// How often a call failed, up to the last `u64` value.
    fn faults(&self) -> u64
        ensures { result ≡ fault_count self.now };
}

/// A sink in memory, of whose calls some may fail.
#[derive(Debug, Drop)]
pub struct MemSink {
    bytes: Vec<u8>,
    failing: Failing,
    zero_bytes: bool,
}

impl Model for MemSink {
    ghost use Rattle.jfs_io.specs.Failing.{Outlet};

    ghost Value = { Outlet };

    ghost view = { λ s. record { taken = s.bytes.items; failing = s.failing; zero_bytes = s.zero_bytes } };
}

impl MemSink {
    ghost use Rattle.jfs_io.specs.Failing.{Outlet, no_failing, failing_between};

    /// Takes all, with what memory the allocator gives.
    pub fn new(alloc: Global) -> MemSink
        ensures { result ≡ record { taken = []; failing = no_failing; zero_bytes = false } }
    {
        MemSink {
            bytes: Vec::new(alloc),
            failing: Failing::none(),
            zero_bytes: false,
        }
    }

    /// The calls of `put` numbered `first` to `last` from now on, from 1, take nothing and raise the count. They answer
    /// 0 where `zero` is set, else `Failed`.
    pub fn with_fails(self, first: u64, last: u64, zero: bool) -> MemSink
        ensures { result ≡ record self { failing = failing_between first last self.failing; zero_bytes = zero } }
    {
        let MemSink { bytes, failing, .. } = self;
        MemSink {
            bytes,
            failing: failing.between(first, last),
            zero_bytes: zero,
        }
    }

    /// What was taken.
    pub fn bytes(&self) -> &[u8]
        ensures { result.now ≡ self.now.taken }
    {
        &self.bytes
    }
}

impl Sink for MemSink {
    ghost use Rattle.std.specs.Prelude.{⊤};
    ghost use Rattle.jfs_io.specs.Failing.{Outlet, is_failing, after_call};

    ghost fault_count = { λ s. s.failing.faults };

    ghost tells = { ⊤ };

    ghost taken = { λ s. s.taken };

    fn put(&mut self, bytes: &[u8]) -> Result<usize, SinkError>
        ensures count { IfOk result (λ n. n ≤ length bytes.now) }
        ensures bytes { IfOk result (λ n. self.new.taken ≡ self.old.taken ++ take n bytes.now) }
        ensures stuck { IfOk result (λ n. n ≡ 0 → 0 < length bytes.now → Rose self.old.failing.faults self.new.failing.faults) }
        ensures failed { OnErr result (self.new.taken ≡ self.old.taken) }
        ensures later { self.old.failing.faults ≤ self.new.failing.faults }
        ensures same { IfOk result (λ n. 0 < n → self.new.failing.faults ≡ self.old.failing.faults) }
        ensures same_memory { result ≡ Err SinkError.Memory → self.new.failing.faults ≡ self.old.failing.faults }
        ensures cause { result ≡ Err SinkError.Failed → Rose self.old.failing.faults self.new.failing.faults }

        // It fails exactly where it was told to, and else takes all or finds no memory.
        ensures exact { IsTrue (is_failing self.old.failing) →
            result ≡ (if self.old.zero_bytes then Ok 0 else Err SinkError.Failed) }
        ensures else_all { is_failing self.old.failing ≡ false →
            (result ≡ Ok (length bytes.now)) ⊎ (result ≡ Err SinkError.Memory) }
        ensures counted { self.new.failing ≡ after_call self.old.failing }
        ensures zero_bytes { self.new.zero_bytes ≡ self.old.zero_bytes }
    {
        if self.failing.next_fails() {
            return if self.zero_bytes {
                Ok(0)
            } else {
                Err(SinkError::Failed)
            };
        }
        match self.bytes.extend_from_slice(bytes) {
            Ok(()) => Ok(bytes.len()),
            Err(_) => Err(SinkError::Memory),
        }
    }

    fn faults(&self) -> u64 {
        self.failing.faults
    }
}

/// A sink in memory that fails for want of memory alone.
#[derive(Debug, Drop)]
pub struct SureSink {
    bytes: Vec<u8>,
}

impl Model for SureSink {
    ghost use Rattle.std.specs.Prelude.{ℕ, List};

    ghost Value = { List ℕ };

    ghost view = { λ s. s.bytes.items };
}

impl SureSink {
    /// Takes all, with what memory the allocator gives.
    pub fn new(alloc: Global) -> SureSink
        ensures { result ≡ [] }
    {
        SureSink {
            bytes: Vec::new(alloc),
        }
    }

    /// What was taken.
    pub fn bytes(&self) -> &[u8]
        ensures { result.now ≡ self.now }
    {
        &self.bytes
    }
}

impl Sink for SureSink {
    ghost use Rattle.std.specs.Prelude.{⊤};

    ghost fault_count = { λ _. 0 };

    ghost tells = { ⊤ };

    ghost taken = { λ s. s };

    fn put(&mut self, bytes: &[u8]) -> Result<usize, SinkError>
        ensures all { (result ≡ Ok (length bytes.now)) ⊎ (result ≡ Err SinkError.Memory) }
        ensures ok { OnOk result (self.new ≡ self.old ++ bytes.now) }
        ensures err { OnErr result (self.new ≡ self.old) }
    {
        match self.bytes.extend_from_slice(bytes) {
            Ok(()) => Ok(bytes.len()),
            Err(_) => Err(SinkError::Memory),
        }
    }

    fn faults(&self) -> u64 {
        0
    }
}
