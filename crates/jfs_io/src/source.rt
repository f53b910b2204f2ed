//! Sources of bytes.

ghost use Rattle.std.specs.Prelude.{◌≡◌, ◌<◌, ◌≤◌, [], ◌++◌, ℕ, List, length, take, drop, min, IfOk, OnOk, OnErr, IsErr, IsTrue, ◌↔◌};
ghost use Rattle.jfs_bits.specs.Count.{Rose};

use crate::failing::Failing;
use std::marker::Model;

/// A source could not give bytes; its count of faults rose, or stands at the last `u64` value.
#[derive(Clone, Copy, PartialEq, Eq, Debug)]
pub struct IoFailed;

/// Gives bytes until it ends.
pub trait Source {
    /// How often a call failed.
    ghost fault_count: { Self → ℕ };

    /// Whether the source tells its bytes; one over a real file doesn't.
    ghost tells: { Type 0 };

    /// The bytes that are left.
    ghost remaining: { Self → List ℕ };

    /// Puts the next bytes into the front of `into` and answers how many they are. 0 for a buffer that isn't empty is
    /// the end of the input. After an `Err`, `into` may hold any bytes. The count of faults rises only with an `Err`.
    fn take(&mut self, into: &mut [u8]) -> Result<usize, IoFailed>
        ensures count { IfOk result (λ n. n ≤ length into.old) }
        ensures bytes { IfOk result (λ n. tells → into.new ≡ take n (remaining self.old) ++ drop n into.old) }
        ensures rest { IfOk result (λ n. tells → remaining self.new ≡ drop n (remaining self.old)) }
        ensures end { IfOk result (λ n. tells → n ≡ 0 → 0 < length into.old → remaining self.old ≡ []) }
        ensures failed { OnErr result (tells → remaining self.new ≡ remaining self.old) }
        ensures later { fault_count self.old ≤ fault_count self.new }
        ensures same { OnOk result (fault_count self.new ≡ fault_count self.old) }
        ensures cause { OnErr result (Rose (fault_count self.old) (fault_count self.new)) };

    /// How often a call failed, up to the last `u64` value.
    fn faults(&self) -> u64
        ensures { result ≡ fault_count self.now };
}

/// A source in memory, of whose calls some may fail.
#[derive(Debug, Drop)]
pub struct MemSource {
    bytes: Vec<u8>,
    at: usize,
    failing: Failing,
}

impl Model for MemSource {
    ghost use Rattle.std.specs.Prelude.{◌≤◌, length, drop};
    ghost use Rattle.jfs_io.specs.Failing.{Feed};

    ghost Value = { Feed };

    ghost view = { λ s. record { left = drop s.at s.bytes.items; failing = s.failing } };

    ghost invariant = { λ s. s.at ≤ length s.bytes.items };
}

impl MemSource {
    ghost use Rattle.jfs_io.specs.Failing.{Feed, no_failing, failing_between};

    /// Gives these bytes and then the end.
    pub fn new(bytes: Vec<u8>) -> MemSource
        ensures { result ≡ record { left = bytes.items; failing = no_failing } }
    {
        MemSource {
            bytes,
            at: 0,
            failing: Failing::none(),
        }
    }

    /// The calls of `take` numbered `first` to `last` from now on, from 1, fail and give nothing.
    pub fn with_fails(self, first: u64, last: u64) -> MemSource
        ensures { result ≡ record self { failing = failing_between first last self.failing } }
    {
        let MemSource { bytes, at, failing } = self;
        MemSource {
            bytes,
            at,
            failing: failing.between(first, last),
        }
    }
}

impl Source for MemSource {
    ghost use Rattle.std.specs.Prelude.{⊤};
    ghost use Rattle.jfs_io.specs.Failing.{Feed, is_failing, after_call};

    ghost fault_count = { λ s. s.failing.faults };

    ghost tells = { ⊤ };

    ghost remaining = { λ s. s.left };

    fn take(&mut self, into: &mut [u8]) -> Result<usize, IoFailed>
        ensures count { IfOk result (λ n. n ≤ length into.old) }
        ensures bytes { IfOk result (λ n. into.new ≡ take n self.old.left ++ drop n into.old) }
        ensures rest { IfOk result (λ n. self.new.left ≡ drop n self.old.left) }
        ensures end { IfOk result (λ n. n ≡ 0 → 0 < length into.old → self.old.left ≡ []) }
        ensures failed { OnErr result (self.new.left ≡ self.old.left) }
        ensures later { self.old.failing.faults ≤ self.new.failing.faults }
        ensures same { OnOk result (self.new.failing.faults ≡ self.old.failing.faults) }
        ensures cause { OnErr result (Rose self.old.failing.faults self.new.failing.faults) }

        // It fails exactly where it was told to, and else gives all that there is room for.
        ensures exact { IsErr result ↔ IsTrue (is_failing self.old.failing) }
        ensures counted { self.new.failing ≡ after_call self.old.failing }
        ensures all { IfOk result (λ n. n ≡ min (length into.old) (length self.old.left)) }
        ensures untouched { OnErr result (into.new ≡ into.old) }
    {
        if self.failing.next_fails() {
            return Err(IoFailed);
        }
        let count = give(&self.bytes[self.at..], into);
        self.at += count;
        Ok(count)
    }

    fn faults(&self) -> u64 {
        self.failing.faults
    }
}

/// A source in memory that never fails.
#[derive(Debug, Drop)]
pub struct SureSource {
    bytes: Vec<u8>,
    at: usize,
}

impl Model for SureSource {
    ghost use Rattle.std.specs.Prelude.{◌≤◌, ℕ, List, length, drop};

    ghost Value = { List ℕ };

    ghost view = { λ s. drop s.at s.bytes.items };

    ghost invariant = { λ s. s.at ≤ length s.bytes.items };
}

impl SureSource {
    /// Gives these bytes and then the end.
    pub fn new(bytes: Vec<u8>) -> SureSource
        ensures { result ≡ bytes.items }
    {
        SureSource { bytes, at: 0 }
    }
}

impl Source for SureSource {
    ghost use Rattle.std.specs.Prelude.{⊤, IsOk};

    ghost fault_count = { λ _. 0 };

    ghost tells = { ⊤ };

    ghost remaining = { λ s. s };

    fn take(&mut self, into: &mut [u8]) -> Result<usize, IoFailed>
        ensures count { IfOk result (λ n. n ≤ length into.old) }
        ensures bytes { IfOk result (λ n. into.new ≡ take n self.old ++ drop n into.old) }
        ensures rest { IfOk result (λ n. self.new ≡ drop n self.old) }
        ensures end { IfOk result (λ n. n ≡ 0 → 0 < length into.old → self.old ≡ []) }
        ensures never { IsOk result }
        ensures all { IfOk result (λ n. n ≡ min (length into.old) (length self.old)) }
    {
        let count = give(&self.bytes[self.at..], into);
        self.at += count;
        Ok(count)
    }

    fn faults(&self) -> u64 {
        0
    }
}

// Copies what there is and has room, and answers how many bytes that are.
fn give(left: &[u8], into: &mut [u8]) -> usize
    ensures count { result ≡ min (length into.old) (length left.now) }
    ensures bytes { into.new ≡ take result left.now ++ drop result into.old }
{
    let count = into.len().min(left.len());
    into[..count].copy_from_slice(&left[..count]);
    count
}
