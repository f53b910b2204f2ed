//! Calls that are to fail, for sources and sinks in tests.

ghost use Rattle.std.specs.Prelude.{◌≡◌, ◌≤◌, IsTrue, ◌↔◌};
ghost use Rattle.jfs_bits.specs.Count.{Rose};

/// Which of the coming calls fail, from the `first` to the `last`, how many calls there were and how many failed.
#[derive(Clone, Copy, PartialEq, Eq, Debug)]
pub struct Failing {
    pub first: u64,
    pub last: u64,
    pub calls: u64,
    pub faults: u64,
}

impl Failing {
    ghost use Rattle.jfs_io.specs.Failing.{no_failing, failing_between, is_failing, after_call};

    /// No call fails.
    pub fn none() -> Failing
        ensures { result ≡ no_failing }
    {
        Failing {
            first: 1,
            last: 0,
            calls: 0,
            faults: 0,
        }
    }

    /// These calls fail, counted anew from 1.
    pub fn between(self, first: u64, last: u64) -> Failing
        ensures { result ≡ failing_between first last self }
    {
        Failing {
            first,
            last,
            calls: 0,
            faults: self.faults,
        }
    }

    /// Counts a call and answers whether it fails.
    pub fn next_fails(&mut self) -> bool
        ensures fails { IsTrue result ↔ IsTrue (is_failing self.old) }
        ensures after { self.new ≡ after_call self.old }
        ensures later { self.old.faults ≤ self.new.faults }
        ensures rose { IsTrue result → Rose self.old.faults self.new.faults }
    {
        self.calls = self.calls.saturating_add(1);
        let fails = self.first <= self.calls && self.calls <= self.last;
        if fails {
            self.faults = self.faults.saturating_add(1);
        }
        fails
    }
}
