//! What a value that a turn guards stands for.
ghost use Rattle.std.specs.Prelude.{◌≡◌, ℕ, List};

/// An entry of the volume's list. It has the number of the client that made it.
pub trait HasClient {
    ghost client: { Self → ℕ };
}

/// The volume or the log side.
pub trait Stands<E> {
    /// What the value stands for: the base, a list of entries, how many of these are taken into groups, how many are durable
    /// (for the volume: acknowledged), syncpoints, each as its sync count, and how many of these are stable (for the volume: known
    /// to be stable).
    ghost stands: { Self → List (List ℕ) → List E → ℕ → ℕ → List ℕ → ℕ → Type 0 };

    /// What `syncpoints` gives.
    ghost count: { Self → ℕ };

    /// For the volume the length of its list of syncpoints, for the log side the number of those that are stable.
    fn syncpoints(&self) -> u64
        ensures { result ≡ count self.now };
}
