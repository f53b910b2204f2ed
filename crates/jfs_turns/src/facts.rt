//! What callers say in proofs alone. A caller gives `Brand` for each of these, and picks the members.
ghost use Rattle.std.specs.Prelude.{ℕ, List, []};

use std::marker::Brand;

/// The base of new turns: what both values were made from.
pub trait Based {
    ghost base: { List (List ℕ) };
}

impl Based for Brand {
    ghost base = { [] };
}

/// What an append says of its entry.
pub trait EntryFact<E> {
    ghost fits: { E → Type 0 };
}

impl<E> EntryFact<E> for Brand {
    ghost fits = { λ _. ⊥ };
}

/// What a mark says of the list of syncpoints.
pub trait PointsFact {
    ghost fits: { List ℕ → Type 0 };
}

impl PointsFact for Brand {
    ghost fits = { λ _. ⊥ };
}
