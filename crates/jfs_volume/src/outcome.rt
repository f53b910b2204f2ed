//! How an entry joins.

/// How an entry joins the history.
#[derive(Clone, Copy, PartialEq, Eq, Debug)]
pub enum Outcome {
    /// It has this number, counted from 1.
    Replied { entry: u64 },
    /// Memory ran out, and nothing changed.
    NoMemory,
}
