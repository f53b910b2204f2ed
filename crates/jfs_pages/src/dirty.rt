//! A dirty page.

/// A page that entries changed in memory, and that hasn't gone home since: the first and the last of these entries.
#[derive(Clone, Copy, PartialEq, Eq, Debug)]
pub struct Dirty {
    pub page: u32,
    pub first: u64,
    pub last: u64,
}
