//! A page that an entry freed.

/// A page that an entry freed, and the entry's number.
#[derive(Clone, Copy, PartialEq, Eq, Debug)]
pub struct FreedPage {
    pub page: u32,
    pub by_entry: u64,
}
