//! What the pages of a kind of tree are.

use jfs_bits::Rule;
use jfs_ranges::ViewError;

/// Where a page leads an entry.
#[derive(Clone, Copy, PartialEq, Eq, Debug)]
pub enum Way {
    /// The page is a leaf.
    Here,
    /// To the child at this place, which is this page; `last` where no child stands behind it.
    Down { place: usize, page: u32, last: bool },
}

/// What became of something that was to be put into a page.
#[derive(Clone, Copy, PartialEq, Eq, Debug)]
pub enum Put {
    /// The page has it.
    Done,
    /// The page has no room; it is as it was.
    Full,
    /// It doesn't go between its neighbours.
    Clash,
}

/// A page that stands behind another, and the key from which on its entries stand.
#[derive(Drop)]
pub struct Sibling<K> {
    pub key: K,
    pub page: u32,
}

/// Why a call on a tree failed.
#[derive(Clone, Copy, PartialEq, Eq, Debug)]
pub enum TreeError {
    /// A page could not be read.
    View(ViewError),
    /// The page breaks the rule; `NO_PAGE` stands for the root.
    Bad { page: u32, rule: Rule },
    /// Memory ran out.
    Memory,
}

/// Stands for a root where a page is named; it is no page.
pub const NO_PAGE: u32 = 4294967295;
