//! Entries of the history.

use jfs_ranges::Tx;

/// An entry of the history, as far as crashes matter.
#[derive(Drop)]
pub struct Entry {
    pub tx: Tx,
}
