//! The last page of the ring.

use jfs_disk::Page;

/// The last page of a ring of `ring` pages: its number, how many bytes of its body are text, and
/// the page.
#[derive(Drop)]
pub struct Last {
    pub ring: u32,
    pub number: u32,
    pub fill: usize,
    pub page: Page,
}
