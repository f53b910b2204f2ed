//! Blocks of files, with what they are to hold.

use jfs_bits::Sequence;
use jfs_disk::Page;

/// A block of a file, with the whole page that it is to hold.
#[derive(Drop)]
pub struct DataPage {
    pub block: u32,
    pub page: Page,
}

/// Blocks of files, in the order in which they are written.
pub type DataList = Sequence<DataPage>;
