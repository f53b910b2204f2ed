//! Edits and transactions.

use jfs_bits::{Blob, PageKind, Pxd, Sequence};

/// One change of a volume, as the log has it.
#[derive(Debug, Drop)]
pub enum Edit {
    /// Bytes are put from line `first` of `page` on, also into the pages that follow. The kind gives a line's size.
    Lines {
        page: u32,
        kind: PageKind,
        first: u32,
        bytes: Blob,
    },
    /// A redo passes over earlier lines of the page.
    NoRedo {
        page: u32,
    },
    /// The blocks are taken.
    Alloc(Pxd),
    /// The blocks are free.
    Free(Pxd),
}

/// The edits of one call, in order.
pub type Tx = Sequence<Edit>;
