//! What a redo did, or why there is none.

use jfs_bits::Rule;
use jfs_disk::Fault;
use jfs_mount_maps::mount_rules::BadMount;

/// What a redo did.
#[derive(Clone, Copy, PartialEq, Eq, Debug)]
pub struct Redone {
    /// How many committed transactions the log had from the place on that its newest SYNCPT gives.
    pub transactions: u32,
}

/// Why a volume wasn't redone.
#[derive(Clone, Copy, PartialEq, Eq, Debug)]
pub enum RedoError {
    /// A call on the disk failed; its count of faults rose to the fault's.
    Disk(Fault),
    /// The log is another project's; only its label was looked at. Nothing was written.
    ForeignLog { label: [u8; 16] },
    /// The first rule that the log breaks, and the address where it does. Nothing was written.
    BadLog { address: u32, rule: Rule },
    /// The first rule that the maps break, `bmap` to `extents`. Nothing was written.
    BadImage(BadMount),
    /// Memory ran out.
    Memory,
}
