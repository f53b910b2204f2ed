//! Why a ring was not read.

use jfs_bits::Rule;
use jfs_disk::Fault;

/// Why a ring was not read.
#[derive(Clone, Copy, PartialEq, Eq, Debug)]
pub enum RingError {
    /// A read failed.
    Read(Fault),
    /// The log is another project's; only its label was looked at.
    ForeignLog { label: [u8; 16] },
    /// The first rule that the log breaks, and the address where it does.
    BadLog { address: u32, rule: Rule },
    /// Memory ran out.
    Memory,
}
