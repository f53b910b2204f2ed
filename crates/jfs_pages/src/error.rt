//! Why a page did not go home.

use jfs_disk::Fault;

/// Why a page did not go home. It stays dirty.
#[derive(Clone, Copy, PartialEq, Eq, Debug)]
pub enum HomeError {
    /// The page's last entry isn't acknowledged: its number, and how many are.
    NotYet { lsn: u64, told: u64 },
    /// The device failed; its count of faults rose to the fault's.
    WriteFault(Fault),
}
