//! What a check answers.

ghost use Rattle.std.specs.Prelude.{◌≡◌};

use jfs_disk::Fault;
use jfs_findings::Finding;

/// What was found of a volume.
#[derive(Drop)]
pub struct Checked {
    /// Everything that is wrong with it, in order, each once.
    pub findings: Vec<Finding>,
    /// How many blocks of the file system part have no owner.
    pub free: u32,
    /// How many inodes are in use.
    pub inodes: u32,
}

/// Why a volume was not checked.
#[derive(Clone, Copy, PartialEq, Eq, Debug)]
pub enum CheckError {
    /// The disk failed.
    Read(Fault),
    /// Memory ran out.
    Memory,
}
