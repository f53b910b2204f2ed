//! Why a commit helps a write that finds too few free blocks.

ghost use Rattle.jfs_file_blocks.specs.Reserving.{SettledIsEnough};

/// Where no block is reserved and as many blocks have no owner as are wanted, `NeedsLog` comes of busy blocks alone: enough are free once they are settled.
pub fn settled_blocks_are_enough()
    ensures { SettledIsEnough }
{}
