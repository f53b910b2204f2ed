//! Why a commit helps a call that finds too few free blocks.

ghost use Rattle.jfs_claim.specs.Laws.{SettledIsEnough};

/// Where no block is reserved and as many blocks have no owner as are wanted, `NeedsLog` comes of busy blocks alone: all that is wanted is free once they are settled.
pub fn settled_blocks_are_enough()
    ensures { SettledIsEnough }
{}
