//! What holds of runs and their blocks.

ghost use Rattle.jfs_runs.specs.Laws.{RunsAreBlocks, LeftIsReserved};

/// Runs have as many blocks as their lengths say; where they are apart, each block stands among these once, exactly where it lies in a run, and the other way round; and where each run ends within a
/// volume, all blocks lie within it. So what `BlockMap` reserves can be handed to a tree as its free blocks.
pub fn runs_are_blocks()
    ensures { RunsAreBlocks }
{}

/// What a tree leaves of reserved blocks is still reserved, each of them once; the blocks that it took are the others. So what it left can be given back, and the rest get owners.
pub fn what_is_left_is_reserved()
    ensures { LeftIsReserved }
{}
