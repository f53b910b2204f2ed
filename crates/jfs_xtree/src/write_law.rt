//! Laws of written extents.

ghost use Rattle.std.specs.Prelude.{List};
ghost use Rattle.jfs_bits.specs.declared.extent.Xad.{Xad};
ghost use Rattle.jfs_xtree.specs.Writing.{WritesItsBlocks, KeepsOtherParts, GoesIntoHole};

/// The extents once the blocks of one are written: its blocks are recorded and its own, and each other block of the file is where it was, recorded or not as before.
pub fn writing_is_block_by_block()
    ensures { (x : Xad) (es : List Xad) → WritesItsBlocks x es }
{}

/// A written extent stands in place of what the list had of its blocks: where it lies in one entry, the entry keeps its other parts; in a hole it stands between the
/// others, or is merged with a recorded left neighbour that it continues.
pub fn writing_stands_in_place()
    ensures entry { (x : Xad) → KeepsOtherParts x }
    ensures hole { (x : Xad) → GoesIntoHole x }
{}
