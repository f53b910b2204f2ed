//! Laws of a range that is written.

ghost use Rattle.std.specs.Prelude.{ℕ, List};
ghost use Rattle.jfs_bits.specs.declared.extent.Xad.{Xad};
ghost use Rattle.jfs_written.specs.Balance.{CutShares, GoneIsCut, WrittenShares, RangeShares};
ghost use Rattle.jfs_written.specs.RangeLaws.{CutsAtBorders, IsOneWritten, WritesBlockByBlock, WritesEachSide, LeavesOtherSide, IsCutToRanges, RisesStill, BeginsStill, IsGoodStill, LosesNone, AddsFew};

/// Each part into which the list cuts a range lies in one entry or in a hole; a range that is such a part is written as an extent alone is.
pub fn range_is_cut_at_borders()
    ensures parts { (xs es : List Xad) → CutsAtBorders xs es }
    ensures one { (x : Xad) (es : List Xad) → IsOneWritten x es }
{}

/// Each block of the range is where the range has it, and each other block of the file is where it was, recorded or not as before.
pub fn range_is_written_block_by_block()
    ensures { (xs es : List Xad) → WritesBlockByBlock xs es }
{}

/// Where one entry of the list begins, a range can be written on each side of that block alone; a side that it has no part in stays as it is.
pub fn range_is_written_side_by_side()
    ensures sides { (xs : List Xad) → WritesEachSide xs }
    ensures other { (xs : List Xad) → LeavesOtherSide xs }
{}

/// What a range has on a side of a block of the file is a range.
pub fn range_is_cut_to_ranges()
    ensures { (xs : List Xad) → IsCutToRanges xs }
{}

/// The list rises still, and its entries have places still.
pub fn range_keeps_the_order()
    ensures rises { (xs es : List Xad) → RisesStill xs es }
    ensures begins { (xs es : List Xad) → BeginsStill xs es }
    ensures good { (xs es : List Xad) → IsGoodStill xs es }
{}

/// There are as many entries as before or more, and few more.
pub fn range_adds_few()
    ensures least { (xs es : List Xad) → LosesNone xs es }
    ensures most { (xs es : List Xad) → AddsFew xs es }
{}

/// A cut loses no block of the volume: what stays and what is given back are together what was there.
pub fn cutting_shares_blocks()
    ensures kept { (bound : ℕ) (es : List Xad) → CutShares bound es }
    ensures gone { (bound : ℕ) (es : List Xad) → GoneIsCut bound es }
{}

/// Writing loses no block of the volume: the written list and what the list had of the written blocks of the file are together the list as it was and what was written.
pub fn writing_shares_blocks()
    ensures one { (x : Xad) (es : List Xad) → WrittenShares x es }
    ensures range { (xs es : List Xad) → RangeShares xs es }
{}
