//! Laws of the volume after a call's transaction, and of steps.

ghost use Rattle.jfs_steps.specs.Gains.{GainLaw};
ghost use Rattle.jfs_steps.specs.Laws.{AppendLaw, CountLaw, StepLaw, LinesLaw, AfterLaw};

/// After one transaction and then another the volume is as after both in one.
pub fn transactions_follow_each_other()
    ensures { AppendLaw }
{}

/// Where a transaction takes free blocks alone and frees blocks in use alone, the blocks in use are counted by what it takes and frees.
pub fn blocks_in_use_are_counted()
    ensures { CountLaw }
{}

/// A step whose edits take free blocks and free blocks in use takes and frees these.
pub fn steps_take_and_free()
    ensures { StepLaw }
{}

/// Lines of pages leave the blocks in use and the inode extents.
pub fn lines_change_pages_alone()
    ensures { LinesLaw }
{}

/// A volume with the pages, inode extents and blocks in use that a transaction leaves, whose inodes in use are its objects, is the one after it.
pub fn volume_is_the_one_after()
    ensures { AfterLaw }
{}

/// A directory that gains a name by its tree's call and its inode's lines gains it in the tree, and is set.
pub fn names_are_gained()
    ensures { GainLaw }
{}
