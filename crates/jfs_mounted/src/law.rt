//! What a mount leaves of the tree.

ghost use Rattle.jfs_mounted.specs.Laws.{MarkedLaw};
ghost use Rattle.jfs_mounted.specs.Crashes.{WholeLaw, CrashLaw};

/// A consistent image keeps its tree whatever becomes of the superblock's page, where its maps lie in memory: no object is read from that page.
pub fn mounted_pages_have_the_tree()
    ensures { MarkedLaw }
{}

/// A crash while a superblock is put into its page leaves the old page or the new one: all fields stand in its first sector.
pub fn superblocks_are_seen_whole()
    ensures { WholeLaw }
{}

/// What a crash leaves of the pages before the log while a volume is mounted has the tree of the image, where that is consistent and a mount takes it.
pub fn crashes_of_a_mount_leave_the_tree()
    ensures { CrashLaw }
{}
