//! What holds of the transactions that change what a file holds.

ghost use Rattle.jfs_contents_logged.specs.Calls.{TruncateLaw};

/// The change of a file's size logs what matters, once the block is written in which its bytes end.
pub fn changes_of_sizes_are_logged()
    ensures { TruncateLaw }
{}
