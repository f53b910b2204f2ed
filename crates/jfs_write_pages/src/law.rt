//! What a file holds once its blocks are written.

ghost use Rattle.jfs_write_pages.specs.Laws.{BytesLaw};

/// Once the blocks are put and the tree has its extents, each byte of the file is the one that was put there, and else what it was: zeros in what was a hole or wasn't recorded, and behind the old end.
pub fn written_file_holds_the_bytes()
    ensures { BytesLaw }
{}
