//! Laws of data that is put into blocks before a transaction.

ghost use Rattle.jfs_data_steps.specs.Laws.{OthersLaw, BeforeLaw, SetLaw, FileLaw, FileBeforeLaw};

/// Data changes the bytes of its own blocks alone.
pub fn other_blocks_stay()
    ensures { OthersLaw }
{}

/// Data of an object, or data in free blocks, changes no object, no logged page and no owner, and the contents of no other object.
pub fn data_is_put_before()
    ensures { BeforeLaw }
{}

/// Where data is put into blocks that hold an object's data after a transaction, and that the transaction doesn't tell, the volume after both is the one after the transaction, with
/// this data.
pub fn object_is_set_with_data()
    ensures { SetLaw }
{}

/// A regular file whose extents, size and data are others keeps a volume consistent, and its tree has the file so, byte by byte.
pub fn file_is_set_with_data()
    ensures { FileLaw }
{}

/// Before the transaction a regular file's data leaves the volume consistent, and its tree but for this file's bytes.
pub fn file_is_put_before()
    ensures { FileBeforeLaw }
{}
