//! What an entry changes of the inode map.

ghost use Rattle.std.specs.Prelude.{◌≡◌};
ghost use Rattle.jfs_marks.specs.Marks.{FitsMarks, AreMarked, FitsExtent, FitsTaken, IsExtended, with_taken_if, with_freed_if};

use jfs_bits::Pxd;
use jfs_imap::InodeMap;
use jfs_marks::InodeMarks;

/// An extent is added, where there is one.
fn add(inodes: &mut InodeMap, extent: Option<Pxd>)
    requires { FitsExtent inodes.old extent }
    ensures { IsExtended inodes.old extent inodes.new }
{
    if let Some(at) = extent {
        inodes.add_extent(at);
    }
}

/// An inode is taken, where there is one.
fn take(inodes: &mut InodeMap, number: Option<u32>)
    requires { FitsTaken inodes.old number }
    ensures { inodes.new ≡ with_taken_if number inodes.old }
{
    if let Some(n) = number {
        inodes.take(n);
    }
}

/// An inode is given back, where there is one.
fn put_back(inodes: &mut InodeMap, number: Option<u32>)
    ensures { inodes.new ≡ with_freed_if number inodes.old }
{
    if let Some(n) = number {
        inodes.put_back(n);
    }
}

/// The inode map changes as an entry says. It takes no memory.
pub(crate) fn mark(inodes: &mut InodeMap, marks: InodeMarks)
    requires { FitsMarks inodes.old marks }
    ensures { AreMarked inodes.old marks inodes.new }
{
    add(inodes, marks.extent);
    take(inodes, marks.taken);
    put_back(inodes, marks.freed);
}
