//! What is counted of an object's blocks.

ghost use Rattle.std.specs.Prelude.{◌≡◌, ◌==◌, ◌-◌, nat_le, if◌then◌else◌, Some, None, Bool, false};
ghost use Rattle.jfs_object_check.specs.Tally.{less, tally_of, with_page, with_extent, is_met};

use jfs_bits::Xad;
use jfs_dtree::DirEntry;
use jfs_inode::Dinode;
use jfs_tree::{NO_PAGE, Visitor};
use std::alloc::AllocError;

/// The blocks that an inode tells and that weren't met yet, and whether an extent begins behind its size.
#[derive(Clone, Copy, PartialEq, Eq, Debug)]
pub(crate) struct Tally {
    /// How many are left; `None` once more were met than the inode tells.
    pub(crate) left: Option<u64>,
    /// The first block of the file behind its size.
    pub(crate) end: u64,
    /// An extent begins there or behind it.
    pub(crate) past: bool,
}

impl Tally {
    /// No block was met yet.
    pub(crate) fn of(inode: &Dinode) -> Tally
        ensures { result ≡ tally_of inode.now }
    {
        let nblocks = inode.nblocks;
        let size = inode.size;
        Tally {
            left: Some(nblocks),
            end: size.div_ceil(4096),
            past: false,
        }
    }

    /// A page of a tree; the root stands in the inode.
    fn see_page(&mut self, n: u32)
        ensures { self.new ≡ with_page n self.old }
    {
        if n != NO_PAGE {
            self.left = less(self.left, 1);
        }
    }
}

/// Whether as many blocks were met as the inode tells.
pub(crate) fn is_met(left: Option<u64>) -> bool
    ensures { result ≡ is_met left }
{
    match left {
        Some(left) => left == 0,
        None => false,
    }
}

/// So many blocks less.
pub(crate) fn less(left: Option<u64>, blocks: u32) -> Option<u64>
    ensures { result ≡ less left blocks }
{
    let blocks = u64::from(blocks);
    match left {
        Some(left) => {
            if blocks <= left {
                Some(left - blocks)
            } else {
                None
            }
        }
        None => None,
    }
}

impl Visitor<Xad> for Tally {
    ghost sees_page = { λ old n new. new ≡ with_page n old };

    ghost sees_entry = { λ old n x new. new ≡ with_extent x old };

    fn page(&mut self, n: u32) {
        self.see_page(n);
    }

    fn entry(&mut self, _n: u32, x: &Xad) -> Result<(), AllocError> {
        let offset = x.offset;
        self.left = less(self.left, x.at.len);
        self.past = self.past || self.end <= offset;
        Ok(())
    }
}

impl Visitor<DirEntry> for Tally {
    ghost sees_page = { λ old n new. new ≡ with_page n old };

    ghost sees_entry = { λ old n x new. new ≡ old };

    fn page(&mut self, n: u32) {
        self.see_page(n);
    }

    fn entry(&mut self, _n: u32, _x: &DirEntry) -> Result<(), AllocError> {
        Ok(())
    }
}
