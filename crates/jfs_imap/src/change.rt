//! Inodes are taken and given back, and inode extents are added.

ghost use Rattle.std.specs.Prelude.{◌≡◌, ◌*◌, ◌<◌, true, false, length, ℕ};
ghost use Rattle.jfs_bits.specs.Descriptor.{FitsPxd};
ghost use Rattle.jfs_iag.specs.Canonical.{is_there};
ghost use Rattle.jfs_imap.specs.Inodes.{extent_at, is_used, is_free, with_taken, with_put_back, with_extent, IsLowestPlace};

use crate::inode_map::InodeMap;
use jfs_bits::{Pxd, bit, clear_run, set_run};
use jfs_iag::extent_has_free;

impl InodeMap {
    /// Takes inode `n`, which is free in an extent that is there.
    pub fn take(&mut self, n: u32)
        requires { is_free self.old n ≡ true }
        ensures { self.new ≡ with_taken n self.old }
    {
        let e = n / 32;
        set_run(self.set.as_mut_slice(), n, 1);
        let free = extent_has_free(self.set.as_slice(), self.extents.as_slice(), e);
        self.free.set(e, free);
    }

    /// Gives inode `n` back; one below 4, or one that isn't in use, stays as it is.
    pub fn put_back(&mut self, n: u32)
        ensures { self.new ≡ with_put_back n self.old }
    {
        if n < 4 || !self.is_in_use(n) {
            return;
        }
        let e = n / 32;
        clear_run(self.set.as_mut_slice(), n, 1);
        let free = extent_has_free(self.set.as_slice(), self.extents.as_slice(), e);
        self.free.set(e, free);
    }

    /// Whether inode `n` is in use; none past the end is.
    fn is_in_use(&self, n: u32) -> bool
        ensures { result ≡ is_used self.now n }
    {
        // that there are so many extents for the bits
        let _ = &self.iags;
        n / 4096 < self.iags && bit(self.set.as_slice(), n)
    }

    /// Puts an extent into the lowest place without one, where there is one; its 32 inodes are free then. The answer is the
    /// number of the first of them.
    pub fn add_extent(&mut self, at: Pxd) -> u32
        requires place { (e : ℕ) × (e < length self.old.extents) × (is_there (extent_at self.old e) ≡ false) }
        requires extent { FitsPxd at × (is_there at ≡ true) }
        ensures { (e : ℕ) × IsLowestPlace self.old e × (result ≡ 32 * e) × (self.new ≡ with_extent e at self.old) }
    {
        match self.places.first() {
            Some(e) => {
                self.extents[e as usize] = at;
                clear_run(self.set.as_mut_slice(), 32 * e, 32);
                self.free.set(e, true);
                self.places.set(e, false);
                32 * e
            }
            None => unreachable!(),
        }
    }
}
