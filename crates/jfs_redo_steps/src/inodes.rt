//! The inodes in use after redo.

ghost use Rattle.std.specs.Prelude.{◌≡◌, ◌≤◌, ◌<◌, ◌*◌, ◌%◌, ◌||◌, ℕ, length, IfOk};
ghost use Rattle.jfs_bits.specs.Bits.{is_taken, is_in_run};
ghost use Rattle.jfs_disk.specs.Image.{page_of};
ghost use Rattle.jfs_ranges.specs.View.{CarriesCount};
ghost use Rattle.jfs_inode.specs.Inode.{FitsDinode};
ghost use Rattle.jfs_each.specs.Each.{AllFit};
ghost use Rattle.jfs_redo_steps.specs.Inodes.{AreInodesInUse, SetsBit};

use jfs_bits::set_run;
use jfs_each::{EachInode, each_inode};
use jfs_inode::Dinode;
use jfs_ranges::{PageView, ViewError};
use std::alloc::Global;

/// A bit for each inode, set where it was seen.
#[derive(Drop)]
struct Seen {
    set: Vec<u8>,
}

impl EachInode for Seen {
    ghost sees = { λ blocks image old n f new. SetsBit n old.set.items new.set.items };

    fn inode<V: PageView>(
        &mut self,
        _view: &mut V,
        n: u32,
        _page: u32,
        _inode: &Dinode,
    ) -> Result<(), ViewError> {
        set_bit(self.set.as_mut_slice(), n);
        Ok(())
    }
}

/// Sets bit `n`, where the set has it.
fn set_bit(set: &mut [u8], n: u32)
    ensures { SetsBit n set.old set.new }
{
    if set.len() % 4 == 0 && n as usize / 8 < set.len() {
        set_run(set, n, 1);
    }
}

/// A bit for each inode that there is a place for, in words as in the maps: set where its link count isn't 0, and of the first four inodes that are there. `places` has the first block of each inode
/// extent, where it is there. Each page of inodes is read once; it takes a bit for each inode.
///
/// # Errors
///
/// A page could not be read, or memory ran out.
pub fn inodes_in_use<V: PageView>(
    alloc: Global,
    view: &mut V,
    places: &[Option<u32>],
) -> Result<Vec<u8>, ViewError>
    requires fit { AllFit (V.PageView.block_count view.old) places.now }
    requires most { length places.now ≤ 128 * 65536 }
    ensures image { V.PageView.tells → V.PageView.image view.new ≡ V.PageView.image view.old }
    ensures count_of_blocks { V.PageView.block_count view.new ≡ V.PageView.block_count view.old }
    ensures device { V.PageView.device view.new ≡ V.PageView.device view.old }
    ensures fault { CarriesCount (V.PageView.faults view.old) (V.PageView.faults view.new) result }
    ensures bits { V.PageView.tells → IfOk result (λ set. AreInodesInUse (page_of (V.PageView.image view.old)) places.now set.items) }
{
    let set = match vec![in alloc; 0u8; 4 * places.len()] {
        Ok(set) => set,
        Err(_) => return Err(ViewError::Memory),
    };
    let mut seen = Seen { set };
    match each_inode(view, places, &mut seen) {
        Ok(()) => Ok(seen.set),
        Err(e) => Err(e),
    }
}
