//! Blocks that were reserved for a transaction that didn't join.

ghost use Rattle.std.specs.Prelude.{◌≡◌, ℕ, true};
ghost use Rattle.jfs_bmap.specs.States.{Free, Reserved, AreReserved, is_in_list, put_state, state_of};
ghost use Rattle.jfs_volume.specs.Append.{unreserved};
ghost use Rattle.jfs_volume.specs.Runs.{taken_by, taken_in, runs_of};

use crate::volume::Volume;
use jfs_bits::{PageKind, Pxd};
use jfs_bmap::BlockMap;
use jfs_disk::Disk;
use jfs_ranges::{Edit, Tx};

/// How many bytes the four pages of an inode extent have, which are logged whole.
const EXTENT_BYTES: usize = 16_384;

/// The run that an edit takes, if it takes one: new inodes take theirs.
fn taken_run(edit: &Edit) -> Option<Pxd>
    ensures { taken_by edit.now ≡ runs_of result }
{
    match edit {
        Edit::Alloc(run) => Some(*run),
        Edit::Lines {
            page,
            kind: PageKind::Inode,
            bytes,
            ..
        } => {
            if bytes.len() == EXTENT_BYTES {
                let addr = u64::from(*page);
                return Some(Pxd { len: 4, addr });
            }
            None
        }
        Edit::Lines { .. } | Edit::NoRedo { .. } | Edit::Free(_) => None,
    }
}

/// Gives back the run that an edit takes, if it takes one.
fn give_back_of(blocks: &mut BlockMap, edit: &Edit)
    requires { (b : ℕ) → is_in_list (taken_by edit.now) b ≡ true → state_of blocks.old b ≡ Reserved }
    ensures { blocks.new ≡ put_state Free (taken_by edit.now) blocks.old }
{
    if let Some(run) = taken_run(edit) {
        blocks.give_back_run(&run);
    }
}

/// Gives back the runs that edits take.
fn give_back_all(blocks: &mut BlockMap, edits: &[Edit])
    requires { AreReserved blocks.old (taken_in edits.now) }
    ensures { blocks.new ≡ put_state Free (taken_in edits.now) blocks.old }
{
    for edit in edits {
        give_back_of(blocks, edit);
    }
}

impl<D: Disk> Volume<D> {
    /// The blocks that were reserved for a transaction which didn't join are free again. It takes no memory.
    pub fn give_back(&mut self, tx: &Tx)
        requires { AreReserved self.old.map (taken_in tx.now) }
        ensures { self.new ≡ unreserved tx.now self.old }
    {
        give_back_all(&mut self.maps.blocks, tx.as_slice());
    }
}
