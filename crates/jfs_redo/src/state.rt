//! The state of a volume in its superblock.

ghost use Rattle.std.specs.Prelude.{◌≡◌, ◌<◌, ℕ, OnOk};
ghost use Rattle.jfs_disk.specs.Image.{page_of};
ghost use Rattle.jfs_disk.specs.Crash.{last_of};
ghost use Rattle.jfs_disk.specs.Moment.{IsResting};
ghost use Rattle.jfs_disk.specs.Fault.{HasCause};
ghost use Rattle.jfs_bits.specs.Piece.{puts};
ghost use Rattle.jfs_super.specs.Super.{super_of, pieces, FitsSuper};
ghost use Rattle.jfs_super.specs.declared.fields.TheConstants.VolumeState.{CLEAN};
ghost use Rattle.jfs_redo.specs.Moments.{IsMarkedOn, Marks};

use jfs_disk::{Disk, DiskError, Page};
use jfs_super::{Super, VolumeState, write_super};

/// The page of the superblock.
const SUPERBLOCK: u32 = 8;

/// Gives the superblock state 0 (clean), and syncs.
pub(crate) fn mark_clean<D: Disk>(disk: &mut D, s: &Super) -> Result<(), DiskError>
    requires there { 8 < D.page_count disk.old }
    requires fits { FitsSuper s.now }
    ensures pages { D.page_count disk.new ≡ D.page_count disk.old }
    ensures room { D.room disk.new ≡ D.room disk.old }
    ensures others { D.tells → (p : ℕ) → (p ≡ 8 → ⊥) → page_of (D.image disk.new) p ≡ page_of (D.image disk.old) p }
    ensures fields { D.tells → OnOk result (page_of (D.image disk.new) 8 ≡ puts (pieces (record s.now { state = CLEAN })) (page_of (D.image disk.old) 8)) }
    ensures superblock { D.tells → OnOk result (super_of (page_of (D.image disk.new) 8) ≡ record s.now { state = CLEAN }) }
    ensures stable { OnOk result (D.tells_crashes → IsResting (last_of (D.past disk.new))) }
    ensures marked { OnOk result (D.tells_crashes → IsMarkedOn (D.past disk.old) (D.past disk.new)) }
    ensures moments { D.tells → D.tells_crashes → Marks (record s.now { state = CLEAN }) (puts (pieces (record s.now { state = CLEAN })) (page_of (D.image disk.old) 8)) (D.past disk.old) (D.past disk.new) }
    ensures cause { HasCause (D.fault_count disk.old) (D.fault_count disk.new) result }
{
    let mut page = Page::zeros();
    match disk.read(SUPERBLOCK, &mut page) {
        Ok(()) => {}
        Err(e) => return Err(e),
    }
    let mut clean = *s;
    clean.state = VolumeState::CLEAN;
    write_super(&clean, &mut page);
    // so that its size is known
    let _bytes = page.bytes();
    match disk.write(SUPERBLOCK, &page) {
        Ok(()) => {}
        Err(e) => return Err(e),
    }
    match disk.sync() {
        Ok(()) => Ok(()),
        Err(e) => Err(e),
    }
}
