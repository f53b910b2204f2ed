//! A mounted volume is unmounted.

ghost use Rattle.std.specs.Prelude.{◌≡◌, ◌≤◌, ◌<◌, ◌+◌, ◌-◌, ◌^◌, min, length, IfOk, IfErr, OnOk};
ghost use Rattle.jfs_disk.specs.Crash.{last_of, AllSince, TearsPage};
ghost use Rattle.jfs_disk.specs.Moment.{IsResting, now_of};
ghost use Rattle.jfs_disk.specs.declared.disk.Part.TheVariants.{Low};
ghost use Rattle.jfs_mounted.specs.pages.specs.Device.{HasFault};
ghost use Rattle.jfs_volume_calls.specs.Together.{log_parts};
ghost use Rattle.jfs_unmount.specs.Unmount.{Ends, IsAllHome, IsUnended, IsUnmountCause, LeavesMarked, MarksClean, MomentsMarked};

use jfs_disk::{Disk, Fault, Page, Part};
use jfs_mounted::Mounted;

/// A disk whose volume was not unmounted, and the fault that kept it. It is handed back in one piece.
#[derive(Drop)]
pub struct Unended<D> {
    pub disk: D,
    pub fault: Fault,
}

/// The page of the superblock.
const SUPERBLOCK: u32 = 8;

/// Unmounts a volume all of whose pages are home, as a syncpoint leaves it: the superblock's page, which is handed in as it was when the volume was mounted, is put back with its state 0, and synced. It takes no memory.
///
/// # Errors
///
/// That write or that sync failed. The superblock may say either.
pub fn unmount<D: Disk>(m: Mounted<D>, superblock: &Page) -> Result<D, Unended<D>>
    requires home { IsAllHome m.volume }
    requires there { 8 < m.volume.count }
    requires room { m.volume.count + D.page_count m.log.part ≤ m.volume.room }

    ensures pages { IfOk result (λ disk. D.page_count disk ≡ m.volume.count + D.page_count m.log.part) }
    ensures faults { IfOk result (λ disk. D.fault_count disk ≡ min (m.volume.faults + D.fault_count m.log.part) (2 ^ 64 - 1)) }
    ensures ends { IfOk result (λ disk. Ends D.tells D.tells_crashes superblock.now.0 m.volume (log_parts D.Disk m.log) (D.image disk) (D.past disk)) }
    // Where nothing of the low part was pending, a crash leaves what it may leave of both parts as they were, or a superblock that says what the new one says.
    ensures left { IfOk result (λ disk. LeavesMarked D.tells D.tells_crashes superblock.now.0 m.volume (log_parts D.Disk m.log) (last_of (D.past disk))) }
    ensures moments { IfOk result (λ disk. MomentsMarked D.tells D.tells_crashes superblock.now.0 m.volume (D.past disk)) }

    ensures same_size { IfErr result (λ not. D.page_count not.disk ≡ m.volume.count + D.page_count m.log.part) }
    ensures cause { IfErr result (λ not. IsUnmountCause m.volume.faults (D.fault_count m.log.part) (D.fault_count not.disk) not.fault) }
    ensures unended { IfErr result (λ not. D.tells → IsUnended superblock.now.0 m.volume (log_parts D.Disk m.log) (D.image not.disk)) }
    ensures left_unended { IfErr result (λ not. LeavesMarked D.tells D.tells_crashes superblock.now.0 m.volume (log_parts D.Disk m.log) (last_of (D.past not.disk))) }
    ensures moments_unended { IfErr result (λ not. MomentsMarked D.tells D.tells_crashes superblock.now.0 m.volume (D.past not.disk)) }
{
    let Mounted { volume, log } = m;
    let mut low = volume.into_low();
    match mark_clean(&mut low, superblock) {
        Ok(()) => Ok(D::join(low, log.into_part())),
        Err(fault) => Err(Unended {
            disk: D::join(low, log.into_part()),
            fault,
        }),
    }
}

/// Puts the superblock's page into its place, and syncs.
fn mark_clean<D: Disk>(low: &mut D, superblock: &Page) -> Result<(), Fault>
    requires there { 8 < D.page_count low.old }
    ensures pages { D.page_count low.new ≡ D.page_count low.old }
    ensures room { D.room low.new ≡ D.room low.old }
    ensures marks { D.tells → MarksClean superblock.now.0 (D.image low.old) (D.image low.new) result }
    ensures resting { OnOk result (D.tells_crashes → IsResting (last_of (D.past low.new))) }
    ensures moments { D.tells → D.tells_crashes → IsResting (last_of (D.past low.old)) → AllSince (TearsPage 8 superblock.now.0 (D.image low.old)) (D.past low.new) (now_of (D.past low.old)) }
    ensures later { D.tells_crashes → now_of (D.past low.old) ≤ now_of (D.past low.new) }
    ensures cause { HasFault (D.fault_count low.old) (D.fault_count low.new) result }
    ensures size { length superblock.now.0 ≡ 4096 }
{
    // so that its size is known
    let _bytes = superblock.bytes();
    match low.write(SUPERBLOCK, superblock) {
        Ok(()) => {}
        Err(_) => return Err(low_fault(low.faults())),
    }
    match low.sync() {
        Ok(()) => Ok(()),
        Err(_) => Err(low_fault(low.faults())),
    }
}

/// A call on the low part failed, whose count now stands there.
fn low_fault(count: u64) -> Fault
    ensures { result ≡ record { part = Low; count = count } }
{
    Fault {
        part: Part::Low,
        count,
    }
}
