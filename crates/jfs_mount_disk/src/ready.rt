//! A disk is made ready for a volume that is mounted on it.

ghost use Rattle.std.specs.Prelude.{◌≡◌, ◌<◌, ◌≤◌, ◌-◌, Err, take, drop, IfOk, IfErr, OnOk};
ghost use Rattle.jfs_disk.specs.Image.{page_of};
ghost use Rattle.jfs_disk.specs.Crash.{last_of, AllSince, Leaves};
ghost use Rattle.jfs_disk.specs.Moment.{IsResting, now_of};
ghost use Rattle.jfs_logfmt.specs.Written.{text_of};
ghost use Rattle.jfs_logpages.specs.Fresh.{first_record, OthersStay, IsFreshLog, IsPartlyFresh};
ghost use Rattle.jfs_logpages.specs.Group.{Holds};
ghost use Rattle.jfs_logpages.specs.Ring.{fresh_text, fresh_ends};
ghost use Rattle.jfs_super.specs.Rules.{IsAccepted};
ghost use Rattle.jfs_super.specs.Super.{super_of, FitsSuper};
ghost use Rattle.jfs_super.specs.declared.fields.TheConstants.VolumeState.{MOUNTED};
ghost use Rattle.jfs_mount_disk.specs.Begun.{IsMarked, IsPartlyMarked, MarksOrLeaves, LeavesRest, LeavesLow, LeavesLog, LeavesUntouched, IsLowCause, IsCause, HasParts, low_error};

use jfs_disk::{Disk, DiskError, Fault, Page, Part};
use jfs_logpages::LogSide;
use jfs_super::{Super, VolumeState, geometry, write_super};

/// The two parts of a disk on which a volume is mounted: the pages before its log, and its log.
#[derive(Drop)]
pub struct Begun<D: Disk> {
    pub low: D,
    pub log: LogSide<D>,
}

/// Why a disk isn't ready.
#[derive(Clone, Copy, PartialEq, Eq, Debug)]
pub enum BeginError {
    /// A call on one of its parts failed.
    Disk(Fault),
    /// Memory ran out.
    Memory,
}

/// A disk that isn't ready; it is handed back in one piece.
#[derive(Drop)]
pub struct NotBegun<D> {
    pub disk: D,
    pub why: BeginError,
}

/// The page of the superblock.
const SUPERBLOCK: u32 = 8;

/// Cuts the disk before the log of its superblock, makes the log a fresh one, and then gives the superblock state 1 (mounted); each is synced before the next is begun. So a crash on the way leaves a volume in state 0, whose log isn't read,
/// or one in state 1 with a log that says nothing. All other pages before the log stay as they are.
pub fn begin<D: Disk>(disk: D, s: &Super) -> Result<Begun<D>, NotBegun<D>>
    requires accepted { IsAccepted s.now (D.page_count disk) }
    requires fits { FitsSuper s.now }
    ensures parts { IfOk result (HasParts D.Disk s.now disk) }
    ensures low { IfOk result (λ begun. D.tells → IsMarked s.now (D.image disk) (D.image begun.low)) }
    ensures superblock { IfOk result (λ begun. D.tells → super_of (page_of (D.image begun.low) 8) ≡ record s.now { state = MOUNTED }) }
    ensures log { IfOk result (λ begun. D.tells → IsFreshLog s.now.logpxd.len s.now.uuid (D.image begun.log.part)) }
    ensures holds { IfOk result (λ begun. D.tells → Holds begun.log.last (fresh_text (s.now.logpxd.len - 2) (text_of first_record)) (fresh_ends (s.now.logpxd.len - 2)) (D.image begun.log.part)) }
    ensures behind { IfOk result (λ begun. D.tells → OthersStay 1 (s.now.logpxd.len - 1) (drop s.now.logpxd.addr (D.image disk)) (D.image begun.log.part)) }
    ensures low_rests { IfOk result (λ begun. D.tells_crashes → IsResting (last_of (D.past begun.low))) }
    ensures log_rests { IfOk result (λ begun. D.tells_crashes → IsResting (last_of (D.past begun.log.part))) }
    // If nothing was pending, a crash at any moment since the start leaves of the low part old pages, and front sectors of the new page 8 over the old one; and of the log old pages, fresh ones and fresh front sectors.
    ensures low_moments { IfOk result (λ begun. D.tells → D.tells_crashes → IsResting (last_of (D.past disk)) →
        AllSince (IsPartlyMarked s.now (take s.now.logpxd.addr (D.image disk))) (D.past begun.low) (now_of (D.past disk))) }
    ensures log_moments { IfOk result (λ begun. D.tells → D.tells_crashes → IsResting (last_of (D.past disk)) →
        AllSince (IsPartlyFresh 0 s.now.logpxd.len s.now.uuid (drop s.now.logpxd.addr (D.image disk))) (D.past begun.log.part) (now_of (D.past disk))) }
    ensures same_size { IfErr result (λ not. D.page_count not.disk ≡ D.page_count disk) }
    ensures rest { IfErr result (λ not. D.tells → LeavesRest s.now (D.image disk) (D.image not.disk)) }
    ensures cause { IfErr result (λ not. IsCause (D.fault_count disk) (D.fault_count not.disk) not.why) }
    // If nothing was pending, this is what a crash then leaves of the disk. Of a log whose own part failed it isn't said.
    ensures left_low { IfErr result (λ not. D.tells → D.tells_crashes → IsResting (last_of (D.past disk)) → Leaves (LeavesLow s.now (D.image disk)) (last_of (D.past not.disk))) }
    ensures left_log { IfErr result (λ not. D.tells → D.tells_crashes → IsResting (last_of (D.past disk)) → Leaves (LeavesLog s.now (D.image disk) not.why) (last_of (D.past not.disk))) }
    ensures left_high { IfErr result (λ not. D.tells → D.tells_crashes → IsResting (last_of (D.past disk)) → Leaves (LeavesUntouched s.now (D.image disk) not.why) (last_of (D.past not.disk))) }
    // At each moment since the start it leaves of the low part old pages, and front sectors of the new page 8 over the old one.
    ensures moments { IfErr result (λ not. D.tells → D.tells_crashes → IsResting (last_of (D.past disk)) → AllSince (LeavesLow s.now (D.image disk)) (D.past not.disk) (now_of (D.past disk))) }
{
    // so that its numbers are known to fit
    let _pages = disk.pages();
    let _faults = disk.faults();
    let log = geometry(s).log;
    let (mut low, high) = match disk.cut(log.addr as u32) {
        Ok(parts) => parts,
        Err(disk) => {
            return Err(NotBegun {
                disk,
                why: BeginError::Memory,
            });
        }
    };
    let side = match LogSide::fresh(high, log.len, s.uuid) {
        Ok(side) => side,
        Err(refused) => {
            return Err(NotBegun {
                disk: D::join(low, refused.part),
                why: BeginError::Disk(refused.why.fault),
            });
        }
    };
    match mark_mounted(&mut low, s) {
        Ok(()) => Ok(Begun { low, log: side }),
        Err(why) => Err(NotBegun {
            disk: D::join(low, side.into_part()),
            why,
        }),
    }
}

/// Gives the superblock state 1, and syncs.
fn mark_mounted<D: Disk>(low: &mut D, s: &Super) -> Result<(), BeginError>
    requires there { 8 < D.page_count low.old }
    requires fits { FitsSuper s.now }
    ensures pages { D.page_count low.new ≡ D.page_count low.old }
    ensures room { D.room low.new ≡ D.room low.old }
    ensures marks { D.tells → MarksOrLeaves s.now (D.image low.old) (D.image low.new) result }
    ensures resting { OnOk result (D.tells_crashes → IsResting (last_of (D.past low.new))) }
    ensures moments { D.tells → D.tells_crashes → IsResting (last_of (D.past low.old)) → AllSince (IsPartlyMarked s.now (D.image low.old)) (D.past low.new) (now_of (D.past low.old)) }
    ensures later { D.tells_crashes → now_of (D.past low.old) ≤ now_of (D.past low.new) }
    // Memory lacks for a read alone.
    ensures still { D.tells_crashes → result ≡ Err BeginError.Memory → D.past low.new ≡ D.past low.old }
    ensures read_back { OnOk result (D.tells → super_of (page_of (D.image low.new) 8) ≡ record s.now { state = MOUNTED }) }
    ensures quiet { OnOk result (D.fault_count low.new ≡ D.fault_count low.old) }
    ensures cause { IfErr result (IsLowCause (D.fault_count low.old) (D.fault_count low.new)) }
{
    let mut page = Page::zeros();
    match low.read(SUPERBLOCK, &mut page) {
        Ok(()) => {}
        Err(e) => return Err(low_error(e, low.faults())),
    }
    let mut mounted = *s;
    mounted.state = VolumeState::MOUNTED;
    write_super(&mounted, &mut page);
    // so that its size is known
    let _bytes = page.bytes();
    match low.write(SUPERBLOCK, &page) {
        Ok(()) => {}
        Err(e) => return Err(low_error(e, low.faults())),
    }
    match low.sync() {
        Ok(()) => Ok(()),
        Err(e) => Err(low_error(e, low.faults())),
    }
}

/// A call on the low part failed, whose count now stands there.
fn low_error(error: DiskError, count: u64) -> BeginError
    ensures { result ≡ low_error error count }
{
    match error {
        DiskError::Failed => BeginError::Disk(Fault {
            part: Part::Low,
            count,
        }),
        DiskError::Memory => BeginError::Memory,
    }
}
