//! A volume is mounted.

ghost use Rattle.std.specs.Prelude.{◌≡◌, ◌≤◌, ◌<◌, ◌-◌, ◌+◌, ◌*◌, ◌^◌, [], None, length, take, drop, IfOk, IfErr};
ghost use Rattle.jfs_mount_maps.specs.bmap.specs.MapFile.{pages_of};
ghost use Rattle.jfs_map_files.specs.Files.{AreFilesOf};
ghost use Rattle.jfs_mount_maps.specs.Maps.{IsIdle};
ghost use Rattle.jfs_disk.specs.Image.{Image, page_of};
ghost use Rattle.jfs_disk.specs.Crash.{last_of, AllSince, Leaves};
ghost use Rattle.jfs_disk.specs.Moment.{IsResting, now_of};
ghost use Rattle.jfs_super.specs.Rules.{IsAccepted};
ghost use Rattle.jfs_super.specs.Super.{super_of, FitsSuper};
ghost use Rattle.jfs_super.specs.declared.fields.TheConstants.VolumeState.{CLEAN};
ghost use Rattle.jfs_logpages.specs.Group.{position_of};
ghost use Rattle.jfs_logpages.specs.Fresh.{OthersStay, IsFreshLog, IsPartlyFresh};
ghost use Rattle.jfs_mount_disk.specs.Begun.{IsPartlyMarked, LeavesRest, LeavesLow};
ghost use Rattle.jfs_volume.specs.Start.{StandsFresh};
ghost use Rattle.jfs_mounted.specs.Mount.{log_parts, IsMountOf, IsMountCause, IsRefusal, IsBeforeCut, LeavesLog, LeavesUntouched, WasCut, FoundOn, refusal_of, failure_of};

use crate::mounted::{MountError, MountRefused, Mounted};
use jfs_disk::Disk;
use jfs_map_files::Maps;
use jfs_mount_disk::{BeginError, Begun, begin};
use jfs_mount_maps::{FoundMaps, MapsError, find_maps_on};
use jfs_pages::PageCache;
use jfs_super::{Super, geometry};
use jfs_volume::Volume;
use std::alloc::Global;

/// Mounts the volume of a disk in state 0, whose superblock is the one given: looks at the rules of a mount in their order and finds both maps, then cuts the disk before its log, makes the log a fresh one and
/// syncs it, and gives the superblock state 1 and syncs. What `find_maps` takes of memory it takes, and the pages that are read later.
///
/// # Errors
///
/// The first rule that is broken, and then nothing was written; a call on the disk or on one of its parts failed; or memory ran out. The disk is handed back in one piece.
pub fn mount<D: Disk>(alloc: Global, disk: D, s: &Super) -> Result<Mounted<D>, MountRefused<D>>
    requires accepted { IsAccepted s.now (D.page_count disk) }
    requires fits { FitsSuper s.now }
    requires clean { s.now.state ≡ CLEAN }
    requires spelled { D.tells → super_of (page_of (D.image disk) 8) ≡ s.now }

    ensures mounted { IfOk result (λ m. IsMountOf D.tells D.tells_crashes s.now (D.image disk) m.volume (log_parts D.Disk m.log)) }
    // The volume is running, and no text waits behind the one SYNCPT of its log.
    ensures running { IfOk result (λ m. (m.volume.halted ≡ None) × (m.volume.taken ≡ 0) × (m.volume.count ≡ s.now.logpxd.addr)) }
    ensures text { IfOk result (λ m. (m.volume.text.ring ≡ s.now.logpxd.len - 2) × (m.volume.text.place ≡ 4080 * (s.now.logpxd.len - 3) + 36) × (m.volume.text.bytes ≡ [])) }
    // Its text stands where the log's ends, and the parts can be joined again.
    ensures together { IfOk result (λ m. ((log_parts D.Disk m.log).last.ring ≡ m.volume.text.ring) × (position_of (log_parts D.Disk m.log).last ≡ m.volume.text.place) × ((log_parts D.Disk m.log).durable ≡ m.volume.taken) × ((log_parts D.Disk m.log).halted ≡ None)) }
    ensures room { IfOk result (λ m. m.volume.count + D.page_count m.log.part ≤ m.volume.room) }
    ensures parts { IfOk result (λ m. (m.volume.blocks ≡ s.now.logpxd.addr) × (D.page_count m.log.part ≡ D.page_count disk - s.now.logpxd.addr) × (m.volume.faults + D.fault_count m.log.part ≡ D.fault_count disk)) }
    ensures log { IfOk result (λ m. D.tells → IsFreshLog s.now.logpxd.len s.now.uuid (D.image m.log.part)) }
    ensures behind { IfOk result (λ m. D.tells → OthersStay 1 (s.now.logpxd.len - 1) (drop s.now.logpxd.addr (D.image disk)) (D.image m.log.part)) }
    // If nothing was pending, a crash at any moment since the start leaves of the low part old pages, and front sectors of the new page 8 over the old one; and of the log old pages, fresh ones and fresh front sectors.
    ensures low_moments { IfOk result (λ m. D.tells → D.tells_crashes → IsResting (last_of (D.past disk)) →
        AllSince (IsPartlyMarked s.now (take s.now.logpxd.addr (D.image disk))) m.volume.past (now_of (D.past disk))) }
    ensures log_moments { IfOk result (λ m. D.tells → D.tells_crashes → IsResting (last_of (D.past disk)) →
        AllSince (IsPartlyFresh 0 s.now.logpxd.len s.now.uuid (drop s.now.logpxd.addr (D.image disk))) (D.past m.log.part) (now_of (D.past disk))) }

    ensures refused { IfErr result (λ not. D.tells → IsRefusal s.now (D.image disk) not.why) }
    ensures cause { IfErr result (λ not. IsMountCause (D.fault_count disk) (D.fault_count not.disk) not.why) }
    ensures same_size { IfErr result (λ not. D.page_count not.disk ≡ D.page_count disk) }
    ensures rest { IfErr result (λ not. D.tells → LeavesRest s.now (D.image disk) (D.image not.disk)) }
    // Nothing is written before the disk is cut.
    ensures same_image { IfErr result (λ not. D.tells → IsBeforeCut not.why → D.image not.disk ≡ D.image disk) }
    ensures same_past { IfErr result (λ not. D.tells_crashes → IsBeforeCut not.why → D.past not.disk ≡ D.past disk) }
    // If nothing was pending, this is what a crash then leaves of the disk. Of a log whose own part failed it isn't said.
    ensures left_low { IfErr result (λ not. D.tells → D.tells_crashes → IsResting (last_of (D.past disk)) → Leaves (LeavesLow s.now (D.image disk)) (last_of (D.past not.disk))) }
    ensures left_log { IfErr result (λ not. D.tells → D.tells_crashes → IsResting (last_of (D.past disk)) → Leaves (LeavesLog s.now (D.image disk) not.why) (last_of (D.past not.disk))) }
    ensures left_high { IfErr result (λ not. D.tells → D.tells_crashes → IsResting (last_of (D.past disk)) → Leaves (LeavesUntouched s.now (D.image disk) not.why) (last_of (D.past not.disk))) }
    // At each moment since the start it leaves of the low part old pages, and front sectors of the new page 8 over the old one.
    ensures moments { IfErr result (λ not. D.tells → D.tells_crashes → IsResting (last_of (D.past disk)) → AllSince (LeavesLow s.now (D.image disk)) (D.past not.disk) (now_of (D.past disk))) }
    // The disk is cut where no rule is broken and the maps were found.
    ensures found { IfErr result (λ not. D.tells → WasCut not.why → FoundOn s.now (D.image disk)) }
{
    let mut disk = disk;
    let ring = geometry(s).log.len - 2;
    let maps = match find_maps_on(alloc, &mut disk, s) {
        Ok(maps) => maps,
        Err(why) => {
            return Err(MountRefused {
                disk,
                why: refusal_of(why),
            });
        }
    };
    match begin(disk, s) {
        Ok(begun) => Ok(started(alloc, begun, maps, ring)),
        Err(not) => Err(MountRefused {
            disk: not.disk,
            why: failure_of(not.why),
        }),
    }
}

/// Why no maps were found, as an error of a mount.
fn refusal_of(why: MapsError) -> MountError
    ensures { result ≡ refusal_of why }
{
    match why {
        MapsError::BadImage(bad) => MountError::BadImage(bad),
        MapsError::Read(fault) => MountError::Disk(fault),
        MapsError::Memory => MountError::Memory,
    }
}

/// Why a disk isn't ready, as an error of a mount.
fn failure_of(why: BeginError) -> MountError
    ensures { result ≡ failure_of why }
{
    match why {
        BeginError::Disk(fault) => MountError::Disk(fault),
        BeginError::Memory => MountError::Memory,
    }
}

/// The volume of a disk that is ready: nothing has happened yet. It takes no memory.
fn started<D: Disk>(alloc: Global, begun: Begun<D>, maps: FoundMaps, ring: u32) -> Mounted<D>
    requires ring { (254 ≤ ring) × (ring < 2 ^ 16) }
    requires idle { IsIdle maps.blocks }
    requires files { AreFilesOf (D.page_count begun.low) (pages_of (length maps.blocks.states)) maps.inodes.iags maps.files }
    requires resting { D.tells_crashes → IsResting (last_of (D.past begun.low)) }
    ensures fresh { (pages : Image) × (D.tells → pages ≡ D.image begun.low) × StandsFresh D.tells D.tells_crashes ring pages maps.blocks maps.inodes result.volume }
    ensures low { (result.volume.past ≡ D.past begun.low) × (result.volume.faults ≡ D.fault_count begun.low) × (result.volume.blocks ≡ D.page_count begun.low) }
    ensures parts { (result.volume.map ≡ maps.blocks) × (result.volume.inodes ≡ maps.inodes) × (result.volume.limit ≡ maps.file_limit) × (result.volume.files ≡ maps.files) }
    ensures rest { (result.volume.halted ≡ None) × (result.volume.taken ≡ 0) × (result.volume.count ≡ D.page_count begun.low) × (result.volume.room ≡ D.room begun.low) }
    ensures text { (result.volume.text.ring ≡ ring) × (result.volume.text.place ≡ 4080 * (ring - 1) + 36) × (result.volume.text.bytes ≡ []) }
    ensures log { result.log ≡ begun.log }
{
    let Begun { low, log } = begun;
    let FoundMaps {
        blocks,
        inodes,
        file_limit,
        files,
    } = maps;
    let maps = Maps {
        blocks,
        inodes,
        file_limit,
    };
    let pages = low.pages();
    let cache = PageCache::new(alloc, low, pages);
    Mounted {
        volume: Volume::start(alloc, cache, maps, files, ring),
        log,
    }
}
