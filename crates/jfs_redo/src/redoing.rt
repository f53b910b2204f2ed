//! Redo of a volume.

ghost use Rattle.std.specs.Prelude.{◌≡◌, ◌≤◌, ◌*◌, ℕ, List, length, map, IfOk, IfErr, OnOk};
ghost use Rattle.std.specs.List.{AllByRecursion};
ghost use Rattle.jfs_disk.specs.Image.{page_of};
ghost use Rattle.jfs_disk.specs.Crash.{last_of};
ghost use Rattle.jfs_disk.specs.Moment.{IsResting, now_of};
ghost use Rattle.jfs_super.specs.Rules.{IsAccepted, blocks_of};
ghost use Rattle.jfs_super.specs.Super.{FitsSuper};
ghost use Rattle.jfs_super.specs.Geometry.{IsLayout, geometry_of};
ghost use Rattle.jfs_ranges.specs.View.{CarriesCount};
ghost use Rattle.jfs_disk.specs.Fault.{HasCause};
ghost use Rattle.jfs_imap.specs.Inodes.{inodes_of};
ghost use Rattle.jfs_redo_steps.specs.each.specs.Each.{AllFit};
ghost use Rattle.jfs_mount_maps.specs.sets.specs.Sets.{extent_from};
ghost use Rattle.jfs_mount_maps.specs.Maps.{groups_of};
ghost use Rattle.jfs_redo_steps.specs.Inodes.{AreInodesInUse};
ghost use Rattle.jfs_super.specs.declared.fields.Super.{Super};
ghost use Rattle.jfs_mount_maps.specs.mount_rules.specs.Subject.{subject_of};
ghost use Rattle.jfs_redo.specs.Log.{ExtentsLieWithin};
ghost use Rattle.jfs_redo.specs.Mixed.{AreMixed};
ghost use Rattle.jfs_redo.specs.Partly.{Writes, IsRedoneMeanwhile, KeepsMixed, PutsMaps};
ghost use Rattle.jfs_redo.specs.Plan.{IsPlan, IsPlanOf, Plans};
ghost use Rattle.jfs_redo.specs.Moments.{IsMarkedLast};
ghost use Rattle.jfs_redo.specs.Redo.{RedoIs, IsRedoCause, IsRefusal, StaysBehind, PlanIs, IsRestored, MapsAreWritten, disk_error};

use crate::error::{RedoError, Redone};
use crate::log::committed_in;
use crate::maps::{write_block_map, write_inode_map};
use crate::plan::{Plan, make_plan};
use crate::state::mark_clean;
use jfs_disk::{Disk, DiskError, Fault, Part};
use jfs_imap::InodeMap;
use jfs_mount_maps::inode_map_with;
use jfs_mount_maps::mount_rules::BadMount;
use jfs_mount_maps::reader::DiskView;
use jfs_ranges::{Tx, ViewError};
use jfs_redo_steps::{inodes_in_use, redo_pages};
use jfs_super::{Geometry, Super, geometry};
use std::alloc::Global;

/// Redoes the volume of a disk in state 1, whose superblock is the one given, by its log: each page is what the committed transactions make of it, both maps follow from what they take and free and
/// from the inodes' link counts, and the superblock has state 0. The log and all that isn't redone stay as they were. (JFS Log, log redo.)
///
/// The log is read whole and the maps' rules are looked at before anything is written. Its work grows with the log's text and with the volume's maps and inodes.
///
/// It takes the text of the log's newer half, and the records in it from the place on that the newest SYNCPT gives; then, once the text is given back, these records and their transactions; then the
/// transactions alone, with 16 bytes for each page that an edit of them changes or frees, a bit for each block and each inode, and 21 bytes for each place of an inode extent. So text and transactions
/// are never there at once. Pages come and go through one buffer.
///
/// # Errors
///
/// The log is another's or breaks a rule, or the maps break one: nothing was written. A call on the disk failed, or memory ran out: redo may be made again.
pub fn redo<D: Disk>(alloc: Global, disk: &mut D, s: &Super) -> Result<Redone, RedoError>
    requires accepted { IsAccepted s.now (D.page_count disk.old) }
    requires fits { FitsSuper s.now }
    ensures pages { D.page_count disk.new ≡ D.page_count disk.old }
    ensures redone { D.tells → RedoIs s.now (D.image disk.old) (D.image disk.new) result }
    ensures stable { OnOk result (D.tells_crashes → IsResting (last_of (D.past disk.new))) }
    ensures marked { OnOk result (D.tells_crashes → IsMarkedLast (D.past disk.new)) }
    // At each moment a crash leaves what may be redone again (`stopped_redo_is_taken_up`), or the redone volume.
    ensures moments { D.tells → D.tells_crashes → IsResting (last_of (D.past disk.old)) → IsRedoneMeanwhile s.now (D.image disk.old) (D.past disk.old) (D.past disk.new) }
    // A volume that is refused is as it was; the log and all that lies behind the file system part always are.
    ensures same_image { IfErr result (λ why. D.tells → IsRefusal why → D.image disk.new ≡ D.image disk.old) }
    ensures same_past { IfErr result (λ why. D.tells_crashes → IsRefusal why → D.past disk.new ≡ D.past disk.old) }
    ensures behind { D.tells → StaysBehind (blocks_of s.now) (D.image disk.old) (D.image disk.new) }
    ensures cause { IsRedoCause (D.fault_count disk.old) (D.fault_count disk.new) result }
    ensures later { D.fault_count disk.old ≤ D.fault_count disk.new }
{
    let layout = geometry(s);
    let transactions = match committed_in(alloc, disk, layout.log, layout.blocks) {
        Ok(transactions) => transactions,
        Err(why) => return Err(why),
    };
    let Ok(count) = u32::try_from(transactions.len()) else {
        return Err(RedoError::Memory);
    };
    let plan = match plan_on(alloc, disk, layout, transactions.as_slice()) {
        Ok(plan) => plan,
        Err(why) => return Err(why),
    };
    match restore(alloc, disk, layout, transactions.as_slice(), &plan) {
        Ok(()) => {}
        Err(why) => return Err(why),
    }
    match mark_clean(disk, s) {
        Ok(()) => Ok(Redone {
            transactions: count,
        }),
        Err(e) => Err(disk_error(e, disk.faults())),
    }
}

/// What is to be done, by a view of the disk.
fn plan_on<D: Disk>(
    alloc: Global,
    disk: &mut D,
    layout: Geometry,
    transactions: &[Tx],
) -> Result<Plan, RedoError>
    requires layout { IsLayout layout }
    requires within { layout.blocks ≤ D.page_count disk.old }
    requires fit { AllByRecursion (ExtentsLieWithin layout.blocks) transactions.now }
    ensures pages { D.page_count disk.new ≡ D.page_count disk.old }
    ensures image { D.tells → D.image disk.new ≡ D.image disk.old }
    ensures past { D.tells_crashes → D.past disk.new ≡ D.past disk.old }
    ensures plan { IfOk result (IsPlan layout.blocks layout.agsize) }
    ensures plans { D.tells → (s : Super) → geometry_of s ≡ layout → PlanIs (subject_of s (page_of (D.image disk.old))) transactions.now result }
    ensures cause { IsRedoCause (D.fault_count disk.old) (D.fault_count disk.new) result }
    ensures later { D.fault_count disk.old ≤ D.fault_count disk.new }
{
    let _faults = disk.faults();
    let mut view = DiskView::new(disk, Part::Whole, layout.blocks);
    match plan_in_loan(alloc, &mut view, layout, transactions) {
        Ok(Ok(plan)) => Ok(plan),
        Ok(Err(bad)) => Err(RedoError::BadImage(bad)),
        Err(ViewError::Read(fault)) => Err(RedoError::Disk(fault)),
        Err(ViewError::Memory) => Err(RedoError::Memory),
    }
}

/// The same by a view that keeps its loan of the disk.
fn plan_in_loan<'a, D: Disk>(
    alloc: Global,
    view: &mut DiskView<'a, D>,
    layout: Geometry,
    transactions: &[Tx],
) -> Result<Result<Plan, BadMount>, ViewError>
    requires layout { IsLayout layout }
    requires within { layout.blocks ≡ view.old.blocks }
    requires fit { AllByRecursion (ExtentsLieWithin layout.blocks) transactions.now }
    ensures loan { view.new.disk.ghost_name ≡ view.old.disk.ghost_name }
    ensures image { D.tells → D.image view.new.disk.now ≡ D.image view.old.disk.now }
    ensures pages { D.page_count view.new.disk.now ≡ D.page_count view.old.disk.now }
    ensures past { D.tells_crashes → D.past view.new.disk.now ≡ D.past view.old.disk.now }
    ensures plan { IfOk result (λ answer. IfOk answer (IsPlan layout.blocks layout.agsize)) }
    ensures plans { D.tells → IfOk result (λ answer. (s : Super) → blocks_of s ≡ layout.blocks → Plans (subject_of s (page_of (D.image view.old.disk.now))) transactions.now answer) }
    ensures fault { CarriesCount (record { part = view.old.part; count = D.fault_count view.old.disk.now }) (record { part = view.new.part; count = D.fault_count view.new.disk.now }) result }
{
    make_plan(alloc, view, layout.agsize, transactions)
}

/// Redoes the pages, then writes both maps, and syncs.
fn restore<D: Disk>(
    alloc: Global,
    disk: &mut D,
    layout: Geometry,
    transactions: &[Tx],
    plan: &Plan,
) -> Result<(), RedoError>
    requires layout { IsLayout layout }
    requires within { layout.blocks ≤ D.page_count disk.old }
    requires plan { IsPlan layout.blocks layout.agsize plan.now }
    ensures pages { D.page_count disk.new ≡ D.page_count disk.old }
    ensures restored { D.tells → OnOk result (IsRestored layout.blocks layout.agsize transactions.now plan.now (D.image disk.old) (D.image disk.new)) }
    ensures rests { OnOk result (D.tells_crashes → IsResting (last_of (D.past disk.new))) }
    ensures moments { D.tells → D.tells_crashes → IsResting (last_of (D.past disk.old)) → (s : Super) → geometry_of s ≡ layout
        → IsPlanOf (subject_of s (page_of (D.image disk.old))) transactions.now plan.now
        → AreMixed layout.blocks (Writes s transactions.now (D.image disk.old)) (D.image disk.old) (now_of (D.past disk.old)) (D.past disk.new) }
    ensures behind { D.tells → StaysBehind layout.blocks (D.image disk.old) (D.image disk.new) }
    ensures cause { IsRedoCause (D.fault_count disk.old) (D.fault_count disk.new) result }
    ensures later { D.fault_count disk.old ≤ D.fault_count disk.new }
    ensures begun { IfErr result (λ why. IsRefusal why → ⊥) }
{
    match redo_pages(alloc, disk, transactions, layout.blocks) {
        Ok(()) => {}
        Err(e) => return Err(disk_error(e, disk.faults())),
    }
    let inodes = match inodes_on(alloc, disk, layout, plan) {
        Ok(inodes) => inodes,
        Err(why) => return Err(why),
    };
    match write_maps(disk, plan, &inodes) {
        Ok(()) => Ok(()),
        Err(e) => Err(disk_error(e, disk.faults())),
    }
}

/// The inode map by the pages of inodes as they are now.
fn inodes_on<D: Disk>(
    alloc: Global,
    disk: &mut D,
    layout: Geometry,
    plan: &Plan,
) -> Result<InodeMap, RedoError>
    requires layout { IsLayout layout }
    requires within { layout.blocks ≤ D.page_count disk.old }
    requires few { plan.now.maps.inodes.iags ≤ 65536 }
    requires all { length plan.now.places.items ≡ 128 * plan.now.maps.inodes.iags }
    requires fit { AllFit layout.blocks plan.now.places.items }
    ensures pages { D.page_count disk.new ≡ D.page_count disk.old }
    ensures image { D.tells → D.image disk.new ≡ D.image disk.old }
    ensures past { D.tells_crashes → D.past disk.new ≡ D.past disk.old }
    ensures number { IfOk result (λ m. m.iags ≡ plan.now.maps.inodes.iags) }
    ensures inodes { D.tells → IfOk result (λ m. (set : List ℕ) × AreInodesInUse (page_of (D.image disk.old)) plan.now.places.items set
        × (m ≡ inodes_of set (map extent_from plan.now.places.items) plan.now.maps.inodes.iags layout.agsize (groups_of layout))) }
    ensures cause { IsRedoCause (D.fault_count disk.old) (D.fault_count disk.new) result }
    ensures later { D.fault_count disk.old ≤ D.fault_count disk.new }
    ensures begun { IfErr result (λ why. IsRefusal why → ⊥) }
{
    let places = plan.places.as_slice();
    let iags = plan.maps.inodes.iags;
    let set = match used_on(alloc, disk, layout.blocks, places) {
        Ok(set) => set,
        Err(why) => return Err(why),
    };
    // A plan is of a map that has pages; but that is known only where the disk tells them.
    if iags == 0 || set.len() != 512 * iags as usize {
        return Err(RedoError::Memory);
    }
    match inode_map_with(alloc, set.as_slice(), places, iags, layout) {
        Ok(map) => Ok(map),
        Err(_) => Err(RedoError::Memory),
    }
}

/// The inodes in use, by their link counts.
fn used_on<D: Disk>(
    alloc: Global,
    disk: &mut D,
    blocks: u32,
    places: &[Option<u32>],
) -> Result<Vec<u8>, RedoError>
    requires within { blocks ≤ D.page_count disk.old }
    requires fit { AllFit blocks places.now }
    requires most { length places.now ≤ 128 * 65536 }
    ensures pages { D.page_count disk.new ≡ D.page_count disk.old }
    ensures image { D.tells → D.image disk.new ≡ D.image disk.old }
    ensures past { D.tells_crashes → D.past disk.new ≡ D.past disk.old }
    ensures bits { D.tells → IfOk result (λ set. AreInodesInUse (page_of (D.image disk.old)) places.now set.items) }
    ensures cause { IsRedoCause (D.fault_count disk.old) (D.fault_count disk.new) result }
    ensures later { D.fault_count disk.old ≤ D.fault_count disk.new }
    ensures begun { IfErr result (λ why. IsRefusal why → ⊥) }
{
    let _faults = disk.faults();
    let mut view = DiskView::new(disk, Part::Whole, blocks);
    match used_in_loan(alloc, &mut view, places) {
        Ok(set) => Ok(set),
        Err(ViewError::Read(fault)) => Err(RedoError::Disk(fault)),
        Err(ViewError::Memory) => Err(RedoError::Memory),
    }
}

/// The same by a view that keeps its loan of the disk.
fn used_in_loan<'a, D: Disk>(
    alloc: Global,
    view: &mut DiskView<'a, D>,
    places: &[Option<u32>],
) -> Result<Vec<u8>, ViewError>
    requires fit { AllFit view.old.blocks places.now }
    requires most { length places.now ≤ 128 * 65536 }
    ensures loan { view.new.disk.ghost_name ≡ view.old.disk.ghost_name }
    ensures image { D.tells → D.image view.new.disk.now ≡ D.image view.old.disk.now }
    ensures pages { D.page_count view.new.disk.now ≡ D.page_count view.old.disk.now }
    ensures past { D.tells_crashes → D.past view.new.disk.now ≡ D.past view.old.disk.now }
    ensures bits { D.tells → IfOk result (λ set. AreInodesInUse (page_of (D.image view.old.disk.now)) places.now set.items) }
    ensures fault { CarriesCount (record { part = view.old.part; count = D.fault_count view.old.disk.now }) (record { part = view.new.part; count = D.fault_count view.new.disk.now }) result }
{
    inodes_in_use(alloc, view, places)
}

/// Writes both maps, and syncs.
fn write_maps<D: Disk>(disk: &mut D, plan: &Plan, inodes: &InodeMap) -> Result<(), DiskError>
    requires within { plan.now.maps.blocks ≤ D.page_count disk.old }
    requires same { length plan.now.blocks.owned ≡ plan.now.maps.blocks }
    requires number { inodes.now.iags ≡ plan.now.maps.inodes.iags }
    requires few { plan.now.maps.inodes.iags ≤ 65536 }
    ensures pages { D.page_count disk.new ≡ D.page_count disk.old }
    ensures room { D.room disk.new ≡ D.room disk.old }
    ensures written { D.tells → OnOk result (MapsAreWritten plan.now.maps.blocks plan.now inodes.now (D.image disk.old) (D.image disk.new)) }
    ensures rests { OnOk result (D.tells_crashes → IsResting (last_of (D.past disk.new))) }
    ensures moments { D.tells → D.tells_crashes → KeepsMixed plan.now.maps.blocks (PutsMaps plan.now.maps.blocks plan.now inodes.now) (D.past disk.old) (D.past disk.new) }
    ensures behind { D.tells → StaysBehind plan.now.maps.blocks (D.image disk.old) (D.image disk.new) }
    ensures cause { HasCause (D.fault_count disk.old) (D.fault_count disk.new) result }
{
    let maps = &plan.maps;
    let blocks = maps.blocks;
    match write_block_map(disk, &plan.blocks, maps.block_map.as_slice(), blocks) {
        Ok(()) => {}
        Err(e) => return Err(e),
    }
    let files = &maps.inodes;
    match write_inode_map(disk, inodes, files.iags, files.extents.as_slice(), blocks) {
        Ok(()) => {}
        Err(e) => return Err(e),
    }
    match disk.sync() {
        Ok(()) => Ok(()),
        Err(e) => Err(e),
    }
}

/// A call on the disk failed, whose count now stands there.
fn disk_error(error: DiskError, count: u64) -> RedoError
    ensures { result ≡ disk_error error count }
{
    match error {
        DiskError::Failed => RedoError::Disk(Fault {
            part: Part::Whole,
            count,
        }),
        DiskError::Memory => RedoError::Memory,
    }
}
