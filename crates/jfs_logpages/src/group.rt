//! Writing a group.

ghost use Rattle.std.specs.Prelude.{◌≡◌, ◌≢◌, ◌<◌, ◌≤◌, ◌+◌, ◌-◌, ◌*◌, ◌/◌, ◌^◌, ◌++◌, ℕ, List, length, OnOk};
ghost use Rattle.jfs_disk.specs.Crash.{last_of, AllSince, Leaves};
ghost use Rattle.jfs_disk.specs.Moment.{IsResting, now_of};
ghost use Rattle.jfs_disk.specs.Image.{Image};
ghost use Rattle.jfs_disk.specs.Fault.{HasCause};
ghost use Rattle.jfs_logpages.specs.Fresh.{IsOutside, HistoriesStay};
ghost use Rattle.jfs_logpages.specs.Group.{position_of};
ghost use Rattle.jfs_logpages.specs.Ring.{ends_with, IsGroup, IsRing, IsWritten, Mid, ReadsPrefix, AreEnds, IsLast};

use crate::last::Last;
use crate::page::fill_page;
use jfs_disk::{Disk, DiskError};

/// Appends a group to the ring's text, and syncs.
pub fn write_group<D: Disk>(
    part: &mut D,
    last: &mut Last,
    group: &[u8],
    ends: &[u32],
) -> Result<(), DiskError>
    requires place { 2 + last.old.ring ≤ D.page_count part.old }
    requires ring { 2 ≤ last.old.ring }
    requires ring_small { last.old.ring < 2 ^ 16 }
    requires numbers { last.old.number + (last.old.fill + length group.now - 1) / 4080 < 2 ^ 32 }
    requires starts { 0 < last.old.fill }
    requires fill { last.old.fill ≤ 4080 }
    requires near { last.old.fill + length group.now ≤ 4080 * (last.old.ring / 2) }
    ensures pages { D.page_count part.new ≡ D.page_count part.old }
    ensures ring { last.new.ring ≡ last.old.ring }
    ensures fill { (0 < last.new.fill) × (last.new.fill ≤ 4080) }
    ensures number { OnOk result (last.new.number ≡ last.old.number + (last.old.fill + length group.now - 1) / 4080) }
    ensures position { OnOk result (position_of last.new ≡ position_of last.old + length group.now) }

    // At each moment since the start a crash leaves a ring that reads as the text and then some of the group's records.
    ensures moments { D.tells → D.tells_crashes → (text old_ends : List ℕ) → IsLast last.old.ring last.old.number last.old.fill last.old.page.0 text old_ends
        → IsRing last.old.ring text old_ends last.old.number (D.image part.old) → IsResting (last_of (D.past part.old)) → AreEnds 0 (length group.now) ends.now
        → AllSince (ReadsPrefix last.old.ring text group.now ends.now (last.old.number + (last.old.fill + length group.now - 1) / 4080)) (D.past part.new) (now_of (D.past part.old)) }

    // At Ok the log is the text and the whole group, and nothing is pending.
    ensures last { OnOk result ((text old_ends : List ℕ) → IsLast last.old.ring last.old.number last.old.fill last.old.page.0 text old_ends → AreEnds 0 (length group.now) ends.now
        → IsLast last.new.ring last.new.number last.new.fill last.new.page.0 (text ++ group.now) (ends_with (length text) old_ends ends.now)) }
    ensures image { OnOk result (D.tells → (text old_ends : List ℕ) → IsLast last.old.ring last.old.number last.old.fill last.old.page.0 text old_ends
        → IsRing last.old.ring text old_ends last.old.number (D.image part.old) → AreEnds 0 (length group.now) ends.now
        → IsRing last.new.ring (text ++ group.now) (ends_with (length text) old_ends ends.now) last.new.number (D.image part.new)) }
    ensures resting { OnOk result (D.tells_crashes → IsResting (last_of (D.past part.old)) → IsResting (last_of (D.past part.new))) }
    // Also where it fails the past goes on, so that the moment now is one of those; and a crash leaves of the pages beside the ring what it did.
    ensures past { D.tells_crashes → IsResting (last_of (D.past part.old)) → HistoriesStay (IsOutside 2 last.old.ring) (D.past part.old) (D.past part.new) }
    ensures cause { HasCause (D.fault_count part.old) (D.fault_count part.new) result }
    ensures no_memory { result ≢ Err DiskError.Memory }
{
    let fill = last.fill;
    let further = (fill + group.len() - 1) / 4080;
    rewrite_last(part, last, group, ends)?;
    if further > 0 {
        write_further(part, last, group, ends, further)?;
    }
    last.fill = fill + group.len() - 4080 * further;
    Ok(())
}

/// Puts what fits of the group on the last page, where that isn't full, and syncs.
fn rewrite_last<D: Disk>(
    part: &mut D,
    last: &mut Last,
    group: &[u8],
    ends: &[u32],
) -> Result<(), DiskError>
    requires place { 2 + last.old.ring ≤ D.page_count part.old }
    requires ring { 2 ≤ last.old.ring }
    requires ring_small { last.old.ring < 2 ^ 16 }
    requires starts { 0 < last.old.fill }
    requires fill { last.old.fill ≤ 4080 }
    requires near { last.old.fill + length group.now ≤ 4080 * (last.old.ring / 2) }
    ensures pages { D.page_count part.new ≡ D.page_count part.old }
    ensures ring { last.new.ring ≡ last.old.ring }
    ensures number { last.new.number ≡ last.old.number }
    ensures fill { last.new.fill ≡ last.old.fill }
    ensures page { (text old_ends : List ℕ) → IsLast last.old.ring last.old.number last.old.fill last.old.page.0 text old_ends → AreEnds 0 (length group.now) ends.now
        → IsWritten (text ++ group.now) (ends_with (length text) old_ends ends.now) last.old.number last.new.page.0 }
    ensures image { OnOk result (D.tells → (text old_ends : List ℕ) → IsLast last.old.ring last.old.number last.old.fill last.old.page.0 text old_ends
        → IsRing last.old.ring text old_ends last.old.number (D.image part.old) → AreEnds 0 (length group.now) ends.now
        → IsRing last.old.ring (text ++ group.now) (ends_with (length text) old_ends ends.now) last.old.number (D.image part.new)) }
    ensures moments { D.tells → D.tells_crashes → (text old_ends : List ℕ) → IsLast last.old.ring last.old.number last.old.fill last.old.page.0 text old_ends
        → IsRing last.old.ring text old_ends last.old.number (D.image part.old) → IsResting (last_of (D.past part.old)) → AreEnds 0 (length group.now) ends.now
        → AllSince (ReadsPrefix last.old.ring text group.now ends.now (last.old.number + (last.old.fill + length group.now - 1) / 4080)) (D.past part.new) (now_of (D.past part.old)) }
    ensures resting { OnOk result (D.tells_crashes → IsResting (last_of (D.past part.old)) → IsResting (last_of (D.past part.new))) }
    ensures past { D.tells_crashes → IsResting (last_of (D.past part.old)) → HistoriesStay (IsOutside 2 last.old.ring) (D.past part.old) (D.past part.new) }
    ensures cause { HasCause (D.fault_count part.old) (D.fault_count part.new) result }
    ensures no_memory { result ≢ Err DiskError.Memory }
{
    if last.fill == 4080 {
        return Ok(());
    }
    fill_page(&mut last.page, last.number, last.fill, 0, group, ends);
    // so that its size is known
    let _bytes = last.page.bytes();
    part.write(2 + last.number % last.ring, &last.page)?;
    part.sync()
}

/// Writes the pages behind the last one, and syncs.
fn write_further<D: Disk>(
    part: &mut D,
    last: &mut Last,
    group: &[u8],
    ends: &[u32],
    further: usize,
) -> Result<(), DiskError>
    requires place { 2 + last.old.ring ≤ D.page_count part.old }
    requires ring { 2 ≤ last.old.ring }
    requires ring_small { last.old.ring < 2 ^ 16 }
    requires numbers { last.old.number + further < 2 ^ 32 }
    requires fill { last.old.fill ≤ 4080 }
    requires bytes { 4080 * further ≤ last.old.fill + length group.now }
    requires small { length group.now < 2 ^ 30 }
    ensures pages { D.page_count part.new ≡ D.page_count part.old }
    ensures ring { last.new.ring ≡ last.old.ring }
    ensures fill { last.new.fill ≡ last.old.fill }
    ensures number { OnOk result (last.new.number ≡ last.old.number + further) }
    ensures page { OnOk result (0 < further → (text old_ends : List ℕ)
        → IsGroup last.old.ring text group.now old_ends ends.now last.old.number (last.old.number + further) → length text ≡ 4080 * last.old.number + last.old.fill
        → IsWritten (text ++ group.now) (ends_with (length text) old_ends ends.now) (last.old.number + further) last.new.page.0) }
    ensures image { OnOk result (D.tells → (text old_ends : List ℕ)
        → IsGroup last.old.ring text group.now old_ends ends.now last.old.number (last.old.number + further) → length text ≡ 4080 * last.old.number + last.old.fill
        → IsRing last.old.ring (text ++ group.now) (ends_with (length text) old_ends ends.now) last.old.number (D.image part.old)
        → IsRing last.old.ring (text ++ group.now) (ends_with (length text) old_ends ends.now) (last.old.number + further) (D.image part.new)) }
    ensures all { D.tells → D.tells_crashes → (text old_ends : List ℕ)
        → IsGroup last.old.ring text group.now old_ends ends.now last.old.number (last.old.number + further) → length text ≡ 4080 * last.old.number + last.old.fill
        → Leaves (Mid last.old.ring (text ++ group.now) (ends_with (length text) old_ends ends.now) last.old.number last.old.number) (last_of (D.past part.old))
        → (t : ℕ) → AllSince (ReadsPrefix last.old.ring text group.now ends.now (last.old.number + further)) (D.past part.old) t
        → AllSince (ReadsPrefix last.old.ring text group.now ends.now (last.old.number + further)) (D.past part.new) t }
    ensures resting { OnOk result (D.tells_crashes → IsResting (last_of (D.past part.new))) }
    ensures past { D.tells_crashes → IsResting (last_of (D.past part.old)) → HistoriesStay (IsOutside 2 last.old.ring) (D.past part.old) (D.past part.new) }
    ensures cause { HasCause (D.fault_count part.old) (D.fault_count part.new) result }
    ensures no_memory { result ≢ Err DiskError.Memory }
{
    let fill = last.fill;
    for i in 0..further {
        last.number += 1;
        fill_page(
            &mut last.page,
            last.number,
            0,
            4080 * (i + 1) - fill,
            group,
            ends,
        );
        part.write(2 + last.number % last.ring, &last.page)?;
    }
    part.sync()?;
    Ok(())
}
