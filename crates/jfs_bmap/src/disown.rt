//! Blocks of released runs lose their owners.

ghost use Rattle.std.specs.Prelude.{◌≡◌, ◌<◌, ◌≤◌, ◌+◌, ◌*◌, ◌&&◌, if◌then◌else◌, not, true, length, ℕ};
ghost use Rattle.jfs_bits.specs.Bits.{is_in_run};
ghost use Rattle.jfs_bmap.specs.Set.{taken_at, cleared};
ghost use Rattle.jfs_bmap.specs.Freed.{covers, entry_at};

use crate::entries::{Piece, fill_entries};
use crate::freed::Freed;
use crate::map_pages::MapPages;

/// Takes the owner from the owned blocks of a run; these aren't held any more, and wait for the run's entry.
pub fn disown(owned: &mut MapPages, held: &mut MapPages, entries: &mut [Piece], run: Freed)
    requires within { run.first + run.blocks ≤ length owned.old }
    requires same { length held.old ≡ length owned.old }
    requires are_held { (b : ℕ) → taken_at owned.old b ≡ true → taken_at held.old b ≡ true }
    requires table { length owned.old ≤ 8192 * length entries.old }
    ensures owned { owned.new ≡ cleared run.first run.blocks owned.old }
    ensures blocks { length held.new ≡ length held.old }
    ensures held { (b : ℕ) → taken_at held.new b ≡ (not (covers run b && taken_at owned.old b) && taken_at held.old b) }
    ensures entries { (b : ℕ) → entry_at entries.new b ≡ (if covers run b && taken_at owned.old b then run.entry else entry_at entries.old b) }
{
    // at most 2^23, so that the number of each block of the run is a u32
    let _ = owned.blocks();
    // the usual case: a whole run changes the leaves of its words once, and not once a block
    if owned.is_full(run.first, run.blocks) {
        owned.clear(run.first, run.blocks);
        held.clear(run.first, run.blocks);
        fill_entries(entries, run);
    } else {
        for i in 0..run.blocks {
            disown_one(owned, held, entries, run.first + i, run.entry);
        }
    }
}

/// Takes a block's owner, if it has one; it isn't held any more, and waits for this entry.
fn disown_one(owned: &mut MapPages, held: &mut MapPages, entries: &mut [Piece], b: u32, entry: u64)
    requires within { b < length owned.old }
    requires same { length held.old ≡ length owned.old }
    requires are_held { (c : ℕ) → taken_at owned.old c ≡ true → taken_at held.old c ≡ true }
    requires table { length owned.old ≤ 8192 * length entries.old }
    ensures owned { owned.new ≡ cleared b 1 owned.old }
    ensures blocks { length held.new ≡ length held.old }
    ensures held { (c : ℕ) → taken_at held.new c ≡ (not (is_in_run b 1 c && taken_at owned.old c) && taken_at held.old c) }
    ensures entries { (c : ℕ) → entry_at entries.new c ≡ (if is_in_run b 1 c && taken_at owned.old c then entry else entry_at entries.old c) }
{
    if owned.is_taken(b) {
        owned.clear(b, 1);
        held.clear(b, 1);
        let block = Freed {
            entry,
            first: b,
            blocks: 1,
        };
        fill_entries(entries, block);
    }
}
