//! The blocks in use after redo.

ghost use Rattle.std.specs.Prelude.{◌≡◌, ◌<◌, ◌≤◌, ◌*◌, ◌%◌, ◌^◌, ◌||◌, ◌&&◌, not, true, ℕ, [], ◌∷◌, length};
ghost use Rattle.jfs_bits.specs.Bits.{is_taken, is_in_run};
ghost use Rattle.jfs_records.specs.Redo.{all_of};
ghost use Rattle.jfs_steps.specs.After.{is_extent, used_after};

use jfs_bits::{PageKind, clear_run, set_run};
use jfs_ranges::{Edit, Tx};

/// Sets the bit of each block that transactions take, and clears that of each one that they free, in their order; a new inode extent takes its four blocks. What they say of blocks past the
/// set's end is passed over.
pub fn redo_blocks(transactions: &[Tx], set: &mut [u8])
    requires words { length set.old % 4 ≡ 0 }
    requires most { length set.old ≤ 2 ^ 28 }
    ensures size { length set.new ≡ length set.old }
    ensures bits { (b : ℕ) → b < 8 * length set.old → is_taken set.new b ≡ used_after (all_of transactions.now) (is_taken set.old) b }
{
    for tx in transactions {
        mark_tx(tx, set);
    }
}

fn mark_tx(tx: &Tx, set: &mut [u8])
    requires words { length set.old % 4 ≡ 0 }
    requires most { length set.old ≤ 2 ^ 28 }
    ensures size { length set.new ≡ length set.old }
    ensures bits { (b : ℕ) → b < 8 * length set.old → is_taken set.new b ≡ used_after tx.now (is_taken set.old) b }
{
    for edit in tx.as_slice() {
        mark_edit(edit, set);
    }
}

fn mark_edit(edit: &Edit, set: &mut [u8])
    requires words { length set.old % 4 ≡ 0 }
    requires most { length set.old ≤ 2 ^ 28 }
    ensures size { length set.new ≡ length set.old }
    ensures bits { (b : ℕ) → b < 8 * length set.old → is_taken set.new b ≡ used_after (edit.now ∷ []) (is_taken set.old) b }
{
    match edit {
        Edit::Lines {
            page,
            kind,
            first,
            bytes,
        } => {
            if is_extent(*kind, *first, bytes.as_slice()) {
                take(u64::from(*page), 4, set);
            }
        }
        Edit::NoRedo { .. } => {}
        Edit::Alloc(run) => take(run.addr, run.len, set),
        Edit::Free(run) => free(run.addr, run.len, set),
    }
}

/// Whether lines are a new inode extent: four pages of inodes from their first line on.
pub(crate) fn is_extent(kind: PageKind, first: u32, bytes: &[u8]) -> bool
    ensures value { result ≡ is_extent kind first bytes.now }
    ensures long { result ≡ true → length bytes.now ≡ 16384 }
{
    match kind {
        PageKind::Inode => first == 0 && bytes.len() == 16384,
        PageKind::Xtree | PageKind::Dtree | PageKind::Index => false,
    }
}

fn take(first: u64, n: u32, set: &mut [u8])
    requires words { length set.old % 4 ≡ 0 }
    requires most { length set.old ≤ 2 ^ 28 }
    ensures size { length set.new ≡ length set.old }
    ensures bits { (b : ℕ) → b < 8 * length set.old → is_taken set.new b ≡ (is_in_run first n b || is_taken set.old b) }
{
    let total = 8 * set.len() as u64;
    if first < total {
        let n = u64::from(n).min(total - first);
        set_run(set, first as u32, n as u32);
    }
}

fn free(first: u64, n: u32, set: &mut [u8])
    requires words { length set.old % 4 ≡ 0 }
    requires most { length set.old ≤ 2 ^ 28 }
    ensures size { length set.new ≡ length set.old }
    ensures bits { (b : ℕ) → b < 8 * length set.old → is_taken set.new b ≡ (not (is_in_run first n b) && is_taken set.old b) }
{
    let total = 8 * set.len() as u64;
    if first < total {
        let n = u64::from(n).min(total - first);
        clear_run(set, first as u32, n as u32);
    }
}
