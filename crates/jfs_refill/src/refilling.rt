//! A page that gets another list of entries.

ghost use Rattle.std.specs.Prelude.{◌≡◌, ◌≤◌, ◌+◌, ◌*◌, ℕ, List, length};
ghost use Rattle.std.specs.List.{All};
ghost use Rattle.jfs_bits.specs.Extent.{FitsXad};
ghost use Rattle.jfs_bits.specs.Field.{range_of};
ghost use Rattle.jfs_xtpage.specs.Page.{behind_slots, head_of, entries_of, entries_from, IsLaidOut};
ghost use Rattle.jfs_xtpage.specs.declared.head.XtForm.{XtForm};
ghost use Rattle.jfs_refill.specs.Refilled.{IsList, Relisted, KeepsHeader};

use jfs_bits::{Xad, get_u16, put_u16, put_xad};

/// Puts a list in place of a page's entries, all of which fit its slots. Of its header only the number of entries changes, and what stands behind its slots stays.
pub fn refill(bytes: &mut [u8], list: &[Xad])
    requires page { IsLaidOut bytes.old }
    requires room { length list.now + 2 ≤ (head_of bytes.old).maxentry }
    requires fits { All FitsXad list.now }
    ensures entries { entries_of bytes.new ≡ list.now }
    ensures head { head_of bytes.new ≡ record (head_of bytes.old) { nextindex = length list.now + 2 } }
    ensures header { KeepsHeader bytes.old bytes.new }
    ensures tail { behind_slots bytes.new ≡ behind_slots bytes.old }
    ensures reads { (form : XtForm) (blocks : ℕ) → IsList blocks list.now → Relisted form blocks list.now bytes.old bytes.new }
{
    let _slots = get_u16(bytes, 20);
    put_entries(bytes, list);
    put_u16(bytes, 18, list.len() as u16 + 2);
}

/// Puts a list into the slots of entries, from the first one on.
fn put_entries(bytes: &mut [u8], list: &[Xad])
    requires within { 32 + 16 * length list.now ≤ length bytes.old }
    requires fits { All FitsXad list.now }
    ensures entries { entries_from bytes.new 0 (length list.now) ≡ list.now }
    ensures head { range_of bytes.new 0 32 ≡ range_of bytes.old 0 32 }
    ensures tail { (p n : ℕ) → 32 + 16 * length list.now ≤ p → range_of bytes.new p n ≡ range_of bytes.old p n }
    ensures size { length bytes.new ≡ length bytes.old }
{
    let mut at = 32;
    for x in list {
        put_xad(bytes, at, *x);
        at += 16;
    }
}
