//! What a cut meets goes behind what it met before.

ghost use Rattle.std.specs.Prelude.{◌≡◌, ◌<◌, ◌≤◌, ◌+◌, ◌*◌, ◌-◌, ℕ, length, map};
ghost use Rattle.jfs_xtpage.specs.Page.{entries_of, entry_of, count_of, IsLaidOut};
ghost use Rattle.jfs_tree.specs.Walk.{Row};
ghost use Rattle.jfs_xtree.specs.Node.{xt_scale};
ghost use Rattle.jfs_xtree.specs.CutParts.{PassesChild, place_after};

use crate::place::end_of;
use jfs_bits::{Rule, get_u16};
use jfs_tree::TreeError;
use jfs_xtpage::xt_entry;

/// The key of the child at a place, page `n`, goes behind what was met, and is met then. Of a page's first child no key is looked at: the page's own stands for it.
pub(crate) fn pass_key(met: &mut u64, bytes: &[u8], place: u16, n: u32) -> Result<(), TreeError>
    requires page { IsLaidOut bytes.now }
    requires place { place < count_of bytes.now }
    ensures passes { PassesChild met.old place (entry_of bytes.now place).offset n met.new result }
{
    if place == 0 {
        return Ok(());
    }
    let key = xt_entry(bytes, place).offset;
    if key < *met {
        return Err(TreeError::Bad {
            page: n,
            rule: Rule::Order,
        });
    }
    *met = key;
    Ok(())
}

/// Whether a leaf's first extent fits the leaf's key: on the leftmost way that is 0, and else the extent's offset.
pub(crate) fn fits_key(bytes: &[u8], key: u64) -> bool
    requires page { IsLaidOut bytes.now }
    requires some { 0 < count_of bytes.now }
    ensures { result ≡ xt_scale.fits key (entry_of bytes.now 0) }
{
    key == 0 || key == xt_entry(bytes, 0).offset
}

/// The place behind a leaf's extents, from one before them on.
pub(crate) fn leaf_end(bytes: &[u8], met: u64) -> u64
    requires page { IsLaidOut bytes.now }
    ensures { (page : ℕ) → result ≡ place_after met (map (Row page) (entries_of bytes.now)) }
{
    let count = get_u16(bytes, 18) - 2;
    if count == 0 {
        return met;
    }
    end_of(&xt_entry(bytes, count - 1))
}
