//! The rules of a page of an extent tree, also those that take the volume's size.

ghost use Rattle.std.specs.Prelude.{◌≡◌, ◌<◌, ◌≤◌, ◌+◌, ◌*◌, ◌-◌, ◌^◌, ◌&&◌, ◌||◌, ℕ, length, IfOk, IfErr, true, false, take};
ghost use Rattle.jfs_bits.specs.Extent.{FitsXad};
ghost use Rattle.jfs_tree.specs.Walk.{Node, Broken};
ghost use Rattle.jfs_xtpage.specs.Page.{bytes_of, head_of, entries_of, entry_of, count_of, entries_from};
ghost use Rattle.jfs_xtree.specs.Node.{xt_node, is_leaf, is_within, all_within, IsSound};

use jfs_bits::{Rule, Xad};
use jfs_xtpage::{XtForm, XtHead, xt_check, xt_entry};

/// The header of a page that breaks no rule, or the first rule that it breaks: `flag`, `max`, `count`, `order`, `range`, `deep`.
pub(crate) fn check_page(bytes: &[u8], form: XtForm, blocks: u32) -> Result<XtHead, Rule>
    requires { length bytes.now ≡ bytes_of form }
    ensures sound { IfOk result (λ head. (head ≡ head_of bytes.now) × IsSound form blocks (head_of bytes.now) (entries_of bytes.now)) }
    ensures some { IfOk result (λ head. is_leaf head.flag ≡ false → 2 < head.nextindex) }
    ensures broken { IfErr result (λ rule. xt_node form blocks bytes.now ≡ Broken rule) }
{
    let head = match xt_check(bytes, form) {
        Ok(head) => head,
        Err(bad) => return Err(bad.rule),
    };
    if !are_within(bytes, blocks, head.nextindex - 2) {
        return Err(Rule::Range);
    }
    if !is_leaf(head.flag) && head.nextindex == 2 {
        return Err(Rule::Deep);
    }
    Ok(head)
}

/// Whether each extent has a length and lies in the file system part.
fn are_within(bytes: &[u8], blocks: u32, count: u16) -> bool
    requires { 32 + 16 * count ≤ length bytes.now }
    ensures { result ≡ all_within blocks (entries_from bytes.now 0 count) }
{
    for i in 0..count {
        if !is_within(&xt_entry(bytes, i), blocks) {
            return false;
        }
    }
    true
}

fn is_within(x: &Xad, blocks: u32) -> bool
    requires { FitsXad x.now }
    ensures { result ≡ is_within blocks x.now }
{
    let len = x.at.len;
    let addr = x.at.addr;
    len >= 1 && addr + u64::from(len) <= u64::from(blocks)
}

/// Whether the flag of a page that breaks no rule is a leaf's: a leaf has the bit 0x02, an inner page 0x04.
pub fn is_leaf(flag: u8) -> bool
    ensures { result ≡ is_leaf flag }
{
    flag % 8 == 2 || flag % 8 == 3
}
