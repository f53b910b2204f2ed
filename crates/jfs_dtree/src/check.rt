//! The rules of a page of a directory tree, also those that take the volume's size.

ghost use Rattle.std.specs.Prelude.{◌≡◌, ◌<◌, ◌≤◌, ◌+◌, ℕ, List, length, IfOk, IfErr, true, false, drop};
ghost use Rattle.std.specs.List.{list_all};
ghost use Rattle.jfs_bits.specs.Descriptor.{FitsPxd};
ghost use Rattle.jfs_name.specs.declared.name.NameEntry.{NameEntry};
ghost use Rattle.jfs_tree.specs.Walk.{Node, Leaf, Broken};
ghost use Rattle.jfs_tree.specs.Edit.{IsCons};
ghost use Rattle.jfs_dtpage.specs.Form.{bytes_of, count_of, head_of, is_leaf};
ghost use Rattle.jfs_dtpage.specs.Page.{entries_of, IsDtPage};
ghost use Rattle.jfs_dtree.specs.Node.{is_within, child_within, dt_node};

use jfs_bits::{Pxd, Rule};
use jfs_dtpage::{DtForm, DtHead, dt_check, dt_child, is_leaf};

/// The header of a page that breaks no rule, or the first rule that it breaks: `flag`, `slots`, `chain`, `free`, `order`, `range`, `deep`.
pub(crate) fn check_page(bytes: &[u8], form: DtForm, blocks: u32) -> Result<DtHead, Rule>
    requires { length bytes.now ≡ bytes_of form }
    ensures sound { IfOk result (λ head. IsDtPage form bytes.now × (head ≡ head_of form bytes.now)) }
    ensures inner { IfOk result (λ head. is_leaf bytes.now ≡ false → (list_all (child_within blocks) (entries_of form bytes.now) ≡ true) × IsCons (entries_of form bytes.now)) }
    ensures broken { IfErr result (λ rule. dt_node form blocks bytes.now ≡ Broken rule) }
{
    let head = match dt_check(bytes, form) {
        Ok(head) => head,
        Err(bad) => return Err(bad.rule),
    };
    if is_leaf(bytes) {
        return Ok(head);
    }
    if !are_within(bytes, form, blocks, head.nextindex) {
        return Err(Rule::Range);
    }
    if head.nextindex == 0 {
        return Err(Rule::Deep);
    }
    Ok(head)
}

/// Whether each child's run has a length and lies in the file system part.
fn are_within(bytes: &[u8], form: DtForm, blocks: u32, count: u8) -> bool
    requires size { length bytes.now ≡ bytes_of form }
    requires page { IsDtPage form bytes.now }
    requires inner { is_leaf bytes.now ≡ false }
    requires count { count ≡ count_of bytes.now }
    ensures { result ≡ list_all (child_within blocks) (entries_of form bytes.now) }
{
    for place in 0..u32::from(count) {
        if !is_within(dt_child(bytes, form, place), blocks) {
            return false;
        }
    }
    true
}

fn is_within(at: Pxd, blocks: u32) -> bool
    requires { FitsPxd at }
    ensures { result ≡ is_within blocks at }
{
    at.len >= 1 && at.addr + u64::from(at.len) <= u64::from(blocks)
}

/// Whether a page is a leaf that breaks no rule.
pub(crate) fn is_sound_leaf(bytes: &[u8], form: DtForm) -> bool
    requires { length bytes.now ≡ bytes_of form }
    ensures is { result ≡ true → IsDtPage form bytes.now × (is_leaf bytes.now ≡ true) }
    ensures isnt { result ≡ false → (blocks : ℕ) (es : List NameEntry) → dt_node form blocks bytes.now ≡ Leaf es → ⊥ }
{
    match dt_check(bytes, form) {
        Ok(_) => is_leaf(bytes),
        Err(_) => false,
    }
}
