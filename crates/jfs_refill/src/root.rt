//! A list of entries that goes to a root, or from there to a page.

ghost use Rattle.std.specs.Prelude.{◌≡◌, ◌<◌, ◌≤◌, ◌+◌, ℕ, length, OnOk, IfErr};
ghost use Rattle.std.specs.List.{All};
ghost use Rattle.jfs_bits.specs.Extent.{FitsXad};
ghost use Rattle.jfs_tree.specs.Call.{StaysTaken};
ghost use Rattle.jfs_tree.specs.Form.{AllBelow, IsFront};
ghost use Rattle.jfs_tree.specs.Taken.{DraftsTaken};
ghost use Rattle.jfs_xtpage.specs.Page.{head_of, IsLaidOut};
ghost use Rattle.jfs_xtpage.specs.declared.head.XtForm.{XtForm};
ghost use Rattle.jfs_xtree.specs.Node.{IsRoot, KeepsFrame};
ghost use Rattle.jfs_refill.specs.Refilled.{IsList};
ghost use Rattle.jfs_refill.specs.Rooted.{MovesRoot, RootStored, SettlesList};

use crate::refilling::refill;
use jfs_bits::{Rule, Xad, get_u8, get_u16};
use jfs_disk::Page;
use jfs_tree::{Draft, NO_PAGE, TreeError, page_at, put_one};
use jfs_xtpage::{XtForm, xt_new, xt_set_kind};
use jfs_xtree::{child_entry, is_leaf};

/// Puts a list in place of a root's entries; the tree has so many levels. A list that is too long for the root goes to the page at the end of `stack`, and the root keeps
/// that page as its only child. A tree of 8 levels gets no ninth: that is `Bad` with rule `deep` at the root, and then nothing changes.
pub fn store_root(
    draft: &mut Draft,
    stack: &mut Vec<u32>,
    root: &mut [u8],
    list: &[Xad],
    levels: u32,
) -> Result<(), TreeError>
    requires page { IsLaidOut root.old }
    requires slots { 3 ≤ (head_of root.old).maxentry }
    requires most { length list.now ≤ 254 }
    requires fits { All FitsXad list.now }
    requires enough { 0 < length stack.old.items }
    ensures stored { RootStored levels list.now root.old root.new draft.old.pages.items draft.new.pages.items stack.old.items stack.new.items result }
    ensures settled { (form : XtForm) (blocks : ℕ) → IsRoot form → AllBelow blocks stack.old.items → IsList blocks list.now
        → OnOk result (SettlesList form blocks levels list.now root.old root.new draft.old.pages.items draft.new.pages.items stack.old.items stack.new.items) }
    ensures keeps { OnOk result (StaysTaken draft.old.pages.items draft.new.pages.items stack.old.items stack.new.items) }
    ensures drafted { OnOk result (DraftsTaken draft.old.pages.items draft.new.pages.items stack.old.items stack.new.items) }
    ensures frame { KeepsFrame root.old root.new }
    ensures below { (bound : ℕ) → AllBelow bound stack.old.items → AllBelow bound stack.new.items }
    ensures front { IsFront stack.new.items stack.old.items }
{
    if list.len() + 2 <= usize::from(get_u16(root, 20)) {
        refill(root, list);
        return Ok(());
    }
    if levels >= 8 {
        return Err(TreeError::Bad {
            page: NO_PAGE,
            rule: Rule::Deep,
        });
    }
    move_down(draft, stack, root, list)
}

#[tactic(auto, using(jfs_tree::proofs::Taking::below_popped))]
/// Puts a list that is too long for a root into the page at the end of `stack`, which becomes the root's only child.
fn move_down(
    draft: &mut Draft,
    stack: &mut Vec<u32>,
    root: &mut [u8],
    list: &[Xad],
) -> Result<(), TreeError>
    requires page { IsLaidOut root.old }
    requires slots { 3 ≤ (head_of root.old).maxentry }
    requires long { (head_of root.old).maxentry < length list.now + 2 }
    requires most { length list.now ≤ 254 }
    requires fits { All FitsXad list.now }
    requires enough { 0 < length stack.old.items }
    ensures moves { OnOk result (MovesRoot list.now root.old root.new draft.old.pages.items draft.new.pages.items stack.old.items stack.new.items) }
    ensures drafted { OnOk result (DraftsTaken draft.old.pages.items draft.new.pages.items stack.old.items stack.new.items) }
    ensures frame { KeepsFrame root.old root.new }
    ensures below { (bound : ℕ) → AllBelow bound stack.old.items → AllBelow bound stack.new.items }
    ensures front { IsFront stack.new.items stack.old.items }
    ensures cause { IfErr result (λ e. e ≡ TreeError.Memory) }
{
    let Some(q) = stack.pop() else {
        unreachable!();
    };
    let mut page = Page::zeros();
    xt_new(
        &mut page.0,
        XtForm::Full,
        is_leaf(get_u8(root, 16)),
        page_at(q),
    );
    refill(&mut page.0, list);
    xt_set_kind(root, false);
    refill(root, &[child_entry(0, q)]);
    put_one(draft, q, page)
}
