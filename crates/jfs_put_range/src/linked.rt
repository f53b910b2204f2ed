//! A range that is written into a root's list, and the links of the pages beside those that came.

ghost use Rattle.std.specs.Prelude.{◌≡◌, ◌<◌, ◌≤◌, ◌+◌, ◌^◌, ℕ, length, OnOk, IfErr};
ghost use Rattle.std.specs.List.{All};
ghost use Rattle.jfs_bits.specs.Extent.{FitsXad};
ghost use Rattle.jfs_tree.specs.Call.{CarriesFault, IsRead};
ghost use Rattle.jfs_tree.specs.Draft.{shown};
ghost use Rattle.jfs_tree.specs.Form.{AllBelow, IsFront};
ghost use Rattle.jfs_tree.specs.Linking.{LinksTree};
ghost use Rattle.jfs_tree.specs.Taken.{DraftsTaken, KeepsDrafted};
ghost use Rattle.jfs_xtpage.specs.Page.{bytes_of};
ghost use Rattle.jfs_xtpage.specs.declared.head.XtForm.TheVariants.{Full};
ghost use Rattle.jfs_xtree.specs.Node.{xt_node, frame_of, IsRoot, KeepsFrame};
ghost use Rattle.jfs_put_range.specs.Call.{IsShortRange};
ghost use Rattle.jfs_put_range.specs.Parts.{OthersFramed};
ghost use Rattle.jfs_put_range.specs.Tops.{StepsRange, FillsRange, FramesRange, RefusesRange, NamesRoot};

use crate::root::put_root;
use jfs_bits::{Pxd, Xad};
use jfs_ranges::PageView;
use jfs_tree::{Draft, TreeError, link_taken};
use jfs_xtpage::XtForm;
use jfs_xtree::XtPages;
use std::alloc::Global;

/// Writes a range as `put_root` does; `all` are the free pages as they stood on `stack` before. The pages behind those that were taken name them.
pub(crate) fn put_linked<V: PageView>(
    alloc: Global,
    top: &XtPages,
    view: &mut V,
    draft: &mut Draft,
    all: &[u32],
    stack: &mut Vec<u32>,
    root: &mut [u8],
    xs: &[Xad],
) -> Result<(), TreeError>
    requires root { length root.old ≡ bytes_of top.now.form }
    requires forms { (top.now.blocks ≡ V.PageView.block_count view.old) × IsRoot top.now.form }
    requires small { top.now.blocks < 2 ^ 32 }
    requires range { IsShortRange top.now.blocks xs.now }
    requires all { length all.now ≡ length stack.old.items }
    requires enough { 15 ≤ length stack.old.items }
    requires within { AllBelow top.now.blocks stack.old.items }
    ensures image { V.PageView.tells → V.PageView.image view.new ≡ V.PageView.image view.old }
    ensures count_of_blocks { V.PageView.block_count view.new ≡ V.PageView.block_count view.old }
    ensures device { V.PageView.device view.new ≡ V.PageView.device view.old }
    ensures fault { CarriesFault (V.PageView.faults view.old) (V.PageView.faults view.new) result }
    ensures steps { V.PageView.tells → OnOk result (StepsRange top.now.form top.now.blocks (V.PageView.image view.old) xs.now root.old root.new draft.old.pages.items draft.new.pages.items stack.old.items stack.new.items) }
    ensures filled { V.PageView.tells → OnOk result (FillsRange top.now.form top.now.blocks (V.PageView.image view.old) root.old root.new draft.old.pages.items draft.new.pages.items stack.old.items) }
    ensures framed { V.PageView.tells → OnOk result (FramesRange top.now.form top.now.blocks (V.PageView.image view.old) root.old draft.old.pages.items draft.new.pages.items stack.old.items stack.new.items) }
    ensures others { V.PageView.tells → OnOk result (OthersFramed (shown draft.old.pages.items (V.PageView.image view.old)) (shown draft.new.pages.items (V.PageView.image view.old)) stack.old.items stack.new.items) }
    ensures drafted { OnOk result (DraftsTaken draft.old.pages.items draft.new.pages.items stack.old.items stack.new.items) }
    ensures refuses { V.PageView.tells → IfErr result (λ e. RefusesRange top.now.form top.now.blocks (V.PageView.image view.old) root.old draft.old.pages.items stack.old.items e) }
    ensures used { OnOk result (length stack.old.items ≤ length stack.new.items + 15) }
    ensures front { IsFront stack.new.items stack.old.items }
    ensures frame { KeepsFrame root.old root.new }
    ensures names { IfErr result (NamesRoot (xt_node top.now.form top.now.blocks root.old) root.old) }
{
    match put_root(alloc, top, view, draft, stack, root, xs) {
        Ok(()) => {}
        Err(e) => return Err(e),
    }
    match link_ends(top, view, draft, root, &all[stack.len()..], xs) {
        Ok(()) => Ok(()),
        Err(e) => Err(e),
    }
}

/// The same of the pages on the ways of a range's first and its last block. No other page of a level can have been split: the range has all blocks of those between.
fn link_ends<V: PageView>(
    top: &XtPages,
    view: &mut V,
    draft: &mut Draft,
    root: &[u8],
    taken: &[u32],
    xs: &[Xad],
) -> Result<(), TreeError>
    requires root { length root.now ≡ bytes_of top.now.form }
    requires bound { top.now.blocks ≡ V.PageView.block_count view.old }
    requires some { 0 < length xs.now }
    ensures image { V.PageView.tells → V.PageView.image view.new ≡ V.PageView.image view.old }
    ensures count_of_blocks { V.PageView.block_count view.new ≡ V.PageView.block_count view.old }
    ensures device { V.PageView.device view.new ≡ V.PageView.device view.old }
    ensures fault { CarriesFault (V.PageView.faults view.old) (V.PageView.faults view.new) result }
    ensures links { V.PageView.tells → OnOk result (LinksTree (xt_node Full top.now.blocks) (frame_of Full) (V.PageView.image view.old) draft.old.pages.items draft.new.pages.items (xt_node top.now.form top.now.blocks root.now)) }
    ensures drafted { OnOk result (KeepsDrafted draft.old.pages.items draft.new.pages.items) }
    ensures cause { IfErr result IsRead }
{
    let form = XtPages {
        form: XtForm::Full,
        blocks: top.blocks,
    };
    let first = xs[0];
    let last = last_block(xs[xs.len() - 1]);
    match link_taken(top, &form, view, draft, root, taken, &first) {
        Ok(()) => {}
        Err(e) => return Err(e),
    }
    match link_taken(top, &form, view, draft, root, taken, &last) {
        Ok(()) => Ok(()),
        Err(e) => Err(e),
    }
}

/// The last block of an extent.
fn last_block(x: Xad) -> Xad {
    let before = u64::from(x.at.len).saturating_sub(1);
    Xad {
        flag: x.flag,
        offset: x.offset.saturating_add(before),
        at: Pxd {
            len: 1,
            addr: x.at.addr,
        },
    }
}
