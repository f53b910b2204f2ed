//! A page that is cut at a block of the file, with what stands below it.

ghost use Rattle.std.specs.Prelude.{◌≡◌, ◌<◌, ◌≤◌, ◌+◌, ◌*◌, ◌++◌, ◌∷◌, [], ℕ, length, take, drop, true, false, if◌then◌else◌, OnOk, IfOk, IfErr};
ghost use Rattle.jfs_disk.specs.Image.{page_of};
ghost use Rattle.jfs_tree.specs.Call.{CarriesFault};
ghost use Rattle.jfs_tree.specs.Draft.{shown};
ghost use Rattle.jfs_tree.specs.Frames.{KeepsFrames};
ghost use Rattle.jfs_tree.specs.Removal.{Settles};
ghost use Rattle.jfs_xtpage.specs.Page.{bytes_of, head_of, entries_of, entry_of, count_of, IsLaidOut};
ghost use Rattle.jfs_xtpage.specs.declared.head.XtForm.{XtForm};
ghost use Rattle.jfs_xtpage.specs.declared.head.XtForm.TheVariants.{Full};
ghost use Rattle.jfs_xtree.specs.Node.{xt_scale, xt_node, is_leaf, all_within, frame_of, IsSound, SameKind, KeepsFrame};
ghost use Rattle.jfs_xtree.specs.Spells.{page_nodes};
ghost use Rattle.jfs_xtree.specs.Cutting.{kept_below, gone_past};
ghost use Rattle.jfs_xtree.specs.CutMet.{met, met_below};
ghost use Rattle.jfs_xtree.specs.CutParts.{CutsNode, CutMet, FitsLeaf, KeepsSome, StopsAt, key_at};

use crate::check::is_leaf;
use crate::children::{child_place, page_of};
use crate::cut_leaf::cut_leaf;
use crate::free_below::{Cut, free_children, push_page, read_page};
use crate::met::{fits_key, leaf_end, pass_key};
use jfs_bits::{Rule, get_u8, get_u64};
use jfs_disk::Page;
use jfs_ranges::PageView;
use jfs_tree::TreeError;
use jfs_xtpage::{XtForm, xt_cut, xt_link};

/// Cuts what a page that breaks no rule spells, at most so many levels below it: it keeps the extents below the bound. Below it only the pages on the way
/// to the bound and those that are freed are read. A page that is kept is the last one of its level. Whether any entry is left on it.
pub(crate) fn cut_page<V: PageView>(
    form: XtForm,
    blocks: u32,
    view: &mut V,
    cut: &mut Cut,
    most: u32,
    bytes: &mut [u8],
    bound: u64,
) -> Result<bool, TreeError>
    requires page { IsLaidOut bytes.old }
    requires sound { IsSound form blocks (head_of bytes.old) (entries_of bytes.old) }
    requires some { is_leaf (head_of bytes.old).flag ≡ false → 2 < (head_of bytes.old).nextindex }
    requires bound { blocks ≡ V.PageView.block_count view.old }
    requires fresh { (cut.old.draft.pages.items ≡ []) × (cut.old.pages.items ≡ []) × (cut.old.runs ≡ []) }
    ensures image { V.PageView.tells → V.PageView.image view.new ≡ V.PageView.image view.old }
    ensures count_of_blocks { V.PageView.block_count view.new ≡ V.PageView.block_count view.old }
    ensures device { V.PageView.device view.new ≡ V.PageView.device view.old }
    ensures fault { CarriesFault (V.PageView.faults view.old) (V.PageView.faults view.new) result }
    ensures cuts { V.PageView.tells → IfOk result (λ kept. CutsNode blocks bound (page_of (V.PageView.image view.old))
        (shown cut.new.draft.pages.items (V.PageView.image view.old)) (xt_node form blocks bytes.old) (xt_node form blocks bytes.new) kept cut.new.pages.items cut.new.runs) }
    ensures leaf { is_leaf (head_of bytes.old).flag ≡ true → OnOk result ((entries_of bytes.new ≡ kept_below bound (entries_of bytes.old)) × (cut.new.runs ≡ gone_past bound (entries_of bytes.old)) × (cut.new.draft.pages.items ≡ []) × (cut.new.pages.items ≡ [])) }
    ensures kind { OnOk result (SameKind (head_of bytes.old) (head_of bytes.new)) }
    ensures frame { OnOk result (KeepsFrame bytes.old bytes.new) }
    ensures laid { OnOk result (IsLaidOut bytes.new) }
    ensures kept { IfOk result (KeepsSome (entries_of bytes.new)) }
    ensures met { V.PageView.tells → IfOk result (λ kept. FitsLeaf cut.old.met bytes.old → (page : ℕ) → CutMet (page_nodes blocks (page_of (V.PageView.image view.old))) bound most
        (record { key = cut.old.met; page = page }) (xt_node form blocks bytes.old) cut.new.met cut.new.below kept cut.new.pages.items cut.new.runs) }
    ensures below { OnOk result (cut.new.below ≤ most) }
    ensures leaf_bad { is_leaf (head_of bytes.old).flag ≡ true → IfErr result (λ e. e ≡ TreeError.Memory) }
    ensures bad { V.PageView.tells → IfErr result (λ e. (page : ℕ) → StopsAt cut.old.met (met_below (page_nodes blocks (page_of (V.PageView.image view.old))) bound most (record { key = cut.old.met; page = page }) (xt_node form blocks bytes.old)) e) }
    ensures framed { V.PageView.tells → OnOk result (KeepsFrames (frame_of Full) (V.PageView.image view.old) [] cut.new.draft.pages.items) }
{
    if is_leaf(get_u8(bytes, 16)) {
        cut.met = leaf_end(bytes, cut.met);
        cut.below = 0;
        return cut_leaf(&mut cut.runs, bytes, bound);
    }
    let place = child_place(bytes, bound.saturating_sub(1));
    let n = page_of(bytes, place, blocks);
    let mut page = match read_way(blocks, view, &mut cut.met, most, bytes, place) {
        Ok(page) => page,
        Err(e) => return Err(e),
    };
    let kept = match cut_page(
        XtForm::Full,
        blocks,
        view,
        cut,
        most - 1,
        &mut page.0,
        bound,
    ) {
        Ok(kept) => kept,
        Err(e) => return Err(e),
    };
    end_level(&mut page.0);
    settle(cut, n, page, kept)?;
    let below = cut.below;
    match free_children(blocks, view, cut, below, bytes, place + 1) {
        Ok(()) => cut.below = below + 1,
        Err(e) => return Err(e),
    }
    let left = place + number_of(kept);
    xt_cut(bytes, left);
    Ok(left > 0)
}

/// A copy of the child at a place, which breaks no rule: its key goes behind what was met, and a leaf's first extent fits its key. No more levels than these may follow.
fn read_way<V: PageView>(
    blocks: u32,
    view: &mut V,
    low: &mut u64,
    most: u32,
    bytes: &[u8],
    place: u16,
) -> Result<Page, TreeError>
    requires page { IsLaidOut bytes.now }
    requires place { place < count_of bytes.now }
    requires within { all_within blocks (entries_of bytes.now) ≡ true }
    requires bound { blocks ≡ V.PageView.block_count view.old }
    ensures image { V.PageView.tells → V.PageView.image view.new ≡ V.PageView.image view.old }
    ensures count_of_blocks { V.PageView.block_count view.new ≡ V.PageView.block_count view.old }
    ensures device { V.PageView.device view.new ≡ V.PageView.device view.old }
    ensures fault { CarriesFault (V.PageView.faults view.old) (V.PageView.faults view.new) result }
    ensures most { IfOk result (λ page. 0 < most) }
    ensures bytes { V.PageView.tells → IfOk result (λ page. page.0 ≡ page_of (V.PageView.image view.old) (entry_of bytes.now place).at.addr) }
    ensures laid { IfOk result (λ page. IsLaidOut page.0) }
    ensures sound { IfOk result (λ page. IsSound Full blocks (head_of page.0) (entries_of page.0)) }
    ensures some { IfOk result (λ page. 2 < (head_of page.0).nextindex) }
    ensures passes { OnOk result ((low.new ≡ key_at low.old place (entry_of bytes.now place).offset) × (low.old ≤ low.new)) }
    ensures fits { IfOk result (λ page. is_leaf (head_of page.0).flag ≡ true → xt_scale.fits low.new (entry_of page.0 0) ≡ true) }
    ensures bad { V.PageView.tells → IfErr result (λ e. (bound : ℕ) → StopsAt low.old (met (page_nodes blocks (page_of (V.PageView.image view.old))) bound most
        (record { key = key_at low.old place (entry_of bytes.now place).offset; page = (entry_of bytes.now place).at.addr })) e) }
{
    let n = page_of(bytes, place, blocks);
    if most == 0 {
        return Err(TreeError::Bad {
            page: n,
            rule: Rule::Deep,
        });
    }
    match pass_key(low, bytes, place, n) {
        Ok(()) => {}
        Err(e) => return Err(e),
    }
    let page = match read_page(blocks, view, n) {
        Ok(page) => page,
        Err(e) => return Err(e),
    };
    if is_leaf(get_u8(page.bytes(), 16)) && !fits_key(page.bytes(), *low) {
        return Err(TreeError::Bad {
            page: n,
            rule: Rule::Order,
        });
    }
    Ok(page)
}

/// No page stands behind this one on its level: those that stood there are cut off.
fn end_level(bytes: &mut [u8])
    requires { 32 ≤ length bytes.old }
    ensures node { (form : XtForm) (blocks : ℕ) → xt_node form blocks bytes.new ≡ xt_node form blocks bytes.old }
    ensures frame { frame_of Full bytes.new ≡ frame_of Full bytes.old }
{
    let prev = get_u64(bytes, 8);
    xt_link(bytes, 0, prev);
}

/// One page that is kept, or none.
fn number_of(kept: bool) -> u16
    ensures { result ≡ (if kept then 1 else 0) }
{
    if kept { 1 } else { 0 }
}

/// A page is kept, with these bytes, or it is free.
fn settle(cut: &mut Cut, n: u32, page: Page, kept: bool) -> Result<(), TreeError>
    ensures settles { OnOk result (Settles kept n page.0 cut.old.draft.pages.items cut.new.draft.pages.items cut.old.pages.items cut.new.pages.items) }
    ensures runs { OnOk result (cut.new.runs ≡ cut.old.runs) }
    ensures came { (cut.new.met ≡ cut.old.met) × (cut.new.below ≡ cut.old.below) }
    ensures cause { IfErr result (λ e. e ≡ TreeError.Memory) }
{
    if !kept {
        return push_page(&mut cut.pages, n);
    }
    match cut.draft.put(n, page) {
        Ok(()) => Ok(()),
        Err(_) => Err(TreeError::Memory),
    }
}
