//! A range that is written into a root's list.

ghost use Rattle.std.specs.Prelude.{◌≡◌, ◌<◌, ◌≤◌, ◌+◌, ◌^◌, ℕ, List, true, false, length, OnOk, IfOk, IfErr};
ghost use Rattle.jfs_bits.specs.declared.extent.Xad.{Xad};
ghost use Rattle.jfs_disk.specs.Image.{Image};
ghost use Rattle.jfs_tree.specs.Call.{CarriesFault};
ghost use Rattle.jfs_tree.specs.Draft.{shown};
ghost use Rattle.jfs_tree.specs.Form.{AllBelow, IsFront};
ghost use Rattle.jfs_tree.specs.Taken.{DraftsTaken};
ghost use Rattle.jfs_xtpage.specs.Page.{bytes_of};
ghost use Rattle.jfs_xtree.specs.Node.{xt_node, IsRoot, KeepsFrame};
ghost use Rattle.jfs_put_range.specs.Call.{IsShortRange};
ghost use Rattle.jfs_put_range.specs.Parts.{NoView, OthersFramed};
ghost use Rattle.jfs_put_range.specs.Tops.{IsOfKind, IsOpenedRoot, BreaksRoot, StepsRange, FillsRange, FramesRange, RefusesRange, NamesRoot};

use crate::descent::put_children;
use crate::part::Part;
use jfs_bits::Xad;
use jfs_ranges::PageView;
use jfs_refill::{items, store_root};
use jfs_tree::{Draft, NO_PAGE, PageRead, Shape, TreeError};
use jfs_written::written;
use jfs_xtree::XtPages;
use std::alloc::{AllocError, Global};

/// The levels of a tree below its root.
const BELOW: u32 = 7;

/// A root that breaks no rule: its entries, which are a leaf's extents or an inner page's children.
#[derive(Drop)]
struct Opened {
    entries: Vec<Xad>,
    leaf: bool,
}

/// Writes a range into a root's list. The root is changed in place, and the changed pages go into the draft; new pages are taken from the end of `stack`.
/// After an `Err` root, draft and `stack` are to be thrown away.
pub(crate) fn put_root<V: PageView>(
    alloc: Global,
    top: &XtPages,
    view: &mut V,
    draft: &mut Draft,
    stack: &mut Vec<u32>,
    root: &mut [u8],
    xs: &[Xad],
) -> Result<(), TreeError>
    requires root { length root.old ≡ bytes_of top.now.form }
    requires forms { (top.now.blocks ≡ V.PageView.block_count view.old) × IsRoot top.now.form }
    requires small { top.now.blocks < 2 ^ 32 }
    requires range { IsShortRange top.now.blocks xs.now }
    requires enough { 15 ≤ length stack.old.items }
    requires within { AllBelow top.now.blocks stack.old.items }
    ensures image { V.PageView.tells → V.PageView.image view.new ≡ V.PageView.image view.old }
    ensures count_of_blocks { V.PageView.block_count view.new ≡ V.PageView.block_count view.old }
    ensures device { V.PageView.device view.new ≡ V.PageView.device view.old }
    ensures fault { CarriesFault (V.PageView.faults view.old) (V.PageView.faults view.new) result }
    ensures steps { V.PageView.tells → OnOk result (StepsRange top.now.form top.now.blocks (V.PageView.image view.old) xs.now root.old root.new draft.old.pages.items draft.new.pages.items stack.old.items stack.new.items) }
    ensures filled { V.PageView.tells → OnOk result (FillsRange top.now.form top.now.blocks (V.PageView.image view.old) root.old root.new draft.old.pages.items draft.new.pages.items stack.old.items) }
    ensures framed { V.PageView.tells → OnOk result (FramesRange top.now.form top.now.blocks (V.PageView.image view.old) root.old draft.old.pages.items draft.new.pages.items stack.old.items stack.new.items) }
    ensures others { V.PageView.tells → OnOk result (OthersFramed (shown draft.old.pages.items (V.PageView.image view.old)) (shown draft.new.pages.items (V.PageView.image view.old)) stack.old.items stack.new.items) }
    ensures drafted { OnOk result (DraftsTaken draft.old.pages.items draft.new.pages.items stack.old.items stack.new.items) }
    ensures refuses { V.PageView.tells → IfErr result (λ e. RefusesRange top.now.form top.now.blocks (V.PageView.image view.old) root.old draft.old.pages.items stack.old.items e) }
    ensures used { OnOk result (length stack.old.items ≤ length stack.new.items + 15) }
    ensures front { IsFront stack.new.items stack.old.items }
    ensures frame { KeepsFrame root.old root.new }
    ensures names { IfErr result (NamesRoot (xt_node top.now.form top.now.blocks root.old) root.old) }
{
    let opened = match open_root(alloc, top, root) {
        Ok(opened) => opened,
        Err(e) => return Err(e),
    };
    let entries = opened.entries.as_slice();
    if opened.leaf {
        return put_leaf_root(alloc, top, draft, stack, root, entries, xs);
    }
    put_inner_root(alloc, top, view, draft, stack, root, entries, xs)
}

/// The entries of a root, which is named with the first rule that it breaks.
fn open_root(alloc: Global, top: &XtPages, root: &[u8]) -> Result<Opened, TreeError>
    requires root { length root.now ≡ bytes_of top.now.form }
    requires form { IsRoot top.now.form }
    ensures opened { IfOk result (λ o. IsOpenedRoot top.now.form top.now.blocks root.now o.entries.items o.leaf) }
    ensures bad { IfErr result (λ e. BreaksRoot (xt_node top.now.form top.now.blocks root.now) e) }
{
    match top.shape(root) {
        Ok(Shape::Leaf(_)) => read_root(alloc, top, root, true),
        Ok(Shape::Inner(_)) => read_root(alloc, top, root, false),
        Err(rule) => Err(TreeError::Bad {
            page: NO_PAGE,
            rule,
        }),
    }
}

/// The entries of a root that is a leaf or an inner page.
fn read_root(alloc: Global, top: &XtPages, root: &[u8], leaf: bool) -> Result<Opened, TreeError>
    requires root { length root.now ≡ bytes_of top.now.form }
    requires form { IsRoot top.now.form }
    requires kind { IsOfKind leaf (xt_node top.now.form top.now.blocks root.now) }
    ensures opened { IfOk result (λ o. IsOpenedRoot top.now.form top.now.blocks root.now o.entries.items o.leaf) }
    ensures cause { IfErr result (λ e. e ≡ TreeError.Memory) }
{
    match items(alloc, root) {
        Ok(entries) => Ok(Opened { entries, leaf }),
        Err(_) => Err(TreeError::Memory),
    }
}

/// Writes a range into a root that is a leaf with these extents.
fn put_leaf_root(
    alloc: Global,
    top: &XtPages,
    draft: &mut Draft,
    stack: &mut Vec<u32>,
    root: &mut [u8],
    entries: &[Xad],
    xs: &[Xad],
) -> Result<(), TreeError>
    requires opened { IsOpenedRoot top.now.form top.now.blocks root.old entries.now true }
    requires form { IsRoot top.now.form }
    requires small { top.now.blocks < 2 ^ 32 }
    requires range { IsShortRange top.now.blocks xs.now }
    requires enough { 0 < length stack.old.items }
    requires within { AllBelow top.now.blocks stack.old.items }
    ensures steps { (image : Image) → OnOk result (StepsRange top.now.form top.now.blocks image xs.now root.old root.new draft.old.pages.items draft.new.pages.items stack.old.items stack.new.items) }
    ensures filled { (image : Image) → OnOk result (FillsRange top.now.form top.now.blocks image root.old root.new draft.old.pages.items draft.new.pages.items stack.old.items) }
    ensures framed { (image : Image) → OnOk result (FramesRange top.now.form top.now.blocks image root.old draft.old.pages.items draft.new.pages.items stack.old.items stack.new.items) }
    ensures others { (image : Image) → OnOk result (OthersFramed (shown draft.old.pages.items image) (shown draft.new.pages.items image) stack.old.items stack.new.items) }
    ensures drafted { OnOk result (DraftsTaken draft.old.pages.items draft.new.pages.items stack.old.items stack.new.items) }
    ensures refuses { (image : Image) → IfErr result (λ e. RefusesRange top.now.form top.now.blocks image root.old draft.old.pages.items stack.old.items e) }
    ensures cause { IfErr result (λ e. NoView e) }
    ensures used { OnOk result (length stack.old.items ≤ length stack.new.items + 1) }
    ensures front { IsFront stack.new.items stack.old.items }
    ensures frame { KeepsFrame root.old root.new }
    ensures names { IfErr result (NamesRoot (xt_node top.now.form top.now.blocks root.old) root.old) }
{
    let Ok(list) = written(alloc, entries, xs) else {
        return Err(TreeError::Memory);
    };
    store_root(draft, stack, root, list.as_slice(), 1)
}

/// Writes a range below a root that is an inner page with these children.
fn put_inner_root<V: PageView>(
    alloc: Global,
    top: &XtPages,
    view: &mut V,
    draft: &mut Draft,
    stack: &mut Vec<u32>,
    root: &mut [u8],
    entries: &[Xad],
    xs: &[Xad],
) -> Result<(), TreeError>
    requires opened { IsOpenedRoot top.now.form top.now.blocks root.old entries.now false }
    requires forms { (top.now.blocks ≡ V.PageView.block_count view.old) × IsRoot top.now.form }
    requires small { top.now.blocks < 2 ^ 32 }
    requires range { IsShortRange top.now.blocks xs.now }
    requires enough { 15 ≤ length stack.old.items }
    requires within { AllBelow top.now.blocks stack.old.items }
    ensures image { V.PageView.tells → V.PageView.image view.new ≡ V.PageView.image view.old }
    ensures count_of_blocks { V.PageView.block_count view.new ≡ V.PageView.block_count view.old }
    ensures device { V.PageView.device view.new ≡ V.PageView.device view.old }
    ensures fault { CarriesFault (V.PageView.faults view.old) (V.PageView.faults view.new) result }
    ensures steps { V.PageView.tells → OnOk result (StepsRange top.now.form top.now.blocks (V.PageView.image view.old) xs.now root.old root.new draft.old.pages.items draft.new.pages.items stack.old.items stack.new.items) }
    ensures filled { V.PageView.tells → OnOk result (FillsRange top.now.form top.now.blocks (V.PageView.image view.old) root.old root.new draft.old.pages.items draft.new.pages.items stack.old.items) }
    ensures framed { V.PageView.tells → OnOk result (FramesRange top.now.form top.now.blocks (V.PageView.image view.old) root.old draft.old.pages.items draft.new.pages.items stack.old.items stack.new.items) }
    ensures others { V.PageView.tells → OnOk result (OthersFramed (shown draft.old.pages.items (V.PageView.image view.old)) (shown draft.new.pages.items (V.PageView.image view.old)) stack.old.items stack.new.items) }
    ensures drafted { OnOk result (DraftsTaken draft.old.pages.items draft.new.pages.items stack.old.items stack.new.items) }
    ensures refuses { V.PageView.tells → IfErr result (λ e. RefusesRange top.now.form top.now.blocks (V.PageView.image view.old) root.old draft.old.pages.items stack.old.items e) }
    ensures used { OnOk result (length stack.old.items ≤ length stack.new.items + 15) }
    ensures front { IsFront stack.new.items stack.old.items }
    ensures frame { KeepsFrame root.old root.new }
    ensures names { IfErr result (NamesRoot (xt_node top.now.form top.now.blocks root.old) root.old) }
{
    let Ok(part) = whole_part(alloc, xs) else {
        return Err(TreeError::Memory);
    };
    let mut list = Vec::new(alloc);
    match put_children(
        alloc, view, draft, stack, BELOW, entries, true, &part, &mut list,
    ) {
        Ok(levels) => store_root(draft, stack, root, list.as_slice(), levels + 1),
        Err(e) => Err(e),
    }
}

/// The whole range as the part that goes below a root.
fn whole_part(alloc: Global, xs: &[Xad]) -> Result<Part, AllocError>
    ensures { IfOk result (λ part. (part.xs.items ≡ xs.now) × (part.left ≡ true) × (part.right ≡ true) × (part.last ≡ true)) }
{
    let mut all = Vec::new(alloc);
    all.extend_from_slice(xs)?;
    Ok(Part {
        xs: all,
        left: true,
        right: true,
        last: true,
    })
}
