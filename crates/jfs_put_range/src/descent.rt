//! A range that goes down a tree, page by page and child by child.

ghost use Rattle.std.specs.Prelude.{◌≡◌, ◌<◌, ◌≤◌, ◌+◌, ◌^◌, ◌++◌, ◌∷◌, [], ℕ, List, true, false, None, length, OnOk, IfOk, IfErr, IfSome};
ghost use Rattle.std.specs.List.{All};
ghost use Rattle.jfs_bits.specs.Extent.{FitsXad};
ghost use Rattle.jfs_tree.specs.Call.{CarriesFault};
ghost use Rattle.jfs_tree.specs.Draft.{shown};
ghost use Rattle.jfs_tree.specs.Form.{AllBelow, IsFront};
ghost use Rattle.jfs_tree.specs.Taken.{DraftsTaken};
ghost use Rattle.jfs_xtree.specs.Node.{all_within, BeginsAt};
ghost use Rattle.jfs_put_range.specs.Parts.{IsPart, WrotePage, RefutesPage, RefutesChildren, Pushed, GrownBelow, NamesBelow, OthersFramed, most_taken};

use crate::full::starts_new;
use crate::leaf::{Grown, put_leaf};
use crate::open::open_page;
use crate::part::{Part, cut_at};
use crate::skip::{children_before, first_block, is_first};
use jfs_bits::{Rule, Xad};
use jfs_ranges::PageView;
use jfs_refill::{push_grown, store};
use jfs_tree::{Draft, TreeError};
use std::alloc::Global;

/// Writes a part of a range below a page, at most so many levels deep. The changed pages go into the draft, and new ones come from the end of `stack`.
#[cycle(put)]
pub(crate) fn put_below<V: PageView>(
    alloc: Global,
    view: &mut V,
    draft: &mut Draft,
    stack: &mut Vec<u32>,
    most: u32,
    page: u32,
    part: &Part,
) -> Result<Grown, TreeError>
    requires page { page < V.PageView.block_count view.old }
    requires small { V.PageView.block_count view.old < 2 ^ 32 }
    requires part { IsPart (V.PageView.block_count view.old) part.now.xs.items }
    requires some { 0 < length part.now.xs.items }
    requires enough { most_taken part.now.xs.items part.now.left part.now.right most ≤ length stack.old.items }
    requires within { AllBelow (V.PageView.block_count view.old) stack.old.items }
    ensures image { V.PageView.tells → V.PageView.image view.new ≡ V.PageView.image view.old }
    ensures count_of_blocks { V.PageView.block_count view.new ≡ V.PageView.block_count view.old }
    ensures device { V.PageView.device view.new ≡ V.PageView.device view.old }
    ensures fault { CarriesFault (V.PageView.faults view.old) (V.PageView.faults view.new) result }
    ensures wrote { V.PageView.tells → IfOk result (λ grown. WrotePage part.now.last (V.PageView.block_count view.old) part.now.xs.items part.now.left part.now.right
        (shown draft.old.pages.items (V.PageView.image view.old)) (shown draft.new.pages.items (V.PageView.image view.old)) grown.levels page grown.sibling stack.old.items stack.new.items) }
    ensures bad { V.PageView.tells → IfErr result (λ e. RefutesPage (V.PageView.block_count view.old) part.now.xs.items part.now.left part.now.right
        (shown draft.old.pages.items (V.PageView.image view.old)) most page stack.old.items e) }
    ensures names { IfErr result NamesBelow }
    ensures levels { IfOk result (λ grown. grown.levels ≤ most) }
    ensures alone { part.now.left ≡ false → part.now.right ≡ false → IfOk result (λ grown. grown.sibling ≡ None) }
    ensures used { OnOk result (length stack.old.items ≤ length stack.new.items + most_taken part.now.xs.items part.now.left part.now.right most) }
    ensures below { GrownBelow stack.old.items stack.new.items result }
    ensures front { IsFront stack.new.items stack.old.items }
    ensures others { V.PageView.tells → OnOk result (OthersFramed (shown draft.old.pages.items (V.PageView.image view.old)) (shown draft.new.pages.items (V.PageView.image view.old)) stack.old.items stack.new.items) }
    ensures drafted { OnOk result (DraftsTaken draft.old.pages.items draft.new.pages.items stack.old.items stack.new.items) }
    ensures key { IfOk result (λ grown. IfSome grown.sibling (λ s. s.key < 2 ^ 40)) }
{
    if most == 0 {
        return Err(TreeError::Bad {
            page,
            rule: Rule::Deep,
        });
    }
    let blocks = view.blocks();
    let opened = match open_page(alloc, view, draft, page) {
        Ok(opened) => opened,
        Err(e) => return Err(e),
    };
    if opened.leaf {
        return put_leaf(alloc, draft, stack, page, opened, part, blocks);
    }
    let mut list = Vec::new(alloc);
    let levels = match put_children(
        alloc,
        view,
        draft,
        stack,
        most - 1,
        opened.entries.as_slice(),
        true,
        part,
        &mut list,
    ) {
        Ok(levels) => levels,
        Err(e) => return Err(e),
    };
    let full = starts_new(part, opened.entries.as_slice(), list.as_slice());
    match store(draft, stack, page, opened.page, list.as_slice(), full) {
        Ok(sibling) => Ok(Grown {
            sibling,
            levels: levels + 1,
        }),
        Err(e) => Err(e),
    }
}

/// Writes a part of a range below the children that these entries of an inner page name, and pushes what stands for the entries then. `top` tells that the first one is
/// the first of its page. Answers how many levels there are below the page, where the part has anything.
#[cycle(put)]
pub(crate) fn put_children<V: PageView>(
    alloc: Global,
    view: &mut V,
    draft: &mut Draft,
    stack: &mut Vec<u32>,
    most: u32,
    entries: &[Xad],
    top: bool,
    part: &Part,
    list: &mut Vec<Xad>,
) -> Result<u32, TreeError>
    requires some { 0 < length entries.now }
    requires fits { All FitsXad entries.now }
    requires range { all_within (V.PageView.block_count view.old) entries.now ≡ true }
    requires small { V.PageView.block_count view.old < 2 ^ 32 }
    requires part { IsPart (V.PageView.block_count view.old) part.now.xs.items }
    requires enough { most_taken part.now.xs.items part.now.left part.now.right most ≤ length stack.old.items }
    requires within { AllBelow (V.PageView.block_count view.old) stack.old.items }
    ensures image { V.PageView.tells → V.PageView.image view.new ≡ V.PageView.image view.old }
    ensures count_of_blocks { V.PageView.block_count view.new ≡ V.PageView.block_count view.old }
    ensures device { V.PageView.device view.new ≡ V.PageView.device view.old }
    ensures fault { CarriesFault (V.PageView.faults view.old) (V.PageView.faults view.new) result }
    ensures pushed { IfOk result (λ levels. Pushed V.PageView.tells part.now.last (V.PageView.block_count view.old) part.now.xs.items part.now.left part.now.right top
        (shown draft.old.pages.items (V.PageView.image view.old)) (shown draft.new.pages.items (V.PageView.image view.old)) levels entries.now list.old.items list.new.items stack.old.items stack.new.items) }
    ensures bad { V.PageView.tells → IfErr result (λ e. RefutesChildren (V.PageView.block_count view.old) part.now.xs.items part.now.left part.now.right top
        (shown draft.old.pages.items (V.PageView.image view.old)) most entries.now stack.old.items e) }
    ensures names { IfErr result NamesBelow }
    ensures levels { IfOk result (λ levels. levels ≤ most) }
    ensures used { OnOk result (length stack.old.items ≤ length stack.new.items + most_taken part.now.xs.items part.now.left part.now.right most) }
    ensures below { (bound : ℕ) → AllBelow bound stack.old.items → AllBelow bound stack.new.items }
    ensures front { IsFront stack.new.items stack.old.items }
    ensures others { V.PageView.tells → OnOk result (OthersFramed (shown draft.old.pages.items (V.PageView.image view.old)) (shown draft.new.pages.items (V.PageView.image view.old)) stack.old.items stack.new.items) }
    ensures drafted { OnOk result (DraftsTaken draft.old.pages.items draft.new.pages.items stack.old.items stack.new.items) }
{
    if part.xs.is_empty() {
        return push_all(list, entries);
    }
    let (before, from) = entries.split_at(children_before(entries, first_block(part)));
    if let Err(e) = push_all(list, before) {
        return Err(e);
    }
    put_from(
        alloc,
        view,
        draft,
        stack,
        most,
        from,
        is_first(top, before),
        part,
        list,
    )
}

/// The same where the part has something.
#[cycle(put)]
fn put_from<V: PageView>(
    alloc: Global,
    view: &mut V,
    draft: &mut Draft,
    stack: &mut Vec<u32>,
    most: u32,
    entries: &[Xad],
    top: bool,
    part: &Part,
    list: &mut Vec<Xad>,
) -> Result<u32, TreeError>
    requires some { 0 < length entries.now }
    requires fits { All FitsXad entries.now }
    requires range { all_within (V.PageView.block_count view.old) entries.now ≡ true }
    requires small { V.PageView.block_count view.old < 2 ^ 32 }
    requires part { IsPart (V.PageView.block_count view.old) part.now.xs.items }
    requires enough { most_taken part.now.xs.items part.now.left part.now.right most ≤ length stack.old.items }
    requires within { AllBelow (V.PageView.block_count view.old) stack.old.items }
    ensures image { V.PageView.tells → V.PageView.image view.new ≡ V.PageView.image view.old }
    ensures count_of_blocks { V.PageView.block_count view.new ≡ V.PageView.block_count view.old }
    ensures device { V.PageView.device view.new ≡ V.PageView.device view.old }
    ensures fault { CarriesFault (V.PageView.faults view.old) (V.PageView.faults view.new) result }
    ensures pushed { IfOk result (λ levels. Pushed V.PageView.tells part.now.last (V.PageView.block_count view.old) part.now.xs.items part.now.left part.now.right top
        (shown draft.old.pages.items (V.PageView.image view.old)) (shown draft.new.pages.items (V.PageView.image view.old)) levels entries.now list.old.items list.new.items stack.old.items stack.new.items) }
    ensures bad { V.PageView.tells → IfErr result (λ e. RefutesChildren (V.PageView.block_count view.old) part.now.xs.items part.now.left part.now.right top
        (shown draft.old.pages.items (V.PageView.image view.old)) most entries.now stack.old.items e) }
    ensures names { IfErr result NamesBelow }
    ensures levels { IfOk result (λ levels. levels ≤ most) }
    ensures used { OnOk result (length stack.old.items ≤ length stack.new.items + most_taken part.now.xs.items part.now.left part.now.right most) }
    ensures below { (bound : ℕ) → AllBelow bound stack.old.items → AllBelow bound stack.new.items }
    ensures front { IsFront stack.new.items stack.old.items }
    ensures others { V.PageView.tells → OnOk result (OthersFramed (shown draft.old.pages.items (V.PageView.image view.old)) (shown draft.new.pages.items (V.PageView.image view.old)) stack.old.items stack.new.items) }
    ensures drafted { OnOk result (DraftsTaken draft.old.pages.items draft.new.pages.items stack.old.items stack.new.items) }
{
    let Some((child, rest)) = entries.split_first() else {
        unreachable!();
    };
    match rest.first() {
        None => put_child(alloc, view, draft, stack, most, child, top, part, list),
        Some(next) => put_both(
            alloc,
            view,
            draft,
            stack,
            most,
            child,
            rest,
            next.offset,
            top,
            part,
            list,
        ),
    }
}

/// The same of a child and those behind it, the first of which begins at a block of the file.
#[cycle(put)]
fn put_both<V: PageView>(
    alloc: Global,
    view: &mut V,
    draft: &mut Draft,
    stack: &mut Vec<u32>,
    most: u32,
    child: &Xad,
    rest: &[Xad],
    bound: u64,
    top: bool,
    part: &Part,
    list: &mut Vec<Xad>,
) -> Result<u32, TreeError>
    requires begins { BeginsAt bound rest.now }
    requires fits { All FitsXad (child.now ∷ rest.now) }
    requires range { all_within (V.PageView.block_count view.old) (child.now ∷ rest.now) ≡ true }
    requires small { V.PageView.block_count view.old < 2 ^ 32 }
    requires part { IsPart (V.PageView.block_count view.old) part.now.xs.items }
    requires enough { most_taken part.now.xs.items part.now.left part.now.right most ≤ length stack.old.items }
    requires within { AllBelow (V.PageView.block_count view.old) stack.old.items }
    ensures image { V.PageView.tells → V.PageView.image view.new ≡ V.PageView.image view.old }
    ensures count_of_blocks { V.PageView.block_count view.new ≡ V.PageView.block_count view.old }
    ensures device { V.PageView.device view.new ≡ V.PageView.device view.old }
    ensures fault { CarriesFault (V.PageView.faults view.old) (V.PageView.faults view.new) result }
    ensures pushed { IfOk result (λ levels. Pushed V.PageView.tells part.now.last (V.PageView.block_count view.old) part.now.xs.items part.now.left part.now.right top
        (shown draft.old.pages.items (V.PageView.image view.old)) (shown draft.new.pages.items (V.PageView.image view.old)) levels (child.now ∷ rest.now) list.old.items list.new.items stack.old.items stack.new.items) }
    ensures bad { V.PageView.tells → IfErr result (λ e. RefutesChildren (V.PageView.block_count view.old) part.now.xs.items part.now.left part.now.right top
        (shown draft.old.pages.items (V.PageView.image view.old)) most (child.now ∷ rest.now) stack.old.items e) }
    ensures names { IfErr result NamesBelow }
    ensures levels { IfOk result (λ levels. levels ≤ most) }
    ensures used { OnOk result (length stack.old.items ≤ length stack.new.items + most_taken part.now.xs.items part.now.left part.now.right most) }
    ensures below { (bound : ℕ) → AllBelow bound stack.old.items → AllBelow bound stack.new.items }
    ensures front { IsFront stack.new.items stack.old.items }
    ensures others { V.PageView.tells → OnOk result (OthersFramed (shown draft.old.pages.items (V.PageView.image view.old)) (shown draft.new.pages.items (V.PageView.image view.old)) stack.old.items stack.new.items) }
    ensures drafted { OnOk result (DraftsTaken draft.old.pages.items draft.new.pages.items stack.old.items stack.new.items) }
{
    let Ok(cut) = cut_at(alloc, part, bound) else {
        return Err(TreeError::Memory);
    };
    let first = match put_child(alloc, view, draft, stack, most, child, top, &cut.head, list) {
        Ok(levels) => levels,
        Err(e) => return Err(e),
    };
    match put_children(
        alloc, view, draft, stack, most, rest, false, &cut.tail, list,
    ) {
        Ok(levels) => Ok(first.max(levels)),
        Err(e) => Err(e),
    }
}

/// The same below one child.
#[cycle(put)]
fn put_child<V: PageView>(
    alloc: Global,
    view: &mut V,
    draft: &mut Draft,
    stack: &mut Vec<u32>,
    most: u32,
    child: &Xad,
    top: bool,
    part: &Part,
    list: &mut Vec<Xad>,
) -> Result<u32, TreeError>
    requires fits { FitsXad child.now }
    requires range { all_within (V.PageView.block_count view.old) (child.now ∷ []) ≡ true }
    requires small { V.PageView.block_count view.old < 2 ^ 32 }
    requires part { IsPart (V.PageView.block_count view.old) part.now.xs.items }
    requires enough { most_taken part.now.xs.items part.now.left part.now.right most ≤ length stack.old.items }
    requires within { AllBelow (V.PageView.block_count view.old) stack.old.items }
    ensures image { V.PageView.tells → V.PageView.image view.new ≡ V.PageView.image view.old }
    ensures count_of_blocks { V.PageView.block_count view.new ≡ V.PageView.block_count view.old }
    ensures device { V.PageView.device view.new ≡ V.PageView.device view.old }
    ensures fault { CarriesFault (V.PageView.faults view.old) (V.PageView.faults view.new) result }
    ensures pushed { IfOk result (λ levels. Pushed V.PageView.tells part.now.last (V.PageView.block_count view.old) part.now.xs.items part.now.left part.now.right top
        (shown draft.old.pages.items (V.PageView.image view.old)) (shown draft.new.pages.items (V.PageView.image view.old)) levels (child.now ∷ []) list.old.items list.new.items stack.old.items stack.new.items) }
    ensures bad { V.PageView.tells → IfErr result (λ e. RefutesChildren (V.PageView.block_count view.old) part.now.xs.items part.now.left part.now.right top
        (shown draft.old.pages.items (V.PageView.image view.old)) most (child.now ∷ []) stack.old.items e) }
    ensures names { IfErr result NamesBelow }
    ensures levels { IfOk result (λ levels. levels ≤ most) }
    ensures used { OnOk result (length stack.old.items ≤ length stack.new.items + most_taken part.now.xs.items part.now.left part.now.right most) }
    ensures below { (bound : ℕ) → AllBelow bound stack.old.items → AllBelow bound stack.new.items }
    ensures front { IsFront stack.new.items stack.old.items }
    ensures others { V.PageView.tells → OnOk result (OthersFramed (shown draft.old.pages.items (V.PageView.image view.old)) (shown draft.new.pages.items (V.PageView.image view.old)) stack.old.items stack.new.items) }
    ensures drafted { OnOk result (DraftsTaken draft.old.pages.items draft.new.pages.items stack.old.items stack.new.items) }
{
    if part.xs.is_empty() {
        return push_all(list, &[*child]);
    }
    let grown = match put_below(alloc, view, draft, stack, most, child.at.addr as u32, part) {
        Ok(grown) => grown,
        Err(e) => return Err(e),
    };
    match push_grown(list, *child, &grown.sibling, top) {
        Ok(()) => Ok(grown.levels),
        Err(_) => Err(TreeError::Memory),
    }
}

/// Pushes entries as they are.
fn push_all(list: &mut Vec<Xad>, entries: &[Xad]) -> Result<u32, TreeError>
    ensures pushed { OnOk result (list.new.items ≡ list.old.items ++ entries.now) }
    ensures levels { IfOk result (λ levels. levels ≡ 0) }
    ensures cause { IfErr result (λ e. e ≡ TreeError.Memory) }
{
    match list.extend_from_slice(entries) {
        Ok(()) => Ok(0),
        Err(_) => Err(TreeError::Memory),
    }
}
