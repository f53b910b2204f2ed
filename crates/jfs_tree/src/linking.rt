//! Links between the pages of a level, set beside pages that came or went.

ghost use Rattle.std.specs.Prelude.{◌≡◌, ◌<◌, ◌≤◌, ◌⊎◌, ℕ, Bool, length, Some, None, OnOk, IfOk, IfErr, IfSome};
ghost use Rattle.jfs_tree.specs.Call.{CarriesFault, IsRead};
ghost use Rattle.jfs_tree.specs.Linking.{AreBelow, LinksPage, LinksLevel, LinksTree};
ghost use Rattle.jfs_tree.specs.Taken.{KeepsDrafted};

use crate::beside::{Beside, beside_below, children_beside};
use crate::draft::Draft;
use crate::form::TreeError;
use crate::links::PageLinks;
use crate::take::put_one;
use jfs_ranges::PageView;

/// The levels of a tree below its root.
const BELOW: u32 = 7;

/// Sets the back links of the pages behind those that a call took on the way of an entry: a page that was split has a new page behind it, which the page behind both
/// has to name. What the root spells stays.
pub fn link_taken<V: PageView, F: PageLinks>(
    top: &F,
    form: &F,
    view: &mut V,
    draft: &mut Draft,
    root: &[u8],
    taken: &[u32],
    x: &F::Entry,
) -> Result<(), TreeError>
    requires root { length root.now ≡ F.PageForm.size top.now }
    requires bound { (F.PageForm.blocks top.now ≡ V.PageView.block_count view.old) × (F.PageForm.blocks form.now ≡ V.PageView.block_count view.old) }
    requires size { F.PageForm.size form.now ≡ 4096 }
    ensures image { V.PageView.tells → V.PageView.image view.new ≡ V.PageView.image view.old }
    ensures count_of_blocks { V.PageView.block_count view.new ≡ V.PageView.block_count view.old }
    ensures device { V.PageView.device view.new ≡ V.PageView.device view.old }
    ensures fault { CarriesFault (V.PageView.faults view.old) (V.PageView.faults view.new) result }
    ensures links { V.PageView.tells → OnOk result (LinksTree (F.PageForm.node form.now) (F.PageForm.frame form.now) (V.PageView.image view.old) draft.old.pages.items draft.new.pages.items (F.PageForm.node top.now root.now)) }
    ensures drafted { OnOk result (KeepsDrafted draft.old.pages.items draft.new.pages.items) }
    ensures cause { IfErr result IsRead }
{
    if taken.is_empty() {
        return Ok(());
    }
    match children_beside(top, root, x) {
        Some(level) => link_behind(form, view, draft, BELOW, &level, taken, x),
        None => Ok(()),
    }
}

/// The same from a level on, so many levels down.
fn link_behind<V: PageView, F: PageLinks>(
    form: &F,
    view: &mut V,
    draft: &mut Draft,
    most: u32,
    level: &Beside,
    taken: &[u32],
    x: &F::Entry,
) -> Result<(), TreeError>
    requires within { AreBelow (V.PageView.block_count view.old) level.now }
    requires bound { F.PageForm.blocks form.now ≡ V.PageView.block_count view.old }
    requires size { F.PageForm.size form.now ≡ 4096 }
    ensures image { V.PageView.tells → V.PageView.image view.new ≡ V.PageView.image view.old }
    ensures count_of_blocks { V.PageView.block_count view.new ≡ V.PageView.block_count view.old }
    ensures device { V.PageView.device view.new ≡ V.PageView.device view.old }
    ensures fault { CarriesFault (V.PageView.faults view.old) (V.PageView.faults view.new) result }
    ensures links { V.PageView.tells → OnOk result (LinksLevel (F.PageForm.node form.now) (F.PageForm.frame form.now) (V.PageView.image view.old) draft.old.pages.items draft.new.pages.items level.now) }
    ensures drafted { OnOk result (KeepsDrafted draft.old.pages.items draft.new.pages.items) }
    ensures cause { IfErr result IsRead }
{
    if most == 0 {
        return Ok(());
    }
    match link_new(form, view, draft, level, taken) {
        Ok(()) => {}
        Err(e) => return Err(e),
    }
    // the page before is none that came
    let level = Beside {
        before: None,
        ..*level
    };
    match beside_below(form, view, draft, &level, x) {
        Ok(Some(lower)) => link_behind(form, view, draft, most - 1, &lower, taken, x),
        Ok(None) => Ok(()),
        Err(e) => Err(e),
    }
}

/// Where a page of a level came, it is named by the one behind it.
fn link_new<V: PageView, F: PageLinks>(
    form: &F,
    view: &mut V,
    draft: &mut Draft,
    level: &Beside,
    taken: &[u32],
) -> Result<(), TreeError>
    requires within { AreBelow (V.PageView.block_count view.old) level.now }
    requires bound { F.PageForm.blocks form.now ≡ V.PageView.block_count view.old }
    requires size { F.PageForm.size form.now ≡ 4096 }
    ensures image { V.PageView.tells → V.PageView.image view.new ≡ V.PageView.image view.old }
    ensures count_of_blocks { V.PageView.block_count view.new ≡ V.PageView.block_count view.old }
    ensures device { V.PageView.device view.new ≡ V.PageView.device view.old }
    ensures fault { CarriesFault (V.PageView.faults view.old) (V.PageView.faults view.new) result }
    ensures links { V.PageView.tells → OnOk result (LinksLevel (F.PageForm.node form.now) (F.PageForm.frame form.now) (V.PageView.image view.old) draft.old.pages.items draft.new.pages.items level.now) }
    ensures drafted { OnOk result (KeepsDrafted draft.old.pages.items draft.new.pages.items) }
    ensures cause { IfErr result IsRead }
{
    if taken.contains(&level.here) {
        return link_back(form, view, draft, level.behind, level.here);
    }
    match level.behind {
        Some(n) => {
            if taken.contains(&n) {
                return link_back(form, view, draft, level.next, n);
            }
            Ok(())
        }
        None => Ok(()),
    }
}

/// Closes the gaps that a call left on the way of an entry, where it freed so many pages, one on each of the lowest levels: the pages beside each gap name each
/// other. What the root spells stays.
pub fn link_gaps<V: PageView, F: PageLinks>(
    top: &F,
    form: &F,
    view: &mut V,
    draft: &mut Draft,
    root: &[u8],
    gone: usize,
    x: &F::Entry,
) -> Result<(), TreeError>
    requires root { length root.now ≡ F.PageForm.size top.now }
    requires bound { (F.PageForm.blocks top.now ≡ V.PageView.block_count view.old) × (F.PageForm.blocks form.now ≡ V.PageView.block_count view.old) }
    requires size { F.PageForm.size form.now ≡ 4096 }
    ensures image { V.PageView.tells → V.PageView.image view.new ≡ V.PageView.image view.old }
    ensures count_of_blocks { V.PageView.block_count view.new ≡ V.PageView.block_count view.old }
    ensures device { V.PageView.device view.new ≡ V.PageView.device view.old }
    ensures fault { CarriesFault (V.PageView.faults view.old) (V.PageView.faults view.new) result }
    ensures links { V.PageView.tells → OnOk result (LinksTree (F.PageForm.node form.now) (F.PageForm.frame form.now) (V.PageView.image view.old) draft.old.pages.items draft.new.pages.items (F.PageForm.node top.now root.now)) }
    ensures drafted { OnOk result (KeepsDrafted draft.old.pages.items draft.new.pages.items) }
    ensures cause { IfErr result IsRead }
{
    match children_beside(top, root, x) {
        Some(level) => match close_gaps(form, view, draft, BELOW, &level, gone, x) {
            Ok(_) => Ok(()),
            Err(e) => Err(e),
        },
        None => Ok(()),
    }
}

/// The same from a level on, so many levels down at most. Answers how many levels there are from it on.
#[cycle(gaps)]
fn close_gaps<V: PageView, F: PageLinks>(
    form: &F,
    view: &mut V,
    draft: &mut Draft,
    most: u32,
    level: &Beside,
    gone: usize,
    x: &F::Entry,
) -> Result<usize, TreeError>
    requires within { AreBelow (V.PageView.block_count view.old) level.now }
    requires bound { F.PageForm.blocks form.now ≡ V.PageView.block_count view.old }
    requires size { F.PageForm.size form.now ≡ 4096 }
    requires few { most ≤ 7 }
    ensures image { V.PageView.tells → V.PageView.image view.new ≡ V.PageView.image view.old }
    ensures count_of_blocks { V.PageView.block_count view.new ≡ V.PageView.block_count view.old }
    ensures device { V.PageView.device view.new ≡ V.PageView.device view.old }
    ensures fault { CarriesFault (V.PageView.faults view.old) (V.PageView.faults view.new) result }
    ensures links { V.PageView.tells → OnOk result (LinksLevel (F.PageForm.node form.now) (F.PageForm.frame form.now) (V.PageView.image view.old) draft.old.pages.items draft.new.pages.items level.now) }
    ensures drafted { OnOk result (KeepsDrafted draft.old.pages.items draft.new.pages.items) }
    ensures levels { IfOk result (λ levels. levels ≤ most) }
    ensures cause { IfErr result IsRead }
{
    if most == 0 {
        return Ok(0);
    }
    let below = match gaps_below(form, view, draft, most, level, gone, x) {
        Ok(below) => below,
        Err(e) => return Err(e),
    };
    if below >= gone {
        return Ok(below + 1);
    }
    match link_both(form, view, draft, level) {
        Ok(()) => Ok(below + 1),
        Err(e) => Err(e),
    }
}

/// The same of the levels below one.
#[cycle(gaps)]
fn gaps_below<V: PageView, F: PageLinks>(
    form: &F,
    view: &mut V,
    draft: &mut Draft,
    most: u32,
    level: &Beside,
    gone: usize,
    x: &F::Entry,
) -> Result<usize, TreeError>
    requires within { AreBelow (V.PageView.block_count view.old) level.now }
    requires bound { F.PageForm.blocks form.now ≡ V.PageView.block_count view.old }
    requires size { F.PageForm.size form.now ≡ 4096 }
    requires few { (most ≤ 7) × (0 < most) }
    ensures image { V.PageView.tells → V.PageView.image view.new ≡ V.PageView.image view.old }
    ensures count_of_blocks { V.PageView.block_count view.new ≡ V.PageView.block_count view.old }
    ensures device { V.PageView.device view.new ≡ V.PageView.device view.old }
    ensures fault { CarriesFault (V.PageView.faults view.old) (V.PageView.faults view.new) result }
    ensures links { V.PageView.tells → OnOk result (LinksLevel (F.PageForm.node form.now) (F.PageForm.frame form.now) (V.PageView.image view.old) draft.old.pages.items draft.new.pages.items level.now) }
    ensures drafted { OnOk result (KeepsDrafted draft.old.pages.items draft.new.pages.items) }
    ensures levels { IfOk result (λ levels. levels < most) }
    ensures cause { IfErr result IsRead }
{
    match beside_below(form, view, draft, level, x) {
        Ok(Some(lower)) => match close_gaps(form, view, draft, most - 1, &lower, gone, x) {
            Ok(levels) => Ok(levels),
            Err(e) => Err(e),
        },
        Ok(None) => Ok(0),
        Err(e) => Err(e),
    }
}

/// The page of a level, the one before it and the one behind it name each other.
fn link_both<V: PageView, F: PageLinks>(
    form: &F,
    view: &mut V,
    draft: &mut Draft,
    level: &Beside,
) -> Result<(), TreeError>
    requires within { AreBelow (V.PageView.block_count view.old) level.now }
    requires bound { F.PageForm.blocks form.now ≡ V.PageView.block_count view.old }
    requires size { F.PageForm.size form.now ≡ 4096 }
    ensures image { V.PageView.tells → V.PageView.image view.new ≡ V.PageView.image view.old }
    ensures count_of_blocks { V.PageView.block_count view.new ≡ V.PageView.block_count view.old }
    ensures device { V.PageView.device view.new ≡ V.PageView.device view.old }
    ensures fault { CarriesFault (V.PageView.faults view.old) (V.PageView.faults view.new) result }
    ensures links { V.PageView.tells → OnOk result (LinksLevel (F.PageForm.node form.now) (F.PageForm.frame form.now) (V.PageView.image view.old) draft.old.pages.items draft.new.pages.items level.now) }
    ensures drafted { OnOk result (KeepsDrafted draft.old.pages.items draft.new.pages.items) }
    ensures cause { IfErr result IsRead }
{
    let before = level.before.unwrap_or(0);
    let behind = level.behind.unwrap_or(0);
    match link_on(form, view, draft, level.before, level.here) {
        Ok(()) => {}
        Err(e) => return Err(e),
    }
    match link_back(form, view, draft, Some(level.here), before) {
        Ok(()) => {}
        Err(e) => return Err(e),
    }
    match link_on(form, view, draft, Some(level.here), behind) {
        Ok(()) => {}
        Err(e) => return Err(e),
    }
    match link_back(form, view, draft, level.behind, level.here) {
        Ok(()) => Ok(()),
        Err(e) => Err(e),
    }
}

#[tactic(auto, using(crate::proofs::Drafts::one_keeps))]
/// A page names `next` as the one behind it.
fn link_on<V: PageView, F: PageLinks>(
    form: &F,
    view: &mut V,
    draft: &mut Draft,
    page: Option<u32>,
    next: u32,
) -> Result<(), TreeError>
    requires page { IfSome page (λ n. n < V.PageView.block_count view.old) }
    requires size { F.PageForm.size form.now ≡ 4096 }
    ensures image { V.PageView.tells → V.PageView.image view.new ≡ V.PageView.image view.old }
    ensures count_of_blocks { V.PageView.block_count view.new ≡ V.PageView.block_count view.old }
    ensures device { V.PageView.device view.new ≡ V.PageView.device view.old }
    ensures fault { CarriesFault (V.PageView.faults view.old) (V.PageView.faults view.new) result }
    ensures links { V.PageView.tells → OnOk result (LinksPage (F.PageForm.node form.now) (F.PageForm.frame form.now) (V.PageView.image view.old) draft.old.pages.items draft.new.pages.items page) }
    ensures drafted { OnOk result (KeepsDrafted draft.old.pages.items draft.new.pages.items) }
    ensures cause { IfErr result IsRead }
{
    let Some(n) = page else {
        return Ok(());
    };
    let mut bytes = match draft.read(view, n) {
        Ok(bytes) => bytes,
        Err(e) => return Err(TreeError::View(e)),
    };
    form.set_next(&mut bytes.0, next);
    put_one(draft, n, bytes)
}

#[tactic(auto, using(crate::proofs::Drafts::one_keeps))]
/// A page names `prev` as the one before it.
fn link_back<V: PageView, F: PageLinks>(
    form: &F,
    view: &mut V,
    draft: &mut Draft,
    page: Option<u32>,
    prev: u32,
) -> Result<(), TreeError>
    requires page { IfSome page (λ n. n < V.PageView.block_count view.old) }
    requires size { F.PageForm.size form.now ≡ 4096 }
    ensures image { V.PageView.tells → V.PageView.image view.new ≡ V.PageView.image view.old }
    ensures count_of_blocks { V.PageView.block_count view.new ≡ V.PageView.block_count view.old }
    ensures device { V.PageView.device view.new ≡ V.PageView.device view.old }
    ensures fault { CarriesFault (V.PageView.faults view.old) (V.PageView.faults view.new) result }
    ensures links { V.PageView.tells → OnOk result (LinksPage (F.PageForm.node form.now) (F.PageForm.frame form.now) (V.PageView.image view.old) draft.old.pages.items draft.new.pages.items page) }
    ensures drafted { OnOk result (KeepsDrafted draft.old.pages.items draft.new.pages.items) }
    ensures cause { IfErr result IsRead }
{
    let Some(n) = page else {
        return Ok(());
    };
    let mut bytes = match draft.read(view, n) {
        Ok(bytes) => bytes,
        Err(e) => return Err(TreeError::View(e)),
    };
    form.set_prev(&mut bytes.0, prev);
    put_one(draft, n, bytes)
}
