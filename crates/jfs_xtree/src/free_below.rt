//! Pages that are freed with all that stands below them.

ghost use Rattle.std.specs.Prelude.{◌≡◌, ◌<◌, ◌≤◌, ◌+◌, ◌*◌, ◌++◌, ◌∷◌, [], ℕ, List, length, map, drop, true, false, OnOk, IfOk, IfErr};
ghost use Rattle.jfs_disk.specs.Image.{page_of};
ghost use Rattle.jfs_tree.specs.Call.{CarriesFault};
ghost use Rattle.jfs_tree.specs.Walk.{Row, Broken};
ghost use Rattle.jfs_xtpage.specs.Page.{head_of, entries_of, entry_of, count_of, IsLaidOut};
ghost use Rattle.jfs_xtpage.specs.declared.head.XtForm.TheVariants.{Full};
ghost use Rattle.jfs_xtree.specs.Node.{xt_scale, xt_node, is_leaf, all_within, IsSound};
ghost use Rattle.jfs_xtree.specs.Spells.{page_nodes};
ghost use Rattle.jfs_xtree.specs.CutParts.{Frees, StopsAt, BreaksAlone, MissesKey, children_from, part_of, place_after, runs_of};

use crate::check::{check_page, is_leaf};
use crate::children::page_of;
use crate::met::{fits_key, leaf_end, pass_key};
use jfs_bits::{PxdList, Rule, get_u8, get_u16};
use jfs_disk::Page;
use jfs_ranges::PageView;
use jfs_tree::{Draft, TreeError};
use jfs_xtpage::{XtForm, xt_entry};

/// What a cut changed and freed, and how far it came.
#[derive(Drop)]
pub(crate) struct Cut {
    /// The changed pages.
    pub draft: Draft,
    /// The pages that are no more.
    pub pages: Vec<u32>,
    /// The blocks of extents that are gone.
    pub runs: PxdList,
    /// The place behind what was met last: the end of an extent, or the key of a child.
    pub met: u64,
    /// How many levels stand below the page that was cut last.
    pub below: u32,
}

/// Frees the pages that the entries from a place on name, and all that stands below them, with so many levels below each.
#[cycle(free)]
pub(crate) fn free_children<V: PageView>(
    blocks: u32,
    view: &mut V,
    cut: &mut Cut,
    below: u32,
    bytes: &[u8],
    from: u16,
) -> Result<(), TreeError>
    requires page { IsLaidOut bytes.now }
    requires within { all_within blocks (entries_of bytes.now) ≡ true }
    requires place { from ≤ count_of bytes.now }
    requires bound { blocks ≡ V.PageView.block_count view.old }
    ensures image { V.PageView.tells → V.PageView.image view.new ≡ V.PageView.image view.old }
    ensures count_of_blocks { V.PageView.block_count view.new ≡ V.PageView.block_count view.old }
    ensures device { V.PageView.device view.new ≡ V.PageView.device view.old }
    ensures fault { CarriesFault (V.PageView.faults view.old) (V.PageView.faults view.new) result }
    ensures draft { OnOk result (cut.new.draft.pages.items ≡ cut.old.draft.pages.items) }
    ensures frees { V.PageView.tells → OnOk result (Frees cut.old.met (children_from (page_nodes blocks (page_of (V.PageView.image view.old))) below from cut.old.met (entries_of bytes.now)) cut.new.met
        cut.old.pages.items cut.new.pages.items cut.old.runs cut.new.runs) }
    ensures bad { V.PageView.tells → IfErr result (λ e. StopsAt cut.old.met (children_from (page_nodes blocks (page_of (V.PageView.image view.old))) below from cut.old.met (entries_of bytes.now)) e) }
{
    let count = get_u16(bytes, 18) - 2;
    for i in from..count {
        let n = page_of(bytes, i, blocks);
        match pass_key(&mut cut.met, bytes, i, n) {
            Ok(()) => {}
            Err(e) => return Err(e),
        }
        match free_page(blocks, view, cut, below, n) {
            Ok(()) => {}
            Err(e) => return Err(e),
        }
    }
    Ok(())
}

/// Frees page `n`, whose key was met last, and all that stands below it, with so many levels below it.
#[cycle(free)]
fn free_page<V: PageView>(
    blocks: u32,
    view: &mut V,
    cut: &mut Cut,
    below: u32,
    n: u32,
) -> Result<(), TreeError>
    requires page { n < V.PageView.block_count view.old }
    requires bound { blocks ≡ V.PageView.block_count view.old }
    ensures image { V.PageView.tells → V.PageView.image view.new ≡ V.PageView.image view.old }
    ensures count_of_blocks { V.PageView.block_count view.new ≡ V.PageView.block_count view.old }
    ensures device { V.PageView.device view.new ≡ V.PageView.device view.old }
    ensures fault { CarriesFault (V.PageView.faults view.old) (V.PageView.faults view.new) result }
    ensures draft { OnOk result (cut.new.draft.pages.items ≡ cut.old.draft.pages.items) }
    ensures frees { V.PageView.tells → OnOk result (Frees cut.old.met (part_of (page_nodes blocks (page_of (V.PageView.image view.old))) below cut.old.met n) cut.new.met
        cut.old.pages.items cut.new.pages.items cut.old.runs cut.new.runs) }
    ensures bad { V.PageView.tells → IfErr result (λ e. StopsAt cut.old.met (part_of (page_nodes blocks (page_of (V.PageView.image view.old))) below cut.old.met n) e) }
{
    let page = match read_page(blocks, view, n) {
        Ok(page) => page,
        Err(e) => return Err(e),
    };
    push_page(&mut cut.pages, n)?;
    let deep = TreeError::Bad {
        page: n,
        rule: Rule::Deep,
    };
    if is_leaf(get_u8(page.bytes(), 16)) {
        if below > 0 {
            return Err(deep);
        }
        return free_leaf(cut, page.bytes(), n);
    }
    if below == 0 {
        return Err(deep);
    }
    free_children(blocks, view, cut, below - 1, page.bytes(), 0)
}

/// Frees the blocks of all extents of page `n`, a leaf whose key was met last.
fn free_leaf(cut: &mut Cut, bytes: &[u8], n: u32) -> Result<(), TreeError>
    requires page { IsLaidOut bytes.now }
    requires some { 0 < count_of bytes.now }
    ensures fits { OnOk result (xt_scale.fits cut.old.met (entry_of bytes.now 0) ≡ true) }
    ensures runs { OnOk result (cut.new.runs ≡ cut.old.runs ++ runs_of (entries_of bytes.now)) }
    ensures met { OnOk result (cut.new.met ≡ place_after cut.old.met (map (Row n) (entries_of bytes.now))) }
    ensures rest { (cut.new.pages.items ≡ cut.old.pages.items) × (cut.new.draft.pages.items ≡ cut.old.draft.pages.items) }
    ensures bad { IfErr result (λ e. MissesKey (xt_scale.fits cut.old.met (entry_of bytes.now 0)) n e) }
{
    if !fits_key(bytes, cut.met) {
        return Err(TreeError::Bad {
            page: n,
            rule: Rule::Order,
        });
    }
    push_runs(&mut cut.runs, bytes, 0)?;
    cut.met = leaf_end(bytes, cut.met);
    Ok(())
}

#[tactic(auto, using(crate::proofs::Reading::empty_breaks))]
/// A copy of page `n`, which breaks no rule by itself; `deep` where it has no entry.
pub(crate) fn read_page<V: PageView>(blocks: u32, view: &mut V, n: u32) -> Result<Page, TreeError>
    requires page { n < V.PageView.block_count view.old }
    ensures image { V.PageView.tells → V.PageView.image view.new ≡ V.PageView.image view.old }
    ensures count_of_blocks { V.PageView.block_count view.new ≡ V.PageView.block_count view.old }
    ensures device { V.PageView.device view.new ≡ V.PageView.device view.old }
    ensures fault { CarriesFault (V.PageView.faults view.old) (V.PageView.faults view.new) result }
    ensures bytes { V.PageView.tells → IfOk result (λ page. page.0 ≡ page_of (V.PageView.image view.old) n) }
    ensures laid { IfOk result (λ page. IsLaidOut page.0) }
    ensures sound { IfOk result (λ page. IsSound Full blocks (head_of page.0) (entries_of page.0)) }
    ensures some { IfOk result (λ page. 2 < (head_of page.0).nextindex) }
    ensures bad { V.PageView.tells → IfErr result (λ e. BreaksAlone (page_nodes blocks (page_of (V.PageView.image view.old)) n) n e) }
{
    let page = match view.page(n) {
        Ok(page) => Page(page.0),
        Err(e) => return Err(TreeError::View(e)),
    };
    match check_page(page.bytes(), XtForm::Full, blocks) {
        Ok(head) => {
            if head.nextindex == 2 {
                return Err(TreeError::Bad {
                    page: n,
                    rule: Rule::Deep,
                });
            }
            Ok(page)
        }
        Err(rule) => Err(TreeError::Bad { page: n, rule }),
    }
}

/// Frees the blocks of a leaf's extents from a place on.
pub(crate) fn push_runs(runs: &mut PxdList, bytes: &[u8], from: u16) -> Result<(), TreeError>
    requires page { IsLaidOut bytes.now }
    requires place { from ≤ count_of bytes.now }
    ensures runs { OnOk result (runs.new ≡ runs.old ++ runs_of (drop from (entries_of bytes.now))) }
    ensures cause { IfErr result (λ e. e ≡ TreeError.Memory) }
{
    let count = get_u16(bytes, 18) - 2;
    for i in from..count {
        match runs.push(xt_entry(bytes, i).at) {
            Ok(()) => {}
            Err(_) => return Err(TreeError::Memory),
        }
    }
    Ok(())
}

/// Frees a page.
pub(crate) fn push_page(pages: &mut Vec<u32>, n: u32) -> Result<(), TreeError>
    ensures pages { OnOk result (pages.new.items ≡ pages.old.items ++ n ∷ []) }
    ensures cause { IfErr result (λ e. e ≡ TreeError.Memory) }
{
    match pages.push(n) {
        Ok(()) => Ok(()),
        Err(_) => Err(TreeError::Memory),
    }
}
