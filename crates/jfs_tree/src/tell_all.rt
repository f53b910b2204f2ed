//! A whole draft, told.

ghost use Rattle.std.specs.Prelude.{◌≡◌, ◌<◌, ◌≤◌, ◌+◌, ℕ, List, OnOk, IfOk, length, take, not, get_or};
ghost use Rattle.jfs_ranges.specs.View.{CarriesCount};
ghost use Rattle.jfs_tree.specs.Tell.{TellsOne, TellsDraft, TellsExactly, TellsLines, TellsPage, is_hidden, occurs};

use crate::draft::{Draft, Drafted};
use crate::tell::{tell_page, tell_whole};
use jfs_bits::PageKind;
use jfs_ranges::{PageView, Tx, ViewError};
use std::alloc::Global;

/// Tells each page of a draft as it is now: those that were taken whole, the others by the lines in which they differ from the view's. A page that
/// is none of the view's isn't told.
pub fn tell_draft<V: PageView>(
    alloc: Global,
    view: &mut V,
    draft: &Draft,
    taken: &[u32],
    kind: PageKind,
    tx: &mut Tx,
) -> Result<(), ViewError>
    ensures image { V.PageView.tells → V.PageView.image view.new ≡ V.PageView.image view.old }
    ensures count_of_blocks { V.PageView.block_count view.new ≡ V.PageView.block_count view.old }
    ensures device { V.PageView.device view.new ≡ V.PageView.device view.old }
    ensures fault { CarriesCount (V.PageView.faults view.old) (V.PageView.faults view.new) result }
    ensures edits { V.PageView.tells → OnOk result (TellsExactly (V.PageView.block_count view.old) (V.PageView.image view.old) taken.now kind draft.now.pages.items tx.old tx.new) }
    ensures lines { OnOk result (TellsLines tx.old tx.new) }
    ensures told { V.PageView.tells → OnOk result (TellsDraft (V.PageView.block_count view.old) (V.PageView.image view.old) draft.now.pages.items tx.old tx.new) }
{
    let blocks = view.blocks();
    let pages = draft.pages.as_slice();
    for i in 0..pages.len() {
        if is_told(pages, i, blocks) {
            tell_drafted(alloc, view, &pages[i], taken, kind, tx)?;
        }
    }
    Ok(())
}

#[tactic(auto, using(crate::proofs::LinesOnly::whole_told))]
/// Tells one changed page.
fn tell_drafted<V: PageView>(
    alloc: Global,
    view: &mut V,
    drafted: &Drafted,
    taken: &[u32],
    kind: PageKind,
    tx: &mut Tx,
) -> Result<(), ViewError>
    requires within { drafted.now.number < V.PageView.block_count view.old }
    ensures image { V.PageView.tells → V.PageView.image view.new ≡ V.PageView.image view.old }
    ensures count_of_blocks { V.PageView.block_count view.new ≡ V.PageView.block_count view.old }
    ensures device { V.PageView.device view.new ≡ V.PageView.device view.old }
    ensures fault { CarriesCount (V.PageView.faults view.old) (V.PageView.faults view.new) result }
    ensures edits { V.PageView.tells → OnOk result (TellsPage (V.PageView.image view.old) taken.now kind drafted.now.number drafted.now.page.0 tx.old tx.new) }
    ensures lines { OnOk result (TellsLines tx.old tx.new) }
    ensures told { V.PageView.tells → OnOk result (TellsOne (V.PageView.block_count view.old) (V.PageView.image view.old) drafted.now.number drafted.now.page.0 tx.old tx.new) }
{
    let n = drafted.number;
    if taken.contains(&n) {
        return match tell_whole(alloc, tx, n, kind, &drafted.page) {
            Ok(()) => Ok(()),
            Err(_) => Err(ViewError::Memory),
        };
    }
    let old = view.page(n)?;
    match tell_page(alloc, tx, n, kind, old, &drafted.page) {
        Ok(()) => Ok(()),
        Err(_) => Err(ViewError::Memory),
    }
}

/// Whether a page is one of so many blocks, and no page in front of it has its number.
fn is_told(pages: &[Drafted], i: usize, blocks: u32) -> bool
    requires { i < length pages.now }
    ensures { (d : Drafted) → result ≡ not (is_hidden blocks (take i pages.now) (get_or pages.now i d).number) }
{
    pages[i].number < blocks && is_newest(pages, i)
}

/// Whether no page in front of this one has its number.
fn is_newest(pages: &[Drafted], i: usize) -> bool
    requires { i < length pages.now }
    ensures { (d : Drafted) → result ≡ not (occurs (get_or pages.now i d).number (take i pages.now)) }
{
    let n = pages[i].number;
    for newer in &pages[..i] {
        if newer.number == n {
            return false;
        }
    }
    true
}
