//! The inodes that come into use and go out of it on the pages that a transaction changes.

ghost use Rattle.std.specs.Prelude.{◌≡◌, ◌<◌, ◌≤◌, IfOk};
ghost use Rattle.jfs_disk.specs.Image.{page_of};
ghost use Rattle.jfs_ranges.specs.View.{CarriesCount};
ghost use Rattle.jfs_data_steps.specs.After.{is_put};
ghost use Rattle.jfs_marks.specs.Changes.{met_if, noted_change, slots_changes, page_changes, pages_told, edit_changes, tx_changes};

use crate::founded::{Founded, is_extent};
use crate::standing::standing;
use jfs_data_steps::DataList;
use jfs_disk::Page;
use jfs_imap::InodeMap;
use jfs_ranges::{Edit, PageView, Tx, ViewError, apply};

/// No inode, one, or more than one.
#[derive(Clone, Copy, PartialEq, Eq, Debug)]
pub enum Met {
    Nothing,
    One(u32),
    Several,
}

impl Met {
    /// With one that is met, if it is one.
    fn with(self, n: Option<u32>) -> Met
        ensures { result ≡ met_if n self }
    {
        match (n, self) {
            (None, met) => met,
            (Some(n), Met::Nothing) => Met::One(n),
            (Some(n), Met::One(m)) if n == m => self,
            (Some(_), _) => Met::Several,
        }
    }
}

/// The inodes that come into use, and those that go out of use.
#[derive(Clone, Copy, PartialEq, Eq, Debug)]
pub struct Changes {
    pub taken: Met,
    pub freed: Met,
}

impl Changes {
    /// The inode in use that stands in a slot before is followed by this one.
    fn noted(self, was: Option<u32>, is: Option<u32>) -> Changes
        ensures { result ≡ noted_change was is self }
    {
        if was == is {
            return self;
        }
        Changes {
            taken: self.taken.with(is),
            freed: self.freed.with(was),
        }
    }
}

/// More than one of both.
const TOO_MANY: Changes = Changes {
    taken: Met::Several,
    freed: Met::Several,
};

/// A transaction with the inode map before it.
#[derive(Clone, Copy)]
pub(crate) struct Change<'a> {
    pub(crate) inodes: &'a InodeMap,
    pub(crate) founded: Founded,
    pub(crate) tx: &'a Tx,
    pub(crate) written: &'a DataList,
}

/// What changes in the eight slots of page `p`.
fn slots_changes(
    change: Change<'_>,
    p: u32,
    before: &Page,
    after: &Page,
    changes: Changes,
) -> Changes
    ensures { result ≡ slots_changes change.entry.inodes.now change.entry.founded p before.now.0 after.now.0 8 changes }
{
    let mut changes = changes;
    for slot in 0..8 {
        let was = standing(change.inodes, Founded::Nothing, p, before, slot);
        let is = standing(change.inodes, change.founded, p, after, slot);
        changes = changes.noted(was, is);
    }
    changes
}

/// What changes on page `p`. More than one call does where the page lies past the volume, or data is written to it too.
fn page_changes<V: PageView>(
    view: &mut V,
    change: Change<'_>,
    p: u64,
    changes: Changes,
) -> Result<Changes, ViewError>
    ensures image { V.PageView.tells → V.PageView.image view.new ≡ V.PageView.image view.old }
    ensures count_of_blocks { V.PageView.block_count view.new ≡ V.PageView.block_count view.old }
    ensures device { V.PageView.device view.new ≡ V.PageView.device view.old }
    ensures fault { CarriesCount (V.PageView.faults view.old) (V.PageView.faults view.new) result }
    ensures changes { V.PageView.tells → IfOk result (λ c. c ≡ page_changes (V.PageView.block_count view.old) (page_of (V.PageView.image view.old)) change.entry.inodes.now change.entry.founded change.entry.tx.now change.entry.written.now p changes) }
{
    if p >= u64::from(view.blocks()) {
        return Ok(TOO_MANY);
    }
    let p = p as u32;
    if is_put(p, change.written) {
        return Ok(TOO_MANY);
    }
    let before = match view.page(p) {
        Ok(page) => Page(page.0),
        Err(e) => return Err(e),
    };
    let mut after = Page(before.0);
    apply(change.tx, p, &mut after);
    Ok(slots_changes(change, p, &before, &after, changes))
}

/// Whether a block is among those that data is written to.
fn is_put(p: u32, written: &DataList) -> bool
    ensures { result ≡ is_put p written.now }
{
    for d in written.as_slice() {
        if d.block == p {
            return true;
        }
    }
    false
}

/// So many pages have lines of an edit.
fn pages_told(edit: &Edit) -> u32
    ensures value { result ≡ pages_told edit.now }
    ensures most { result ≤ 4 }
{
    match edit {
        Edit::Lines {
            kind,
            first,
            bytes,
            ..
        } => {
            if is_extent(*kind, *first, bytes.as_slice()) {
                4
            } else {
                1
            }
        }
        _ => 0,
    }
}

/// What changes on the pages that an edit puts lines into.
fn edit_changes<V: PageView>(
    view: &mut V,
    change: Change<'_>,
    edit: &Edit,
    changes: Changes,
) -> Result<Changes, ViewError>
    ensures image { V.PageView.tells → V.PageView.image view.new ≡ V.PageView.image view.old }
    ensures count_of_blocks { V.PageView.block_count view.new ≡ V.PageView.block_count view.old }
    ensures device { V.PageView.device view.new ≡ V.PageView.device view.old }
    ensures fault { CarriesCount (V.PageView.faults view.old) (V.PageView.faults view.new) result }
    ensures changes { V.PageView.tells → IfOk result (λ c. c ≡ edit_changes (V.PageView.block_count view.old) (page_of (V.PageView.image view.old)) change.entry.inodes.now change.entry.founded change.entry.tx.now change.entry.written.now edit.now changes) }
{
    let Edit::Lines { page, .. } = edit else {
        return Ok(changes);
    };
    let mut changes = changes;
    for i in 0..pages_told(edit) {
        let p = u64::from(*page) + u64::from(i);
        match page_changes(view, change, p, changes) {
            Ok(now) => changes = now,
            Err(e) => return Err(e),
        }
    }
    Ok(changes)
}

/// What changes on all pages that a transaction puts lines into.
pub(crate) fn tx_changes<V: PageView>(
    view: &mut V,
    change: Change<'_>,
) -> Result<Changes, ViewError>
    ensures image { V.PageView.tells → V.PageView.image view.new ≡ V.PageView.image view.old }
    ensures count_of_blocks { V.PageView.block_count view.new ≡ V.PageView.block_count view.old }
    ensures device { V.PageView.device view.new ≡ V.PageView.device view.old }
    ensures fault { CarriesCount (V.PageView.faults view.old) (V.PageView.faults view.new) result }
    ensures changes { V.PageView.tells → IfOk result (λ c. c ≡ tx_changes (V.PageView.block_count view.old) (page_of (V.PageView.image view.old)) change.entry.inodes.now change.entry.founded change.entry.tx.now change.entry.written.now) }
{
    let mut changes = Changes {
        taken: Met::Nothing,
        freed: Met::Nothing,
    };
    for edit in change.tx.as_slice() {
        match edit_changes(view, change, edit, changes) {
            Ok(now) => changes = now,
            Err(e) => return Err(e),
        }
    }
    Ok(changes)
}
