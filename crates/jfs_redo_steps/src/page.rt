//! Redo of a page.

ghost use Rattle.std.specs.Prelude.{◌≡◌, true, length, if◌then◌else◌};
ghost use Rattle.jfs_ranges.specs.Apply.{apply_edit};
ghost use Rattle.jfs_records.specs.Redo.{is_noredo, redone};
ghost use Rattle.jfs_redo_steps.specs.ByPage.{edits_in};

use crate::index::PageEdit;
use jfs_disk::Page;
use jfs_ranges::{Edit, apply_edit};

/// Makes of page `n` what its edits made of it, one after the other: each line is put, and where an edit frees the page it is again what it was before all of them. (JFS Log: a NOREDOPAGE
/// record ends what redo does to a page before it.) Answers whether it is as it was.
pub(crate) fn redo_page(edits: &[PageEdit<'_>], n: u32, page: &mut Page) -> bool
    ensures page { page.new.0 ≡ redone n page.old.0 page.old.0 (edits_in edits.now) }
    ensures same { result ≡ true → page.new.0 ≡ page.old.0 }
{
    let mut left = Page::zeros();
    copy(page, &mut left);
    redo_edits(edits, n, &left, page);
    page.bytes() == left.bytes()
}

/// The same; `left` is what the page was before all of them.
fn redo_edits(edits: &[PageEdit<'_>], n: u32, left: &Page, page: &mut Page)
    ensures { page.new.0 ≡ redone n left.now.0 page.old.0 (edits_in edits.now) }
{
    for entry in edits {
        redo_edit(entry.edit, n, left, page);
    }
}

fn redo_edit(edit: &Edit, n: u32, left: &Page, page: &mut Page)
    ensures { page.new.0 ≡ (if is_noredo n edit.now then left.now.0 else apply_edit n edit.now page.old.0) }
{
    if frees(edit, n) {
        copy(left, page);
    } else {
        apply_edit(edit, n, page);
    }
}

/// Whether an edit frees the page.
fn frees(edit: &Edit, n: u32) -> bool
    ensures { result ≡ is_noredo n edit.now }
{
    match edit {
        Edit::NoRedo { page } => *page == n,
        Edit::Lines { .. } | Edit::Alloc(_) | Edit::Free(_) => false,
    }
}

fn copy(from: &Page, into: &mut Page)
    ensures bytes { into.new.0 ≡ from.now.0 }
    ensures size { length from.now.0 ≡ 4096 }
{
    into.0.copy_from_slice(from.bytes());
}
