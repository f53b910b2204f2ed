//! The edits of transactions by the pages that they change or free.

ghost use Rattle.std.specs.Prelude.{◌≡◌, ◌≤◌, ◌<◌, ◌+◌, ◌&&◌, ◌==◌, ℕ, nat_le, nat_lt, [], ◌∷◌, length, drop, OnOk, IfOk};
ghost use Rattle.std.specs.List.{prefix_len};
ghost use Rattle.jfs_records.specs.Redo.{all_of};
ghost use Rattle.jfs_redo_steps.specs.ByPage.{concerns, edits_in, edits_at, RiseFrom, IsIndex, HasMore, HasRange};

use jfs_ranges::{Edit, PageRange, Tx};
use std::alloc::{AllocError, Global};

/// An edit, and a page that it changes or frees.
#[derive(Clone, Copy)]
pub(crate) struct PageEdit<'a> {
    pub(crate) page: u32,
    pub(crate) edit: &'a Edit,
}

/// The edits of transactions that change or free one of the first `count` pages, once for each of these: in the order of the pages, and of one page in the order in which they were made.
pub(crate) fn edits_by_page<'a>(
    alloc: Global,
    transactions: &'a [Tx],
    count: u32,
) -> Result<Vec<PageEdit<'a>>, AllocError>
    ensures { IfOk result (λ index. IsIndex count (all_of transactions.now) index.items) }
{
    let mut index = Vec::new(alloc);
    for tx in transactions {
        add_tx(tx, count, &mut index)?;
    }
    index.sort_by_key(|entry| entry.page)?;
    Ok(index)
}

/// Adds the edits of a transaction.
fn add_tx<'a>(tx: &'a Tx, count: u32, index: &mut Vec<PageEdit<'a>>) -> Result<(), AllocError>
    ensures { OnOk result (HasMore count tx.now index.old.items index.new.items) }
{
    for edit in tx.as_slice() {
        add_edit(edit, count, index)?;
    }
    Ok(())
}

/// Adds an edit, for each page that it changes or frees.
fn add_edit<'a>(edit: &'a Edit, count: u32, index: &mut Vec<PageEdit<'a>>) -> Result<(), AllocError>
    ensures { OnOk result (HasMore count (edit.now ∷ []) index.old.items index.new.items) }
{
    let pages = pages_of(edit);
    add_range(edit, pages.first, pages.end, count, index)?;
    Ok(())
}

/// Adds an edit for each page from `first` on before `end`.
fn add_range<'a>(
    edit: &'a Edit,
    first: u64,
    end: u64,
    count: u32,
    index: &mut Vec<PageEdit<'a>>,
) -> Result<(), AllocError>
    ensures { OnOk result (HasRange count first end edit.now index.old.items index.new.items) }
{
    let stop = end.min(u64::from(count));
    for page in first..stop {
        index.push(PageEdit {
            page: page as u32,
            edit,
        })?;
    }
    Ok(())
}

/// The pages that an edit changes or frees.
fn pages_of(edit: &Edit) -> PageRange
    ensures { (p : ℕ) → concerns p edit.now ≡ (nat_le result.first p && nat_lt p result.end) }
{
    match edit {
        Edit::NoRedo { page } => {
            let first = u64::from(*page);
            PageRange {
                first,
                end: first + 1,
            }
        }
        Edit::Lines { .. } | Edit::Alloc(_) | Edit::Free(_) => edit.pages(),
    }
}

/// The entries of that page, which stand in an index from place `at` on.
pub(crate) fn own_from<'a, 'b>(
    index: &'b [PageEdit<'a>],
    at: usize,
    page: u32,
) -> &'b [PageEdit<'a>]
    requires there { at ≤ length index.now }
    requires rising { RiseFrom page (drop at index.now) }
    ensures within { at + length result.now ≤ length index.now }
    ensures own { edits_in result.now ≡ edits_at page (drop at index.now) }
    ensures rising { RiseFrom (page + 1) (drop (at + length result.now) index.now) }
    ensures behind { (p : ℕ) → page < p → edits_at p (drop (at + length result.now) index.now) ≡ edits_at p (drop at index.now) }
{
    let (_, rest) = index.split_at(at);
    let (own, _) = rest.split_at(count_own(rest, page));
    own
}

/// How many of an index's first entries are of that page.
fn count_own(index: &[PageEdit<'_>], page: u32) -> usize
    ensures count { result ≡ prefix_len (λ x. x.page == page) index.now }
    ensures within { result ≤ length index.now }
{
    index.iter().take_while(|entry| entry.page == page).count()
}
