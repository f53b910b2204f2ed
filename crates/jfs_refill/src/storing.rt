//! A list of entries that goes to a page of a draft, or to two.

ghost use Rattle.std.specs.Prelude.{◌≡◌, ◌<◌, ◌≤◌, ◌+◌, ◌^◌, ℕ, length, OnOk, IfOk, IfErr, IfSome};
ghost use Rattle.std.specs.List.{All};
ghost use Rattle.jfs_bits.specs.Extent.{FitsXad};
ghost use Rattle.jfs_tree.specs.Call.{StaysBelow, StaysOff};
ghost use Rattle.jfs_tree.specs.Form.{IsFront};
ghost use Rattle.jfs_tree.specs.Taken.{DraftsTaken};
ghost use Rattle.jfs_xtpage.specs.Page.{head_of, IsLaidOut};
ghost use Rattle.jfs_refill.specs.Stored.{Divided, Stored, border};
ghost use Rattle.jfs_refill.specs.Spread.{InnerSpreads, LeafSpreads};

use crate::refilling::refill;
use jfs_bits::{Xad, get_u8, get_u64};
use jfs_disk::Page;
use jfs_tree::{Draft, Sibling, TreeError, page_at, put_one, put_two};
use jfs_xtpage::{XtForm, xt_entry, xt_link, xt_new};
use jfs_xtree::is_leaf;

/// The most entries of a page below a root.
pub const ENTRIES: usize = 254;

/// Puts a list in place of the entries of page `n`, which has these bytes; the draft has the page then. Where the list is too long for a page, a part of it goes to the page
/// at the end of `stack`, which is answered with its first offset: the second half, or what doesn't fit page `n`, where that is to be `full`. The back link of the page behind stays.
pub fn store(
    draft: &mut Draft,
    stack: &mut Vec<u32>,
    n: u32,
    mut page: Page,
    list: &[Xad],
    full: bool,
) -> Result<Option<Sibling<u64>>, TreeError>
    requires page { IsLaidOut page.0 }
    requires slots { (head_of page.0).maxentry ≡ 256 }
    requires most { length list.now ≤ 508 }
    requires fits { All FitsXad list.now }
    requires enough { 254 < length list.now → 0 < length stack.old.items }
    ensures stored { IfOk result (Stored list.now full page.0 n draft.old.pages.items draft.new.pages.items stack.old.items stack.new.items) }
    ensures leaf { (blocks : ℕ) → IfOk result (LeafSpreads blocks list.now page.0 n draft.old.pages.items draft.new.pages.items stack.old.items stack.new.items) }
    ensures inner { (blocks : ℕ) → IfOk result (InnerSpreads blocks list.now page.0 n draft.old.pages.items draft.new.pages.items stack.old.items stack.new.items) }
    ensures keeps { OnOk result (StaysOff n draft.old.pages.items draft.new.pages.items stack.old.items stack.new.items) }
    ensures drafted { OnOk result (DraftsTaken draft.old.pages.items draft.new.pages.items stack.old.items stack.new.items) }
    ensures below { StaysBelow stack.old.items stack.new.items result }
    ensures front { IsFront stack.new.items stack.old.items }
    ensures key { IfOk result (λ more. IfSome more (λ s. s.key < 2 ^ 40)) }
    ensures cause { IfErr result (λ e. e ≡ TreeError.Memory) }
{
    if list.len() > ENTRIES {
        return split(draft, stack, n, page, list, full);
    }
    refill(&mut page.0, list);
    put_one(draft, n, page)?;
    Ok(None)
}

/// Puts a list that is too long for a page to page `n` and to the page at the end of `stack`.
fn split(
    draft: &mut Draft,
    stack: &mut Vec<u32>,
    n: u32,
    mut page: Page,
    list: &[Xad],
    full: bool,
) -> Result<Option<Sibling<u64>>, TreeError>
    requires page { IsLaidOut page.0 }
    requires slots { (head_of page.0).maxentry ≡ 256 }
    requires long { 254 < length list.now }
    requires most { length list.now ≤ 508 }
    requires fits { All FitsXad list.now }
    requires enough { 0 < length stack.old.items }
    ensures stored { IfOk result (Stored list.now full page.0 n draft.old.pages.items draft.new.pages.items stack.old.items stack.new.items) }
    ensures keeps { OnOk result (StaysOff n draft.old.pages.items draft.new.pages.items stack.old.items stack.new.items) }
    ensures drafted { OnOk result (DraftsTaken draft.old.pages.items draft.new.pages.items stack.old.items stack.new.items) }
    ensures below { StaysBelow stack.old.items stack.new.items result }
    ensures front { IsFront stack.new.items stack.old.items }
    ensures key { IfOk result (λ more. IfSome more (λ s. s.key < 2 ^ 40)) }
    ensures cause { IfErr result (λ e. e ≡ TreeError.Memory) }
{
    let Some(q) = stack.pop() else {
        unreachable!();
    };
    let mut second = Page::zeros();
    let key = divide(n, q, &mut page.0, &mut second.0, list, full);
    put_two(draft, n, page, q, second)?;
    Ok(Some(Sibling { key, page: q }))
}

/// Puts the first part of a list in place of the entries of page `n`, and the rest into the new page `q`, whose first offset is answered.
fn divide(n: u32, q: u32, bytes: &mut [u8], second: &mut [u8], list: &[Xad], full: bool) -> u64
    requires page { IsLaidOut bytes.old }
    requires slots { (head_of bytes.old).maxentry ≡ 256 }
    requires size { length second.old ≡ 4096 }
    requires long { 254 < length list.now }
    requires most { length list.now ≤ 508 }
    requires fits { All FitsXad list.now }
    ensures divided { Divided list.now full n q result bytes.old bytes.new second.new }
    ensures key { result < 2 ^ 40 }
{
    xt_new(second, XtForm::Full, is_leaf(get_u8(bytes, 16)), page_at(q));
    let (front, back) = list.split_at(border(full, list.len()));
    refill(bytes, front);
    refill(second, back);
    let next = get_u64(bytes, 0);
    let prev = get_u64(bytes, 8);
    xt_link(bytes, u64::from(q), prev);
    xt_link(second, next, u64::from(n));
    xt_entry(second, 0).offset
}

/// How many of a list's entries the first of two pages gets.
fn border(full: bool, count: usize) -> usize
    requires long { 254 < count }
    requires most { count ≤ 508 }
    ensures is { result ≡ border full count }
    ensures first { result ≤ 254 }
    ensures second { (result < count) × (count ≤ result + 254) }
{
    if full { ENTRIES } else { count / 2 }
}
