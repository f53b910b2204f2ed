//! What a block of a file holds once bytes are put into the file.

ghost use Rattle.std.specs.Prelude.{◌≡◌, ◌≤◌, ◌<◌, ◌+◌, ◌*◌, ◌-◌, ◌^◌, ◌++◌, ◌∷◌, [], true, length, min, OnOk, OnErr, IfErr, IfOk};
ghost use Rattle.jfs_bits.specs.Field.{put_bytes};
ghost use Rattle.jfs_disk.specs.Image.{page_of};
ghost use Rattle.jfs_data_steps.specs.way.specs.Answer.{is_open, Carries};
ghost use Rattle.jfs_data_steps.specs.After.{AreWholePages};
ghost use Rattle.jfs_write_pages.specs.Pages.{patched, kept, told, old_page, page_for};

use crate::spot::Spot;
use jfs_data_steps::{DataList, DataPage};
use jfs_disk::Page;
use jfs_plain::Refusal;
use jfs_ranges::{PageView, ViewError};

/// Bytes that are put into a file.
#[derive(Clone, Copy)]
pub struct Change<'a> {
    /// The file's size before: what its blocks hold behind it doesn't count.
    pub size: u64,
    /// Where the bytes go.
    pub offset: u64,
    pub bytes: &'a [u8],
}

/// The bytes of a page.
const PAGE: u64 = 4096;

/// Pushes a block of a file with what it is to hold: what it held before the file's end, zeros behind that, and over both the bytes that are put there.
pub fn push_page<V: PageView>(
    view: &mut V,
    spot: &Spot,
    change: &Change,
    out: &mut DataList,
) -> Result<(), Refusal>
    requires block { spot.now.block < V.PageView.block_count view.old }
    requires index { spot.now.index < 2 ^ 50 }
    ensures image { V.PageView.tells → V.PageView.image view.new ≡ V.PageView.image view.old }
    ensures count_of_blocks { V.PageView.block_count view.new ≡ V.PageView.block_count view.old }
    ensures device { V.PageView.device view.new ≡ V.PageView.device view.old }
    ensures fault { Carries (V.PageView.faults view.old) (V.PageView.faults view.new) result }
    ensures only { IfErr result (λ why. is_open why ≡ true) }
    ensures whole { AreWholePages out.old → OnOk result (AreWholePages out.new) }
    ensures pushed { V.PageView.tells → OnOk result (told out.new ≡ told out.old ++ page_for (page_of (V.PageView.image view.old)) change.now.size change.now.offset change.now.bytes.now spot.now ∷ []) }
{
    let start = PAGE * spot.index;
    let stays = change.size.saturating_sub(start).min(PAGE);
    let mut page = match old_of(view, spot) {
        Ok(page) => page,
        Err(e) => return Err(e),
    };
    keep_front(&mut page, stays as usize);
    put_part(&mut page, change, start);
    let block = spot.block;
    match out.push(DataPage { block, page }) {
        Ok(()) => Ok(()),
        Err(_) => Err(Refusal::OutOfMemory),
    }
}

/// What a block of a file holds: zeros where it isn't recorded.
fn old_of<V: PageView>(view: &mut V, spot: &Spot) -> Result<Page, Refusal>
    requires { spot.now.block < V.PageView.block_count view.old }
    ensures image { V.PageView.tells → V.PageView.image view.new ≡ V.PageView.image view.old }
    ensures count_of_blocks { V.PageView.block_count view.new ≡ V.PageView.block_count view.old }
    ensures device { V.PageView.device view.new ≡ V.PageView.device view.old }
    ensures fault { Carries (V.PageView.faults view.old) (V.PageView.faults view.new) result }
    ensures only { IfErr result (λ why. is_open why ≡ true) }
    ensures page { V.PageView.tells → IfOk result (λ page. page.0 ≡ old_page (page_of (V.PageView.image view.old)) spot.now) }
{
    if !spot.recorded {
        return Ok(Page::zeros());
    }
    match view.page(spot.block) {
        Ok(page) => Ok(Page(page.0)),
        Err(ViewError::Read(fault)) => Err(Refusal::IoFault { fault }),
        Err(ViewError::Memory) => Err(Refusal::OutOfMemory),
    }
}

/// Zeros behind the first so many bytes.
fn keep_front(page: &mut Page, count: usize)
    requires { count ≤ 4096 }
    ensures value { page.new.0 ≡ kept count page.old.0 }
    ensures was { length page.old.0 ≡ 4096 }
    ensures size { length page.new.0 ≡ 4096 }
{
    page.0[count..].fill(0);
}

/// Puts those bytes into a page that go there, where it has the file's bytes from `start` on.
fn put_part(page: &mut Page, change: &Change, start: u64)
    requires { length page.old.0 ≡ 4096 }
    ensures size { length page.new.0 ≡ 4096 }
    ensures value { page.new.0 ≡ patched change.now.offset change.now.bytes.now start page.old.0 }
{
    let from = change.offset.saturating_sub(start).min(PAGE) as usize;
    let done = start
        .saturating_sub(change.offset)
        .min(change.bytes.len() as u64) as usize;
    let count = (4096 - from).min(change.bytes.len() - done);
    put_slice(&mut page.0, from, &change.bytes[done..done + count]);
}

/// Puts bytes into a page from `at` on.
fn put_slice(page: &mut [u8; 4096], at: usize, bytes: &[u8])
    requires within { at + length bytes.now ≤ 4096 }
    ensures { page.new ≡ put_bytes at bytes.now page.old }
{
    page[at..at + bytes.len()].copy_from_slice(bytes);
}
