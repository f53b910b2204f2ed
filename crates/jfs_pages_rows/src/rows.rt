//! Calls of the cache, each beside the same call of the model.

ghost use Rattle.std.specs.Prelude.{◌≡◌, ◌<◌, ◌∷◌, [], ℕ, true, IfSome, IfOk, Some};
ghost use Rattle.jfs_ranges.specs.Apply.{touches_edit, touches_tx};
ghost use Rattle.jfs_pages.specs.Dirty.{dirty_of, is_among};
ghost use Rattle.jfs_pages.specs.Kept.{dirty_in};

use crate::plain::{PAGES, Plain, filled};
use jfs_bits::{Blob, PageKind};
use jfs_disk::{MemDisk, Page};
use jfs_pages::{Dirty, HomeError, PageCache};
use jfs_ranges::{Edit, Tx, ViewError};
use std::alloc::{AllocError, Global};

/// A call.
#[derive(Clone, Copy)]
pub enum Do {
    /// An entry puts, from the start of a page's line of 16 bytes on, so many times a byte, and changes the set of a map page.
    Edit(u64, u32, u32, usize, u8, u32),
    Home(u32, u64),
    Put(u32, u8),
    Refresh(u32, u8),
    Forget(u32),
    Sync,
}

/// Whether a call did what the model did. A device call that failed, failed it too.
pub fn step(
    alloc: Global,
    cache: &mut PageCache<MemDisk>,
    plain: &mut Plain,
    call: Do,
) -> Result<bool, AllocError> {
    match call {
        Do::Edit(entry, page, line, count, byte, map) => edit(
            alloc, cache, plain, entry, page, line, count, byte, map,
        ),
        Do::Home(n, told) => Ok(home(cache, plain, n, told)),
        Do::Put(n, byte) => Ok(put(cache, plain, n, byte)),
        Do::Refresh(n, byte) => Ok(refresh(cache, plain, n, byte)),
        Do::Forget(n) => Ok(forget(cache, plain, n)),
        Do::Sync => {
            let _ = cache.sync();
            Ok(true)
        }
    }
}

/// A page that is dirty, found among the dirty ones.
fn find_dirty(cache: &PageCache<MemDisk>, n: u32) -> Option<Dirty>
    ensures { IfSome result (λ dirty. dirty_of (dirty_in cache.now.kept) n ≡ Some dirty) }
{
    for i in 0..PAGES {
        if let Some(dirty) = cache.dirty_at(i) {
            if dirty.page == n {
                return Some(dirty);
            }
        }
    }
    None
}

fn home(cache: &mut PageCache<MemDisk>, plain: &mut Plain, n: u32, told: u64) -> bool {
    let Some(dirty) = find_dirty(cache, n) else {
        return plain.entries(n).is_none();
    };
    match cache.home(n, told) {
        Ok(()) => {
            let due = dirty.last <= told;
            plain.end(n, true);
            due
        }
        Err(HomeError::NotYet { lsn, told: asked }) => {
            lsn == dirty.last && asked == told && told < lsn
        }
        Err(HomeError::WriteFault(_)) => dirty.last <= told,
    }
}

fn put(cache: &mut PageCache<MemDisk>, plain: &mut Plain, n: u32, byte: u8) -> bool {
    if n >= cache.blocks() {
        return false;
    }
    let page = filled(byte);
    if cache.put(n, &page).is_ok() {
        plain.write(n, &page);
    }
    true
}

fn refresh(cache: &mut PageCache<MemDisk>, plain: &mut Plain, n: u32, byte: u8) -> bool {
    if find_dirty(cache, n).is_none() {
        return plain.entries(n).is_none();
    }
    let page = filled(byte);
    cache.refresh(n, &page);
    for at in 0..4096 {
        plain.set(n, at, byte);
    }
    true
}

fn forget(cache: &mut PageCache<MemDisk>, plain: &mut Plain, n: u32) -> bool {
    if find_dirty(cache, n).is_none() {
        return plain.entries(n).is_none();
    }
    cache.forget(n);
    plain.end(n, false);
    true
}

/// So many bytes from a line of a page on.
fn lines(alloc: Global, page: u32, line: u32, count: usize, byte: u8) -> Result<Edit, AllocError> {
    let mut bytes = Blob::new(alloc);
    for _ in 0..count {
        bytes.push(byte)?;
    }
    Ok(Edit::Lines {
        page,
        kind: PageKind::Xtree,
        first: line,
        bytes,
    })
}

/// A transaction of one edit.
fn one(alloc: Global, edit: Edit) -> Result<Tx, AllocError>
    ensures { IfOk result (λ tx. tx ≡ edit ∷ []) }
{
    let mut tx = Tx::new(alloc);
    tx.push(edit)?;
    Ok(tx)
}

/// Whether an edit changes no page from this one on.
fn is_below(edit: &Edit, blocks: u32) -> bool
    ensures { result ≡ true → (n : ℕ) → touches_edit n edit.now ≡ true → n < blocks }
{
    edit.pages().end <= u64::from(blocks)
}

fn edit(
    alloc: Global,
    cache: &mut PageCache<MemDisk>,
    plain: &mut Plain,
    entry: u64,
    page: u32,
    line: u32,
    count: usize,
    byte: u8,
    map: u32,
) -> Result<bool, AllocError> {
    let lines = lines(alloc, page, line, count, byte)?;
    if !is_below(&lines, cache.blocks()) || map >= cache.blocks() {
        return Ok(false);
    }
    let tx = one(alloc, lines)?;
    if !change(cache, &tx, &[map], entry)? {
        return Ok(true);
    }
    // each byte by itself: its place is counted from the start of the disk
    let mut place = u64::from(page) * 4096 + u64::from(line) * 16;
    for _ in 0..count {
        let n = (place / 4096).min(u64::from(PAGES)) as u32;
        plain.touch(n, entry)?;
        plain.set(n, (place % 4096) as usize, byte);
        place = place.saturating_add(1);
    }
    plain.touch(map, entry)?;
    Ok(true)
}

/// Whether the pages could be read, and were changed.
fn change(
    cache: &mut PageCache<MemDisk>,
    tx: &Tx,
    maps: &[u32],
    entry: u64,
) -> Result<bool, AllocError>
    requires tx { (n : ℕ) → touches_tx n tx.now ≡ true → n < cache.old.blocks }
    requires maps { (n : ℕ) → is_among n maps.now ≡ true → n < cache.old.blocks }
{
    match cache.hold(tx, maps) {
        Ok(()) => {}
        Err(ViewError::Read(_)) => return Ok(false),
        Err(ViewError::Memory) => return Err(AllocError),
    }
    cache.edit(tx, maps, entry);
    Ok(true)
}

/// Whether the cache has the model's dirty pages, by rising number, and its pages.
pub fn agrees(cache: &mut PageCache<MemDisk>, plain: &Plain) -> Result<bool, AllocError> {
    for i in 0..=PAGES {
        let wanted = plain.at(i);
        let found = cache.dirty_at(i);
        match (wanted, found) {
            (None, None) => {}
            (Some(n), Some(dirty)) => {
                if dirty.page != n || plain.entries(n) != Some((dirty.first, dirty.last)) {
                    return Ok(false);
                }
            }
            _ => return Ok(false),
        }
    }
    for n in 0..PAGES {
        if !same_page(cache, plain, n)? {
            return Ok(false);
        }
    }
    Ok(true)
}

/// Whether the cache gives the model's page. A read that failed is tried once more.
fn same_page(cache: &mut PageCache<MemDisk>, plain: &Plain, n: u32) -> Result<bool, AllocError> {
    if n >= cache.blocks() {
        return Ok(false);
    }
    match cache.get(n) {
        Ok(page) => return Ok(is_page(page, plain.page(n))),
        Err(ViewError::Memory) => return Err(AllocError),
        Err(ViewError::Read(_)) => {}
    }
    if n >= cache.blocks() {
        return Ok(false);
    }
    match cache.get(n) {
        Ok(page) => Ok(is_page(page, plain.page(n))),
        Err(ViewError::Memory) => Err(AllocError),
        Err(ViewError::Read(_)) => Ok(false),
    }
}

fn is_page(page: &Page, wanted: Option<&Page>) -> bool {
    match wanted {
        Some(wanted) => page.bytes() == wanted.bytes(),
        None => false,
    }
}
