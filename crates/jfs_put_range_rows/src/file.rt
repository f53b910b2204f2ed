//! A file on a volume in memory.

ghost use Rattle.std.specs.Prelude.{◌≡◌, ◌<◌, ◌≤◌, ◌+◌, ℕ, [], ◌∷◌, IfOk, length};
ghost use Rattle.jfs_ranges.specs.View.{no_device};
ghost use Rattle.jfs_xtree.specs.Node.{IsGood};
ghost use Rattle.jfs_disk.specs.declared.disk.Part.TheVariants.{Low};

use crate::ready::is_range;
use jfs_bits::{Pxd, PxdList, Xad, XadList};
use jfs_disk::{Fault, Page, Part};
use jfs_put_range::put_range;
use jfs_ranges::{Edit, PageView, Tx, ViewError, apply};
use jfs_xtree::{XtError, add, extents, new_root};
use std::alloc::{AllocError, Global};

/// A volume of 8,192 blocks, of which the first 512 are pages, that counts its reads. One of them may be such that it can't be read.
#[derive(Drop)]
pub struct Volume {
    pages: Vec<Page>,
    bad: u32,
    faults: u64,
    reads: u64,
}

impl PageView for Volume {
    ghost block_count = { λ volume. 8192 };

    ghost faults = { λ volume. record { part = Low; count = volume.faults } };

    ghost image = { λ volume. [] };

    ghost tells = { ⊥ };

    ghost crashes = { ⊥ };

    ghost device = { λ volume. no_device };

    ghost has_pages = { λ volume told. absurd told };

    fn blocks(&self) -> u32 {
        8192
    }

    fn page(&mut self, n: u32) -> Result<&Page, ViewError> {
        if n == self.bad {
            self.faults = self.faults.saturating_add(1);
            return Err(ViewError::Read(Fault {
                part: Part::Low,
                count: self.faults,
            }));
        }
        self.reads = self.reads.saturating_add(1);
        match self.pages.get(n as usize) {
            Some(page) => Ok(page),
            None => Err(ViewError::Memory),
        }
    }
}

/// A file whose tree's pages are the blocks before `next`.
#[derive(Drop)]
pub struct File {
    volume: Volume,
    pub root: [u8; 288],
    next: u32,
}

impl File {
    /// No extent, and no page.
    pub fn new(alloc: Global) -> Result<File, AllocError> {
        let mut pages = Vec::new(alloc);
        for _ in 0..512 {
            pages.push(Page::zeros())?;
        }
        let mut root = [0; 288];
        new_root(&mut root);
        Ok(File {
            volume: Volume {
                pages,
                bad: 8192,
                faults: 0,
                reads: 0,
            },
            root,
            next: 0,
        })
    }

    /// How many pages the tree has.
    pub fn pages(&self) -> u32 {
        self.next
    }

    /// The blocks before this one are pages of the tree.
    pub fn keeps(&mut self, next: u32) {
        self.next = next;
    }

    /// From now on this page can't be read.
    pub fn loses(&mut self, n: u32) {
        self.volume.bad = n;
    }

    /// How often a page was read.
    pub fn reads(&self) -> u64 {
        self.volume.reads
    }

    /// Adds an extent to the tree.
    pub fn adds(&mut self, alloc: Global, x: Xad) -> Result<Result<(), XtError>, AllocError>
        requires { IsGood 8192 x }
    {
        let mut fresh = free_from(alloc, self.next)?;
        let mut tx = Tx::new(alloc);
        let answer = add(
            alloc,
            &mut self.volume,
            &mut self.root,
            x,
            &mut fresh,
            &mut tx,
        );
        if answer.is_ok() {
            self.takes(&tx);
        }
        Ok(answer)
    }

    /// Writes a range into the tree; `None` where it can't be written at once.
    pub fn puts(
        &mut self,
        alloc: Global,
        range: &[Xad],
    ) -> Result<Option<Result<(), XtError>>, AllocError> {
        let mut xs = XadList::new(alloc);
        xs.extend_from_slice(range)?;
        if !is_range(xs.as_slice()) {
            return Ok(None);
        }
        let mut fresh = free_from(alloc, self.next)?;
        let mut tx = Tx::new(alloc);
        let answer = put_range(
            alloc,
            &mut self.volume,
            &mut self.root,
            &xs,
            &mut fresh,
            &mut tx,
        );
        if answer.is_ok() {
            self.takes(&tx);
        }
        Ok(Some(answer))
    }

    /// Applies what was told, and counts the pages that were taken.
    fn takes(&mut self, tx: &Tx) {
        for edit in tx.as_slice() {
            if let Edit::Alloc(run) = edit {
                self.next = self.next.saturating_add(run.len);
            }
        }
        let mut n: u32 = 0;
        for page in self.volume.pages.iter_mut() {
            // the pages from this one on aren't the tree's
            if n >= self.next {
                return;
            }
            apply(tx, n, page);
            n = n.saturating_add(1);
        }
    }

    /// The list that the tree has.
    pub fn list(&mut self, alloc: Global) -> Result<XadList, XtError> {
        extents(alloc, &mut self.volume, &self.root)
    }

    /// Whether it has this list.
    pub fn has(&mut self, alloc: Global, list: &[Xad]) -> Result<bool, XtError> {
        Ok(self.list(alloc)?.as_slice() == list)
    }

    /// Whether a range is written, and the tree has this list then.
    pub fn makes(
        &mut self,
        alloc: Global,
        range: &[Xad],
        list: &[Xad],
    ) -> Result<bool, AllocError> {
        let answer = self.puts(alloc, range)?;
        Ok(answer == Some(Ok(())) && self.has(alloc, list) == Ok(true))
    }

    /// A byte of a page; 255 where there is none.
    pub fn byte(&self, page: u8, at: usize) -> u8 {
        match self.volume.pages.get(usize::from(page)) {
            Some(page) => match page.bytes().get(at) {
                Some(byte) => *byte,
                None => 255,
            },
            None => 255,
        }
    }

    /// Page `n`.
    pub fn page(&mut self, n: u32) -> Option<&mut Page> {
        self.volume.pages.get_mut(n as usize)
    }
}

/// 24 free blocks, from this one on where there are so many.
fn free_from(alloc: Global, first: u32) -> Result<PxdList, AllocError>
    ensures { IfOk result (λ fresh. (addr : ℕ) × (addr ≤ 488) × (fresh ≡ record { len = 24; addr = addr } ∷ [])) }
{
    let mut fresh = PxdList::new(alloc);
    fresh.push(Pxd {
        len: 24,
        addr: u64::from(first.min(488)),
    })?;
    Ok(fresh)
}

/// Eight blocks at each second place, of which none continues another: the one that comes behind so many such eights.
pub fn eight(alloc: Global, before: u64) -> Result<Vec<Xad>, AllocError> {
    let mut range = Vec::new(alloc);
    for j in 0..8 {
        let k = before.saturating_mul(16).saturating_add(2 * j);
        range.push(recorded(k, 1, (k % 4096).saturating_add(1000)))?;
    }
    Ok(range)
}

/// A recorded extent.
pub fn recorded(offset: u64, len: u32, addr: u64) -> Xad {
    Xad {
        flag: 0,
        offset,
        at: Pxd { len, addr },
    }
}

/// An extent that isn't recorded.
pub fn reserved(offset: u64, len: u32, addr: u64) -> Xad {
    Xad {
        flag: Xad::NOT_RECORDED,
        offset,
        at: Pxd { len, addr },
    }
}

/// An entry that isn't recorded, as it can be added: so many blocks of the file from one on, in the blocks of the volume from another on.
pub fn entry_of(offset: u16, len: u8, addr: u16) -> Xad
    requires { (0 < len) × (addr ≤ 7000) }
    ensures { IsGood 8192 result }
{
    Xad {
        flag: Xad::NOT_RECORDED,
        offset: u64::from(offset),
        at: Pxd {
            len: u32::from(len),
            addr: u64::from(addr),
        },
    }
}
