//! A file on a volume in memory, and beside its tree the plain list of its extents.

ghost use Rattle.std.specs.Prelude.{◌≡◌, ◌<◌, ◌≤◌, ◌+◌, ℕ, [], ◌∷◌, IfOk, length};
ghost use Rattle.jfs_ranges.specs.View.{no_device};
ghost use Rattle.jfs_xtree.specs.Node.{IsGood};
ghost use Rattle.jfs_disk.specs.declared.disk.Part.TheVariants.{Low};

use jfs_bits::{Pxd, PxdList, Xad};
use jfs_disk::Page;
use jfs_ranges::{Edit, PageView, Tx, ViewError, apply};
use jfs_xtree::{XtError, add, cut_to, lookup, new_root};
use std::alloc::{AllocError, Global};

/// The pages of a volume of 64 blocks.
#[derive(Drop)]
pub struct Volume {
    pages: Vec<Page>,
}

impl PageView for Volume {
    ghost block_count = { λ volume. 64 };

    ghost faults = { λ volume. record { part = Low; count = 0 } };

    ghost image = { λ volume. [] };

    ghost tells = { ⊥ };

    ghost crashes = { ⊥ };

    ghost device = { λ volume. no_device };

    ghost has_pages = { λ volume told. absurd told };

    fn blocks(&self) -> u32 {
        64
    }

    fn page(&mut self, n: u32) -> Result<&Page, ViewError> {
        match self.pages.get(n as usize) {
            Some(page) => Ok(page),
            None => Err(ViewError::Memory),
        }
    }
}

/// A file whose tree's pages are the blocks before `next`, and what was added to it, in the order of the calls.
#[derive(Drop)]
pub struct File {
    volume: Volume,
    pub root: [u8; 288],
    next: u32,
    plain: Vec<Xad>,
}

impl File {
    /// No extent, and no page.
    pub fn new(alloc: Global) -> Result<File, AllocError> {
        let mut pages = Vec::new(alloc);
        for _ in 0..64 {
            pages.push(Page::zeros())?;
        }
        let mut root = [0; 288];
        new_root(&mut root);
        Ok(File {
            volume: Volume { pages },
            root,
            next: 0,
            plain: Vec::new(alloc),
        })
    }

    /// A byte of a page; 255 where there is none.
    pub fn byte(&self, page: u8, at: usize) -> u8 {
        match self.volume.pages.get(usize::from(page)) {
            Some(page) => match page.bytes().get(at) {
                Some(byte) => *byte,
                None => 255,
            },
            None => 255,
        }
    }

    /// Page `n`.
    pub fn page(&mut self, n: u32) -> Option<&mut Page> {
        self.volume.pages.get_mut(n as usize)
    }

    /// How many pages the tree took.
    pub fn pages(&self) -> u32 {
        self.next
    }

    /// Adds an extent to the tree, and where it is taken, to the plain list.
    pub fn adds(&mut self, alloc: Global, x: Xad) -> Result<(), XtError>
        requires { IsGood 64 x }
    {
        let mut tx = Tx::new(alloc);
        let first = self.next.min(56);
        let left = self.add_with(alloc, x, first, &mut tx)?;
        let taken = 8usize.saturating_sub(left) as u32;
        self.next = self.next.saturating_add(taken);
        self.applies(&tx);
        match self.plain.push(x) {
            Ok(()) => Ok(()),
            Err(_) => Err(XtError::View(ViewError::Memory)),
        }
    }

    /// Adds an extent to the tree with eight blocks from `first` on; how many of these are left.
    fn add_with(&mut self, alloc: Global, x: Xad, first: u32, tx: &mut Tx) -> Result<usize, XtError>
        requires extent { IsGood 64 x }
        requires first { first ≤ 56 }
    {
        let Ok(mut fresh) = eight(alloc, first) else {
            return Err(XtError::View(ViewError::Memory));
        };
        match add(alloc, &mut self.volume, &mut self.root, x, &mut fresh, tx) {
            Ok(()) => Ok(fresh.len()),
            Err(e) => Err(e),
        }
    }

    /// Cuts the tree at a block, and the plain list too; what the transaction tells of free pages and blocks.
    pub fn cuts(&mut self, alloc: Global, bound: u64) -> Result<Told, XtError> {
        let mut tx = Tx::new(alloc);
        self.cut_with(alloc, bound, &mut tx)?;
        self.applies(&tx);
        self.cuts_plain(bound);
        Ok(count_told(&tx))
    }

    fn cut_with(&mut self, alloc: Global, bound: u64, tx: &mut Tx) -> Result<(), XtError> {
        cut_to(alloc, &mut self.volume, &mut self.root, bound, tx)
    }

    fn cuts_plain(&mut self, bound: u64) {
        for x in self.plain.iter_mut() {
            let left = bound.saturating_sub(x.offset);
            if u64::from(x.at.len) > left {
                x.at.len = left as u32;
            }
        }
    }

    fn applies(&mut self, tx: &Tx) {
        let mut n: u32 = 0;
        for page in self.volume.pages.iter_mut() {
            apply(tx, n, page);
            n = n.saturating_add(1);
        }
    }

    /// Whether the tree gives what the plain list gives, for each block of the file before `end`.
    pub fn agrees(&mut self, end: u64) -> bool {
        for offset in 0..end {
            if self.found(offset) != Ok(self.plain_at(offset)) {
                return false;
            }
        }
        true
    }

    fn found(&mut self, offset: u64) -> Result<Option<Xad>, XtError> {
        lookup(&mut self.volume, &self.root, offset)
    }

    fn plain_at(&self, offset: u64) -> Option<Xad> {
        for x in &self.plain {
            if x.offset <= offset && offset - x.offset < u64::from(x.at.len) {
                return Some(*x);
            }
        }
        None
    }
}

/// What a cut told: how many pages' records aren't to be redone, and how many blocks are free, also those of the pages.
#[derive(Drop, PartialEq, Eq)]
pub struct Told {
    pub pages: u32,
    pub blocks: u64,
}

fn count_told(tx: &Tx) -> Told {
    let mut told = Told {
        pages: 0,
        blocks: 0,
    };
    for edit in tx.as_slice() {
        match edit {
            Edit::NoRedo { .. } => told.pages = told.pages.saturating_add(1),
            Edit::Free(run) => told.blocks = told.blocks.saturating_add(u64::from(run.len)),
            _ => {}
        }
    }
    told
}

/// Eight free blocks from this one on.
fn eight(alloc: Global, first: u32) -> Result<PxdList, AllocError>
    ensures { IfOk result (λ fresh. fresh ≡ record { len = 8; addr = first } ∷ []) }
{
    let mut fresh = PxdList::new(alloc);
    fresh.push(Pxd {
        len: 8,
        addr: u64::from(first),
    })?;
    Ok(fresh)
}

/// So many blocks of a file from `offset` on, 1 to 24, in block 40 of the volume and those behind it.
pub fn blocks(offset: u32, len: u8) -> Xad
    ensures { IsGood 64 result }
{
    Xad {
        flag: 0,
        offset: u64::from(offset),
        at: Pxd {
            len: u32::from(len.max(1).min(24)),
            addr: 40,
        },
    }
}
