//! Trees of three levels by hand, on a volume that counts its reads.

ghost use Rattle.std.specs.Prelude.{◌≡◌, ◌<◌, ◌≤◌, ◌+◌, ◌*◌, ℕ, [], length};
ghost use Rattle.jfs_bits.specs.Extent.{FitsXad};
ghost use Rattle.jfs_ranges.specs.View.{no_device};
ghost use Rattle.jfs_xtree.specs.Spells.{IsRootSize};
ghost use Rattle.jfs_disk.specs.declared.disk.Part.TheVariants.{Low};

use crate::shelf::{entry, extent, head};
use jfs_bits::{Xad, XadList};
use jfs_disk::{Fault, Page, Part};
use jfs_ranges::{PageView, Tx, ViewError};
use jfs_xtree::{XtError, cut_to, extents};
use std::alloc::{AllocError, Global};

/// A volume of 64 blocks, of which the first ten are pages. One of them may be such that it can't be read.
#[derive(Drop)]
pub struct Rack {
    pages: Vec<Page>,
    pub bad: u32,
    pub faults: u64,
    pub reads: u64,
}

impl PageView for Rack {
    ghost block_count = { λ rack. 64 };

    ghost faults = { λ rack. record { part = Low; count = rack.faults } };

    ghost image = { λ rack. [] };

    ghost tells = { ⊥ };

    ghost crashes = { ⊥ };

    ghost device = { λ rack. no_device };

    ghost has_pages = { λ rack told. absurd told };

    fn blocks(&self) -> u32 {
        64
    }

    fn page(&mut self, n: u32) -> Result<&Page, ViewError> {
        if n == self.bad {
            self.faults = self.faults.saturating_add(1);
            return Err(ViewError::Read(Fault {
                part: Part::Low,
                count: self.faults,
            }));
        }
        self.reads = self.reads.saturating_add(1);
        match self.pages.get(n as usize) {
            Some(page) => Ok(page),
            None => Err(ViewError::Memory),
        }
    }
}

/// An entry of a page: so many blocks of the file from this one on, at that block.
pub type Blocks = (u32, u16, u32);

impl Rack {
    /// Pages of zeros.
    fn new(alloc: Global) -> Result<Rack, AllocError> {
        let mut pages = Vec::new(alloc);
        for _ in 0..10 {
            pages.push(Page::zeros())?;
        }
        Ok(Rack {
            pages,
            bad: 64,
            faults: 0,
            reads: 0,
        })
    }

    /// Pages 1 and 2 have the children 3 and 4, and 5 and 6, which are leaves.
    pub fn three_levels(alloc: Global) -> Result<Rack, AllocError> {
        let mut rack = Rack::new(alloc)?;
        rack.inner(1, (0, 1, 3), (8, 1, 4));
        rack.inner(2, (40, 1, 5), (50, 1, 6));
        rack.leaf(3, (3, 2, 20), (5, 1, 23));
        rack.leaf(4, (8, 1, 30), (12, 2, 31));
        rack.leaf(5, (40, 1, 33), (44, 6, 40));
        rack.leaf(6, (50, 4, 34), (60, 1, 38));
        Ok(rack)
    }

    /// Page `n` has the child `n + 1` alone, for pages 1 to `last`, and the page behind them is a leaf.
    pub fn chain(alloc: Global, last: u32) -> Result<Rack, AllocError> {
        let mut rack = Rack::new(alloc)?;
        for n in 1..10 {
            rack.inner(n, (0, 1, n.saturating_add(1)), (1, 1, 60));
            rack.head(n, 4, 3, 256);
        }
        rack.leaf(last.saturating_add(1), (3, 2, 20), (5, 1, 23));
        Ok(rack)
    }

    /// Page `n` names the page behind it ten times, for pages 1 to `last`, with keys ten blocks apart, and the page behind them is a leaf.
    pub fn ten(alloc: Global, last: u32) -> Result<Rack, AllocError> {
        let mut rack = Rack::new(alloc)?;
        for n in 1..last.saturating_add(1) {
            rack.name_ten(n);
        }
        rack.leaf(last.saturating_add(1), (3, 2, 20), (5, 1, 23));
        Ok(rack)
    }

    fn name_ten(&mut self, n: u32) {
        if let Some(page) = self.pages.get_mut(n as usize) {
            head(&mut page.0, 4, 12, 256);
            for i in 0..10u8 {
                let key = u32::from(i) * 10;
                entry(&mut page.0, usize::from(i), key, 1, n.saturating_add(1));
            }
        }
    }

    /// Page `n` is a leaf with two extents.
    pub fn leaf(&mut self, n: u32, first: Blocks, second: Blocks) {
        self.put(n, 2, first, second);
    }

    /// Page `n` is an inner page with two children.
    pub fn inner(&mut self, n: u32, first: Blocks, second: Blocks) {
        self.put(n, 4, first, second);
    }

    fn put(&mut self, n: u32, flag: u8, first: Blocks, second: Blocks) {
        if let Some(page) = self.pages.get_mut(n as usize) {
            head(&mut page.0, flag, 4, 256);
            entry(&mut page.0, 0, first.0, first.1, first.2);
            entry(&mut page.0, 1, second.0, second.1, second.2);
        }
    }

    /// The header of page `n`: its flag, the slot behind the last entry, and the number of slots.
    pub fn head(&mut self, n: u32, flag: u8, next: u16, slots: u16) {
        if let Some(page) = self.pages.get_mut(n as usize) {
            head(&mut page.0, flag, next, slots);
        }
    }
}

/// A root with two children: page 1, and this one with its key.
pub fn root(second: Blocks) -> [u8; 288] {
    let mut root = [0; 288];
    head(&mut root, 0x85, 4, 18);
    entry(&mut root, 0, 0, 1, 1);
    entry(&mut root, 1, second.0, second.1, second.2);
    root
}

/// The extents.
pub fn listed(alloc: Global, rack: &mut Rack, root: &[u8]) -> Result<XadList, XtError>
    requires { IsRootSize (length root.now) }
{
    extents(alloc, rack, root)
}

/// Whether there is a list of extents.
pub fn is_listed(alloc: Global, rack: &mut Rack, root: &[u8; 288]) -> bool {
    listed(alloc, rack, root).is_ok()
}

/// Whether the extents are these.
pub fn lists(alloc: Global, rack: &mut Rack, root: &[u8; 288], all: &[Blocks]) -> bool {
    match listed(alloc, rack, root) {
        Ok(found) => found.len() == all.len() && are(found.as_slice(), all),
        Err(_) => false,
    }
}

fn are(found: &[Xad], all: &[Blocks]) -> bool {
    for (x, blocks) in found.iter().zip(all.iter()) {
        if *x != extent(blocks.0, blocks.1, blocks.2) {
            return false;
        }
    }
    true
}

/// Whether the list is refused for this.
pub fn refuses(alloc: Global, rack: &mut Rack, root: &[u8; 288], why: XtError) -> bool {
    match listed(alloc, rack, root) {
        Ok(_) => false,
        Err(e) => e == why,
    }
}

fn cut(
    alloc: Global,
    rack: &mut Rack,
    root: &mut [u8; 288],
    bound: u64,
    tx: &mut Tx,
) -> Result<(), XtError> {
    cut_to(alloc, rack, root, bound, tx)
}

/// Whether a copy of the tree is cut at a block of the file.
pub fn cuts(alloc: Global, rack: &mut Rack, root: &[u8; 288], bound: u64) -> bool {
    let mut copy = *root;
    let mut tx = Tx::new(alloc);
    cut(alloc, rack, &mut copy, bound, &mut tx).is_ok()
}

/// Whether the cut is refused for this, and tells nothing.
pub fn refuses_cut(
    alloc: Global,
    rack: &mut Rack,
    root: &[u8; 288],
    bound: u64,
    why: XtError,
) -> bool {
    let mut copy = *root;
    let mut tx = Tx::new(alloc);
    cut(alloc, rack, &mut copy, bound, &mut tx) == Err(why) && copy == *root && tx.len() == 0
}
