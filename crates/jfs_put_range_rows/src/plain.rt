//! The plain list: a file's blocks one by one, and the pages that its entries take.

use jfs_bits::{Pxd, Xad};
use std::alloc::{AllocError, Global};

/// The most entries of a root and of a page.
const ROOT: u64 = 16;

const PAGE: u64 = 254;

/// A block of the file: where it is on the volume, whether it is recorded, and whether an entry begins with it.
#[derive(Clone, Copy, PartialEq, Eq, Debug)]
struct Block {
    addr: u64,
    recorded: bool,
    begins: bool,
}

/// The blocks of a file, and the first block of each leaf below its root; none is there where the root is a leaf.
#[derive(Drop)]
pub struct Plain {
    blocks: Vec<Option<Block>>,
    leaves: Vec<u64>,
}

impl Plain {
    /// A file of holes.
    pub fn new(alloc: Global, size: u64) -> Result<Plain, AllocError> {
        let mut blocks = Vec::new(alloc);
        for _ in 0..size {
            blocks.push(None)?;
        }
        Ok(Plain {
            blocks,
            leaves: Vec::new(alloc),
        })
    }

    fn at(&self, k: u64) -> Option<Block> {
        match self.blocks.get(k as usize) {
            Some(block) => *block,
            None => None,
        }
    }

    fn set(&mut self, k: u64, block: Block) {
        if let Some(place) = self.blocks.get_mut(k as usize) {
            *place = Some(block);
        }
    }

    /// An entry in a hole, which is never merged.
    pub fn adds(&mut self, x: &Xad) {
        for i in 0..u64::from(x.at.len) {
            self.set(
                x.offset.saturating_add(i),
                Block {
                    addr: x.at.addr.saturating_add(i),
                    recorded: x.flag == 0,
                    begins: i == 0,
                },
            );
        }
    }

    /// Writes the extents of a range from left to right, block by block.
    pub fn puts(&mut self, alloc: Global, range: &[Xad]) -> Result<(), AllocError> {
        let end = self.end();
        for x in range {
            self.writes(x);
        }
        self.splits(alloc, end)
    }

    /// The first block of the file behind all entries.
    fn end(&self) -> u64 {
        let mut end = 0;
        let mut k: u64 = 0;
        for block in &self.blocks {
            k = k.saturating_add(1);
            if block.is_some() {
                end = k;
            }
        }
        end
    }

    fn writes(&mut self, x: &Xad) {
        let mut was_hole = false;
        for i in 0..u64::from(x.at.len) {
            let k = x.offset.saturating_add(i);
            let addr = x.at.addr.saturating_add(i);
            let begins = match self.at(k) {
                Some(old) => {
                    let begins = i == 0 || old.begins;
                    was_hole = false;
                    begins
                }
                None => {
                    let first = i == 0 || !was_hole;
                    was_hole = true;
                    first && !self.goes_on(k, addr)
                }
            };
            self.set(
                k,
                Block {
                    addr,
                    recorded: true,
                    begins,
                },
            );
        }
        self.cuts(x.offset.saturating_add(u64::from(x.at.len)));
    }

    /// Whether what is written in a hole at this block continues the recorded block before it.
    fn goes_on(&self, k: u64, addr: u64) -> bool {
        if k == 0 {
            return false;
        }
        match self.at(k - 1) {
            Some(left) => left.recorded && left.addr.saturating_add(1) == addr,
            None => false,
        }
    }

    /// An entry begins here, where one has the block.
    fn cuts(&mut self, k: u64) {
        if let Some(old) = self.at(k) {
            self.set(
                k,
                Block {
                    addr: old.addr,
                    recorded: old.recorded,
                    begins: true,
                },
            );
        }
    }

    /// The entries.
    pub fn list(&self, alloc: Global) -> Result<Vec<Xad>, AllocError> {
        let mut list = Vec::new(alloc);
        let mut offset = 0;
        for block in &self.blocks {
            if let Some(block) = block {
                push_block(&mut list, offset, *block)?;
            }
            offset = offset.saturating_add(1);
        }
        Ok(list)
    }

    /// A leaf whose entries are too many for it gives the second half of them to a new one, the last leaf those that don't fit, where these are past the old end; a root's go
    /// to a page first.
    fn splits(&mut self, alloc: Global, end: u64) -> Result<(), AllocError> {
        let list = self.list(alloc)?;
        if self.leaves.is_empty() {
            if list.len() as u64 > ROOT {
                self.leaves.push(0)?;
            }
            return Ok(());
        }
        let mut leaves = Vec::new(alloc);
        let mut next = 1usize;
        for from in &self.leaves {
            let to = match self.leaves.get(next) {
                Some(to) => *to,
                None => u64::MAX,
            };
            leaves.push(*from)?;
            if let Some(key) = second_part(&list, *from, to, end) {
                leaves.push(key)?;
            }
            next = next.saturating_add(1);
        }
        self.leaves = leaves;
        Ok(())
    }

    /// How many pages the entries take: the leaves, and one above them where a root has no room for all.
    pub fn pages(&self) -> u64 {
        let leaves = self.leaves.len() as u64;
        if leaves > ROOT {
            return leaves.saturating_add(1);
        }
        leaves
    }
}

fn push_block(list: &mut Vec<Xad>, offset: u64, block: Block) -> Result<(), AllocError> {
    if !block.begins {
        if let Some(last) = list.last_mut() {
            last.at.len = last.at.len.saturating_add(1);
        }
        return Ok(());
    }
    list.push(Xad {
        flag: if block.recorded { 0 } else { Xad::NOT_RECORDED },
        offset,
        at: Pxd {
            len: 1,
            addr: block.addr,
        },
    })?;
    Ok(())
}

/// The first block of the second part of the entries from a block of the file on and before another, where they are too many for a page.
fn second_part(list: &[Xad], from: u64, to: u64, end: u64) -> Option<u64> {
    let count = entries_before(list, from, to);
    if count <= PAGE {
        return None;
    }
    let key = nth_entry(list, from, PAGE);
    if to == u64::MAX && key.unwrap_or(0) >= end {
        return key;
    }
    nth_entry(list, from, count / 2)
}

/// How many entries begin at or past a block of the file and before another.
fn entries_before(list: &[Xad], from: u64, to: u64) -> u64 {
    let mut count: u64 = 0;
    for x in list {
        if x.offset >= from && x.offset < to {
            count = count.saturating_add(1);
        }
    }
    count
}

/// Where an entry begins, so many behind the first one at or past a block of the file.
fn nth_entry(list: &[Xad], from: u64, n: u64) -> Option<u64> {
    let mut place: u64 = 0;
    for x in list {
        if x.offset >= from {
            if place == n {
                return Some(x.offset);
            }
            place = place.saturating_add(1);
        }
    }
    None
}
