//! Mixed ranges in a file of many extents, beside the plain list: holes, entries that aren't recorded, recorded ones, and all of them at once.

use crate::file::{File, entry_of, recorded};
use crate::links::is_linked;
use crate::plain::Plain;
use jfs_bits::Xad;
use std::alloc::{AllocError, Global};
use std::test::*;

/// The blocks of the file.
const SIZE: u64 = 2000;

/// Numbers in an order that looks like chance.
#[derive(Drop)]
struct Dice {
    state: u64,
}

impl Dice {
    /// A number below `most`.
    fn below(&mut self, most: u64) -> u64 {
        self.state = self
            .state
            .wrapping_mul(6364136223846793005)
            .wrapping_add(1442695040888963407);
        let high = self.state >> 33;
        if most == 0 { 0 } else { high % most }
    }
}

/// Extents within 17 blocks from one on, each with one to three blocks, at their own blocks of the volume or shifted.
fn throw(alloc: Global, dice: &mut Dice, first: u64) -> Result<Vec<Xad>, AllocError> {
    let mut range = Vec::new(alloc);
    let mut k: u64 = 0;
    let step = dice.below(3);
    for _ in 0..17 {
        let len = dice.below(3).saturating_add(1);
        if k.saturating_add(len) > 17 {
            return Ok(range);
        }
        let offset = first.saturating_add(k);
        let shift = if dice.below(2) == 0 { 0 } else { 200 };
        range.push(recorded(offset, len as u32, offset.saturating_add(1000 + shift)))?;
        k = k.saturating_add(len);
        if step > 0 {
            k = k.saturating_add(dice.below(step));
        }
    }
    Ok(range)
}

/// Whether the tree and the plain list have the same entries, and the tree so many pages, each of which names its neighbours.
fn agree(alloc: Global, file: &mut File, plain: &Plain) -> Result<bool, AllocError> {
    let list = plain.list(alloc)?;
    Ok(
        file.has(alloc, list.as_slice()) == Ok(true)
            && u64::from(file.pages()) == plain.pages()
            && is_linked(file),
    )
}

/// Writes a range into both, and compares them.
fn puts(
    alloc: Global,
    file: &mut File,
    plain: &mut Plain,
    range: &[Xad],
) -> Result<bool, AllocError> {
    if file.puts(alloc, range)? != Some(Ok(())) {
        return Ok(false);
    }
    plain.puts(alloc, range)?;
    agree(alloc, file, plain)
}

/// Ten entries that aren't recorded, in the root.
fn reserves(alloc: Global, file: &mut File, plain: &mut Plain) -> Result<bool, AllocError> {
    for i in 0..10u16 {
        let x = entry_of(i * 190 + 60, 90, 1060 + i * 190);
        if file.adds(alloc, x)? != Ok(()) {
            return Ok(false);
        }
        plain.adds(&x);
    }
    agree(alloc, file, plain)
}

/// Each second block of the file up to one, 8 at a time: no two of them continue each other.
fn in_twos(
    alloc: Global,
    file: &mut File,
    plain: &mut Plain,
    count: u64,
) -> Result<bool, AllocError> {
    for i in 0..count {
        let mut range = Vec::new(alloc);
        for j in 0..8 {
            let k = i.saturating_mul(16).saturating_add(2 * j);
            range.push(recorded(k, 1, (k % 4096).saturating_add(1000)))?;
        }
        if !puts(alloc, file, plain, range.as_slice())? {
            return Ok(false);
        }
    }
    Ok(true)
}

/// So many ranges by chance.
fn by_chance(
    alloc: Global,
    file: &mut File,
    plain: &mut Plain,
    seed: u64,
    count: u64,
) -> Result<bool, AllocError> {
    let mut dice = Dice { state: seed };
    for _ in 0..count {
        let first = dice.below(SIZE - 17);
        let range = throw(alloc, &mut dice, first)?;
        if !range.is_empty() && !puts(alloc, file, plain, range.as_slice())? {
            return Ok(false);
        }
    }
    Ok(true)
}

#[test]
fn leaves_split_anywhere(rt: HostRuntime) -> Result<(), Fail> {
    let mut file = File::new(rt.alloc())?;
    let mut plain = Plain::new(rt.alloc(), SIZE)?;
    assert!(rt; reserves(rt.alloc(), &mut file, &mut plain)?);
    assert!(rt; in_twos(rt.alloc(), &mut file, &mut plain, 100)?);
    assert!(rt; by_chance(rt.alloc(), &mut file, &mut plain, 1, 200)?);
    assert!(rt; file.pages() >= 6);
    Ok(())
}

#[test]
fn from_nothing(rt: HostRuntime) -> Result<(), Fail> {
    let mut file = File::new(rt.alloc())?;
    let mut plain = Plain::new(rt.alloc(), SIZE)?;
    assert!(rt; reserves(rt.alloc(), &mut file, &mut plain)?);
    assert!(rt; by_chance(rt.alloc(), &mut file, &mut plain, 7, 300)?);
    assert!(rt; file.pages() >= 3);
    Ok(())
}

#[test]
fn a_root_without_room_for_children(rt: HostRuntime) -> Result<(), Fail> {
    let mut file = File::new(rt.alloc())?;
    let mut plain = Plain::new(rt.alloc(), 8400)?;
    assert!(rt; in_twos(rt.alloc(), &mut file, &mut plain, 520)?);
    // 17 leaves or more, and the page above them
    assert!(rt; file.pages() >= 18);
    Ok(())
}
