//! Pages in memory, of which one can't be read.

ghost use Rattle.std.specs.Prelude.{◌≡◌, ◌<◌, ◌≤◌, ◌+◌, ◌*◌, ℕ, [], IfOk, length};
ghost use Rattle.jfs_bits.specs.Extent.{FitsXad};
ghost use Rattle.jfs_ranges.specs.View.{no_device};
ghost use Rattle.jfs_disk.specs.declared.disk.Part.TheVariants.{Low};

use jfs_bits::{Pxd, Xad, put_u8, put_u16, put_xad};
use jfs_disk::{Fault, Page, Part};
use jfs_ranges::{PageView, ViewError};

/// A volume of 64 blocks, whose pages are zeros but for two.
#[derive(Drop)]
pub struct Shelf {
    pub one: Page,
    pub two: Page,
    pub zeros: Page,
    pub bad: u32,
    pub faults: u64,
}

impl Shelf {
    /// Each page can be read.
    pub fn new() -> Shelf {
        Shelf {
            one: Page::zeros(),
            two: Page::zeros(),
            zeros: Page::zeros(),
            bad: 64,
            faults: 0,
        }
    }
}

impl PageView for Shelf {
    ghost block_count = { λ shelf. 64 };

    ghost faults = { λ shelf. record { part = Low; count = shelf.faults } };

    ghost image = { λ shelf. [] };

    ghost tells = { ⊥ };

    ghost crashes = { ⊥ };

    ghost device = { λ shelf. no_device };

    ghost has_pages = { λ shelf told. absurd told };

    fn blocks(&self) -> u32 {
        64
    }

    fn page(&mut self, n: u32) -> Result<&Page, ViewError> {
        if n == self.bad {
            self.faults = self.faults.saturating_add(1);
            return Err(ViewError::Read(Fault {
                part: Part::Low,
                count: self.faults,
            }));
        }
        if n == 1 {
            return Ok(&self.one);
        }
        if n == 2 {
            return Ok(&self.two);
        }
        Ok(&self.zeros)
    }
}

/// A header: its flag, the slot behind the last entry, and the number of slots.
pub fn head(bytes: &mut [u8], flag: u8, next: u16, slots: u16)
    requires { 32 ≤ length bytes.old }
{
    put_u8(bytes, 16, flag);
    put_u16(bytes, 18, next);
    put_u16(bytes, 20, slots);
}

/// Entry `i`: so many blocks of the file from `offset` on, at `addr`.
pub fn entry(bytes: &mut [u8], i: usize, offset: u32, len: u16, addr: u32)
    requires { 48 + 16 * i ≤ length bytes.old }
{
    put_xad(bytes, 32 + 16 * i, extent(offset, len, addr));
}

pub fn extent(offset: u32, len: u16, addr: u32) -> Xad
    ensures { FitsXad result }
{
    Xad {
        flag: 0,
        offset: u64::from(offset),
        at: Pxd {
            len: u32::from(len),
            addr: u64::from(addr),
        },
    }
}
