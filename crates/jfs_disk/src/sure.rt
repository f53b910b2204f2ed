//! A disk in memory that never fails.

ghost use Rattle.std.specs.Prelude.{◌≡◌, ◌<◌, ◌≤◌, [], IfOk, IsOk};
ghost use Rattle.std.specs.Vec.{vec_capacity};
ghost use Rattle.jfs_disk.specs.Image.{zeros, page_of, ArePages};
ghost use Rattle.jfs_disk.specs.Pages.{contents};

use crate::disk::{Disk, DiskError};
use crate::page::{Page, copy_page};
use std::alloc::{AllocError, Global};

/// A disk in memory whose calls never fail. It keeps each write at once, and tells no crash images.
#[derive(Drop)]
pub struct SureDisk {
    pages: Vec<Page>,
    count: u32,
    room: u32,
    ghost reserved: { room ≤ vec_capacity pages },
    ghost whole: { ArePages count (contents pages.items) },
}

impl SureDisk {
    /// A disk of so many pages of zeros. It takes their memory.
    pub fn new(alloc: Global, pages: u32) -> Result<SureDisk, AllocError>
        ensures pages { IfOk result (λ disk. ⟦<SureDisk as Disk>⟧.page_count disk ≡ pages) }
        ensures zeros { IfOk result (λ disk. ⟦<SureDisk as Disk>⟧.image disk ≡ zeros pages) }
    {
        Ok(SureDisk {
            pages: pages_of_zeros(alloc, pages)?,
            count: pages,
            room: 0,
        })
    }
}

fn pages_of_zeros(alloc: Global, count: u32) -> Result<Vec<Page>, AllocError>
    ensures { IfOk result (λ pages. contents pages.items ≡ zeros count) }
{
    let mut pages: Vec<Page> = Vec::new(alloc);
    for _ in 0..count {
        pages.push(Page::zeros())?;
    }
    Ok(pages)
}

impl Disk for SureDisk {
    ghost page_count = { λ disk. disk.count };

    ghost fault_count = { λ _. 0 };

    ghost room = { λ disk. disk.room };

    ghost tells = { Unit {0} };

    ghost image = { λ disk. contents disk.pages.items };

    ghost tells_crashes = { ⊥ };

    ghost past = { λ _. [] };

    fn pages(&self) -> u32 {
        self.count
    }

    /// It never answers `Memory` either.
    fn read(&mut self, n: u32, into: &mut Page) -> Result<(), DiskError>
        requires { n < ⟦<SureDisk as Disk>⟧.page_count self.old }
        ensures sure { IsOk result }
        ensures bytes { into.new.0 ≡ page_of (⟦<SureDisk as Disk>⟧.image self.old) n }
        ensures same { self.new ≡ self.old }
    {
        copy_page(&self.pages[n as usize], into);
        Ok(())
    }

    fn write(&mut self, n: u32, from: &Page) -> Result<(), DiskError> {
        copy_page(from, &mut self.pages[n as usize]);
        Ok(())
    }

    fn sync(&mut self) -> Result<(), DiskError> {
        Ok(())
    }

    fn faults(&self) -> u64 {
        0
    }

    fn cut(self, at: u32) -> Result<(Self, Self), Self> {
        let SureDisk {
            mut pages,
            count,
            room,
        } = self;
        let Ok(high) = pages.split_off(at as usize) else {
            return Err(SureDisk { pages, count, room });
        };
        let low = SureDisk {
            pages,
            count: at,
            room: room.max(count),
        };
        let high = SureDisk {
            pages: high,
            count: count - at,
            room: 0,
        };
        Ok((low, high))
    }

    fn join(low: Self, high: Self) -> Self {
        let count = low.count + high.count;
        let mut pages = low.pages;
        let mut behind = high.pages;
        match pages.append(&mut behind) {
            Ok(()) => {}
            Err(_) => unreachable!(),
        }
        SureDisk {
            pages,
            count,
            room: low.room,
        }
    }

    ghost has_pages = { λ disk _. disk.whole };

    ghost reads_now = { λ _ tells. absurd tells };

    ghost reads_crash = { λ _ tells. absurd tells };

    ghost has_state = { λ _ tells. absurd tells };
}
