//! A disk that counts how often each of its pages is read.

use jfs_disk::{Disk, DiskError, Page};
use std::alloc::{AllocError, Global};

/// Another disk, and for each of its pages how often it was read.
#[derive(Drop)]
pub struct CountedDisk<D: Disk> {
    disk: D,
    reads: Vec<u32>,
}

impl<D: Disk + Drop> CountedDisk<D> {
    /// No page was read yet. `Err` is want of memory.
    pub fn new(alloc: Global, disk: D) -> Result<CountedDisk<D>, AllocError> {
        let reads = vec![in alloc; 0; disk.pages() as usize]?;
        Ok(CountedDisk { disk, reads })
    }

    /// How often the page was read that was read most often.
    pub fn most(&self) -> u32 {
        let mut most: u32 = 0;
        for count in self.reads.iter() {
            most = most.max(*count);
        }
        most
    }

    /// How often page `n` was read.
    pub fn reads_of(&self, n: usize) -> u32 {
        if n < self.reads.len() {
            self.reads[n]
        } else {
            0
        }
    }
}

impl<D: Disk> Disk for CountedDisk<D> {
    ghost page_count = { λ counted. D.page_count counted.disk };

    ghost fault_count = { λ counted. D.fault_count counted.disk };

    ghost tells = { D.tells };

    ghost image = { λ counted. D.image counted.disk };

    ghost tells_crashes = { D.tells_crashes };

    ghost past = { λ counted. D.past counted.disk };

    ghost room = { λ counted. D.room counted.disk };

    fn pages(&self) -> u32 {
        self.disk.pages()
    }

    fn read(&mut self, n: u32, into: &mut Page) -> Result<(), DiskError> {
        let at = n as usize;
        if at < self.reads.len() {
            self.reads[at] = self.reads[at].saturating_add(1);
        }
        self.disk.read(n, into)
    }

    fn write(&mut self, n: u32, from: &Page) -> Result<(), DiskError> {
        self.disk.write(n, from)
    }

    fn sync(&mut self) -> Result<(), DiskError> {
        self.disk.sync()
    }

    fn faults(&self) -> u64 {
        self.disk.faults()
    }

    fn cut(self, _at: u32) -> Result<(Self, Self), Self> {
        Err(self)
    }

    fn join(low: Self, high: Self) -> Self {
        let CountedDisk { disk, reads } = low;
        let CountedDisk {
            disk: behind,
            reads: _,
        } = high;
        CountedDisk {
            disk: D::join(disk, behind),
            reads,
        }
    }

    ghost has_pages = { λ counted tells. D.has_pages counted.disk tells };

    ghost reads_now = { λ counted tells. D.reads_now counted.disk tells };

    ghost reads_crash = { λ counted tells. D.reads_crash counted.disk tells };

    ghost has_state = { λ counted tells. D.has_state counted.disk tells };
}
