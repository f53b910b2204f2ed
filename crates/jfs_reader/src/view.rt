//! A disk's pages as a view of them.

ghost use Rattle.std.specs.Prelude.{◌≡◌, ◌<◌, ◌≤◌, ◌⊎◌, ℕ, None, Some, OnOk};
ghost use Rattle.jfs_disk.specs.Image.{page_of};
ghost use Rattle.jfs_ranges.specs.View.{CarriesCount, device_of};
ghost use Rattle.jfs_reader.specs.Whole.{first_pages};
ghost use Rattle.jfs_reader.specs.Borrowed.{borrowed};

use jfs_disk::{Disk, DiskError, Fault, Page, Part};
use jfs_ranges::{PageView, ViewError};

/// The first `blocks` pages of a disk, to be read alone. It keeps the page that it read last, and reads it again only once it has read another.
#[derive(Drop)]
pub struct DiskView<'a, D: Disk> {
    disk: &'a mut D,
    part: Part,
    blocks: u32,
    held: Option<u32>,
    page: Page,
    ghost place: { blocks ≤ D.page_count disk.now },
    ghost same: { D.tells → (n : ℕ) → held ≡ Some n → page.0 ≡ page_of (D.image disk.now) n },
}

impl<'a, D: Disk> DiskView<'a, D> {
    /// A view of the first `blocks` pages of a disk, which is this part of one: its faults name the part. It has read no page yet.
    pub fn new(disk: &'a mut D, part: Part, blocks: u32) -> DiskView<'a, D>
        requires { blocks ≤ D.page_count disk.old }
        ensures loan { result.disk.ghost_name ≡ disk.entry.ghost_name }
        ensures disk { result.disk.now ≡ disk.old }
        ensures part { result.part ≡ part }
        ensures blocks { result.blocks ≡ blocks }
    {
        DiskView {
            disk,
            part,
            blocks,
            held: None,
            page: Page::zeros(),
        }
    }

    /// Page `n` is the one that is kept.
    fn load(&mut self, n: u32) -> Result<(), ViewError>
        requires { n < self.old.blocks }
        ensures held { OnOk result (self.new.held ≡ Some n) }
        ensures blocks { self.new.blocks ≡ self.old.blocks }
        ensures loan { self.new.disk.ghost_name ≡ self.old.disk.ghost_name }
        ensures image { D.tells → D.image self.new.disk.now ≡ D.image self.old.disk.now }
        ensures device { device_of D.Disk self.new.disk.now ≡ device_of D.Disk self.old.disk.now }
        ensures part { self.new.part ≡ self.old.part }
        ensures fault { CarriesCount (record { part = self.old.part; count = D.fault_count self.old.disk.now }) (record { part = self.new.part; count = D.fault_count self.new.disk.now }) result }
    {
        if self.held == Some(n) {
            return Ok(());
        }
        self.held = None;
        match self.disk.read(n, &mut self.page) {
            Ok(()) => {
                self.held = Some(n);
                Ok(())
            }
            Err(DiskError::Failed) => Err(ViewError::Read(Fault {
                part: self.part,
                count: self.disk.faults(),
            })),
            Err(DiskError::Memory) => Err(ViewError::Memory),
        }
    }
}

impl<'a, D: Disk> PageView for DiskView<'a, D> {
    ghost block_count = { λ view. view.blocks };

    ghost faults = { λ view. record { part = view.part; count = D.fault_count view.disk.now } };

    ghost image = { λ view. D.image view.disk.now };

    ghost tells = { D.tells };

    ghost crashes = { Unit {0} ⊎ D.tells_crashes };

    ghost device = { λ view. borrowed D.Disk view.disk.now view.disk.ghost_name };

    fn blocks(&self) -> u32 {
        self.blocks
    }

    fn page(&mut self, n: u32) -> Result<&Page, ViewError> {
        self.load(n)?;
        Ok(&self.page)
    }

    ghost has_pages = { λ view tells. first_pages view.blocks (D.page_count view.disk.now) (D.image view.disk.now) view.place (D.has_pages view.disk.now tells) };
}
