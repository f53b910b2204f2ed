//! A disk is formatted.

ghost use Rattle.std.specs.Prelude.{◌≡◌, ◌≢◌, ◌<◌, ◌≤◌, ℕ, length, set, OnOk};
ghost use Rattle.jfs_disk.specs.Image.{Image, page_of};
ghost use Rattle.jfs_disk.specs.Crash.{AllSince, TearsPage, last_of};
ghost use Rattle.jfs_disk.specs.Moment.{IsResting, now_of};
ghost use Rattle.jfs_disk.specs.Fault.{HasCause};
ghost use Rattle.jfs_logpages.specs.Fresh.{OthersStay};
ghost use Rattle.jfs_format.specs.Layout.{IsLayout, layout_of};
ghost use Rattle.jfs_super.specs.Super.{super_of};
ghost use Rattle.jfs_format.specs.Superblock.{new_super, super_page};
ghost use Rattle.jfs_format.specs.Volume.{wanted, IsNewVolume, IsUnnamed, IsOnTheWay};
ghost use Rattle.jfs_format.specs.Answer.{IsFormatAnswer};

use crate::areas::write_all_but_super;
use crate::layout::{LEAST_PAGES, Layout, MOST_PAGES};
use crate::superblock::fill_super;
use crate::volume::{NewVolume, label_field};
use jfs_bits::Moment;
use jfs_disk::{Disk, DiskError, Fault, Page, Part};
use uuid::Uuid;

/// Why a disk wasn't formatted.
#[derive(Clone, Copy, PartialEq, Eq, Debug)]
pub enum FormatError {
    /// It has fewer than 4,096 pages or more than 8,388,608: this many. Nothing was done.
    BadSize { pages: u32 },
    /// A write or a sync failed.
    Disk(Fault),
}

/// Writes the superblock to page 8, and makes it stable.
fn write_primary<D: Disk>(disk: &mut D, v: NewVolume) -> Result<(), DiskError>
    requires layout { (pages : ℕ) × IsLayout pages v.layout }
    requires place { 8 < D.page_count disk.old }
    ensures pages { D.page_count disk.new ≡ D.page_count disk.old }
    ensures image { OnOk result (D.tells → D.image disk.new ≡ set (D.image disk.old) 8 (super_page v)) }
    ensures others { D.tells → OthersStay 8 1 (D.image disk.old) (D.image disk.new) }
    ensures reads { OnOk result (super_of (super_page v) ≡ new_super v) }
    ensures stable { OnOk result (D.tells_crashes → IsResting (last_of (D.past disk.new))) }
    // What a crash might have left before was on the way from an image to the volume, and so is each image that has the page torn:
    // then all that a crash leaves at each moment is.
    ensures moments { D.tells → D.tells_crashes → IsResting (last_of (D.past disk.old)) → (begun : Image) (t : ℕ) → t < length (D.past disk.old)
        → AllSince (IsOnTheWay v begun) (D.past disk.old) t → ((left : Image) → TearsPage 8 (super_page v) (D.image disk.old) left → IsOnTheWay v begun left)
        → AllSince (IsOnTheWay v begun) (D.past disk.new) t }
    ensures cause { HasCause (D.fault_count disk.old) (D.fault_count disk.new) result }
    ensures no_memory { result ≢ Err DiskError.Memory }
{
    let mut page = Page::zeros();
    fill_super(&mut page, v);
    let _bytes = page.bytes();
    disk.write(8, &page)?;
    disk.sync()?;
    Ok(())
}

/// Writes a new volume.
fn write_volume<D: Disk>(disk: &mut D, v: NewVolume) -> Result<(), DiskError>
    requires { IsLayout (D.page_count disk.old) v.layout }
    ensures pages { D.page_count disk.new ≡ D.page_count disk.old }
    ensures volume { OnOk result (D.tells → IsNewVolume v (D.image disk.new)) }
    ensures reads { OnOk result (super_of (super_page v) ≡ new_super v) }
    ensures unnamed { D.tells → (n : ℕ) → IsUnnamed v.layout n → page_of (D.image disk.new) n ≡ page_of (D.image disk.old) n }
    ensures stable { OnOk result (D.tells_crashes → IsResting (last_of (D.past disk.new))) }
    ensures moments { D.tells → D.tells_crashes → IsResting (last_of (D.past disk.old)) → AllSince (IsOnTheWay v (D.image disk.old)) (D.past disk.new) (now_of (D.past disk.old)) }
    ensures cause { HasCause (D.fault_count disk.old) (D.fault_count disk.new) result }
    ensures no_memory { result ≢ Err DiskError.Memory }
{
    write_all_but_super(disk, v)?;
    disk.sync()?;
    write_primary(disk, v)?;
    Ok(())
}

/// Writes an empty volume over all pages of a disk, with this label of at most 16 bytes: its clean superblock last, after a sync, and
/// then a sync. It takes no memory, and holds one page at a time. (JFS Layout.)
///
/// # Errors
///
/// The number of pages is outside of the limits, and nothing was done; or the disk failed. Until the superblock is written, page 8
/// is as it was, whatever a crash leaves.
pub fn format<D: Disk>(
    disk: &mut D,
    uuid: Uuid,
    label: &[u8],
    now: Moment,
) -> Result<(), FormatError>
    requires { length label.now ≤ 16 }
    ensures pages { D.page_count disk.new ≡ D.page_count disk.old }
    // Each answer has its cause, of every disk.
    ensures answer { IsFormatAnswer D.Disk disk.old disk.new result }
    ensures later { D.fault_count disk.old ≤ D.fault_count disk.new }
    // At Ok the pages are those of a new volume, and nothing is pending.
    ensures volume { OnOk result (D.tells → IsNewVolume (wanted (D.page_count disk.old) uuid label.now now) (D.image disk.new)) }
    // Page 8 reads as the superblock, with the UUID and the label as given.
    ensures reads { OnOk result (D.tells → super_of (page_of (D.image disk.new) 8) ≡ new_super (wanted (D.page_count disk.old) uuid label.now now)) }
    ensures stable { OnOk result (D.tells_crashes → IsResting (last_of (D.past disk.new))) }
    // Other pages never change.
    ensures unnamed { D.tells → (n : ℕ) → IsUnnamed (layout_of (D.page_count disk.old)) n → page_of (D.image disk.new) n ≡ page_of (D.image disk.old) n }
    // At each moment since the start, whatever a crash leaves, page 8 is as it was or all else is the new volume's.
    ensures moments { D.tells → D.tells_crashes → IsResting (last_of (D.past disk.old))
        → AllSince (IsOnTheWay (wanted (D.page_count disk.old) uuid label.now now) (D.image disk.old)) (D.past disk.new) (now_of (D.past disk.old)) }
{
    let pages = disk.pages();
    if pages < LEAST_PAGES || MOST_PAGES < pages {
        return Err(FormatError::BadSize { pages });
    }
    let v = NewVolume {
        layout: Layout::of(pages),
        uuid: *uuid.as_bytes(),
        label: label_field(label),
        moment: now,
    };
    match write_volume(disk, v) {
        Ok(()) => Ok(()),
        Err(_) => Err(FormatError::Disk(Fault {
            part: Part::Whole,
            count: disk.faults(),
        })),
    }
}
