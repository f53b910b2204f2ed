//! One page of a new volume is written.

ghost use Rattle.std.specs.Prelude.{◌≡◌, ◌≢◌, ◌<◌, OnOk};
ghost use Rattle.jfs_disk.specs.Image.{page_of};
ghost use Rattle.jfs_disk.specs.Fault.{HasCause};
ghost use Rattle.jfs_format.specs.Wrote.{WroteWithin};

use jfs_disk::{Disk, DiskError, Page};

/// Writes page `n`. It never answers `Memory`.
pub fn put<D: Disk>(disk: &mut D, n: u32, page: &Page) -> Result<(), DiskError>
    requires { n < D.page_count disk.old }
    ensures wrote { WroteWithin D.Disk n 1 disk.old disk.new }
    ensures page { OnOk result (D.tells → page_of (D.image disk.new) n ≡ page.now.0) }
    ensures cause { HasCause (D.fault_count disk.old) (D.fault_count disk.new) result }
    ensures no_memory { result ≢ Err DiskError.Memory }
{
    disk.write(n, page)?;
    Ok(())
}
