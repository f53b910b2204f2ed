//! A write that is made stable.

ghost use Rattle.std.specs.Prelude.{◌≡◌, ◌≢◌, ◌<◌, [], ◌∷◌, ◌++◌, OnOk, set};
ghost use Rattle.jfs_disk.specs.Image.{Image};
ghost use Rattle.jfs_disk.specs.Crash.{last_of, written, settled, IsCrashImage, AllSince, TearsPage};
ghost use Rattle.jfs_disk.specs.Moment.{now_of, IsResting};
ghost use Rattle.jfs_disk.specs.Fault.{HasCause};

use crate::disk::{Disk, DiskError};
use crate::page::Page;

/// Writes page `n` and syncs. It never answers `Memory`.
pub fn write_stable<D: Disk>(disk: &mut D, n: u32, page: &Page) -> Result<(), DiskError>
    requires { n < D.page_count disk.old }
    ensures pages { D.page_count disk.new ≡ D.page_count disk.old }
    ensures room { D.room disk.new ≡ D.room disk.old }
    ensures image { OnOk result (D.tells → D.image disk.new ≡ set (D.image disk.old) n page.now.0) }

    // If nothing was pending, a crash at any moment since the start leaves the old image with that page torn.
    ensures any_moment { D.tells → D.tells_crashes → IsResting (last_of (D.past disk.old))
        → AllSince (λ left. TearsPage n page.now.0 (D.image disk.old) left) (D.past disk.new) (now_of (D.past disk.old)) }

    // After it, a crash leaves the new image alone.
    ensures stable { OnOk result (D.tells → D.tells_crashes
        → (left : Image) → IsCrashImage (last_of (D.past disk.new)) left → left ≡ set (D.image disk.old) n page.now.0) }

    // Nothing is pending then, so that a further call may begin. The past goes on by these two states.
    ensures resting { OnOk result (D.tells_crashes → IsResting (last_of (D.past disk.new))) }
    ensures past { OnOk result (D.tells_crashes → D.past disk.new
        ≡ (D.past disk.old ++ written n page.now.0 (last_of (D.past disk.old)) ∷ [])
        ++ settled (written n page.now.0 (last_of (D.past disk.old))) ∷ []) }

    ensures cause { HasCause (D.fault_count disk.old) (D.fault_count disk.new) result }
    ensures no_memory { result ≢ Err DiskError.Memory }
{
    let _bytes = page.bytes();
    disk.write(n, page)?;
    disk.sync()?;
    Ok(())
}
