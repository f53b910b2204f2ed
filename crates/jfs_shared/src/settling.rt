//! Pages that go home, and are synced.

ghost use Rattle.std.specs.Prelude.{◌≡◌, None, OnOk};
ghost use Rattle.jfs_volume_calls.specs.volume.specs.pages.specs.Device.{HasFault};
ghost use Rattle.jfs_volume_calls.specs.volume.specs.Settles.{Settles, StaysShown, HaltsAt};
ghost use Rattle.jfs_volume_calls.specs.Written.{LeavesMaps};
ghost use Rattle.jfs_kept_history.specs.legal.specs.served.specs.unmount.specs.Unmount.{IsAllHome};
ghost use Rattle.jfs_shared.specs.Home.{IsSettled};
ghost use Rattle.jfs_shared.specs.Settled.{KeepsHistory, SettlesHistory};

use jfs_disk::{Disk, Fault};
use jfs_volume_calls::volume::Volume;

/// Writes every dirty page and the pages of each map that has changed to their homes, and syncs these. It takes no memory.
///
/// # Errors
///
/// A write or the sync failed, and the volume halts.
pub(crate) fn settle<D: Disk>(volume: &mut Volume<D>) -> Result<(), Fault>
    requires running { volume.old.halted ≡ None }
    requires told { volume.old.told ≡ volume.old.appended }
    ensures parts { IsSettled volume.old volume.new }
    ensures settles { Settles volume.old volume.new }
    ensures shown { StaysShown D.tells volume.old volume.new }
    ensures leaves { D.tells → LeavesMaps volume.old volume.new }
    ensures history { KeepsHistory D.tells D.tells_crashes volume.old volume.new }
    ensures settled { OnOk result (SettlesHistory D.tells D.tells_crashes volume.old volume.new) }
    ensures home { OnOk result (IsAllHome volume.new) }
    ensures halts { HaltsAt volume.old.halted volume.new.halted result }
    ensures cause { HasFault volume.old.faults volume.new.faults result }
{
    match volume.home_all() {
        Ok(()) => {}
        Err(fault) => return Err(fault),
    }
    match volume.home_maps() {
        Ok(()) => {}
        Err(fault) => return Err(fault),
    }
    volume.sync_low()
}
