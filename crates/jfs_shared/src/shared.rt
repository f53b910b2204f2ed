//! A mounted volume that many clients share.

ghost use Rattle.std.specs.Prelude.{◌≡◌};

use crate::point_group::PointGroup;
use crate::recorded::Recorded;
use jfs_disk::{Disk, Fault};
use jfs_turns::Stands;
use jfs_volume_calls::volume::Volume;

/// A mounted volume, and what its clients' calls need beside it.
#[derive(Drop)]
pub struct SharedVolume<D: Disk> {
    pub(crate) volume: Volume<D>,
    /// The SYNCPT that its syncpoints write.
    pub(crate) point: PointGroup,
    /// How many syncpoints it has made, beside the mount's, and one more where the log has halted it.
    pub(crate) points: u64,
    /// Whether memory ran out for a call: no call is done any more. The volume is still a consistent one, and has the tree of the last entry while it runs.
    pub(crate) is_broken_off: bool,
}

impl<D: Disk> Stands<Recorded> for SharedVolume<D> {
    ghost use Rattle.jfs_shared.specs.Shared.{standing};

    ghost stands = { standing D.Disk };

    ghost count = { λ v. v.points };

    fn syncpoints(&self) -> u64 {
        self.points
    }
}

impl<D: Disk> SharedVolume<D> {
    /// The fault that halted the volume.
    pub fn halted(&self) -> Option<Fault>
        ensures { result ≡ self.now.volume.halted }
    {
        self.volume.halted()
    }

    /// Whether the history broke off, since memory ran out for a call.
    pub fn is_broken_off(&self) -> bool
        ensures { result ≡ self.now.is_broken_off }
    {
        self.is_broken_off
    }

    /// The volume, with the entries that weren't handed out.
    pub fn into_volume(self) -> Volume<D>
        ensures { result ≡ self.volume }
    {
        let SharedVolume { volume, .. } = self;
        volume
    }
}
