//! A volume whose entries are taken into groups.

use crate::recorded::Recorded;
use crate::shared::SharedVolume;
use jfs_disk::{Disk, Fault};
use jfs_groups::Collected;
use jfs_logpages::GroupText;

impl<D: Disk> Collected<Recorded> for SharedVolume<D> {
    fn take_group(&mut self) -> GroupText {
        self.volume.take_group()
    }

    fn told(&mut self, n: u64) {
        self.volume.told(n);
    }

    fn halt(&mut self, fault: Fault) {
        self.halt_for_log(fault);
    }
}
