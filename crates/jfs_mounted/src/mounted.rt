//! A mounted volume with its log, or why there is none.

ghost use Rattle.std.specs.Prelude.{◌≡◌};

use jfs_disk::{Disk, Fault};
use jfs_findings::mount_rules::BadMount;
use jfs_logpages::LogSide;
use jfs_volume::Volume;

/// A volume that is mounted: its pages before the log, and its log. Both halves are of one mount.
#[derive(Drop)]
pub struct Mounted<D: Disk> {
    pub volume: Volume<D>,
    pub log: LogSide<D>,
}

/// Why a volume was not mounted.
#[derive(Clone, Copy, PartialEq, Eq, Debug)]
pub enum MountError {
    /// A rule of a mount is broken, the first one. Nothing was written.
    BadImage(BadMount),
    /// A call on the disk failed, or on one of its parts.
    Disk(Fault),
    /// Memory ran out.
    Memory,
}

/// A disk on which no volume was mounted; it is handed back in one piece.
#[derive(Drop)]
pub struct MountRefused<D> {
    pub disk: D,
    pub why: MountError,
}
