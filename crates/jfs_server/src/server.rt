//! A server begins.

ghost use Rattle.std.specs.Prelude.{◌≡◌, ◌<◌, ◌≤◌, ◌^◌, [], IfOk, IfErr};
ghost use Rattle.jfs_disk.specs.Image.{Image};
ghost use Rattle.jfs_super.specs.Super.{super_of};
ghost use Rattle.jfs_super.specs.declared.fields.Super.{Super};
ghost use Rattle.jfs_shared.specs.legal.specs.served.specs.volume_calls.specs.Together.{log_parts};
ghost use Rattle.jfs_shared.specs.Start.{IsJustMounted, base_at};
ghost use Rattle.jfs_server.specs.Start.{StartsAt, IsStarted};

use crate::served::ServedVolume;
use jfs_disk::Disk;
use jfs_groups::SharedLog;
use jfs_shared::unmount::Mounted;
use jfs_shared::{PointGroup, Recorded, started};
use jfs_turns::{Based, Pass, Turns};
use std::alloc::Global;
use std::marker::Brand;

/// The image that a volume was mounted from, and its superblock. Both are said in proofs alone: a caller of `start_from` gives `Brand`, and picks them in its proof by what it has of the disk.
pub trait MountedFrom {
    ghost block: { Super };

    ghost image: { Image };
}

impl MountedFrom for Brand {
    ghost block = { super_of [] };

    ghost image = { [] };
}

/// What one client of a server calls with.
pub type ServerPass<D> = Pass<ServedVolume<D>, SharedLog<D>, Recorded>;

/// A mounted volume and its log, whose turns its clients' passes take.
pub struct Server<D: Disk> {
    pub(crate) alloc: Global,
    pub(crate) turns: Turns<ServedVolume<D>, SharedLog<D>, Recorded>,
}

impl<D: Disk> Server<D> {
    /// A server of a volume that was just mounted, for so many clients, 1 to 16, and a pass for each, the k-th for client k. `B.base` is what the volume was mounted from.
    ///
    /// # Errors
    ///
    /// Memory ran out, and the volume is handed back.
    pub fn start<B: Based>(
        alloc: Global,
        m: Mounted<D>,
        clients: u32,
    ) -> Result<(Server<D>, Vec<ServerPass<D>>), Mounted<D>>
        requires few { (0 < clients) × (clients ≤ 16) }
        requires fresh { StartsAt D.Disk B.base m }
        ensures ok { IfOk result (λ r. IsStarted D.Disk B.base clients r.0.turns.table.shared.table_id r.1.items) }
        ensures err { IfErr result (λ r. r ≡ m) }
    {
        let Ok(point) = PointGroup::new(alloc) else {
            return Err(m);
        };
        let (shared, log) = started(m, point);
        match Turns::new::<B>(alloc, ServedVolume { shared }, log, clients) {
            Ok((turns, passes)) => Ok((Server { alloc, turns }, passes)),
            Err((volume, log)) => Err(Mounted {
                volume: volume.shared.into_volume(),
                log: log.side,
            }),
        }
    }

    /// The same of a volume that was mounted from `I.image`.
    ///
    /// # Errors
    ///
    /// Memory ran out, and the volume is handed back.
    pub fn start_from<I: MountedFrom>(
        alloc: Global,
        m: Mounted<D>,
        clients: u32,
    ) -> Result<(Server<D>, Vec<ServerPass<D>>), Mounted<D>>
        requires few { (0 < clients) × (clients ≤ 16) }
        requires mounted { IsJustMounted D.tells D.tells_crashes I.block I.image m.volume (log_parts D.Disk m.log) }
        requires faults { (m.volume.faults < 2 ^ 64) × (D.fault_count m.log.part < 2 ^ 64) }
        ensures ok { IfOk result (λ r. IsStarted D.Disk (base_at I.block I.image m.volume (D.page_count m.log.part) (D.fault_count m.log.part)) clients r.0.turns.table.shared.table_id r.1.items) }
        ensures err { IfErr result (λ r. r ≡ m) }
    {
        Server::start::<Brand>(alloc, m, clients)
    }
}
