//! A server ends.

ghost use Rattle.std.specs.Prelude.{◌≡◌, ◌<◌, ◌≤◌, ◌+◌, ◌*◌, ◌^◌, length, is_some, true, None};
ghost use Rattle.jfs_shared.specs.legal.specs.served.specs.unmount.specs.Unmount.{IsAllHome};
ghost use Rattle.jfs_shared.specs.Both.{AreTogether, Seen, AreOf};
ghost use Rattle.jfs_shared.specs.Settled.{RestsBehind};
ghost use Rattle.jfs_shared.specs.Shared.{standing as shared_standing, log_standing as shared_log_standing};
ghost use Rattle.jfs_turns.specs.Passes.{ArePasses, AtEnd};
ghost use Rattle.jfs_server.specs.Served.{standing, log_standing, client_of};
ghost use Rattle.jfs_server.specs.Stopped.{HaltsAs, IsAtHome, IsStopped, StandsStill, IsLeftFor, IsDurableFor, IsDurableOr};
ghost use Rattle.jfs_server.specs.declared.stopping.Ending.TheVariants.{Home, Left, Full};
ghost use Rattle.jfs_server.specs.declared.stopping.Last.TheVariants.{Syncpoint};

use crate::served::ServedVolume;
use crate::server::{Server, ServerPass};
use jfs_disk::{Disk, Fault};
use jfs_groups::SharedLog;
use jfs_plain::Entry;
use jfs_shared::unmount::Mounted;
use jfs_shared::{SharedVolume, commit_with, has_room_for_point, point_with};
use jfs_volume_calls::volume::Volume;

/// What a server does last, before it hands out its volume.
#[derive(Clone, Copy, PartialEq, Eq, Debug)]
pub enum Last {
    /// Nothing.
    Nothing,
    /// It makes all entries durable.
    Commit,
    /// It makes all entries durable, sends all pages home and syncs them, and logs a SYNCPT, so that the volume may be unmounted.
    Syncpoint,
}

/// What became of a volume's pages when its server ended.
#[derive(Clone, Copy, PartialEq, Eq, Debug)]
pub enum Ending {
    /// They are all home, and the volume runs: it may be unmounted.
    Home,
    /// No syncpoint was asked for, or the volume has halted: pages may be dirty.
    Left,
    /// The log's pages have no more numbers for a SYNCPT: pages may be dirty.
    Full,
}

/// What a server leaves: the volume, still mounted, and the calls of all its clients in the order in which they were done.
#[derive(Drop)]
pub struct Stopped<D: Disk> {
    pub mounted: Mounted<D>,
    pub history: Vec<Entry>,
    /// Whether memory ran out for a call: then the history is over, and no call was done behind it.
    pub is_broken_off: bool,
    pub ending: Ending,
}

impl<D: Disk> Server<D> {
    /// Takes back all the passes, does what is to be done last, and hands out the volume and the whole history. Where the log has halted, so has the volume then. It takes no memory.
    pub fn stop(self, passes: Vec<ServerPass<D>>, last: Last) -> Stopped<D>
        requires passes { ArePasses self.turns.table.shared.table_id (length passes.items) passes.items × (0 < length passes.items) }
        ensures stopped { IsStopped D.Disk last passes.items result }
    {
        let Server { alloc: _, turns } = self;
        let (volume, log) = turns.close(passes);
        hand_out(volume, log, last)
    }
}

/// The volume, and the entries that wait in it to be handed out, behind what is to be done last.
fn hand_out<D: Disk>(volume: ServedVolume<D>, log: SharedLog<D>, last: Last) -> Stopped<D>
    requires end { (passes : _) × AtEnd client_of (standing D.Disk) (log_standing D.Disk) passes volume log }
    ensures stopped { (passes : _) → AtEnd client_of (standing D.Disk) (log_standing D.Disk) passes volume log → IsStopped D.Disk last passes result }
{
    let ServedVolume { shared } = volume;
    let mut shared = shared;
    let mut log = log;
    let ending = do_last(&mut shared, &mut log, last);
    let is_broken_off = shared.is_broken_off();
    let mut volume = shared.into_volume();
    halt_as(&mut volume, log.side.halted());
    let history = volume.take_entries();
    Stopped {
        mounted: Mounted {
            volume,
            log: log.side,
        },
        history,
        is_broken_off,
        ending,
    }
}

/// What is to be done last, where the volume runs.
fn do_last<D: Disk>(shared: &mut SharedVolume<D>, log: &mut SharedLog<D>, last: Last) -> Ending
    requires together { AreTogether (shared_standing D.Disk) (shared_log_standing D.Disk) shared.old log.old }
    ensures list { (n : Seen) → AreOf (shared_standing D.Disk) (shared_log_standing D.Disk) n shared.old log.old → StandsStill D.Disk n shared.new log.new }
    ensures home { result ≡ Home → IsAtHome last shared.new.volume }
    ensures rests { result ≡ Home → RestsBehind D.Disk shared.old log.old shared.new }
    ensures runs { result ≡ Home → log.new.side.halted ≡ None }
    ensures left { result ≡ Left → IsLeftFor last shared.new.volume log.new.side.halted }
    ensures full { result ≡ Full → last ≡ Syncpoint }
    ensures durable { IsDurableFor last shared.new.volume log.new.side.durable log.new.side.halted }
    ensures breaks { shared.new.is_broken_off ≡ shared.old.is_broken_off }
{
    if shared.halted().is_some() || log.side.halted().is_some() {
        return Ending::Left;
    }
    match last {
        Last::Nothing => Ending::Left,
        Last::Commit => {
            commit_last(shared, log);
            Ending::Left
        }
        Last::Syncpoint => {
            if has_room_for_point(shared) {
                point_last(shared, log)
            } else {
                commit_last(shared, log);
                Ending::Full
            }
        }
    }
}

/// Makes all entries durable; where that fails, volume and log halt.
fn commit_last<D: Disk>(shared: &mut SharedVolume<D>, log: &mut SharedLog<D>)
    requires running { log.old.side.halted ≡ None }
    requires together { AreTogether (shared_standing D.Disk) (shared_log_standing D.Disk) shared.old log.old }
    ensures list { (n : Seen) → AreOf (shared_standing D.Disk) (shared_log_standing D.Disk) n shared.old log.old → StandsStill D.Disk n shared.new log.new }
    ensures durable { IsDurableOr shared.new.volume log.new.side.durable log.new.side.halted }
    ensures breaks { shared.new.is_broken_off ≡ shared.old.is_broken_off }
{
    match commit_with(shared, log) {
        Ok(()) => {}
        Err(_) => {}
    }
}

/// Sends all pages home behind a commit, and logs a SYNCPT; where that fails, the volume halts.
fn point_last<D: Disk>(shared: &mut SharedVolume<D>, log: &mut SharedLog<D>) -> Ending
    requires running { (log.old.side.halted ≡ None) × (shared.old.volume.halted ≡ None) }
    requires room { shared.old.volume.text.place + length shared.old.volume.text.bytes + 72 ≤ 4080 * 2 ^ 32 }
    requires together { AreTogether (shared_standing D.Disk) (shared_log_standing D.Disk) shared.old log.old }
    ensures list { (n : Seen) → AreOf (shared_standing D.Disk) (shared_log_standing D.Disk) n shared.old log.old → StandsStill D.Disk n shared.new log.new }
    ensures home { result ≡ Home → IsAllHome shared.new.volume × (shared.new.volume.halted ≡ None) }
    ensures rests { result ≡ Home → RestsBehind D.Disk shared.old log.old shared.new }
    ensures runs { result ≡ Home → log.new.side.halted ≡ None }
    ensures left { (result ≡ Home → ⊥) → (result ≡ Left) × (is_some shared.new.volume.halted ≡ true) }
    ensures durable { IsDurableOr shared.new.volume log.new.side.durable log.new.side.halted }
    ensures breaks { shared.new.is_broken_off ≡ shared.old.is_broken_off }
{
    match point_with(shared, log) {
        Ok(()) => Ending::Home,
        Err(_) => Ending::Left,
    }
}

/// Where the log has halted, so does the volume.
fn halt_as<D: Disk>(volume: &mut Volume<D>, halted: Option<Fault>)
    ensures { HaltsAs halted volume.old volume.new }
{
    match halted {
        Some(fault) => volume.halt(fault),
        None => {}
    }
}
