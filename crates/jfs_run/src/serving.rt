//! The calls of a run, by a server of the mounted volume.

ghost use Rattle.std.specs.Prelude.{◌≡◌, ◌<◌, ◌+◌, ◌^◌, [], false};
ghost use Rattle.jfs_disk.specs.Crash.{last_of, seen_of};
ghost use Rattle.jfs_server.specs.shared.specs.Start.{IsJustMounted};
ghost use Rattle.jfs_server.specs.shared.specs.legal.specs.served.specs.volume_calls.specs.Together.{log_parts};
ghost use Rattle.jfs_run.specs.Ending.{last_for, unbegun};
ghost use Rattle.jfs_run.specs.Mounted.{state};
ghost use Rattle.jfs_run.specs.Serving.{HaveRoom, IsServed};
ghost use Rattle.jfs_run.specs.Tasks.{plan_of, IsPlan};

use crate::clients::{Back, do_scripts};
use crate::telling::are_whole;
use jfs_bits::Moment;
use jfs_disk::Disk;
use jfs_io::Gate;
use jfs_plain::{Entry, Line};
use jfs_server::unmount::Mounted;
use jfs_server::{Ending, Last, MountedFrom, Server, Stopped};
use std::alloc::Global;
use std::sync::Wait;
use std::thread::Threads;

/// A mounted volume behind the calls of a run's clients.
#[derive(Drop)]
pub struct Called<D: Disk> {
    pub mounted: Mounted<D>,
    /// The calls of all clients, in the order in which they were done.
    pub history: Vec<Entry>,
    /// Whether each line has its entry.
    pub is_whole: bool,
    /// Whether memory ran out for one, or for the clients: then the history is over, and no call was done behind it.
    pub is_broken_off: bool,
    /// Whether a client was told that an entry couldn't be made durable.
    pub failed: bool,
    /// What became of the volume's pages.
    pub ending: Ending,
}

/// Does the lines of all scripts at once on a volume that was just mounted, the first script's by client 1 and so on, all at one moment. Of each client `marks` has then whether each of its entries had to be made
/// durable. Behind them all pages go home, unless the volume is to be left. Where memory lacks for the clients, nothing is called.
pub fn serve<I: MountedFrom, D: Disk + Send, G: Gate + Sync, R: Threads + Wait + Sync>(
    rt: &R,
    alloc: Global,
    m: Mounted<D>,
    marks: &mut Vec<Vec<bool>>,
    scripts: &[Vec<Line>],
    now: Moment,
    is_left: bool,
    gate: &G,
) -> Called<D>
    requires plan { IsPlan (plan_of scripts.now) }
    requires mounted { IsJustMounted D.tells D.tells_crashes I.block I.image m.volume (log_parts D.Disk m.log) }
    requires few { m.volume.faults + D.fault_count m.log.part < 2 ^ 64 }
    requires room { HaveRoom scripts.now marks.old.items }
    ensures served { IsServed D.Disk scripts.now now is_left I.image I.block (state D.Disk m.volume m.log) marks.new.items result }
{
    let Ok(room) = Vec::with_capacity(alloc, scripts.len()) else {
        return uncalled(alloc, m, unbegun(is_left));
    };
    match Server::start_from::<I>(alloc, m, scripts.len() as u32) {
        Ok((server, passes)) => {
            let Back { passes, failed } = do_scripts(
                rt, &server, gate, now, passes, marks, room, scripts,
            );
            let Stopped {
                mounted,
                history,
                is_broken_off,
                ending,
            } = server.stop(passes, last_for(is_left, failed));
            Called {
                mounted,
                history,
                is_whole: are_whole(scripts, marks.as_slice()),
                is_broken_off,
                failed,
                ending,
            }
        }
        Err(m) => {
            room.destroy_empty();
            uncalled(alloc, m, unbegun(is_left))
        }
    }
}

/// What a run's server does last. Where the volume is to be left, and a client was told that an entry couldn't be made durable, all entries are made so while the volume runs. That never comes, since such a log halts the volume; but no clause says it.
fn last_for(is_left: bool, failed: bool) -> Last
    ensures { result ≡ last_for is_left failed }
{
    if !is_left {
        Last::Syncpoint
    } else if failed {
        Last::Commit
    } else {
        Last::Nothing
    }
}

/// What became of the pages of a volume that was just mounted: they are all home, unless it is to be left.
fn unbegun(is_left: bool) -> Ending
    ensures { result ≡ unbegun is_left }
{
    if is_left { Ending::Left } else { Ending::Home }
}

/// A volume on which nothing was called, with what became of its pages.
fn uncalled<D: Disk>(alloc: Global, mounted: Mounted<D>, ending: Ending) -> Called<D>
    ensures history { result.history.items ≡ [] }
    ensures whole { result.is_whole ≡ false }
    ensures failed { result.failed ≡ false }
    ensures same { result.mounted ≡ mounted }
    ensures ending { result.ending ≡ ending }
    ensures reads { D.tells_crashes → D.image result.mounted.log.part ≡ seen_of (last_of (D.past result.mounted.log.part)) }
{
    Called {
        mounted,
        history: Vec::new(alloc),
        is_whole: false,
        is_broken_off: true,
        failed: false,
        ending,
    }
}
