//! The top call.

ghost use Rattle.std.specs.Prelude.{◌≡◌, ◌≤◌, true, false, length};
ghost use Rattle.jfs_command.specs.Words.{texts, command_of, scripts_asked, has_clients};
ghost use Rattle.jfs_command.specs.Status.{status_of};
ghost use Rattle.jfs_command.specs.Print.{Concludes};
ghost use Rattle.jfs_command.specs.Top.{IsAnswered, IsComplete, LeavesRest};

use crate::outcome::{End, Outcome};
use crate::perform::{Performed, perform_alone, perform_with_clients};
use crate::print::conclude;
use crate::status::Status;
use crate::words::{has_clients, read_words};
use jfs_bits::Moment;
use jfs_disk::Disk;
use jfs_io::{Gate, Sink, Source};
use jfs_plain::Entry;
use std::alloc::Global;
use std::sync::Wait;
use std::thread::Threads;

/// What the top call hands back: of a command with clients also their calls in order, and the numbers of those that were
/// told durable, counted from 1.
#[derive(Drop)]
pub struct Ended<D> {
    pub status: Status,
    pub disk: D,
    pub history: Vec<Entry>,
    pub told: Vec<u64>,
}

/// Does what the words ask for, on this disk, and prints its text. `words` leaves out the program's own name; there is
/// one source for each script that the words name. It may wait, for commands with clients alone: all others are those of `jfs_without_clients`.
pub fn jfs_top<R: Threads + Wait + Sync, D: Disk + Send, S: Source, K: Sink, G: Gate + Sync>(
    rt: &R,
    alloc: Global,
    words: &[Vec<u8>],
    now: Moment,
    disk: D,
    scripts: &mut Vec<S>,
    out: &mut K,
    gate: &G,
) -> Ended<D>
    requires { length scripts.old.items ≡ length (scripts_asked (command_of (texts words.now))) }

    // The status has its cause, and its text was printed.
    ensures answer { IsAnswered D.Disk S.Source K.Sink (command_of (texts words.now)) now
        (record { disk = disk; scripts = scripts.old.items; out = out.old })
        (record { disk = result.disk; scripts = scripts.new.items; out = out.new })
        result.status result.history.items result.told.items }
    ensures complete { IsComplete D.Disk S.Source K.Sink (command_of (texts words.now)) now
        (record { disk = disk; scripts = scripts.old.items; out = out.old })
        (record { disk = result.disk; scripts = scripts.new.items; out = out.new })
        result.status }
    ensures rest { LeavesRest D.Disk S.Source K.Sink (command_of (texts words.now))
        (record { disk = disk; scripts = scripts.old.items; out = out.old })
        (record { disk = result.disk; scripts = scripts.new.items; out = out.new }) }
{
    if has_clients(words) {
        return answer_with_clients(rt, alloc, words, now, disk, scripts, out, gate);
    }
    jfs_without_clients(alloc, words, now, disk, scripts, out)
}

/// The same for words that ask for no command with clients, without a handle: it waits for nobody, and returns. `has_clients` says of words which of both they are.
pub fn jfs_without_clients<D: Disk, S: Source, K: Sink>(
    alloc: Global,
    words: &[Vec<u8>],
    now: Moment,
    disk: D,
    scripts: &mut Vec<S>,
    out: &mut K,
) -> Ended<D>
    requires sources { length scripts.old.items ≡ length (scripts_asked (command_of (texts words.now))) }
    requires alone { has_clients (command_of (texts words.now)) ≡ false }
    ensures answer { IsAnswered D.Disk S.Source K.Sink (command_of (texts words.now)) now
        (record { disk = disk; scripts = scripts.old.items; out = out.old })
        (record { disk = result.disk; scripts = scripts.new.items; out = out.new })
        result.status result.history.items result.told.items }
    ensures complete { IsComplete D.Disk S.Source K.Sink (command_of (texts words.now)) now
        (record { disk = disk; scripts = scripts.old.items; out = out.old })
        (record { disk = result.disk; scripts = scripts.new.items; out = out.new })
        result.status }
    ensures rest { LeavesRest D.Disk S.Source K.Sink (command_of (texts words.now))
        (record { disk = disk; scripts = scripts.old.items; out = out.old })
        (record { disk = result.disk; scripts = scripts.new.items; out = out.new }) }
{
    answer_alone(alloc, words, now, disk, scripts, out)
}

// The answer to words that ask for no command with clients.
fn answer_alone<D: Disk, S: Source, K: Sink>(
    alloc: Global,
    words: &[Vec<u8>],
    now: Moment,
    disk: D,
    scripts: &mut Vec<S>,
    out: &mut K,
) -> Ended<D>
    requires sources { length scripts.old.items ≡ length (scripts_asked (command_of (texts words.now))) }
    requires alone { has_clients (command_of (texts words.now)) ≡ false }
    ensures answer { IsAnswered D.Disk S.Source K.Sink (command_of (texts words.now)) now
        (record { disk = disk; scripts = scripts.old.items; out = out.old })
        (record { disk = result.disk; scripts = scripts.new.items; out = out.new })
        result.status result.history.items result.told.items }
    ensures rest { LeavesRest D.Disk S.Source K.Sink (command_of (texts words.now))
        (record { disk = disk; scripts = scripts.old.items; out = out.old })
        (record { disk = result.disk; scripts = scripts.new.items; out = out.new }) }
{
    match read_words(words) {
        Ok(command) => conclude_with(alloc, perform_alone(alloc, command.job, now, disk), out),
        Err(usage) => {
            let refused = End::Own(Status::Usage { word: usage.word });
            conclude_with(alloc, Performed::idle(alloc, refused, disk), out)
        }
    }
}

// The answer to words that ask for a command with clients.
fn answer_with_clients<
    R: Threads + Wait + Sync,
    D: Disk + Send,
    S: Source,
    K: Sink,
    G: Gate + Sync,
>(
    rt: &R,
    alloc: Global,
    words: &[Vec<u8>],
    now: Moment,
    disk: D,
    scripts: &mut Vec<S>,
    out: &mut K,
    gate: &G,
) -> Ended<D>
    requires sources { length scripts.old.items ≡ length (scripts_asked (command_of (texts words.now))) }
    requires clients { has_clients (command_of (texts words.now)) ≡ true }
    ensures answer { IsAnswered D.Disk S.Source K.Sink (command_of (texts words.now)) now
        (record { disk = disk; scripts = scripts.old.items; out = out.old })
        (record { disk = result.disk; scripts = scripts.new.items; out = out.new })
        result.status result.history.items result.told.items }
    ensures rest { LeavesRest D.Disk S.Source K.Sink (command_of (texts words.now))
        (record { disk = disk; scripts = scripts.old.items; out = out.old })
        (record { disk = result.disk; scripts = scripts.new.items; out = out.new }) }
{
    match read_words(words) {
        Ok(command) => {
            let performed = perform_with_clients(rt, alloc, command, now, disk, scripts, gate);
            conclude_with(alloc, performed, out)
        }
        Err(_) => unreachable!(),
    }
}

// Prints the text of what was done, and the line of its status.
fn conclude_with<D, K: Sink>(alloc: Global, performed: Performed<D>, out: &mut K) -> Ended<D>
    ensures text { Concludes K.tells (K.taken out.old) (K.taken out.new)
        (record { before = K.fault_count out.old; now = K.fault_count out.new }) performed.outcome.text.items (status_of performed.outcome.end) result.status }
    ensures later { K.fault_count out.old ≤ K.fault_count out.new }
    ensures disk { result.disk ≡ performed.disk }
    ensures history { result.history.items ≡ performed.outcome.history.items }
    ensures told { result.told.items ≡ performed.outcome.told.items }
{
    let Performed { outcome, disk } = performed;
    let Outcome {
        end,
        text,
        history,
        told,
    } = outcome;
    let status = conclude(alloc, out, end.status(), &text);
    Ended {
        status,
        disk,
        history,
        told,
    }
}
