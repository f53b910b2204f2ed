//! Which entries are told durable, and whether each line has its own.

ghost use Rattle.std.specs.Prelude.{◌≡◌, ◌≤◌, ◌+◌, ◌++◌, ◌&&◌, nat_le, true, length, vec_len, vec_capacity};
ghost use Rattle.jfs_run.specs.Telling.{mark_of, left_by, marks_of, told_from, marks_in, left_at, marks_left, AreAsMany};

use jfs_plain::{Entry, Line};

/// The greatest number of clients.
const MOST_CLIENTS: usize = 16;

/// Whether each script's client has as many entries, each with its mark, as the script has lines.
pub fn are_whole(scripts: &[Vec<Line>], marks: &[Vec<bool>]) -> bool
    ensures { result ≡ true → AreAsMany scripts.now marks.now }
{
    if scripts.len() != marks.len() {
        return false;
    }
    for i in 0..scripts.len() {
        if scripts[i].len() != marks[i].len() {
            return false;
        }
    }
    true
}

/// Tells the numbers of the entries that had to be made durable, as their clients' marks say, and are: the first `durable` ones are.
pub fn tell(history: &[Entry], marks: &[Vec<bool>], durable: u64, told: &mut Vec<u64>)
    requires clients { length marks.now ≤ 16 }
    requires room { vec_len told.old + marks_left (marks_in marks.now) ≤ vec_capacity told.old }
    ensures { told.new.items ≡ told.old.items ++ told_from 1 durable (marks_of (marks_in marks.now) history.now) }
{
    let mut next = [0; MOST_CLIENTS];
    let mut number = 0;
    for entry in history {
        number += 1;
        let mark = next_mark(marks, &mut next, entry.client);
        if is_told(mark, number, durable) {
            told.push_reserved(number);
        }
    }
}

/// Whether an entry is told: it had to be made durable, and is.
fn is_told(mark: bool, number: u64, durable: u64) -> bool
    ensures { result ≡ (mark && nat_le number durable) }
{
    mark && number <= durable
}

/// The next mark of a client, where there is one. `next` has the place of each client's.
fn next_mark(marks: &[Vec<bool>], next: &mut [usize; MOST_CLIENTS], client: u32) -> bool
    requires { length marks.now ≤ 16 }
    ensures mark { result ≡ mark_of 1 client (left_at next.old marks.now) }
    ensures left { left_at next.new marks.now ≡ left_by 1 client (left_at next.old marks.now) }
{
    if client == 0 || client as usize > marks.len() {
        return false;
    }
    let at = client as usize - 1;
    let waits = &marks[at];
    let place = next[at];
    if place >= waits.len() {
        return false;
    }
    next[at] = place + 1;
    waits[place]
}
