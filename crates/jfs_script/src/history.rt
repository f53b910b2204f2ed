//! The text of a history.

ghost use Rattle.std.specs.Prelude.{◌≡◌, ◌++◌, length, OnOk};
ghost use Rattle.std.specs.Fmt.{decimal};
ghost use Rattle.jfs_script.specs.History.{IsRisingFrom, history_text, done_text, after};

use crate::print::{push_decimal, write_entry};
use jfs_plain::Entry;
use std::alloc::{AllocError, Global};

/// Writes a line for each entry of a history, numbered from 1; `told` has the numbers of those whose clients were told that they are durable, which rise.
pub fn write_history(
    alloc: Global,
    history: &[Entry],
    told: &[u64],
    into: &mut Vec<u8>,
) -> Result<(), AllocError>
    requires { IsRisingFrom 1 told.now }
    ensures { OnOk result (into.new.items ≡ into.old.items ++ history_text 1 told.now history.now) }
{
    let mut rest = told;
    let mut number = 0;
    for entry in history {
        number += 1;
        let later = after(rest, number);
        write_entry(alloc, entry, number, later.len() < rest.len(), into)?;
        rest = later;
    }
    Ok(())
}

// What follows this number in a list, where it stands first; else the list.
fn after(told: &[u64], number: u64) -> &[u64]
    ensures { result.now ≡ after told.now number }
{
    match told {
        [first, rest @ ..] if *first == number => rest,
        _ => told,
    }
}

/// Writes the last line of a run that did all of its work: how many entries there are, and how many of them were told durable.
pub fn write_done(
    alloc: Global,
    entries: usize,
    durable: usize,
    into: &mut Vec<u8>,
) -> Result<(), AllocError>
    ensures { OnOk result (into.new.items ≡ into.old.items ++ done_text entries durable) }
{
    into.extend_from_slice(b"done ")?;
    push_decimal(alloc, into, entries as u64)?;
    into.extend_from_slice(b" entries, ")?;
    push_decimal(alloc, into, durable as u64)?;
    into.extend_from_slice(b" durable\n")
}
