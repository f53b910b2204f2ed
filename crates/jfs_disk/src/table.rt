//! The places of the pages of a disk in memory.

ghost use Rattle.std.specs.Prelude.{◌≡◌, ◌<◌, ◌≤◌, ◌+◌, ◌^◌, ◌++◌, length, replicate, take, drop, OnOk, OnErr, IfOk, None, vec_len};
ghost use Rattle.std.specs.Vec.{vec_capacity};
ghost use Rattle.jfs_disk.specs.Choice.{choice_of};
ghost use Rattle.jfs_disk.specs.Slot.{history_in};
ghost use Rattle.jfs_disk.specs.Table.{page_in};
ghost use Rattle.jfs_disk.specs.Put.{page_after};
ghost use Rattle.jfs_disk.specs.Settled.{settled_by, AreSettled};

use crate::choice::{Choice, find_choice};
use crate::page::{Page, copy_page};
use crate::slot::PageSlot;
use std::alloc::{AllocError, Global};

/// Adds so many places without a slot. It takes no memory.
pub fn lengthen(slots: &mut Vec<Option<Box<PageSlot>>>, more: usize)
    requires { vec_len slots.old + more ≤ vec_capacity slots.old }
    ensures items { slots.new.items ≡ slots.old.items ++ replicate more None }
    ensures capacity { vec_capacity slots.old ≤ vec_capacity slots.new }
{
    for _ in 0..more {
        let _ = slots.push(None);
    }
}

/// Hands out the places from one on, and keeps those before it, with memory for so many.
pub fn split(
    slots: &mut Vec<Option<Box<PageSlot>>>,
    keep: usize,
    room: usize,
) -> Result<Vec<Option<Box<PageSlot>>>, AllocError>
    requires there { keep ≤ vec_len slots.old }
    requires room { vec_len slots.old ≤ room }
    ensures kept { OnOk result (slots.new.items ≡ take keep slots.old.items) }
    ensures tail { IfOk result (λ tail. tail.items ≡ drop keep slots.old.items) }
    ensures room { OnOk result (room ≤ vec_capacity slots.new) }
    ensures err { OnErr result (slots.new.items ≡ slots.old.items) }
    ensures capacity { vec_capacity slots.old ≤ vec_capacity slots.new }
{
    slots.reserve(room - slots.len())?;
    slots.split_off(keep)
}

/// Puts places behind these. It takes no memory.
pub fn append(slots: &mut Vec<Option<Box<PageSlot>>>, behind: Vec<Option<Box<PageSlot>>>)
    requires { vec_len slots.old + vec_len behind ≤ vec_capacity slots.old }
    ensures items { slots.new.items ≡ slots.old.items ++ behind.items }
    ensures capacity { vec_capacity slots.old ≤ vec_capacity slots.new }
{
    let mut behind = behind;
    match slots.append(&mut behind) {
        Ok(()) => {}
        Err(_) => unreachable!(),
    }
}

/// What a read of a page gives.
pub fn read_place(place: &Option<Box<PageSlot>>, into: &mut Page)
    ensures { into.new.0 ≡ (page_in place.now).seen }
{
    match place {
        Some(slot) => copy_page(slot.seen(), into),
        None => *into = Page::zeros(),
    }
}

/// A write of a page. One that fails is pending, and leaves the page as it was.
pub fn write_place(
    place: &mut Option<Box<PageSlot>>,
    alloc: Global,
    from: &Page,
    fails: bool,
) -> Result<(), AllocError>
    ensures ok { OnOk result (page_in place.new ≡ page_after fails from.now.0 (page_in place.old)) }
    ensures err { OnErr result (page_in place.new ≡ page_in place.old) }
{
    match place {
        Some(slot) => write_slot(slot, from, fails),
        None => {
            let mut slot = PageSlot::new(alloc, &Page::zeros())?;
            write_slot(&mut slot, from, fails)?;
            *place = Some(Box::new(alloc, slot)?);
            Ok(())
        }
    }
}

fn write_slot(slot: &mut PageSlot, from: &Page, fails: bool) -> Result<(), AllocError>
    ensures ok { OnOk result (history_in slot.new ≡ page_after fails from.now.0 (history_in slot.old)) }
    ensures err { OnErr result (history_in slot.new ≡ history_in slot.old) }
{
    if fails {
        return slot.fail(from, 0);
    }
    slot.write(from)
}

/// Each page is what a crash leaves of it by its first choice, with nothing pending.
pub fn settle_all(slots: &mut Vec<Option<Box<PageSlot>>>, choices: &[Choice])
    requires { length slots.old.items < 2 ^ 32 }
    ensures settled { AreSettled choices.now (length slots.old.items) slots.old.items slots.new.items }
    ensures capacity { vec_capacity slots.new ≡ vec_capacity slots.old }
{
    for n in 0..slots.len() {
        settle_place(&mut slots[n], find_choice(choices, n as u32));
    }
}

fn settle_place(place: &mut Option<Box<PageSlot>>, choice: Option<Choice>)
    ensures { page_in place.new ≡ settled_by choice (page_in place.old) }
{
    match place {
        Some(slot) => match choice {
            Some(_) => slot.crash(choice),
            None => slot.settle(),
        },
        None => {}
    }
}
