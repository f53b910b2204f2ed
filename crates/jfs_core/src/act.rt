//! What a step does.

ghost use Rattle.std.specs.Prelude.{◌≡◌, ◌<◌, ◌≤◌, ◌^◌, if◌then◌else◌, length, map, OnOk, OnErr, Some, None, is_some};
ghost use Rattle.jfs_core.specs.Core.{block_of};
ghost use Rattle.jfs_core.specs.Step.{IsAllowed, does, marked, dirtied, synced, halted_by};
ghost use Rattle.jfs_ranges.specs.Apply.{touches_tx};
ghost use Rattle.jfs_disk.specs.declared.disk.Fault.{Fault};

use crate::block::Slot;
use crate::copy::copy_tx;
use crate::entry::Entry;
use crate::state::CoreState;
use crate::step::{FaultOf, Step};
use jfs_disk::{Fault, Page};
use jfs_ranges::{Tx, touches};
use std::alloc::{AllocError, Global};

impl CoreState {
    /// Takes a step that is allowed. At `Err` the state is as it was.
    pub(crate) fn take_step(&mut self, alloc: Global, step: &Step) -> Result<(), AllocError>
        requires { IsAllowed self.old step.now }
        ensures ok { OnOk result (self.new ≡ does self.old step.now) }
        ensures err { OnErr result (self.new ≡ self.old) }
    {
        match step {
            Step::Append { tx } => self.append(alloc, tx),
            Step::Take => {
                self.taken = self.history.len() as u64;
                self.points_taken = self.syncpoints.len() as u64;
                self.grouped = true;
                Ok(())
            }
            Step::GroupWrite => {
                self.durable = self.taken;
                self.points_stable = self.points_taken;
                self.grouped = false;
                Ok(())
            }
            Step::Told => {
                self.told = self.durable;
                Ok(())
            }
            Step::Home { page } => self.send_home(*page),
            Step::LowSync => {
                sync_all(&mut self.slots);
                Ok(())
            }
            Step::SyncPoint { c } => self.add_sync_point(*c),
            Step::Fault { fault, of } => self.fail(*fault, of),
        }
    }

    fn append(&mut self, alloc: Global, tx: &Tx) -> Result<(), AllocError>
        ensures ok { OnOk result (self.new ≡ does self.old (Step.Append tx.now)) }
        ensures err { OnErr result (self.new ≡ self.old) }
    {
        let copy = copy_tx(alloc, tx)?;
        self.history.push(Entry { tx: copy })?;
        let entry = self.history.len() as u64;
        mark_touched(&mut self.slots, tx, entry);
        Ok(())
    }

    fn send_home(&mut self, page: u32) -> Result<(), AllocError>
        requires { page < length self.old.blocks }
        ensures ok { OnOk result (self.new ≡ does self.old (Step.Home page)) }
        ensures err { OnErr result (self.new ≡ self.old) }
    {
        let bytes = self.told_page(page);
        self.slots[page as usize].send_home(&bytes)?;
        Ok(())
    }

    fn add_sync_point(&mut self, c: u64) -> Result<(), AllocError>
        requires { c ≤ self.old.told }
        ensures ok { OnOk result (self.new ≡ does self.old (Step.SyncPoint c)) }
        ensures err { OnErr result (self.new ≡ self.old) }
    {
        self.syncpoints.push(c)?;
        Ok(())
    }

    fn fail(&mut self, fault: Fault, of: &FaultOf) -> Result<(), AllocError>
        requires { IsAllowed self.old (Step.Fault fault of.now) }
        ensures ok { OnOk result (self.new ≡ does self.old (Step.Fault fault of.now)) }
        ensures err { OnErr result (self.new ≡ self.old) }
    {
        match of {
            FaultOf::Read => {}
            FaultOf::LowSync => self.low_halted = halted_by(fault, self.low_halted),
            FaultOf::GroupWrite => self.log_halted = halted_by(fault, self.log_halted),
            FaultOf::LowWrite {
                page,
                bytes,
                sectors,
            } => {
                self.slots[*page as usize].fail(bytes, *sectors as usize)?;
                self.low_halted = halted_by(fault, self.low_halted);
            }
        }
        Ok(())
    }
}

/// A part keeps the first fault that halted it.
fn halted_by(fault: Fault, first: Option<Fault>) -> Option<Fault>
    ensures { result ≡ halted_by fault first }
{
    match first {
        Some(first) => Some(first),
        None => Some(fault),
    }
}

fn sync_all(slots: &mut [Slot])
    ensures { slots.new ≡ map synced slots.old }
{
    for slot in slots.iter_mut() {
        slot.sync();
    }
}

fn mark_touched(slots: &mut [Slot], tx: &Tx, entry: u64)
    requires { length slots.old < 2 ^ 32 }
    ensures { slots.new ≡ marked (λ p. touches_tx p tx.now) entry 0 slots.old }
{
    for p in 0..slots.len() {
        let touched = touches(tx, p as u32);
        mark_if(&mut slots[p], touched, entry);
    }
}

fn mark_if(slot: &mut Slot, touched: bool, entry: u64)
    ensures { slot.new ≡ (if touched then dirtied entry slot.old else slot.old) }
{
    if touched {
        slot.mark(entry);
    }
}
