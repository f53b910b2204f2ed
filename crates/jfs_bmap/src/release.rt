//! Blocks are released by entries, and are free once these are durable.

ghost use Rattle.std.specs.Prelude.{◌≡◌, ◌<◌, ◌≤◌, ◌∷◌, [], max, length, OnOk, OnErr};
ghost use Rattle.jfs_bmap.specs.States.{released, blocks_settled};

use crate::block_map::BlockMap;
use crate::disown::disown;
use crate::entries::make_pieces;
use crate::freed::clip;
use crate::settle::free_told;
use jfs_bits::{Pxd, PxdList};
use std::alloc::AllocError;
use std::cmp::Reverse;

impl BlockMap {
    /// Makes the number of runs that can be released without memory at least `n`. `Err` is want of memory; the number stays then.
    pub fn make_room(&mut self, n: u32) -> Result<(), AllocError>
        ensures ok { OnOk result (self.new ≡ record self.old { spare = max self.old.spare n }) }
        ensures err { OnErr result (self.new ≡ self.old) }
    {
        if n > self.spare {
            make_pieces(&mut self.entries, self.alloc, self.owned.blocks())?;
            self.freed.reserve(n as usize)?;
            self.spare = n;
        }
        Ok(())
    }

    /// Takes the owners of the blocks of these runs, for an entry; they are busy until it is durable. A block without an owner when
    /// it is met is passed over. Takes no memory.
    pub fn release(&mut self, list: &PxdList, entry: u64)
        requires { length list.now ≤ self.old.spare }
        ensures { self.new ≡ released list.now entry self.old }
    {
        for i in 0..list.len() {
            if let Some(run) = list.get(i) {
                self.release_run(run, entry);
            }
        }
    }

    /// Takes the owners of the blocks of one run in the same way.
    fn release_run(&mut self, run: &Pxd, entry: u64)
        requires { 0 < self.old.spare }
        ensures { self.new ≡ released (run.now ∷ []) entry self.old }
    {
        let part = clip(run, self.owned.blocks(), entry);
        let entries = self.entries.as_mut_slice();
        disown(&mut self.owned, &mut self.held, entries, part);
        self.spare -= 1;
        match self.freed.push(Reverse(part)) {
            Ok(()) => {}
            Err(_) => unreachable!(),
        }
    }

    /// Frees the blocks that entries up to and with `told` released: in the time of the runs of these entries and the logarithm of
    /// all. Takes no memory.
    pub fn settle(&mut self, told: u64)
        ensures { self.new ≡ blocks_settled told self.old }
    {
        let entries = self.entries.as_slice();
        free_told(&mut self.freed, entries, told, &self.held, &mut self.used);
    }
}
