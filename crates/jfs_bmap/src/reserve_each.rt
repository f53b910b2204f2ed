//! Blocks that are reserved one by one.

ghost use Rattle.std.specs.Prelude.{◌≡◌, ◌≤◌, ◌+◌, [], true, length, ℕ, OnOk, OnErr, IfOk};
ghost use Rattle.std.specs.List.{All};
ghost use Rattle.jfs_bmap.specs.States.{Reserved, Free, is_used, is_in_list, state_of, free_count, total_of, put_state, AreApart, AreReserved};
ghost use Rattle.jfs_bmap.specs.Choice.{AreLowestBlocks};
ghost use Rattle.jfs_bmap.specs.Refusal.{AnswersBySpace};

use crate::block_map::BlockMap;
use crate::reserve::{NoSpace, ReserveError};
use jfs_bits::PxdList;
use std::alloc::{AllocError, Global};

impl BlockMap {
    /// Reserves `n` free blocks one by one, each the lowest one that is free; a run of the list is one block. Refused where fewer are free, or for
    /// want of memory; nothing is changed then.
    pub fn reserve_each(&mut self, alloc: Global, n: u32) -> Result<PxdList, ReserveError>
        ensures chosen { IfOk result (AreLowestBlocks (is_used self.old)) }
        ensures number { IfOk result (λ list. length list ≡ n) }
        ensures total { IfOk result (λ list. total_of list ≡ n) }
        ensures free { IfOk result (λ list. (b : ℕ) → is_in_list list b ≡ true → state_of self.old b ≡ Free) }
        ensures once { IfOk result AreApart }
        ensures within { IfOk result (All (λ run. run.addr + run.len ≤ length self.old.states)) }
        ensures reserved { IfOk result (λ list. self.new ≡ put_state Reserved list self.old) }
        ensures held { IfOk result (AreReserved self.new) }
        ensures refused { AnswersBySpace self.old n result }
        ensures unchanged { OnErr result (self.new ≡ self.old) }
    {
        let free = self.free();
        if free < n {
            return Err(ReserveError::NoSpace(NoSpace { free }));
        }
        let mut list = PxdList::new(alloc);
        match self.reserve_blocks(n, &mut list) {
            Ok(()) => Ok(list),
            Err(_) => {
                self.give_back(&list);
                Err(ReserveError::Memory)
            }
        }
    }

    /// Reserves so many blocks one by one, where enough are free, and adds them to an empty list. At `Err` the list has those that are reserved.
    fn reserve_blocks(&mut self, n: u32, list: &mut PxdList) -> Result<(), AllocError>
        requires empty { list.old ≡ [] }
        requires enough { n ≤ free_count self.old }
        ensures chosen { OnOk result (AreLowestBlocks (is_used self.old) list.new) }
        ensures number { OnOk result (length list.new ≡ n) }
        ensures free { (b : ℕ) → is_in_list list.new b ≡ true → state_of self.old b ≡ Free }
        ensures once { AreApart list.new }
        ensures reserved { self.new ≡ put_state Reserved list.new self.old }
    {
        let _blocks = self.blocks();
        let mut left = n;
        while left > 0 {
            let block = self.next_run(1);
            self.reserve_run(block.addr as u32, block.len, list)?;
            left -= 1;
        }
        Ok(())
    }
}
