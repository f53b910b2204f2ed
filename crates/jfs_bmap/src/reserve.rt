//! Blocks are reserved, get owners, or are given back.

ghost use Rattle.std.specs.Prelude.{◌≡◌, ◌<◌, ◌≤◌, ◌+◌, ◌-◌, ◌∷◌, ◌++◌, [], true, length, ℕ, OnOk, OnErr, IfNone, IfOk, IfSome};
ghost use Rattle.std.specs.List.{All};
ghost use Rattle.jfs_bits.specs.declared.descriptor.Pxd.{Pxd};
ghost use Rattle.jfs_bits.specs.Bits.{is_free};
ghost use Rattle.jfs_bmap.specs.Set.{IsLowest};
ghost use Rattle.jfs_bmap.specs.States.{Reserved, Owned, Free, is_used, is_in_list, state_of, free_count, total_of, put_state, AreApart, AreReserved, IsReservedRun};
ghost use Rattle.jfs_bmap.specs.Choice.{IsReservation, IsNextRun};
ghost use Rattle.jfs_bmap.specs.Refusal.{AnswersBySpace};

use crate::block_map::BlockMap;
use jfs_bits::{Pxd, PxdList};
use std::alloc::{AllocError, Global};

/// So many blocks are free, fewer than were wanted.
#[derive(Clone, Copy, PartialEq, Eq, Debug)]
pub struct NoSpace {
    pub free: u32,
}

/// Why no blocks were reserved.
#[derive(Clone, Copy, PartialEq, Eq, Debug)]
pub enum ReserveError {
    /// Fewer blocks are free than were wanted.
    NoSpace(NoSpace),
    /// Memory ran out.
    Memory,
}

impl BlockMap {
    /// Reserves `n` free blocks: from `hint` on while they are free; then, for what is left, the lowest free aligned run of the least
    /// power of two that is at least as many, else of half that, and so on. Refused where fewer are free, or for want of memory; nothing
    /// is changed then.
    pub fn reserve(&mut self, alloc: Global, hint: u32, n: u32) -> Result<PxdList, ReserveError>
        ensures chosen { IfOk result (λ list. IsReservation (is_used self.old) hint n list) }
        ensures total { IfOk result (λ list. total_of list ≡ n) }
        ensures free { IfOk result (λ list. (b : ℕ) → is_in_list list b ≡ true → state_of self.old b ≡ Free) }
        ensures once { IfOk result AreApart }
        ensures within { IfOk result (All (λ run. run.addr + run.len ≤ length self.old.states)) }
        ensures reserved { IfOk result (λ list. self.new ≡ put_state Reserved list self.old) }
        ensures held { IfOk result (AreReserved self.new) }
        ensures refused { AnswersBySpace self.old n result }
        ensures unchanged { OnErr result (self.new ≡ self.old) }
    {
        let free = self.free();
        if free < n {
            return Err(ReserveError::NoSpace(NoSpace { free }));
        }
        let mut list = PxdList::new(alloc);
        match self.reserve_runs(hint, n, &mut list) {
            Ok(()) => Ok(list),
            Err(_) => {
                self.give_back(&list);
                Err(ReserveError::Memory)
            }
        }
    }

    /// Reserves the runs of a reservation, where enough blocks are free, and adds them to an empty list. At `Err` the list has those
    /// that are reserved.
    fn reserve_runs(&mut self, hint: u32, n: u32, list: &mut PxdList) -> Result<(), AllocError>
        requires empty { list.old ≡ [] }
        requires enough { n ≤ free_count self.old }
        ensures chosen { OnOk result (IsReservation (is_used self.old) hint n list.new) }
        ensures free { (b : ℕ) → is_in_list list.new b ≡ true → state_of self.old b ≡ Free }
        ensures once { AreApart list.new }
        ensures reserved { self.new ≡ put_state Reserved list.new self.old }
    {
        let front = self.used.free_front(hint, n);
        if front > 0 {
            self.reserve_run(hint, front, list)?;
        }
        let mut left = n - front;
        while left > 0 {
            let run = self.next_run(left);
            self.reserve_run(run.addr as u32, run.len, list)?;
            left -= run.len;
        }
        Ok(())
    }

    /// The next run, where so many blocks are left and at least as many are free.
    pub(crate) fn next_run(&self, left: u32) -> Pxd
        requires some { 0 < left }
        requires enough { left ≤ free_count self.now }
        ensures { IsNextRun (is_used self.now) left result }
    {
        let used = &self.used;
        let greatest = left.next_power_of_two().ilog2();
        for below in 0..greatest + 1 {
            let l2 = greatest - below;
            if let Some(first) = used.find(l2) {
                return Pxd {
                    len: left.min(1 << l2),
                    addr: u64::from(first),
                };
            }
        }
        unreachable!()
    }

    /// Reserves a free run and adds it to a list; at `Err` nothing is changed.
    pub(crate) fn reserve_run(
        &mut self,
        first: u32,
        n: u32,
        list: &mut PxdList,
    ) -> Result<(), AllocError>
        requires within { first + n ≤ length self.old.states }
        requires free { is_free (is_used self.old) first n ≡ true }
        ensures list { OnOk result (list.new ≡ list.old ++ record { len = n; addr = first } ∷ []) }
        ensures reserved { OnOk result (self.new ≡ put_state Reserved (record { len = n; addr = first } ∷ []) self.old) }
        ensures list_stays { OnErr result (list.new ≡ list.old) }
        ensures unchanged { OnErr result (self.new ≡ self.old) }
    {
        list.push(Pxd {
            len: n,
            addr: u64::from(first),
        })?;
        self.hold(first, n);
        Ok(())
    }

    /// Reserves a free run.
    fn hold(&mut self, first: u32, n: u32)
        requires within { first + n ≤ length self.old.states }
        requires free { is_free (is_used self.old) first n ≡ true }
        ensures { self.new ≡ put_state Reserved (record { len = n; addr = first } ∷ []) self.old }
    {
        self.held.mark(first, n);
        self.used.mark(first, n);
    }

    /// Reserves the lowest aligned run of four free blocks; None, and nothing changed, exactly where there is none.
    pub fn run_of_four(&mut self) -> Option<Pxd>
        ensures none { IfNone result (IsLowest (is_used self.old) 2 None) }
        ensures lowest { IfSome result (λ run. IsLowest (is_used self.old) 2 (Some run.addr)) }
        ensures four { IfSome result (λ run. run.len ≡ 4) }
        ensures within { IfSome result (λ run. run.addr + run.len ≤ length self.old.states) }
        ensures reserved { IfSome result (λ run. self.new ≡ put_state Reserved (run ∷ []) self.old) }
        ensures held { IfSome result (IsReservedRun self.new) }
        ensures unchanged { IfNone result (self.new ≡ self.old) }
    {
        let first = self.used.find(2)?;
        self.hold(first, 4);
        Some(Pxd {
            len: 4,
            addr: u64::from(first),
        })
    }

    /// Gives the reserved blocks of these runs owners, as an append does. Takes no memory.
    pub fn own(&mut self, list: &PxdList)
        requires { AreReserved self.old list.now }
        ensures { self.new ≡ put_state Owned list.now self.old }
    {
        for i in 0..list.len() {
            if let Some(run) = list.get(i) {
                self.own_run(run);
            }
        }
    }

    /// Gives the reserved blocks of one run owners.
    pub fn own_run(&mut self, run: &Pxd)
        requires { IsReservedRun self.old run.now }
        ensures { self.new ≡ put_state Owned (run.now ∷ []) self.old }
    {
        // A run without a block may begin past the end.
        if run.len > 0 {
            self.owned.mark(run.addr as u32, run.len);
        }
    }

    /// Gives back the reserved blocks of these runs, which no entry took. Takes no memory.
    pub fn give_back(&mut self, list: &PxdList)
        requires { AreReserved self.old list.now }
        ensures { self.new ≡ put_state Free list.now self.old }
    {
        for i in 0..list.len() {
            if let Some(run) = list.get(i) {
                self.give_back_run(run);
            }
        }
    }

    /// Gives back the reserved blocks of one run.
    pub fn give_back_run(&mut self, run: &Pxd)
        requires { IsReservedRun self.old run.now }
        ensures { self.new ≡ put_state Free (run.now ∷ []) self.old }
    {
        // A run without a block may begin past the end.
        if run.len > 0 {
            self.held.clear(run.addr as u32, run.len);
            self.used.clear(run.addr as u32, run.len);
        }
    }
}
