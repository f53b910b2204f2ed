//! The blocks of a volume that have owners.

ghost use Rattle.std.specs.Prelude.{◌≡◌, ◌+◌, ◌*◌, ◌%◌, ◌<◌, ◌≤◌, ◌==◌, nat_lt, not, length, ℕ, IfOk};
ghost use Rattle.jfs_bits.specs.Bits.{is_taken, count_below};
ghost use Rattle.jfs_owners.specs.Counts.{Counts, Adds};
ghost use Rattle.jfs_findings.specs.objects.specs.Owners.{run_has};

use crate::words::{add_run, count_taken};
use jfs_bits::{Pxd, bit};
use std::alloc::{AllocError, Global};
use std::marker::Model;

/// For each block of a volume, whether it has an owner and whether it has two or more: two bits a block. An owner counts once for each place
/// that names the block.
#[derive(Drop)]
pub struct Owners {
    pub(crate) blocks: u32,
    pub(crate) owned: Vec<u8>,
    pub(crate) shared: Vec<u8>,
    /// For each group of 1,024 blocks one up to which all blocks have two owners, if it lies behind it: runs that name the same blocks over and over cost little.
    pub(crate) later: Vec<u32>,
}

impl Model for Owners {
    ghost use Rattle.jfs_owners.specs.Counts.{OwnerSets, AreSized};
    ghost use Rattle.jfs_owners.specs.Passed.{PassesOver};

    ghost Value = { OwnerSets };

    ghost view = { λ o. record { blocks = o.blocks; owned = o.owned.items; shared = o.shared.items } };

    ghost invariant = { λ o. AreSized o.blocks o.owned.items o.shared.items × PassesOver o.blocks o.shared.items o.later.items };
}

impl Owners {
    /// So many blocks, none of which has an owner. `Err` is want of memory.
    pub fn new(alloc: Global, blocks: u32) -> Result<Owners, AllocError>
        ensures blocks { IfOk result (λ o. o.blocks ≡ blocks) }
        ensures counts { IfOk result (λ o. Counts o (λ b. 0)) }
    {
        let size = 4 * blocks.div_ceil(32) as usize;
        let owned = vec![in alloc; 0; size]?;
        let shared = vec![in alloc; 0; size]?;
        let later = vec![in alloc; 0; blocks.div_ceil(1024) as usize]?;
        Ok(Owners {
            blocks,
            owned,
            shared,
            later,
        })
    }

    #[tactic(auto, using(crate::proofs::Counted::adds_run))]
    /// Counts each block of a run once more. The part of the run behind the last block is passed over.
    pub fn add(&mut self, run: Pxd)
        ensures { Adds (run_has run) self.old self.new }
    {
        let blocks = self.blocks;
        let first = run.addr.min(u64::from(blocks)) as u32;
        let end = first + run.len.min(blocks - first);
        add_run(
            self.owned.as_mut_slice(),
            self.shared.as_mut_slice(),
            self.later.as_mut_slice(),
            first,
            end,
        );
    }

    /// The number of blocks.
    pub fn blocks(&self) -> u32
        ensures { result ≡ self.now.blocks }
    {
        self.blocks
    }

    /// Whether block `b` has an owner.
    pub fn is_owned(&self, b: u32) -> bool
        requires { b < self.now.blocks }
        ensures counts { (count : ℕ → ℕ) → Counts self.now count → result ≡ nat_lt 0 (count b) }
        ensures plain { result ≡ is_taken self.now.owned b }
    {
        bit(self.owned.as_slice(), b)
    }

    /// Whether block `b` has two owners or more.
    pub fn is_shared(&self, b: u32) -> bool
        requires { b < self.now.blocks }
        ensures counts { (count : ℕ → ℕ) → Counts self.now count → result ≡ nat_lt 1 (count b) }
        ensures plain { result ≡ is_taken self.now.shared b }
    {
        bit(self.shared.as_slice(), b)
    }

    /// How many blocks have no owner.
    pub fn free(&self) -> u32
        ensures counts { (count : ℕ → ℕ) → Counts self.now count → result ≡ count_below self.now.blocks (λ b. count b == 0) }
        ensures plain { result ≡ count_below self.now.blocks (λ b. not (is_taken self.now.owned b)) }
    {
        let blocks = self.blocks;
        blocks - count_taken(self.owned.as_slice(), blocks)
    }

    /// The blocks with owners: a bit for each block, in words as in the block map.
    pub fn as_set(&self) -> &[u8]
        ensures set { result.now ≡ self.now.owned }
        ensures size { self.now.blocks ≤ 8 * length result.now }
        ensures words { length result.now % 4 ≡ 0 }
    {
        self.owned.as_slice()
    }
}
