//! How often inodes are named.

ghost use Rattle.std.specs.Prelude.{◌≡◌, ◌<◌, ◌≤◌, ◌↔◌, ◌==◌, if◌then◌else◌, ℕ, length, replicate, IfOk, IsTrue};
ghost use Rattle.jfs_object_check.specs.objects.specs.Owners.{sum_below};
ghost use Rattle.jfs_link_check.specs.Counts.{CountsBelow, CountsAll, NamesPast, AddsNames, count_of, namer_of};
ghost use Rattle.jfs_link_check.specs.Judged.{IsPlacedBy};

use std::alloc::{AllocError, Global};
use std::marker::Model;

/// For each inode the number of names that lead to it, and the directory that named it last: 12 bytes an inode.
#[derive(Drop)]
pub(crate) struct NameCounts {
    counts: Vec<u64>,
    namers: Vec<u32>,
}

impl Model for NameCounts {
    ghost use Rattle.std.specs.Prelude.{◌≡◌, length};
    ghost use Rattle.jfs_link_check.specs.Counts.{CountedNames};

    ghost Value = { CountedNames };

    ghost view = { λ c. record { counts = c.counts.items; namers = c.namers.items } };

    ghost invariant = { λ c. length c.namers.items ≡ length c.counts.items };
}

impl NameCounts {
    /// Counts of so many inodes, before any name was counted. `Err` is want of memory.
    pub(crate) fn new(alloc: Global, most: usize) -> Result<NameCounts, AllocError>
        ensures { IfOk result (λ c. (names : ℕ → ℕ → ℕ) → CountsBelow most names 0 c) }
    {
        let counts = zeros(alloc, most)?;
        let namers = vec![in alloc; 0; most]?;
        Ok(NameCounts { counts, namers })
    }

    /// Counts a name of directory `dir` that leads to inode `n`. One that leads past the last inode counts for none.
    pub(crate) fn add(&mut self, dir: u32, n: usize)
        ensures { AddsNames dir (λ k. if n == k then 1 else 0) self.old self.new }
    {
        if n < self.counts.len() {
            self.counts[n] = self.counts[n].saturating_add(1);
            self.namers[n] = dir;
        }
    }

    /// How many inodes are counted for.
    pub(crate) fn len(&self) -> usize
        ensures { result ≡ length self.now.counts }
    {
        self.counts.len()
    }

    /// How many names lead to inode `n`, up to the last `u64` value.
    fn count(&self, n: usize) -> u64
        requires { n < length self.now.counts }
        ensures { result ≡ count_of self.now n }
    {
        self.counts[n]
    }

    /// The directory that named inode `n` last.
    fn namer(&self, n: usize) -> u32
        requires { n < length self.now.counts }
        ensures { result ≡ namer_of self.now n }
    {
        self.namers[n]
    }

    #[tactic(auto, using(crate::proofs::Named::links_told, crate::proofs::Named::told_links))]
    /// Whether the names that lead to inode `n` are as many as its link count says.
    pub(crate) fn has_links(&self, n: usize, links: u32) -> bool
        requires { n < length self.now.counts }
        ensures { (names : ℕ → ℕ → ℕ) → CountsAll names self.now → (IsTrue result ↔ (sum_below (length self.now.counts) (λ dir. names dir n) ≡ links)) }
    {
        self.counts[n] == u64::from(links)
    }

    #[tactic(auto, using(crate::proofs::Named::once_by, crate::proofs::Named::by_once))]
    /// Whether one name leads to inode `n`, and its parent has it.
    fn is_named_once_by(&self, n: usize, parent: u32) -> bool
        requires { n < length self.now.counts }
        ensures { (names : ℕ → ℕ → ℕ) → CountsAll names self.now → NamesPast (length self.now.counts) names n →
            (IsTrue result ↔ ((sum_below (length self.now.counts) (λ dir. names dir n) ≡ 1) × (names parent n ≡ 1))) }
    {
        self.count(n) == 1 && self.namer(n) == parent
    }

    /// Whether directory `n` with this parent has its one name there. The root has none, and is its own parent.
    pub(crate) fn is_placed(&self, n: usize, parent: u32) -> bool
        requires { n < length self.now.counts }
        ensures { (names : ℕ → ℕ → ℕ) → CountsAll names self.now → NamesPast (length self.now.counts) names n →
            (IsTrue result ↔ IsPlacedBy names (length self.now.counts) n parent) }
    {
        if n == 2 {
            parent == 2 && self.has_links(n, 0)
        } else {
            self.is_named_once_by(n, parent)
        }
    }
}

fn zeros(alloc: Global, len: usize) -> Result<Vec<u64>, AllocError>
    ensures { IfOk result (λ v. v.items ≡ replicate len 0) }
{
    vec![in alloc; 0; len]
}
