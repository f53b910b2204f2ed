//! A set of numbers whose lowest member is found without looking at all of them.

ghost use Rattle.std.specs.Prelude.{◌≡◌, ◌⊎◌, ◌+◌, ◌*◌, ◌^◌, ◌<◌, ◌≤◌, true, false, length, get_or, set, drop, replicate, ℕ, IfOk};
ghost use Rattle.jfs_bits.specs.Bits.{any_below};
ghost use Rattle.jfs_imap.specs.Summary.{AreJoined, IsTree, IsFirstMarked};

use std::alloc::{AllocError, Global};
use std::marker::Model;

/// A set of the numbers below `2^height`, as a tree of bits: node 1 is the root, the children of node `i` are `2 * i` and
/// `2 * i + 1`, the leaves stand for the numbers, and a node is set where a leaf below it is.
#[derive(Drop)]
pub struct Summary {
    height: u32,
    /// `2^height`, the number of leaves and the first leaf.
    leaves: u32,
    nodes: Vec<bool>,
}

impl Model for Summary {
    ghost use Rattle.std.specs.Prelude.{Bool, List, drop};
    ghost use Rattle.jfs_imap.specs.Summary.{IsTree};

    ghost Value = { List Bool };

    ghost view = { λ s. drop s.leaves s.nodes.items };

    ghost invariant = { λ s. IsTree s.height s.leaves s.nodes.items };
}

impl Summary {
    /// The empty set of the numbers below `2^height`.
    pub fn new(alloc: Global, height: u32) -> Result<Summary, AllocError>
        requires least { 7 ≤ height }
        requires most { height ≤ 23 }
        ensures { IfOk result (λ s. s ≡ replicate (2 ^ height) false) }
    {
        let leaves = 1u32 << height;
        Ok(Summary {
            height,
            leaves,
            nodes: vec![in alloc; false; 2 * leaves as usize]?,
        })
    }

    /// Puts a number into the set or takes it out. Visits the nodes above the number.
    pub fn set(&mut self, i: u32, marked: bool)
        requires { i < length self.old }
        ensures { self.new ≡ set self.old i marked }
    {
        mark(self.nodes.as_mut_slice(), self.leaves, i, marked);
    }

    /// The lowest number of the set, `None` exactly where it is empty. Visits a node on each level.
    pub fn first(&self) -> Option<u32>
        ensures { IsFirstMarked self.now result }
    {
        let nodes = self.nodes.as_slice();
        if !nodes[1] {
            return None;
        }
        Some(first_leaf(nodes, self.height, self.leaves) - self.leaves)
    }

    /// Whether one of the 128 numbers from `128 * k` on is in the set.
    pub fn has_any(&self, k: u32) -> bool
        requires { 128 * k + 128 ≤ length self.now }
        ensures { result ≡ any_below 128 (λ e. get_or self.now (128 * k + e) false) }
    {
        let nodes = self.nodes.as_slice();
        nodes[(self.leaves / 128 + k) as usize]
    }
}

/// Marks leaf `i`, and the nodes above it by their children.
fn mark(nodes: &mut [bool], leaves: u32, i: u32, marked: bool)
    requires tree { AreJoined leaves nodes.old }
    requires small { leaves ≤ 2 ^ 23 }
    requires within { i < leaves }
    ensures tree { AreJoined leaves nodes.new }
    ensures marks { drop leaves nodes.new ≡ set (drop leaves nodes.old) i marked }
{
    let mut node = leaves + i;
    nodes[node as usize] = marked;
    while node > 1 {
        node /= 2;
        let left = 2 * node as usize;
        nodes[node as usize] = nodes[left] | nodes[left + 1];
    }
}

/// The left child of a node that is set where that one is set, else the right one.
fn child_of(nodes: &[bool], leaves: u32, node: u32) -> u32
    requires tree { AreJoined leaves nodes.now }
    requires small { leaves ≤ 2 ^ 23 }
    requires inner { (0 < node) × (node < leaves) }
    requires marked { get_or nodes.now node false ≡ true }
    ensures marked { get_or nodes.now result false ≡ true }
    ensures which { (result ≡ 2 * node) ⊎ ((result ≡ 2 * node + 1) × (get_or nodes.now (2 * node) false ≡ false)) }
{
    if nodes[2 * node as usize] {
        2 * node
    } else {
        2 * node + 1
    }
}

/// The first leaf that is set, of a tree whose root is.
fn first_leaf(nodes: &[bool], height: u32, leaves: u32) -> u32
    requires tree { IsTree height leaves nodes.now }
    requires marked { get_or nodes.now 1 false ≡ true }
    ensures within { (leaves ≤ result) × (result < 2 * leaves) }
    ensures marked { get_or nodes.now result false ≡ true }
    ensures first { (leaf : ℕ) → leaves ≤ leaf → leaf < result → get_or nodes.now leaf false ≡ false }
{
    let mut node = 1;
    for _level in 0..height {
        node = child_of(nodes, leaves, node);
    }
    node
}
