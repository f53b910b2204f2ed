//! Groups of 1,024 blocks that all have two owners: a count passes over them, so that runs that name the same blocks over and over cost little.

ghost use Rattle.std.specs.Prelude.{◌≡◌, ◌+◌, ◌*◌, ◌%◌, ◌<◌, ◌≤◌, length, ℕ, List, true, IsTrue};
ghost use Rattle.jfs_bits.specs.Bits.{is_taken};
ghost use Rattle.jfs_owners.specs.Passed.{AreShared, AreGroups, PassesShared};

use jfs_bits::get_u32;

#[tactic(auto, using(crate::proofs::Passes::shared_on, crate::proofs::Passes::none_shared, crate::proofs::Passes::ends_set, crate::proofs::Passes::passes_set, crate::proofs::Passes::shared_most))]
/// The first group from `group` on that isn't passed over. On its way it halves what the next search passes.
pub(crate) fn first_open(later: &mut [u32], group: u32) -> u32
    requires within { group ≤ length later.old }
    requires fits { length later.old < 4294967296 }
    requires ends { AreGroups later.old }
    ensures size { length later.new ≡ length later.old }
    ensures from { group ≤ result }
    ensures most { result ≤ length later.old }
    ensures ends { AreGroups later.new }
    ensures passed { (shared : List ℕ) → PassesShared shared later.old → AreShared shared group result }
    ensures passes { (shared : List ℕ) → PassesShared shared later.old → PassesShared shared later.new }
{
    let mut at = group as usize;
    while at < later.len() {
        let next = later[at] as usize;
        if next <= at {
            return at as u32;
        }
        if next < later.len() {
            later[at] = later[next].max(next as u32);
        }
        at = next;
    }
    at as u32
}

#[tactic(auto, using(crate::proofs::Passes::no_word, crate::proofs::Passes::next_word))]
/// Whether all blocks of a group have two owners.
pub(crate) fn is_shared_group(shared: &[u8], group: u32) -> bool
    requires words { length shared.now % 4 ≡ 0 }
    requires within { 128 * group + 128 ≤ length shared.now }
    ensures { IsTrue result → AreShared shared.now group (group + 1) }
{
    for w in 0..32 {
        if get_u32(shared, 128 * group as usize + 4 * w) != 0xffff_ffff {
            return false;
        }
    }
    true
}
